//! The packet of a claim, written in place and without taking memory: into bytes of just its
//! length, one channel of a run of frames after the other, wherever the samples come from.
#![tactic(auto)]

mod column;
mod entries;
mod flags;
mod packet;
mod piece;
mod source;

pub use entries::EntryRows;
pub use flags::{Looks, look_at_marked, mark_named};
pub use packet::{packet_len, write_claim, write_packet};
pub use piece::{FrameRows, OneRow, Piece, write_piece};
pub use source::{Block, HeldBlocks, Samples, copy_from_block};

#[cfg(test)]
mod tests;

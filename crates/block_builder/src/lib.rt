//! Packets to blocks: what comes to an input, and the blocks of its ticks.
#![tactic(auto)]

mod arrival;
mod builder;
mod intake;
mod packet;
mod past;
mod run;
mod slot;
mod taken;
mod window;
pub mod yardstick;

pub use arrival::Arrival;
pub use builder::Builder;
pub use run::blocks_of_packets;
pub use taken::{PacketFault, Taken};

/// The samples of a tick, frame by frame and each frame in channel order: signed numbers of 24
/// bits.
pub type Block = io_caps::ListOf<i32>;

/// The blocks of ticks, one after the other, and `None` for a tick of which no frame holds a
/// packet's samples.
pub type Blocks = io_caps::ListOf<Option<Block>>;

#[cfg(test)]
mod tests;

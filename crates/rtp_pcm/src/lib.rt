//! RTP packets and the PCM samples in them, exact: heads of RFC 3550, samples of RFC 3551 (L16) and
//! RFC 3190 (L24).
#![tactic(auto)]

mod packet;
mod pcm;
#[cfg(test)]
mod tests;

pub use packet::{HEAD_LEN, Head, Packet, RtpFault, read_packet, write_head};
pub use pcm::{PartFrame, frames_in, get_sample, put_sample};

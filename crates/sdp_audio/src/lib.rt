//! Session descriptions (SDP, RFC 8866): the one that is written of a device, the streams that one
//! offers, and a device of such streams. It knows streams of L16 and L24 audio over RTP; what else
//! a description says is passed over.
#![tactic(auto)]

mod device;
mod fault;
pub mod laws;
pub mod limits;
mod line;
mod mapping;
mod media;
mod reading;
mod section;
mod stream;
mod writing;

pub use device::device_from;
pub use fault::{MakeFault, SdpFault};
pub use reading::read_sdp;
pub use stream::{Stream, Streams};
pub use writing::write_sdp;

#[cfg(test)]
mod tests;

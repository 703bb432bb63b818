//! What comes to an input.

use io_caps::Bytes;

/// What comes to an input, in order: packets, readings of the clock, and the end.
#[derive(Debug, Drop)]
pub enum Arrival {
    /// The bytes of a packet, which may be none of RTP.
    Packet(Bytes),
    /// A reading of the clock in a tick.
    Mark(u64),
    /// The end of all input.
    End,
}

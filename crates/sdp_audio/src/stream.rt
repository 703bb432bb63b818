//! The streams of a description.

use io_caps::{ListOf, NoMemory, TryCopy, Width};

/// A stream that a description offers.
#[derive(Clone, Copy, Debug, PartialEq, Eq)]
pub struct Stream {
    /// The UDP port to which its packets go.
    pub port: u16,
    /// The RTP payload type, up to 127.
    pub payload_type: u8,
    pub width: Width,
    /// Frames a second.
    pub hz: u32,
    pub channels: u8,
}

impl TryCopy for Stream {
    fn copy(&self) -> Result<Stream, NoMemory> {
        Ok(*self)
    }
}

/// The streams of a description, in the order of its sections.
pub type Streams = ListOf<Stream>;

/// What a payload type stands for.
#[derive(Clone, Copy, Debug, PartialEq, Eq)]
pub struct Format {
    pub(crate) width: Width,
    pub(crate) hz: u32,
    pub(crate) channels: u8,
}

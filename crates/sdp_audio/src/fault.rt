//! Why a text is no description, and why no device is made of streams.

use io_caps::{DeviceFault, NoMemory, TryCopy};
use thiserror::Error;

/// The first fault of a text. Lines are counted from 1, empty ones too. On one line the order is
/// that of the variants.
#[derive(Clone, Copy, Debug, PartialEq, Eq, Error)]
pub enum SdpFault {
    /// The first line that is not empty is not `v=0`, or there is none.
    #[error("the first line is not v=0")]
    Start,
    /// The line of this number does not begin with a lower-case letter and `=`.
    #[error("line {0} does not begin with a lower-case letter and =")]
    Line(u32),
    /// The `m=` line of this number, of audio, has fewer than four words, no port, or a payload
    /// type of RTP that is none.
    #[error("line {0}: the audio has too few words, no port, or a payload type that is none")]
    Media(u32),
    /// The `a=rtpmap:` line of this number gives L16 or L24 a rate or channels that are none.
    #[error("line {0}: the rate or the channels are none")]
    Map(u32),
}

impl TryCopy for SdpFault {
    fn copy(&self) -> Result<SdpFault, NoMemory> {
        Ok(*self)
    }
}

/// Why no device is made of streams, in the order of the tests.
#[derive(Clone, Copy, Debug, PartialEq, Eq, Error)]
pub enum MakeFault {
    /// There is no stream.
    #[error("there is no stream")]
    Empty,
    /// Two streams differ in their rate.
    #[error("two streams have different rates")]
    Rates,
    /// The device breaks a limit.
    #[error("{0}")]
    Device(DeviceFault),
}

impl TryCopy for MakeFault {
    fn copy(&self) -> Result<MakeFault, NoMemory> {
        Ok(*self)
    }
}

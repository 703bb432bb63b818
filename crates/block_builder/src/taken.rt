//! What becomes of a packet.

use rtp_pcm::RtpFault;
use thiserror::Error;

/// What became of a packet: `Misfit` where it does not read, or else the first of `Foreign`,
/// `Misfit`, `Beyond`, `Spent` and `Used` that applies.
#[derive(Clone, Copy, Debug, PartialEq, Eq)]
pub enum Taken {
    /// This many of its frames were stored: at least one.
    Used { frames: u32 },
    /// None of its frames was stored: there is none, or each lies before the session, in a closed
    /// tick, in a frame that holds samples, or past the session's end.
    Spent,
    /// Its first frame lies at or past the session's end.
    Beyond,
    /// Its payload type is not the input's.
    Foreign { payload_type: u8 },
    /// It is no packet of whole frames.
    Misfit(PacketFault),
}

/// Why bytes are no packet of whole frames.
#[derive(Clone, Copy, Debug, PartialEq, Eq, Error)]
pub enum PacketFault {
    /// They are no packet.
    #[error("{0}")]
    Rtp(RtpFault),
    /// The payload ends within a frame.
    #[error("the payload ends within a frame")]
    PartFrame,
}

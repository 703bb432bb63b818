//! The commands.

/// What the program can be told to do.
#[derive(Clone, Copy, Debug, PartialEq, Eq)]
pub enum Command {
    /// Reads a capture, and writes the result of its serial history.
    Serial,
    /// Reads a capture, and writes the session description of its device.
    Sdp,
    /// Reads a session description, and writes a capture of the device of its streams, with this
    /// many frames a tick.
    FromSdp { frames: u16 },
}

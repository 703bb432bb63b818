//! What a worker gathers.

/// A packet, and which of the device's inputs it found: those that a row of its tick names and
/// whose block was there.
#[derive(Clone, Copy, Debug)]
pub struct Gathered<'a> {
    pub packet: &'a [u8],
    pub found: &'a [bool],
}

//! How a stream is sampled.

ghost use Rattle.std.specs.Prelude.{◌≡◌, ◌↔◌, IsTrue};
ghost use Rattle.io_caps.specs.Rate.{IsRate, bytes_per_sample};

use crate::limits::MOST_FRAMES;
use crate::{NoMemory, TryCopy};

/// How many bits a sample of a stream has: 16 (L16, RFC 3551 section 4.5.11) or 24 (L24, RFC 3190
/// section 4).
#[derive(Clone, Copy, Debug, PartialEq, Eq)]
pub enum Width {
    L16,
    L24,
}

impl Width {
    /// The bytes of one sample: 2 or 3.
    pub fn bytes(self) -> usize
        ensures { result ≡ bytes_per_sample self }
    {
        match self {
            Width::L16 => 2,
            Width::L24 => 3,
        }
    }
}

impl TryCopy for Width {
    fn copy(&self) -> Result<Width, NoMemory> {
        Ok(*self)
    }
}

/// Frames a second, and frames a tick (a packet time).
#[derive(Clone, Copy, Debug, PartialEq, Eq)]
pub struct Rate {
    pub hz: u32,
    pub frames: u16,
}

impl Rate {
    /// Whether this is one of the four rates of the product, with 1 to 240 frames a tick.
    pub fn is_valid(self) -> bool
        ensures { IsTrue result ↔ IsRate self }
    {
        (self.hz == 44100 || self.hz == 48000 || self.hz == 96000 || self.hz == 192000)
            && self.frames >= 1
            && self.frames <= MOST_FRAMES
    }
}

impl TryCopy for Rate {
    fn copy(&self) -> Result<Rate, NoMemory> {
        Ok(*self)
    }
}

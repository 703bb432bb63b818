//! The two formats of captures and results.

ghost use Rattle.std.specs.Prelude.{◌≡◌};
ghost use Rattle.capture_file.specs.Formats.{capture_magic, grain_text, result_magic};

use crate::tags;
use io_caps::{NoMemory, TryCopy};
use map_entry::Grain;

/// How captures and results stand in bytes: in the first format, in which changes count from ticks;
/// or in the second, in which they may count from frames.
#[derive(Clone, Copy, Debug, PartialEq, Eq)]
pub enum Format {
    One,
    Two,
}

impl TryCopy for Format {
    fn copy(&self) -> Result<Format, NoMemory> {
        Ok(*self)
    }
}

/// The first bytes of a capture.
pub fn capture_magic(format: Format) -> &'static [u8]
    ensures { result.now ≡ capture_magic format }
{
    match format {
        Format::One => tags::CAPTURE_MAGIC,
        Format::Two => tags::CAPTURE_MAGIC_2,
    }
}

/// The first bytes of a result.
pub fn result_magic(format: Format) -> &'static [u8]
    ensures { result.now ≡ result_magic format }
{
    match format {
        Format::One => tags::RESULT_MAGIC,
        Format::Two => tags::RESULT_MAGIC_2,
    }
}

/// The record of a grain, which stands after the device of a capture of the second format.
pub fn grain_record(grain: Grain) -> [u8; 6]
    ensures { result ≡ grain_text grain }
{
    let body = match grain {
        Grain::Tick => tags::TICK_GRAIN,
        Grain::Frame => tags::FRAME_GRAIN,
    };
    [tags::GRAIN, 0, 0, 0, 1, body]
}

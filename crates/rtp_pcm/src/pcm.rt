//! Samples as the bytes of a payload.

ghost use Rattle.std.specs.Prelude.{◌≡◌, ◌≤◌, ◌*◌, ◌%◌, ◌≢◌, ◌↔◌, IfOk, IsErr, length};
ghost use Rattle.io_caps.specs.Rate.{bytes_per_sample};
ghost use Rattle.rtp_pcm.specs.Pcm.{IsSample, sample_of, bytes_of_sample, kept_sample};

use byteorder::{BigEndian, ByteOrder};
use io_caps::Width;
use thiserror::Error;

/// What a sample of 16 bits is multiplied by inside the device.
const L16_SCALE: i32 = 256;

/// The payload ends within a frame.
#[derive(Clone, Copy, Debug, PartialEq, Eq, Error)]
#[error("the payload ends within a frame")]
pub struct PartFrame;

/// The sample in the bytes of one: 2 bytes of L16 (RFC 3551 section 4.5.11), taken times 256, or 3
/// bytes of L24 (RFC 3190 section 4). The answer is a signed number of 24 bits.
pub fn get_sample(bytes: &[u8], width: Width) -> i32
    requires { length bytes.now ≡ bytes_per_sample width }
    ensures value { result ≡ sample_of width bytes.now }
    ensures range { IsSample result }
    ensures again { bytes_of_sample width result ≡ bytes.now }
{
    match width {
        Width::L16 => i32::from(BigEndian::read_i16(bytes)) * L16_SCALE,
        Width::L24 => BigEndian::read_i24(bytes),
    }
}

/// Puts a sample, a signed number of 24 bits, as its 2 or 3 bytes: whole as L24, and divided by 256
/// and rounded down as L16.
pub fn put_sample(out: &mut [u8], width: Width, value: i32)
    requires room { length out.old ≡ bytes_per_sample width }
    requires sample { IsSample value }
    ensures bytes { out.new ≡ bytes_of_sample width value }
    ensures again { sample_of width out.new ≡ kept_sample width value }
{
    match width {
        Width::L16 => BigEndian::write_i16(out, value.div_euclid(L16_SCALE) as i16),
        Width::L24 => BigEndian::write_i24(out, value),
    }
}

/// How many frames a payload has, of one sample for each channel. Refused exactly where its length
/// is no multiple of the bytes of a frame.
pub fn frames_in(payload: &[u8], channels: u8, width: Width) -> Result<usize, PartFrame>
    requires { 1 ≤ channels }
    ensures whole { IfOk result
        (λ frames. length payload.now ≡ frames * (channels * bytes_per_sample width)) }
    ensures part { IsErr result ↔ (length payload.now % (channels * bytes_per_sample width) ≢ 0) }
{
    let frame_len = usize::from(channels) * width.bytes();
    if payload.len() % frame_len == 0 {
        Ok(payload.len() / frame_len)
    } else {
        Err(PartFrame)
    }
}

//! One channel of a packet.

ghost use Rattle.std.specs.Prelude.{◌≡◌, ◌≢◌, ◌≤◌, ◌<◌, ◌+◌, ◌*◌, ◌%◌, ℕ, ℤ, length, get_or};
ghost use Rattle.io_caps.specs.Rate.{bytes_per_sample};
ghost use Rattle.rtp_pcm.specs.Pcm.{bytes_of_sample};
ghost use Rattle.packet_writer.specs.Slots.{slot};

use byteorder::{BigEndian, ByteOrder};
use io_caps::Width;

/// Puts a sample as its 2 or 3 bytes: the highest ones of the lowest 24 bits.
#[inline(always)]
fn put_bits(out: &mut [u8], width: Width, sample: i32)
    requires { length out.old ≡ bytes_per_sample width }
    ensures { out.new ≡ bytes_of_sample width sample }
{
    let bits = sample.cast_unsigned();
    BigEndian::write_u16(out, (bits / 256 % 65536) as u16);
    match width {
        Width::L16 => {}
        Width::L24 => out[2] = (bits % 256) as u8,
    }
}

/// Puts the samples of a channel into their places of each frame.
#[inline(always)]
fn put_each(out: &mut [u8], width: Width, cells: usize, cell: usize, samples: &[i32])
    requires cell { cell < cells }
    requires room { length out.old ≡ length samples.now * cells * bytes_per_sample width }
    ensures len { length out.new ≡ length out.old }
    ensures put { (f : ℕ) (d : ℤ) → f < length samples.now
        → slot (bytes_per_sample width) (f * cells + cell) out.new
        ≡ bytes_of_sample width (get_or samples.now f d) }
    ensures kept { (p : ℕ) → p % cells ≢ cell
        → slot (bytes_per_sample width) p out.new ≡ slot (bytes_per_sample width) p out.old }
{
    let bytes = width.bytes();
    for frame in 0..samples.len() {
        let place = (frame * cells + cell) * bytes;
        put_bits(&mut out[place..place + bytes], width, samples[frame]);
    }
}

/// Puts the samples of a channel into their places of each frame, and leaves all others.
#[inline(never)]
pub fn put_column(out: &mut [u8], width: Width, cells: usize, cell: usize, samples: &[i32])
    requires cell { cell < cells }
    requires room { length out.old ≡ length samples.now * cells * bytes_per_sample width }
    ensures len { length out.new ≡ length out.old }
    ensures put { (f : ℕ) (d : ℤ) → f < length samples.now
        → slot (bytes_per_sample width) (f * cells + cell) out.new
        ≡ bytes_of_sample width (get_or samples.now f d) }
    ensures kept { (p : ℕ) → p % cells ≢ cell
        → slot (bytes_per_sample width) p out.new ≡ slot (bytes_per_sample width) p out.old }
{
    match width {
        Width::L16 => put_each(out, Width::L16, cells, cell, samples),
        Width::L24 => put_each(out, Width::L24, cells, cell, samples),
    }
}

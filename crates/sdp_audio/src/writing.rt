//! The description of a device.

ghost use Rattle.std.specs.Prelude.{◌≡◌, ◌++◌, ◌<◌, OnOk, OnErr, length};
ghost use Rattle.std.specs.Prelude.{flat_map, decimal};
ghost use Rattle.exact_text.specs.Spellings.{Grows};
ghost use Rattle.io_caps.specs.Rate.{IsRate};
ghost use Rattle.io_caps.specs.declared.limits.TheConstants.{MOST_OUTPUTS};
ghost use Rattle.sdp_audio.specs.Text.{ended, media_line, mapping_line, format_text, name_of};
ghost use Rattle.sdp_audio.specs.Text.{milliseconds, fraction, ptime_line, ptime_lines};
ghost use Rattle.sdp_audio.specs.Text.{output_lines, sdp_text};

use crate::limits::{FIRST_PORT, PORTS_EACH};
use io_caps::{Device, NoMemory, Output, Rate, Width};
use itoa::Buffer;

/// The lines of the session.
const SESSION: &[u8] = b"v=0\r\no=- 0 0 IN IP4 127.0.0.1\r\ns=chanmap\r\n\
    c=IN IP4 127.0.0.1\r\nt=0 0\r\n";

/// Microseconds in a second.
const MICROS: u64 = 1_000_000;

/// The name of a format.
fn name_of(width: Width) -> &'static str
    ensures { result.now ≡ name_of width }
{
    match width {
        Width::L16 => "L16",
        Width::L24 => "L24",
    }
}

/// Appends a number.
fn append_number(number: u64, out: &mut Vec<u8>) -> Result<(), NoMemory>
    ensures ok { OnOk result (out.new.items ≡ out.old.items ++ decimal number) }
    ensures grows { Grows out.old.items out.new.items }
{
    out.extend_from_slice(Buffer::new().format(number).as_bytes())?;
    Ok(())
}

/// Appends `m=audio PORT RTP/AVP TYPE`.
#[tactic(auto, using(crate::proofs::growth, crate::proofs::joined), unfolding(crate::specs::Text::media_line))]
fn append_media(port: u16, payload_type: u8, out: &mut Vec<u8>) -> Result<(), NoMemory>
    ensures ok { OnOk result
        (out.new.items ≡ out.old.items ++ ended (media_line port payload_type)) }
    ensures grows { Grows out.old.items out.new.items }
{
    out.extend_from_slice(b"m=audio ")?;
    append_number(u64::from(port), out)?;
    out.extend_from_slice(b" RTP/AVP ")?;
    append_number(u64::from(payload_type), out)?;
    out.extend_from_slice(b"\r\n")?;
    Ok(())
}

/// Appends `NAME/HZ/CHANNELS`.
#[tactic(auto, using(crate::proofs::growth, crate::proofs::joined), unfolding(crate::specs::Text::format_text))]
fn append_format(hz: u32, output: &Output, out: &mut Vec<u8>) -> Result<(), NoMemory>
    ensures ok { OnOk result (out.new.items
        ≡ out.old.items ++ format_text output.now.width hz (length output.now.labels)) }
    ensures grows { Grows out.old.items out.new.items }
{
    out.extend_from_slice(name_of(output.width).as_bytes())?;
    out.extend_from_slice(b"/")?;
    append_number(u64::from(hz), out)?;
    out.extend_from_slice(b"/")?;
    append_number(output.channels() as u64, out)?;
    Ok(())
}

/// Appends `a=rtpmap:TYPE NAME/HZ/CHANNELS`.
#[tactic(auto, using(crate::proofs::growth, crate::proofs::joined), unfolding(crate::specs::Text::mapping_line))]
fn append_mapping(hz: u32, output: &Output, out: &mut Vec<u8>) -> Result<(), NoMemory>
    ensures ok { OnOk result (out.new.items ≡ out.old.items ++ ended
        (mapping_line output.now.payload_type output.now.width hz (length output.now.labels))) }
    ensures grows { Grows out.old.items out.new.items }
{
    out.extend_from_slice(b"a=rtpmap:")?;
    append_number(u64::from(output.payload_type), out)?;
    out.extend_from_slice(b" ")?;
    append_format(hz, output, out)?;
    out.extend_from_slice(b"\r\n")?;
    Ok(())
}

/// Appends a point and three digits, without zeros at the end.
fn append_fraction(rest: u64, out: &mut Vec<u8>) -> Result<(), NoMemory>
    requires { rest < 1000 }
    ensures ok { OnOk result (out.new.items ≡ out.old.items ++ fraction rest) }
    ensures grows { Grows out.old.items out.new.items }
{
    let mut len = 4;
    if rest % 10 == 0 {
        len = 3;
    }
    if rest % 100 == 0 {
        len = 2;
    }
    if rest == 0 {
        len = 1;
    }
    let text = [
        b'.',
        b'0' + (rest / 100) as u8,
        b'0' + (rest / 10 % 10) as u8,
        b'0' + (rest % 10) as u8,
    ];
    out.extend_from_slice(&text[..len])?;
    Ok(())
}

/// Appends a number of microseconds in milliseconds.
fn append_milliseconds(micros: u64, out: &mut Vec<u8>) -> Result<(), NoMemory>
    ensures ok { OnOk result (out.new.items ≡ out.old.items ++ milliseconds micros) }
    ensures grows { Grows out.old.items out.new.items }
{
    append_number(micros / 1000, out)?;
    if micros % 1000 != 0 {
        append_fraction(micros % 1000, out)?;
    }
    Ok(())
}

/// Appends the line of the packet time, where that is a whole number of microseconds.
#[tactic(auto, using(crate::proofs::growth, crate::proofs::joined), unfolding(crate::specs::Text::ptime_line))]
fn append_ptime(rate: Rate, out: &mut Vec<u8>) -> Result<(), NoMemory>
    requires { IsRate rate }
    ensures ok { OnOk result (out.new.items ≡ out.old.items ++ flat_map ended (ptime_lines rate)) }
    ensures grows { Grows out.old.items out.new.items }
{
    let micros = u64::from(rate.frames) * MICROS;
    let hz = u64::from(rate.hz);
    if micros % hz == 0 {
        out.extend_from_slice(b"a=ptime:")?;
        append_milliseconds(micros / hz, out)?;
        out.extend_from_slice(b"\r\n")?;
    }
    Ok(())
}

/// Appends the section of an output.
#[tactic(auto, using(crate::proofs::growth, crate::proofs::joined))]
fn append_output(
    rate: Rate,
    number: u16,
    output: &Output,
    out: &mut Vec<u8>,
) -> Result<(), NoMemory>
    requires rate { IsRate rate }
    requires number { number < MOST_OUTPUTS }
    ensures ok { OnOk result
        (out.new.items ≡ out.old.items ++ flat_map ended (output_lines rate (number, output.now))) }
    ensures grows { Grows out.old.items out.new.items }
{
    append_media(FIRST_PORT + PORTS_EACH * number, output.payload_type, out)?;
    append_mapping(rate.hz, output, out)?;
    append_ptime(rate, out)?;
    Ok(())
}

/// Appends the whole description.
#[tactic(auto, using(crate::proofs::growth, crate::proofs::joined))]
fn append_sdp(device: &Device, out: &mut Vec<u8>) -> Result<(), NoMemory>
    ensures ok { OnOk result (out.new.items ≡ out.old.items ++ sdp_text device.now) }
    ensures grows { Grows out.old.items out.new.items }
{
    out.extend_from_slice(SESSION)?;
    let rate = device.rate();
    let outputs = device.output_slice();
    let mut number = 0;
    for output in outputs {
        append_output(rate, number, output, out)?;
        number += 1;
    }
    Ok(())
}

/// Appends the description of a device: a session of this host, and a section for each output. If
/// memory runs out, `out` stays as it was.
pub fn write_sdp(device: &Device, out: &mut Vec<u8>) -> Result<(), NoMemory>
    ensures ok { OnOk result (out.new.items ≡ out.old.items ++ sdp_text device.now) }
    ensures err { OnErr result (out.new.items ≡ out.old.items) }
{
    let start = out.len();
    let written = append_sdp(device, out);
    if written.is_err() {
        out.truncate(start);
    }
    written
}

//! The lines that give a payload type its format.

ghost use Rattle.std.specs.Prelude.{◌≡◌, ◌≤◌, IfSome, option_map};
ghost use Rattle.io_caps.specs.declared.limits.TheConstants.{MOST_PAYLOAD_TYPE};
ghost use Rattle.sdp_audio.specs.Media.{width_named, mapping_of, line_mapping, sampling_of, hz_of};
ghost use Rattle.std.specs.Str.{str_eq_ignore_ascii_case};
ghost use Rattle.sdp_audio.specs.Media.{channels_of, is_bad_mapping, line_format};

use crate::line::{after_prefix, cut_at, number_in};
use crate::media::type_of;
use crate::stream::Format;
use io_caps::Width;

/// Whether a name is this one: case does not count.
fn is_named(name: &[u8], other: &[u8]) -> bool
    ensures { result ≡ str_eq_ignore_ascii_case name.now other.now }
{
    name.eq_ignore_ascii_case(other)
}

/// The sample width of a format's name.
fn width_named(name: &[u8]) -> Option<Width>
    ensures { result ≡ width_named name.now }
{
    if is_named(name, b"L16") {
        Some(Width::L16)
    } else if is_named(name, b"L24") {
        Some(Width::L24)
    } else {
        None
    }
}

/// The payload type, the width, and what follows the `/`.
fn mapping_of(value: &[u8]) -> Option<(u8, Width, &[u8])>
    ensures parts { option_map (λ m. (m.0, (m.1, m.2.now))) result ≡ mapping_of value.now }
    ensures low { IfSome result (λ m. m.0 ≤ MOST_PAYLOAD_TYPE) }
{
    let (number, rest) = cut_at(value, b' ')?;
    let payload_type = type_of(number)?;
    let (name, sampling) = cut_at(rest, b'/')?;
    let width = width_named(name)?;
    Some((payload_type, width, sampling))
}

/// The same of a whole line.
fn line_mapping(line: &[u8]) -> Option<(u8, Width, &[u8])>
    ensures parts { option_map (λ m. (m.0, (m.1, m.2.now))) result ≡ line_mapping line.now }
    ensures low { IfSome result (λ m. m.0 ≤ MOST_PAYLOAD_TYPE) }
{
    let value = after_prefix(line, b"a=rtpmap:")?;
    mapping_of(value)
}

/// A rate.
fn hz_of(text: &[u8]) -> Option<u32>
    ensures { result ≡ hz_of text.now }
{
    number_in(text, 1, u32::MAX)
}

/// A number of channels.
fn channels_of(text: &[u8]) -> Option<u8>
    ensures { result ≡ channels_of text.now }
{
    match number_in(text, 1, 255) {
        Some(channels) => Some(channels as u8),
        None => None,
    }
}

/// The rate and the channels.
fn sampling_of(text: &[u8]) -> Option<(u32, u8)>
    ensures { result ≡ sampling_of text.now }
{
    match cut_at(text, b'/') {
        Some((hz, channels)) => {
            let hz = hz_of(hz)?;
            let channels = channels_of(channels)?;
            Some((hz, channels))
        }
        None => {
            let hz = hz_of(text)?;
            Some((hz, 1))
        }
    }
}

/// Whether the line maps a payload type to L16 or L24 with a rate or channels that are none.
pub(crate) fn is_bad_mapping(line: &[u8]) -> bool
    ensures { result ≡ is_bad_mapping line.now }
{
    match line_mapping(line) {
        Some((_, _, sampling)) => sampling_of(sampling).is_none(),
        None => false,
    }
}

/// The payload type to which the line gives a format, and the format.
pub(crate) fn line_format(line: &[u8]) -> Option<(u8, Format)>
    ensures format { result ≡ line_format line.now }
    ensures low { IfSome result (λ given. given.0 ≤ MOST_PAYLOAD_TYPE) }
{
    let (payload_type, width, sampling) = line_mapping(line)?;
    let (hz, channels) = sampling_of(sampling)?;
    Some((
        payload_type,
        Format {
            width,
            hz,
            channels,
        },
    ))
}

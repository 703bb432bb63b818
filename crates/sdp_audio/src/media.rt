//! The lines that begin a section.

ghost use Rattle.std.specs.Prelude.{◌≡◌, ◌∷◌, ◌<◌, ◌≤◌, length, is_some, option_map};
ghost use Rattle.std.specs.Prelude.{IfSome, IfNone};
ghost use Rattle.std.specs.List.{list_all};
ghost use Rattle.io_caps.specs.declared.limits.TheConstants.{MOST_PAYLOAD_TYPE};
ghost use Rattle.sdp_audio.specs.Line.{words};
ghost use Rattle.sdp_audio.specs.Media.{is_media, port_of, type_of, is_audio, has_media_fault};
ghost use Rattle.sdp_audio.specs.Media.{is_rtp, is_bad_media, media_words, audio_of, line_audio};
ghost use Rattle.sdp_audio.specs.Steps.{rtp_audio};

use crate::line::{after_prefix, cut_at, number_in};
use io_caps::limits::MOST_PAYLOAD_TYPE;

/// The medium of which streams are read.
const AUDIO: &[u8] = b"audio";

/// The transport of which streams are read: RTP with the profile for audio (RFC 3551).
const RTP: &[u8] = b"RTP/AVP";

/// Audio over RTP: its port, and its payload types as words between single spaces.
#[derive(Clone, Copy)]
pub struct RtpMedia<'a> {
    pub(crate) port: u16,
    pub(crate) types: &'a [u8],
}

/// The value of an `m=` line of four words or more.
#[derive(Clone, Copy)]
struct MediaWords<'a> {
    kind: &'a [u8],
    port: &'a [u8],
    transport: &'a [u8],
    types: &'a [u8],
}

/// The value of an `m=` line.
fn media_value(line: &[u8]) -> Option<&[u8]>
    ensures { option_map (λ value. words value.now) result ≡ media_words line.now }
{
    after_prefix(line, b"m=")
}

/// Whether this is an `m=` line.
pub(crate) fn is_media(line: &[u8]) -> bool
    ensures { result ≡ is_media line.now }
{
    media_value(line).is_some()
}

/// The words of a value, and `None` where there are fewer than four.
fn split_words(value: &[u8]) -> Option<MediaWords<'_>>
    ensures some { IfSome result (λ parts. words value.now
        ≡ parts.kind.now ∷ parts.port.now ∷ parts.transport.now ∷ words parts.types.now) }
    ensures none { IfNone result (length (words value.now) < 4) }
{
    let (kind, rest) = cut_at(value, b' ')?;
    let (port, rest) = cut_at(rest, b' ')?;
    let (transport, types) = cut_at(rest, b' ')?;
    Some(MediaWords {
        kind,
        port,
        transport,
        types,
    })
}

/// A port: a number alone, or before a `/`.
fn port_of(word: &[u8]) -> Option<u16>
    ensures { result ≡ port_of word.now }
{
    let number = match cut_at(word, b'/') {
        Some((number, _)) => number,
        None => word,
    };
    match number_in(number, 0, 65535) {
        Some(port) => Some(port as u16),
        None => None,
    }
}

/// A payload type.
pub(crate) fn type_of(word: &[u8]) -> Option<u8>
    ensures number { result ≡ type_of word.now }
    ensures low { IfSome result (λ number. number ≤ MOST_PAYLOAD_TYPE) }
{
    match number_in(word, 0, u32::from(MOST_PAYLOAD_TYPE)) {
        Some(number) => Some(number as u8),
        None => None,
    }
}

/// Whether the first word is `audio`.
fn is_audio(value: &[u8]) -> bool
    ensures { result ≡ is_audio (words value.now) }
{
    match cut_at(value, b' ') {
        Some((kind, _)) => kind == AUDIO,
        None => value == AUDIO,
    }
}

/// Whether the transport is RTP with the profile for audio.
fn is_rtp(transport: &[u8]) -> bool
    ensures { result ≡ is_rtp transport.now }
{
    transport == RTP
}

/// Whether each word is a payload type.
fn are_types(types: &[u8]) -> bool
    ensures { result ≡ list_all (λ word. is_some (type_of word)) (words types.now) }
{
    let mut rest = types;
    while let Some((word, after)) = cut_at(rest, b' ') {
        if type_of(word).is_none() {
            return false;
        }
        rest = after;
    }
    type_of(rest).is_some()
}

/// Whether the value of an `m=` line of audio has a fault.
fn has_media_fault(value: &[u8]) -> bool
    ensures { result ≡ has_media_fault (words value.now) }
{
    match split_words(value) {
        Some(parts) => {
            port_of(parts.port).is_none() || (is_rtp(parts.transport) && !are_types(parts.types))
        }
        None => true,
    }
}

/// Whether this is an `m=` line of audio with a fault.
pub(crate) fn is_bad_media(line: &[u8]) -> bool
    ensures { result ≡ is_bad_media line.now }
{
    match media_value(line) {
        Some(value) => is_audio(value) && has_media_fault(value),
        None => false,
    }
}

/// The audio over RTP of the value of an `m=` line, where it is that.
fn audio_of_value(value: &[u8]) -> Option<RtpMedia<'_>>
    ensures { option_map rtp_audio result ≡ audio_of (words value.now) }
{
    let parts = split_words(value)?;
    if parts.kind != AUDIO || !is_rtp(parts.transport) {
        return None;
    }
    let port = port_of(parts.port)?;
    Some(RtpMedia {
        port,
        types: parts.types,
    })
}

/// The audio over RTP that an `m=` line offers, where it does.
pub(crate) fn audio_of(line: &[u8]) -> Option<RtpMedia<'_>>
    ensures { option_map rtp_audio result ≡ line_audio line.now }
{
    let value = media_value(line)?;
    audio_of_value(value)
}

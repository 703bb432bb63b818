//! Sections: the formats that their lines give, and the stream of one.

ghost use Rattle.std.specs.Prelude.{◌≡◌, ◌∷◌, [], ◌<◌, ℕ, length, None};
ghost use Rattle.std.specs.Prelude.{IfSome, IfNone, slice_index_or};
ghost use Rattle.std.specs.Option.{option_or};
ghost use Rattle.std.specs.Str.Lines.{lines};
ghost use Rattle.sdp_audio.specs.Line.{words};
ghost use Rattle.sdp_audio.specs.Media.{format_for};
ghost use Rattle.sdp_audio.specs.Section.{attributes_in, first_given, static_format, stream_of};
ghost use Rattle.sdp_audio.specs.Steps.{section, table_format, word_stream};

use crate::Stream;
use crate::line::{cut_at, next_line};
use crate::mapping::line_format;
use crate::media::{audio_of, is_media, type_of};
use crate::stream::Format;
use io_caps::Width;

/// How many payload types there are.
const TYPES: usize = 128;

/// The first line of the section that goes on here and the lines below it, and `None` where the
/// section ends here.
fn next_attribute(text: &[u8]) -> Option<(&[u8], &[u8])>
    ensures some { IfSome result (λ cut. attributes_in (lines text.now)
        ≡ cut.0.now ∷ attributes_in (lines cut.1.now)) }
    ensures shorter { IfSome result (λ cut. length cut.1.now < length text.now) }
    ensures none { IfNone result (attributes_in (lines text.now) ≡ []) }
{
    if text.is_empty() {
        return None;
    }
    let (line, below) = next_line(text);
    if is_media(line) {
        None
    } else {
        Some((line, below))
    }
}

/// Puts the format that a line gives a payload type into the table, unless an earlier line gave it
/// one.
fn note_format(line: &[u8], table: &mut [Option<Format>])
    requires { length table.old ≡ TYPES }
    ensures len { length table.new ≡ TYPES }
    ensures formats { (type : ℕ) → type < TYPES → slice_index_or table.new type None
        ≡ option_or (slice_index_or table.old type None) (format_for type line.now) }
{
    if let Some((payload_type, format)) = line_format(line) {
        let place = usize::from(payload_type);
        if table[place].is_none() {
            table[place] = Some(format);
        }
    }
}

/// Puts the formats that the lines of the section from here on give into the table.
fn note_formats(text: &[u8], table: &mut [Option<Format>])
    requires { length table.old ≡ TYPES }
    ensures len { length table.new ≡ TYPES }
    ensures formats { (type : ℕ) → type < TYPES → slice_index_or table.new type None
        ≡ option_or (slice_index_or table.old type None)
        (first_given (format_for type) (attributes_in (lines text.now))) }
{
    let mut rest = text;
    while let Some((line, below)) = next_attribute(rest) {
        note_format(line, table);
        rest = below;
    }
}

/// The format that a payload type stands for without a line.
fn static_format(payload_type: u8) -> Option<Format>
    ensures { result ≡ static_format payload_type }
{
    match payload_type {
        10 => Some(Format {
            width: Width::L16,
            hz: 44100,
            channels: 2,
        }),
        11 => Some(Format {
            width: Width::L16,
            hz: 44100,
            channels: 1,
        }),
        _ => None,
    }
}

/// The format of a payload type.
fn table_format(table: &[Option<Format>], payload_type: u8) -> Option<Format>
    requires { payload_type < length table.now }
    ensures { result ≡ table_format table.now payload_type }
{
    match table[usize::from(payload_type)] {
        Some(format) => Some(format),
        None => static_format(payload_type),
    }
}

/// The stream of a word that is a payload type with a format.
fn word_stream(port: u16, table: &[Option<Format>], word: &[u8]) -> Option<Stream>
    requires { length table.now ≡ TYPES }
    ensures { result ≡ word_stream port table.now word.now }
{
    let payload_type = type_of(word)?;
    let format = table_format(table, payload_type)?;
    Some(Stream {
        port,
        payload_type,
        width: format.width,
        hz: format.hz,
        channels: format.channels,
    })
}

/// The stream of the first word that is a payload type with a format.
fn first_stream(port: u16, table: &[Option<Format>], types: &[u8]) -> Option<Stream>
    requires { length table.now ≡ TYPES }
    ensures { result ≡ first_given (word_stream port table.now) (words types.now) }
{
    let mut rest = types;
    while let Some((word, after)) = cut_at(rest, b' ') {
        let stream = word_stream(port, table, word);
        if stream.is_some() {
            return stream;
        }
        rest = after;
    }
    word_stream(port, table, rest)
}

/// The stream of the section of a line, of which the other lines follow.
pub(crate) fn section_stream(line: &[u8], below: &[u8]) -> Option<Stream>
    ensures { result ≡ stream_of (section line.now (attributes_in (lines below.now))) }
{
    let media = audio_of(line)?;
    let mut table = [None; TYPES];
    note_formats(below, &mut table);
    first_stream(media.port, &table, media.types)
}

//! How a description is read: first whether it has a fault, then its streams.

ghost use Rattle.std.specs.Prelude.{◌≡◌, ◌≤◌, ◌&&◌, length, is_some, if◌then◌else◌, IfOk, IfErr, OnOk};
ghost use Rattle.sdp_audio.specs.Fault.{is_empty_line, line_fault, IsSdpFault, HasNoFault};
ghost use Rattle.sdp_audio.specs.Fault.{IfFault, IsRefused};
ghost use Rattle.sdp_audio.specs.Media.{is_media, line_audio};
ghost use Rattle.sdp_audio.specs.Section.{sdp_streams};
ghost use Rattle.sdp_audio.specs.declared.fault.SdpFault.{SdpFault};
ghost use Rattle.sdp_audio.specs.declared.limits.TheConstants.{MOST_TEXT};

use crate::line::{is_typed, next_line};
use crate::mapping::is_bad_mapping;
use crate::media::{audio_of, is_bad_media, is_media};
use crate::section::section_stream;
use crate::{SdpFault, Streams};
use io_caps::{NoMemory, Or};
use std::alloc::Global;

/// The first line that is not empty.
const START: &[u8] = b"v=0";

/// The fault of a line, by whether the lines above are all empty, whether it belongs to a section
/// of audio over RTP, and its number.
fn line_fault(first: bool, in_audio: bool, number: u32, line: &[u8]) -> Option<SdpFault>
    ensures { result ≡ line_fault first in_audio number line.now }
{
    if line.is_empty() {
        None
    } else if first && line != START {
        Some(SdpFault::Start)
    } else if !is_typed(line) {
        Some(SdpFault::Line(number))
    } else if is_bad_media(line) {
        Some(SdpFault::Media(number))
    } else if in_audio && is_bad_mapping(line) {
        Some(SdpFault::Map(number))
    } else {
        None
    }
}

/// Whether all lines down to this one are empty, by whether those above are.
fn stays_blank(blank: bool, line: &[u8]) -> bool
    ensures { result ≡ (blank && is_empty_line line.now) }
{
    blank && line.is_empty()
}

/// Whether the line below belongs to a section of audio over RTP, by whether this one does.
fn stays_in_audio(in_audio: bool, line: &[u8]) -> bool
    ensures { result ≡ (if is_media line.now then is_some (line_audio line.now) else in_audio) }
{
    if is_media(line) {
        audio_of(line).is_some()
    } else {
        in_audio
    }
}

/// That the text has no fault, or its first one.
fn check(text: &[u8]) -> Result<(), SdpFault>
    requires { length text.now ≤ MOST_TEXT }
    ensures ok { OnOk result (HasNoFault text.now) }
    ensures fault { IfErr result (IsSdpFault text.now) }
{
    let mut rest = text;
    let mut number = 0;
    let mut blank = true;
    let mut in_audio = false;
    while !rest.is_empty() {
        let (line, below) = next_line(rest);
        number += 1;
        if let Some(fault) = line_fault(blank, in_audio, number, line) {
            return Err(fault);
        }
        blank = stays_blank(blank, line);
        in_audio = stays_in_audio(in_audio, line);
        rest = below;
    }
    if blank {
        return Err(SdpFault::Start);
    }
    Ok(())
}

/// The streams of a text.
fn collect_streams(alloc: Global, text: &[u8]) -> Result<Streams, NoMemory>
    ensures { IfOk result (λ streams. streams ≡ sdp_streams text.now) }
{
    let mut streams = Streams::new(alloc);
    let mut rest = text;
    while !rest.is_empty() {
        let (line, below) = next_line(rest);
        if let Some(stream) = section_stream(line, below) {
            streams.push(stream)?;
        }
        rest = below;
    }
    Ok(streams)
}

/// The streams that a description offers, in the order of its sections, or its first fault. Each
/// comes exactly where the text has it, unless memory runs out. The text is gone through three
/// times, and none of it is copied.
pub fn read_sdp(alloc: Global, text: &[u8]) -> Result<Streams, Or<SdpFault>>
    requires { length text.now ≤ MOST_TEXT }
    ensures streams { IfOk result (λ streams. streams ≡ sdp_streams text.now) }
    ensures ok { OnOk result (HasNoFault text.now) }
    ensures fault { IfErr result (λ e. IfFault e (IsSdpFault text.now)) }
    // Where the text has a first fault, that one is answered.
    ensures exact { (fault : SdpFault) → IsSdpFault text.now fault → IsRefused result fault }
{
    match check(text) {
        Ok(()) => Ok(collect_streams(alloc, text)?),
        Err(fault) => Err(Or::Fault(fault)),
    }
}

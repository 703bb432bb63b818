//! The command `from-sdp`.

ghost use Rattle.std.specs.Prelude.{◌≡◌, ◌≤◌, IfErr, IfOk, OnErr, OnOk, IsErrOf, length};
ghost use Rattle.chan_io.specs.Causes.{Rose};
ghost use Rattle.io_caps.specs.declared.limits.TheConstants.{MOST_INPUTS};
ghost use Rattle.sdp_audio.specs.Fault.{IfFault, HasNoFault};
ghost use Rattle.sdp_audio.specs.Made.{IsMakeFault};
ghost use Rattle.sdp_audio.specs.Section.{sdp_streams};
ghost use Rattle.chanmap.specs.Top.{IsGiven, IsUnanswered};
ghost use Rattle.chanmap.specs.commands.FromSdp.{IsFromSdpInput, IsFromSdpRefusal, made_setup};
ghost use Rattle.chanmap.specs.commands.FromSdp.{AreMade, made_capture, made_text, straight_row};
ghost use Rattle.chanmap.specs.commands.FromSdp.{straight_rows};
ghost use Rattle.capture_file.specs.Capture.{IsCaptureText};
ghost use Rattle.capture_file.specs.Device.{IsPlainDevice};
ghost use Rattle.map_entry.specs.declared.grain.Grain.TheVariants.{Tick};
ghost use Rattle.chanmap.specs.declared.command.Command.TheVariants.{FromSdp};
ghost use Rattle.chanmap.specs.declared.input.TheConstants.{MOST_BYTES};

use crate::end::{End, SdpRefusal};
use capture_file::{Format, capture_magic, end_record, write_device};
use chan_io::{Failed, Sink, write_whole};
use io_caps::{NoMemory, Or};
use map_entry::{Cell, Grain, Row, Rows, Setup};
use sdp_audio::{MakeFault, Stream, Streams, device_from, read_sdp};
use std::alloc::Global;

/// A row that routes each channel of a stream from the same one of an input.
fn straight_row(alloc: Global, input: u8, stream: &Stream) -> Result<Row, NoMemory>
    ensures { IfOk result (λ row. row ≡ straight_row (input, stream.now)) }
{
    let mut row = Row::new(alloc);
    for channel in 0..stream.channels {
        row.push(Cell::From { input, channel })?;
    }
    Ok(row)
}

/// A row for each stream, from the input of its number.
#[tactic(auto, using(sdp_audio::proofs::Numbered::made_more))]
fn straight_rows(alloc: Global, streams: &[Stream]) -> Result<Rows, NoMemory>
    requires { length streams.now ≤ MOST_INPUTS }
    ensures { IfOk result (λ rows. rows ≡ straight_rows streams.now) }
{
    let mut rows = Rows::new(alloc);
    let mut number = 0;
    for stream in streams {
        rows.push(straight_row(alloc, number, stream)?)?;
        number += 1;
    }
    Ok(rows)
}

/// The device of streams, each output of which is routed from the input of its number.
fn setup_from(alloc: Global, streams: &Streams, frames: u16) -> Result<Setup, Or<MakeFault>>
    ensures setup { IfOk result (λ setup. setup ≡ made_setup frames streams.now) }
    ensures made { OnOk result (AreMade frames streams.now) }
    ensures fault { IfErr result (λ e. IfFault e (IsMakeFault streams.now frames)) }
{
    let device = match device_from(alloc, streams, frames) {
        Ok(device) => device,
        Err(error) => return Err(error),
    };
    let rows = straight_rows(alloc, streams.as_slice())?;
    Ok(Setup {
        device,
        rows,
        grain: Grain::Tick,
    })
}

/// The setup that is made of a session description, or why none is.
fn described_setup(alloc: Global, frames: u16, text: &[u8]) -> Result<Setup, Or<SdpRefusal>>
    requires { length text.now ≤ MOST_BYTES }
    ensures setup { IfOk result (λ setup. setup ≡ made_setup frames (sdp_streams text.now)) }
    ensures input { OnOk result (IsFromSdpInput frames text.now) }
    ensures fault { IfErr result (λ e. IfFault e (IsFromSdpRefusal frames text.now)) }
{
    let streams = match read_sdp(alloc, text) {
        Ok(streams) => streams,
        Err(Or::Fault(fault)) => return Err(Or::Fault(SdpRefusal::Text(fault))),
        Err(Or::NoMemory) => return Err(Or::NoMemory),
    };
    match setup_from(alloc, &streams, frames) {
        Ok(setup) => Ok(setup),
        Err(Or::Fault(fault)) => Err(Or::Fault(SdpRefusal::Streams(fault))),
        Err(Or::NoMemory) => Err(Or::NoMemory),
    }
}

/// The text of a capture of format 2 that has this setup, and no record after it but the last one.
fn capture_text(alloc: Global, setup: &Setup) -> Result<Vec<u8>, NoMemory>
    requires plain { IsPlainDevice setup.now.device }
    requires grain { setup.now.grain ≡ Tick }
    ensures text { IfOk result (λ text. text.items ≡ made_text setup.now) }
    ensures read { IfOk result (λ text. IsCaptureText (made_capture setup.now) text.items) }
{
    let mut text = Vec::from_slice(alloc, capture_magic(Format::Two))?;
    write_device(alloc, setup, &mut text)?;
    text.extend_from_slice(&end_record())?;
    Ok(text)
}

/// Gives the sink the capture that is made of the session description that these bytes are. Why
/// none is made is the end otherwise.
pub(crate) fn from_sdp<K: Sink>(
    alloc: Global,
    frames: u16,
    bytes: &[u8],
    out: &mut K,
) -> Result<(), End>
    requires { length bytes.now ≤ MOST_BYTES }
    ensures done { OnOk result
        (IsGiven (FromSdp frames) bytes.now (K.taken out.old) (K.taken out.new)) }
    ensures ends { IfErr result (IsUnanswered (FromSdp frames) bytes.now (K.taken out.old)
        (K.taken out.new) (Rose (K.faults out.old) (K.faults out.new))) }
    ensures nothing { OnErr result ((IsErrOf result End.WriteFault → ⊥) → out.new ≡ out.old) }
{
    let setup = match described_setup(alloc, frames, bytes) {
        Ok(setup) => setup,
        Err(Or::Fault(refusal)) => return Err(End::SdpRefused(refusal)),
        Err(Or::NoMemory) => return Err(End::NoMemory),
    };
    let text = match capture_text(alloc, &setup) {
        Ok(text) => text,
        Err(NoMemory) => return Err(End::NoMemory),
    };
    match write_whole(out, &text) {
        Ok(()) => Ok(()),
        Err(Failed) => Err(End::WriteFault),
    }
}

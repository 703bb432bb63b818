//! The front of a capture: the magic, the record of its device, and what says its grain.

ghost use Rattle.std.specs.Prelude.{◌≡◌, ◌++◌, IfOk, IfErr, IfSome, IfNone};
ghost use Rattle.map_entry.specs.Setup.{setup_with};
ghost use Rattle.exact_text.specs.Readings.{Gives, whole_of};
ghost use Rattle.capture_file.specs.declared.before.DeviceForm.TheVariants.{Plain, Json};
ghost use Rattle.capture_file.specs.declared.format.Format.TheVariants.{Two};
ghost use Rattle.capture_file.specs.Formats.{capture_magic, grain_body};
ghost use Rattle.capture_file.specs.Device.{device};
ghost use Rattle.capture_file.specs.Capture.{Begins, Opens, SaysGrain};
ghost use Rattle.capture_file.specs.Fault.{device_form, IsFirst, IsOpened, FaultIs};
ghost use Rattle.capture_file.specs.Fault.{HasNoMagic, SaysNoGrain};
ghost use Rattle.capture_file.specs.Walk.{IfFault, IsJudged};

use crate::before::{DeviceForm, device_form};
use crate::device::read_device;
use crate::{CaptureFault, CaptureKind, Format, tags};
use channel_json::device_of;
use exact_text::{Misread, literal, nothing_behind, record};
use io_caps::{Device, DeviceParts, Or};
use map_entry::{Grain, Rows, Setup};
use std::alloc::Global;

/// The device of a whole body, which need not be in order.
fn whole_device(alloc: Global, body: &[u8]) -> Result<(DeviceParts, Rows), Misread>
    ensures { Gives (λ x. x) result (whole_of device.read body.now) }
{
    let (base, rest) = read_device(alloc, body)?;
    nothing_behind(rest)?;
    Ok(base)
}

/// The setup that the body of a plain device record spells.
fn take_device(alloc: Global, body: &[u8]) -> Result<Setup, Or<CaptureKind>>
    ensures { IsJudged (IsOpened Plain body.now) result }
{
    let (parts, rows) = match whole_device(alloc, body) {
        Ok(base) => base,
        Err(Misread::NoReading) => return Err(Or::Fault(CaptureKind::Device)),
        Err(Misread::NoMemory) => return Err(Or::NoMemory),
    };
    let device = match Device::build(alloc, parts) {
        Ok(device) => device,
        Err(_) => return Err(Or::Fault(CaptureKind::Device)),
    };
    match Setup::build(alloc, device, rows) {
        Ok(setup) => Ok(setup),
        Err(_) => Err(Or::Fault(CaptureKind::Device)),
    }
}

/// The setup that the body of a device record says as JSON.
fn take_json_device(alloc: Global, body: &[u8]) -> Result<Setup, Or<CaptureKind>>
    ensures { IsJudged (IsOpened Json body.now) result }
{
    match device_of(alloc, body) {
        Ok(setup) => Ok(setup),
        Err(Or::Fault(_)) => Err(Or::Fault(CaptureKind::Device)),
        Err(Or::NoMemory) => Err(Or::NoMemory),
    }
}

/// The setup of the first record.
fn take_first(alloc: Global, format: Format, tag: u8, body: &[u8]) -> Result<Setup, Or<CaptureKind>>
    ensures { IsJudged (IsFirst (device_form format tag) body.now) result }
{
    match device_form(format, tag) {
        Ok(DeviceForm::Plain) => take_device(alloc, body),
        Ok(DeviceForm::Json) => take_json_device(alloc, body),
        Err(kind) => Err(Or::Fault(kind)),
    }
}

/// The format that the magic tells, and the bytes after it.
fn read_magic(bytes: &[u8]) -> Option<(Format, &[u8])>
    ensures some { IfSome result (λ x. bytes.now ≡ capture_magic x.0 ++ x.1.now) }
    ensures none { IfNone result (HasNoMagic bytes.now) }
{
    if let Ok(rest) = literal(bytes, tags::CAPTURE_MAGIC) {
        return Some((Format::One, rest));
    }
    match literal(bytes, tags::CAPTURE_MAGIC_2) {
        Ok(rest) => Some((Format::Two, rest)),
        Err(_) => None,
    }
}

/// The grain of the body of its record.
fn grain_of(body: &[u8]) -> Option<Grain>
    ensures some { IfSome result (λ grain. body.now ≡ grain_body grain) }
    ensures none { IfNone result ((grain : Grain) → body.now ≡ grain_body grain → ⊥) }
{
    match body {
        [tags::TICK_GRAIN] => Some(Grain::Tick),
        [tags::FRAME_GRAIN] => Some(Grain::Frame),
        _ => None,
    }
}

/// The grain behind a device of the second format, and the bytes after what says it; or none, where
/// a record of a grain stands there that says none.
fn take_record(behind: &[u8]) -> Option<(Grain, &[u8])>
    ensures some { IfSome result (λ x. SaysGrain Two behind.now x.0 x.1.now) }
    ensures none { IfNone result (SaysNoGrain behind.now) }
{
    let (tag, body, rest) = match record(behind) {
        Ok(found) => found,
        Err(_) => return Some((Grain::Tick, behind)),
    };
    if tag != tags::GRAIN {
        return Some((Grain::Tick, behind));
    }
    match grain_of(body) {
        Some(grain) => Some((grain, rest)),
        None => None,
    }
}

/// The same in a format.
fn take_grain(format: Format, behind: &[u8]) -> Option<(Grain, &[u8])>
    ensures some { IfSome result (λ x. SaysGrain format behind.now x.0 x.1.now) }
    ensures none { IfNone result ((format ≡ Two) × SaysNoGrain behind.now) }
{
    match format {
        Format::One => Some((Grain::Tick, behind)),
        Format::Two => take_record(behind),
    }
}

/// The setup with this grain.
fn with_grain(setup: Setup, grain: Grain) -> Setup
    ensures { result ≡ setup_with setup.device setup.rows grain }
{
    let mut setup = setup;
    setup.grain = grain;
    setup
}

/// The fault of a kind at a place.
fn fault_at(at: usize, kind: CaptureKind) -> Or<CaptureFault>
    ensures { IfFault result (λ f. (f.at ≡ at) × (f.kind ≡ kind)) }
{
    let at = at as u64;
    Or::Fault(CaptureFault { at, kind })
}

/// The format and the device at the front of a capture, and the bytes after them.
fn read_front(alloc: Global, bytes: &[u8]) -> Result<(Format, Setup, &[u8]), Or<CaptureFault>>
    ensures begins { IfOk result (λ x. Begins bytes.now x.0 x.1 x.2.now) }
    ensures fault { IfErr result (λ e. IfFault e (λ f. FaultIs bytes.now f.at f.kind)) }
{
    let Some((format, rest)) = read_magic(bytes) else {
        return Err(fault_at(0, CaptureKind::Magic));
    };
    let at = bytes.len() - rest.len();
    let (tag, body, behind) = match record(rest) {
        Ok(found) => found,
        Err(_) => return Err(fault_at(at, CaptureKind::Cut)),
    };
    match take_first(alloc, format, tag, body) {
        Ok(setup) => Ok((format, setup, behind)),
        Err(Or::Fault(kind)) => Err(fault_at(at, kind)),
        Err(Or::NoMemory) => Err(Or::NoMemory),
    }
}

/// What stands in front of a capture's records.
#[derive(Debug, Drop)]
pub struct Opening {
    pub format: Format,
    pub setup: Setup,
    /// The place of the first record after the device and the grain.
    pub items_at: u64,
}

/// What stands at the front of a capture, up to its first record after the device and the grain, and
/// the bytes from there on; or the first fault, where it is one of what stands there. (This
/// project's own.)
pub fn read_opening(alloc: Global, bytes: &[u8]) -> Result<(Opening, &[u8]), Or<CaptureFault>>
    ensures opened { IfOk result (λ x. Opens bytes.now x.0 x.1.now) }
    ensures fault { IfErr result (λ e. IfFault e (λ f. FaultIs bytes.now f.at f.kind)) }
{
    let (format, setup, behind) = read_front(alloc, bytes)?;
    let at = bytes.len() - behind.len();
    let Some((grain, rest)) = take_grain(format, behind) else {
        return Err(fault_at(at, CaptureKind::Body));
    };
    let opening = Opening {
        format,
        setup: with_grain(setup, grain),
        items_at: (bytes.len() - rest.len()) as u64,
    };
    Ok((opening, rest))
}

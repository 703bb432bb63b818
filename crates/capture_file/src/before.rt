//! What stands before a record of a capture, and what its tag says.

ghost use Rattle.std.specs.Prelude.{◌≡◌};
ghost use Rattle.capture_file.specs.Fault.{device_form, sort_of};
ghost use Rattle.capture_file.specs.Formats.{misplaced_grain};

use crate::{CaptureKind, Format, Items, Opening, tags};
use std::marker::Model;

/// What stands before a record: an opening, whose format can say its grain, and the records after
/// it, which name inputs and clients that are there.
#[derive(Debug, Drop)]
pub(crate) struct CaptureFront<'a> {
    pub(crate) opening: Opening,
    pub(crate) items: Items<'a>,
}

impl<'a> Model for CaptureFront<'a> {
    ghost use Rattle.capture_file.specs.Fault.{FrontParts, before, IsFront};

    ghost Value = { FrontParts };

    ghost view = { λ b. before b.opening b.items };

    ghost invariant = { λ b. IsFront (before b.opening b.items) };
}

/// How the body of a device record says the device.
#[derive(Clone, Copy, Debug, PartialEq, Eq)]
pub enum DeviceForm {
    Plain,
    Json,
}

/// What a tag says after the device.
#[derive(Clone, Copy, Debug, PartialEq, Eq)]
pub enum RecordKind {
    ItemRecord,
    EndRecord,
    NoRecord(CaptureKind),
}

/// What is wrong with a record of a grain where it may not stand.
fn misplaced_grain(format: Format) -> CaptureKind
    ensures { result ≡ misplaced_grain format }
{
    match format {
        Format::One => CaptureKind::Tag,
        Format::Two => CaptureKind::Order,
    }
}

/// The form of a device that a tag says, or why it cannot be the tag of the first record.
pub(crate) fn device_form(format: Format, tag: u8) -> Result<DeviceForm, CaptureKind>
    ensures { result ≡ device_form format tag }
{
    match tag {
        tags::DEVICE => Ok(DeviceForm::Plain),
        tags::JSON_DEVICE => Ok(DeviceForm::Json),
        tags::PACKET | tags::PIECE | tags::ASK | tags::WORK | tags::END => Err(CaptureKind::Order),
        tags::GRAIN => Err(misplaced_grain(format)),
        _ => Err(CaptureKind::Tag),
    }
}

/// What a tag says after the device and the grain.
pub(crate) fn sort_of(format: Format, tag: u8) -> RecordKind
    ensures { result ≡ sort_of format tag }
{
    match tag {
        tags::DEVICE | tags::JSON_DEVICE => RecordKind::NoRecord(CaptureKind::Order),
        tags::PACKET | tags::PIECE | tags::ASK | tags::WORK => RecordKind::ItemRecord,
        tags::END => RecordKind::EndRecord,
        tags::GRAIN => RecordKind::NoRecord(misplaced_grain(format)),
        _ => RecordKind::NoRecord(CaptureKind::Tag),
    }
}

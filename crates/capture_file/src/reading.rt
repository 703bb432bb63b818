//! How the replies of a result are read.

ghost use Rattle.std.specs.Prelude.{◌≡◌, map, length};
ghost use Rattle.exact_text.specs.Readings.{Gives};
ghost use Rattle.exact_text.specs.Forms.{counted, many_of};
ghost use Rattle.capture_file.specs.Formats.{moment};
ghost use Rattle.capture_file.specs.Replies.{when, shown, last, rows, view, pending, row_fault};
ghost use Rattle.capture_file.specs.Replies.{refusal, reply};

use crate::form::CaptureForm;
use crate::requests::{read_action, time_of};
use crate::{
    Activation, ActiveView, Format, PendingItem, PendingItems, Refusal, Reply, When, tags,
};
use exact_text::{Misread, byte, many, number16, number32, number64};
use io_caps::Output;
use map_entry::{Cell, Row, RowFault, Rows};
use std::alloc::Global;

/// A tick, and the frame of it from which something counts.
#[tactic(auto, unfolding(crate::specs::Formats::moment, crate::specs::Formats::offset_field))]
pub(crate) fn read_moment(format: Format, bytes: &[u8]) -> Result<((u64, u16), &[u8]), Misread>
    ensures { Gives (λ x. (x.0, x.1.now)) result ((moment format).read bytes.now) }
{
    let (tick, rest) = number64(bytes)?;
    match format {
        Format::One => Ok(((tick, 0), rest)),
        Format::Two => {
            let (offset, rest) = number16(rest)?;
            Ok(((tick, offset), rest))
        }
    }
}

#[tactic(auto, unfolding(crate::specs::Replies::when, crate::specs::Requests::time))]
fn read_when(bytes: &[u8]) -> Result<(When, &[u8]), Misread>
    ensures { Gives (λ x. (x.0, x.1.now)) result (when.read bytes.now) }
{
    let (op, rest) = byte(bytes)?;
    match op {
        tags::ACTIVATE_NOW => Ok((When::Now, rest)),
        tags::ACTIVATE_AT => {
            let (secs, rest) = number64(rest)?;
            let (nanos, rest) = number32(rest)?;
            Ok((When::At(time_of(secs, nanos)?), rest))
        }
        tags::ACTIVATE_AFTER => {
            let (secs, rest) = number64(rest)?;
            let (nanos, rest) = number32(rest)?;
            Ok((When::After(time_of(secs, nanos)?), rest))
        }
        _ => Err(Misread::NoReading),
    }
}

#[tactic(auto, unfolding(crate::specs::Replies::shown))]
fn read_shown(format: Format, bytes: &[u8]) -> Result<(Activation, &[u8]), Misread>
    ensures { Gives (λ x. (x.0, x.1.now)) result ((shown format).read bytes.now) }
{
    let (id, rest) = number64(bytes)?;
    let (when, rest) = match read_when(rest) {
        Ok(read) => read,
        Err(error) => return Err(error),
    };
    let ((tick, offset), rest) = read_moment(format, rest)?;
    Ok((Activation::new(id, when, tick, offset), rest))
}

#[tactic(auto, unfolding(crate::specs::Replies::last))]
fn read_last(format: Format, bytes: &[u8]) -> Result<(Option<Activation>, &[u8]), Misread>
    ensures { Gives (λ x. (x.0, x.1.now)) result ((last format).read bytes.now) }
{
    let (there, rest) = byte(bytes)?;
    match there {
        0 => Ok((None, rest)),
        1 => {
            let (last, rest) = match read_shown(format, rest) {
                Ok(read) => read,
                Err(error) => return Err(error),
            };
            Ok((Some(last), rest))
        }
        _ => Err(Misread::NoReading),
    }
}

/// A row of each output, with a cell for each of its channels.
#[tactic(auto, unfolding(crate::specs::Replies::rows))]
fn read_rows<'a>(
    alloc: Global,
    outputs: &[Output],
    bytes: &'a [u8],
) -> Result<(Rows, &'a [u8]), Misread>
    ensures { Gives (λ x. (x.0, x.1.now)) result
        ((rows (map (λ o. length o.labels) outputs.now)).read bytes.now) }
{
    let mut made = Vec::new(alloc);
    let mut rest = bytes;
    for output in outputs {
        let (row, after) = many::<CaptureForm, Cell>(alloc, output.channels(), rest)?;
        made.push(Row::from_vec(row))?;
        rest = after;
    }
    Ok((Rows::from_vec(made), rest))
}

#[tactic(auto, unfolding(crate::specs::Replies::view))]
fn read_view<'a>(
    alloc: Global,
    format: Format,
    outputs: &[Output],
    bytes: &'a [u8],
) -> Result<(ActiveView, &'a [u8]), Misread>
    ensures { Gives (λ x. (x.0, x.1.now)) result
        ((view format (map (λ o. length o.labels) outputs.now)).read bytes.now) }
{
    let (last, rest) = match read_last(format, bytes) {
        Ok(read) => read,
        Err(error) => return Err(error),
    };
    let (rows, rest) = read_rows(alloc, outputs, rest)?;
    Ok((ActiveView { last, rows }, rest))
}

#[tactic(auto, unfolding(crate::specs::Replies::pending))]
fn read_pending_item(
    alloc: Global,
    format: Format,
    bytes: &[u8],
) -> Result<(PendingItem, &[u8]), Misread>
    ensures { Gives (λ x. (x.0, x.1.now)) result ((pending format).read bytes.now) }
{
    let (id, rest) = number64(bytes)?;
    let (when, rest) = match read_when(rest) {
        Ok(read) => read,
        Err(error) => return Err(error),
    };
    let ((tick, offset), rest) = read_moment(format, rest)?;
    let (action, rest) = read_action(alloc, rest)?;
    Ok((PendingItem::new(id, when, tick, offset, action), rest))
}

/// The next `count` pending activations.
fn read_pending_items(
    alloc: Global,
    format: Format,
    count: u8,
    bytes: &[u8],
) -> Result<(PendingItems, &[u8]), Misread>
    ensures { Gives (λ x. (x.0, x.1.now)) result
        ((many_of count (pending format)).read bytes.now) }
{
    let mut items = Vec::new(alloc);
    let mut rest = bytes;
    for _ in 0..count {
        let (item, after) = match read_pending_item(alloc, format, rest) {
            Ok(read) => read,
            Err(error) => return Err(error),
        };
        items.push(item)?;
        rest = after;
    }
    Ok((PendingItems::from_vec(items), rest))
}

fn read_pending(
    alloc: Global,
    format: Format,
    bytes: &[u8],
) -> Result<(PendingItems, &[u8]), Misread>
    ensures { Gives (λ x. (x.0, x.1.now)) result ((counted (pending format)).read bytes.now) }
{
    let (count, rest) = byte(bytes)?;
    read_pending_items(alloc, format, count, rest)
}

#[tactic(auto, unfolding(crate::specs::Replies::row_fault))]
fn read_row_fault(bytes: &[u8]) -> Result<(RowFault, &[u8]), Misread>
    ensures { Gives (λ x. (x.0, x.1.now)) result (row_fault.read bytes.now) }
{
    let (check, rest) = byte(bytes)?;
    let (channel, rest) = byte(rest)?;
    match check {
        tags::INPUT_CHECK => Ok((RowFault::Input(channel), rest)),
        tags::CHANNEL_CHECK => Ok((RowFault::Channel(channel), rest)),
        tags::ROUTABLE_CHECK => Ok((RowFault::NotRoutable(channel), rest)),
        tags::BLOCK_CHECK => Ok((RowFault::Block(channel), rest)),
        tags::ORDER_CHECK => Ok((RowFault::Order(channel), rest)),
        _ => Err(Misread::NoReading),
    }
}

/// The refusal of a code.
#[tactic(auto, unfolding(crate::specs::Replies::refusal))]
fn read_refusal(code: u8, bytes: &[u8]) -> Result<(Reply, &[u8]), Misread>
    ensures { Gives (λ x. (x.0, x.1.now)) result ((refusal code).read bytes.now) }
{
    let (refusal, rest) = match code {
        tags::EMPTY => (Refusal::Empty, bytes),
        tags::UNKNOWN => {
            let (output, rest) = byte(bytes)?;
            (Refusal::Unknown { output }, rest)
        }
        tags::BAD_CHANNEL => {
            let (output, rest) = byte(bytes)?;
            let (channel, rest) = byte(rest)?;
            (Refusal::BadChannel { output, channel }, rest)
        }
        tags::LOCKED => {
            let (output, rest) = byte(bytes)?;
            (Refusal::Locked { output }, rest)
        }
        tags::ROW => {
            let (output, rest) = byte(bytes)?;
            let (fault, rest) = read_row_fault(rest)?;
            (Refusal::Row { output, fault }, rest)
        }
        tags::TIME => (Refusal::Time, bytes),
        tags::NOT_PENDING => {
            let (id, rest) = number64(bytes)?;
            (Refusal::NotPending { id }, rest)
        }
        _ => return Err(Misread::NoReading),
    };
    Ok((Reply::Refused(refusal), rest))
}

/// A plain reply on a device with these outputs.
#[tactic(auto, unfolding(crate::specs::Replies::reply))]
pub(crate) fn read_reply<'a>(
    alloc: Global,
    format: Format,
    outputs: &[Output],
    bytes: &'a [u8],
) -> Result<(Reply, &'a [u8]), Misread>
    ensures { Gives (λ x. (x.0, x.1.now)) result
        ((reply format (map (λ o. length o.labels) outputs.now)).read bytes.now) }
{
    let (code, rest) = byte(bytes)?;
    match code {
        tags::ACTIVATED => {
            let (id, rest) = number64(rest)?;
            let ((tick, offset), rest) = read_moment(format, rest)?;
            Ok((Reply::Activated { id, tick, offset }, rest))
        }
        tags::SCHEDULED => {
            let (id, rest) = number64(rest)?;
            let ((tick, offset), rest) = read_moment(format, rest)?;
            Ok((Reply::Scheduled { id, tick, offset }, rest))
        }
        tags::DELETED => {
            let (id, rest) = number64(rest)?;
            Ok((Reply::Deleted { id }, rest))
        }
        tags::ACTIVE => {
            let (view, rest) = read_view(alloc, format, outputs, rest)?;
            Ok((Reply::Active(view), rest))
        }
        tags::PENDING => {
            let (items, rest) = read_pending(alloc, format, rest)?;
            Ok((Reply::Pending(items), rest))
        }
        _ => read_refusal(code, rest),
    }
}

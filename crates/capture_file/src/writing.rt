//! How requests are written.

ghost use Rattle.std.specs.Prelude.{◌≡◌, ◌++◌, OnOk};
ghost use Rattle.std.specs.List.{flat_map};
ghost use Rattle.exact_text.specs.Forms.{number_text};
ghost use Rattle.exact_text.specs.Spellings.{Grows};
ghost use Rattle.capture_file.specs.Formats.{moment, offset_field};
ghost use Rattle.capture_file.specs.Requests.{cell, change, output_change, action, time};
ghost use Rattle.capture_file.specs.Requests.{request};

use crate::{Format, Request, When, tags};
use exact_text::{push16, push32, push64};
use io_caps::NoMemory;
use map_entry::{Action, Cell, Change, OutputChange};
use tai_time::Tai;

#[tactic(auto, using(crate::proofs::Steps::put), unfolding(exact_text::specs::Forms::number_text))]
pub(crate) fn put32(out: &mut Vec<u8>, number: u32) -> Result<(), NoMemory>
    ensures ok { OnOk result (out.new.items ≡ out.old.items ++ number_text 4 number) }
    ensures grows { Grows out.old.items out.new.items }
{
    push32(out, number)?;
    Ok(())
}

#[tactic(auto, using(crate::proofs::Steps::put), unfolding(exact_text::specs::Forms::number_text))]
pub(crate) fn put64(out: &mut Vec<u8>, number: u64) -> Result<(), NoMemory>
    ensures ok { OnOk result (out.new.items ≡ out.old.items ++ number_text 8 number) }
    ensures grows { Grows out.old.items out.new.items }
{
    push64(out, number)?;
    Ok(())
}

#[tactic(auto, using(crate::proofs::Steps::put), unfolding(crate::specs::Requests::cell))]
pub(crate) fn push_cell(out: &mut Vec<u8>, value: Cell) -> Result<(), NoMemory>
    ensures ok { OnOk result (out.new.items ≡ out.old.items ++ cell.text value) }
    ensures grows { Grows out.old.items out.new.items }
{
    let (input, channel) = match value {
        Cell::Unrouted => (tags::UNROUTED_INPUT, 0),
        Cell::From { input, channel } => (input, channel),
    };
    out.push(input)?;
    out.push(channel)?;
    Ok(())
}

#[tactic(auto, using(crate::proofs::Steps::put), unfolding(crate::specs::Requests::change))]
fn push_change(out: &mut Vec<u8>, value: &Change) -> Result<(), NoMemory>
    ensures ok { OnOk result (out.new.items ≡ out.old.items ++ change.text value.now) }
    ensures grows { Grows out.old.items out.new.items }
{
    out.push(value.channel)?;
    push_cell(out, value.cell)?;
    Ok(())
}

#[tactic(auto, using(exact_text::proofs::Growth::growth))]
fn push_changes(out: &mut Vec<u8>, changes: &[Change]) -> Result<(), NoMemory>
    ensures ok { OnOk result (out.new.items ≡ out.old.items ++ flat_map change.text changes.now) }
    ensures grows { Grows out.old.items out.new.items }
{
    for one in changes {
        push_change(out, one)?;
    }
    Ok(())
}

#[tactic(auto, using(crate::proofs::Steps::put), unfolding(crate::specs::Requests::output_change))]
fn push_output_change(out: &mut Vec<u8>, value: &OutputChange) -> Result<(), NoMemory>
    requires { output_change.Fits value.now }
    ensures ok { OnOk result (out.new.items ≡ out.old.items ++ output_change.text value.now) }
    ensures grows { Grows out.old.items out.new.items }
{
    let changes = value.changes();
    out.push(value.output)?;
    out.push(changes.len() as u8)?;
    push_changes(out, changes)?;
    Ok(())
}

#[tactic(auto, using(crate::proofs::Steps::put), unfolding(crate::specs::Requests::action))]
pub(crate) fn push_action(out: &mut Vec<u8>, value: &Action) -> Result<(), NoMemory>
    requires { action.Fits value.now }
    ensures ok { OnOk result (out.new.items ≡ out.old.items ++ action.text value.now) }
    ensures grows { Grows out.old.items out.new.items }
{
    out.push(value.len() as u8)?;
    for one in value.as_slice() {
        push_output_change(out, one)?;
    }
    Ok(())
}

#[tactic(auto, using(crate::proofs::Steps::put), unfolding(crate::specs::Requests::time))]
pub(crate) fn push_time(out: &mut Vec<u8>, value: Tai) -> Result<(), NoMemory>
    ensures ok { OnOk result (out.new.items ≡ out.old.items ++ time.text value) }
    ensures grows { Grows out.old.items out.new.items }
{
    put64(out, value.secs)?;
    put32(out, value.nanos)?;
    Ok(())
}

#[tactic(auto, using(crate::proofs::Steps::put), unfolding(exact_text::specs::Forms::number_text))]
pub(crate) fn put16(out: &mut Vec<u8>, number: u16) -> Result<(), NoMemory>
    ensures ok { OnOk result (out.new.items ≡ out.old.items ++ number_text 2 number) }
    ensures grows { Grows out.old.items out.new.items }
{
    push16(out, number)?;
    Ok(())
}

/// Writes the frame of a tick from which something counts, where the format has a field for it.
#[tactic(auto, using(crate::proofs::Steps::put), unfolding(crate::specs::Formats::offset_field))]
fn push_offset(out: &mut Vec<u8>, format: Format, offset: u16) -> Result<(), NoMemory>
    ensures ok { OnOk result (out.new.items
        ≡ out.old.items ++ (offset_field format).text offset) }
    ensures grows { Grows out.old.items out.new.items }
{
    match format {
        Format::One => Ok(()),
        Format::Two => {
            put16(out, offset)?;
            Ok(())
        }
    }
}

/// Writes a tick, and the frame of it from which something counts.
#[tactic(auto, using(crate::proofs::Steps::put), unfolding(crate::specs::Formats::moment))]
pub(crate) fn push_moment(
    out: &mut Vec<u8>,
    format: Format,
    tick: u64,
    offset: u16,
) -> Result<(), NoMemory>
    ensures ok { OnOk result (out.new.items
        ≡ out.old.items ++ (moment format).text (tick, offset)) }
    ensures grows { Grows out.old.items out.new.items }
{
    put64(out, tick)?;
    push_offset(out, format, offset)?;
    Ok(())
}

/// Writes a request.
#[tactic(auto, using(crate::proofs::Steps::put), unfolding(crate::specs::Requests::request))]
pub(crate) fn push_request(out: &mut Vec<u8>, value: &Request) -> Result<(), NoMemory>
    requires { request.Fits value.now }
    ensures ok { OnOk result (out.new.items ≡ out.old.items ++ request.text value.now) }
    ensures grows { Grows out.old.items out.new.items }
{
    match value {
        Request::Activate {
            when: When::Now,
            action,
        } => {
            out.push(tags::ACTIVATE_NOW)?;
            push_action(out, action)?;
            Ok(())
        }
        Request::Activate {
            when: When::At(time),
            action,
        } => {
            out.push(tags::ACTIVATE_AT)?;
            push_time(out, *time)?;
            push_action(out, action)?;
            Ok(())
        }
        Request::Activate {
            when: When::After(time),
            action,
        } => {
            out.push(tags::ACTIVATE_AFTER)?;
            push_time(out, *time)?;
            push_action(out, action)?;
            Ok(())
        }
        Request::Delete { id } => {
            out.push(tags::DELETE)?;
            put64(out, *id)?;
            Ok(())
        }
        Request::Active => Ok(out.push(tags::ACTIVE_MAP)?),
        Request::Pending => Ok(out.push(tags::PENDING_LIST)?),
    }
}

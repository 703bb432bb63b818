//! How replies are written.

ghost use Rattle.std.specs.Prelude.{◌≡◌, ◌++◌, [], OnOk};
ghost use Rattle.std.specs.List.{flat_map};
ghost use Rattle.exact_text.specs.Spellings.{Grows};
ghost use Rattle.book_words.specs.declared.replies.Reply.TheVariants.{Refused};
ghost use Rattle.capture_file.specs.Requests.{cell};
ghost use Rattle.capture_file.specs.Replies.{when, shown, last, view, pending, row_fault, reply};
ghost use Rattle.capture_file.specs.Replies.{HoldsReply, HoldsPending};
ghost use Rattle.exact_text.specs.Forms.{counted};

use crate::writing::{push_action, push_cell, push_moment, push_time, put64};
use crate::{Activation, ActiveView, Format, PendingItem, Refusal, Reply, When, tags};
use io_caps::NoMemory;
use map_entry::{Cell, Row, RowFault};

#[tactic(auto, using(crate::proofs::Steps::put), unfolding(crate::specs::Replies::when))]
fn push_when(out: &mut Vec<u8>, value: When) -> Result<(), NoMemory>
    ensures ok { OnOk result (out.new.items ≡ out.old.items ++ when.text value) }
    ensures grows { Grows out.old.items out.new.items }
{
    match value {
        When::Now => {
            out.push(tags::ACTIVATE_NOW)?;
            Ok(())
        }
        When::At(time) => {
            out.push(tags::ACTIVATE_AT)?;
            push_time(out, time)?;
            Ok(())
        }
        When::After(time) => {
            out.push(tags::ACTIVATE_AFTER)?;
            push_time(out, time)?;
            Ok(())
        }
    }
}

#[tactic(auto, using(crate::proofs::Steps::put), unfolding(crate::specs::Replies::shown))]
fn push_shown(out: &mut Vec<u8>, format: Format, value: &Activation) -> Result<(), NoMemory>
    ensures ok { OnOk result (out.new.items ≡ out.old.items ++ (shown format).text value.now) }
    ensures grows { Grows out.old.items out.new.items }
{
    put64(out, value.id)?;
    push_when(out, value.when)?;
    push_moment(out, format, value.tick, value.offset)?;
    Ok(())
}

#[tactic(auto, using(crate::proofs::Steps::put), unfolding(crate::specs::Replies::last))]
fn push_last(out: &mut Vec<u8>, format: Format, value: &Option<Activation>) -> Result<(), NoMemory>
    ensures ok { OnOk result (out.new.items ≡ out.old.items ++ (last format).text value.now) }
    ensures grows { Grows out.old.items out.new.items }
{
    match value {
        None => {
            out.push(0)?;
            Ok(())
        }
        Some(last) => {
            out.push(1)?;
            push_shown(out, format, last)?;
            Ok(())
        }
    }
}

#[tactic(auto, using(exact_text::proofs::Growth::growth))]
pub(crate) fn push_row(out: &mut Vec<u8>, row: &[Cell]) -> Result<(), NoMemory>
    ensures ok { OnOk result (out.new.items ≡ out.old.items ++ flat_map cell.text row.now) }
    ensures grows { Grows out.old.items out.new.items }
{
    for cell in row {
        push_cell(out, *cell)?;
    }
    Ok(())
}

#[tactic(auto, using(exact_text::proofs::Growth::growth))]
fn push_rows(out: &mut Vec<u8>, rows: &[Row]) -> Result<(), NoMemory>
    ensures ok { OnOk result (out.new.items
        ≡ out.old.items ++ flat_map (flat_map cell.text) rows.now) }
    ensures grows { Grows out.old.items out.new.items }
{
    for row in rows {
        push_row(out, row.as_slice())?;
    }
    Ok(())
}

#[tactic(auto, using(crate::proofs::Steps::put), unfolding(crate::specs::Replies::view, crate::specs::Replies::rows))]
fn push_view(out: &mut Vec<u8>, format: Format, value: &ActiveView) -> Result<(), NoMemory>
    ensures ok { OnOk result (out.new.items ≡ out.old.items ++ (view format []).text value.now) }
    ensures grows { Grows out.old.items out.new.items }
{
    push_last(out, format, &value.last)?;
    push_rows(out, value.rows.as_slice())?;
    Ok(())
}

#[tactic(auto, using(crate::proofs::Steps::put), unfolding(crate::specs::Replies::pending))]
fn push_pending_item(out: &mut Vec<u8>, format: Format, value: &PendingItem) -> Result<(), NoMemory>
    requires { (pending format).Fits value.now }
    ensures ok { OnOk result (out.new.items ≡ out.old.items ++ (pending format).text value.now) }
    ensures grows { Grows out.old.items out.new.items }
{
    put64(out, value.id)?;
    push_when(out, value.when)?;
    push_moment(out, format, value.tick, value.offset)?;
    push_action(out, &value.action)?;
    Ok(())
}

#[tactic(auto, using(exact_text::proofs::Growth::growth))]
fn push_pending(out: &mut Vec<u8>, format: Format, items: &[PendingItem]) -> Result<(), NoMemory>
    requires { HoldsPending format items.now }
    ensures ok { OnOk result (out.new.items ≡ out.old.items ++ (counted (pending format)).text items.now) }
    ensures grows { Grows out.old.items out.new.items }
{
    out.push(items.len() as u8)?;
    for item in items {
        push_pending_item(out, format, item)?;
    }
    Ok(())
}

#[tactic(auto, using(crate::proofs::Steps::put), unfolding(crate::specs::Replies::row_fault))]
fn push_row_fault(out: &mut Vec<u8>, value: RowFault) -> Result<(), NoMemory>
    ensures ok { OnOk result (out.new.items ≡ out.old.items ++ row_fault.text value) }
    ensures grows { Grows out.old.items out.new.items }
{
    let (check, channel) = match value {
        RowFault::Input(channel) => (tags::INPUT_CHECK, channel),
        RowFault::Channel(channel) => (tags::CHANNEL_CHECK, channel),
        RowFault::NotRoutable(channel) => (tags::ROUTABLE_CHECK, channel),
        RowFault::Block(channel) => (tags::BLOCK_CHECK, channel),
        RowFault::Order(channel) => (tags::ORDER_CHECK, channel),
    };
    out.push(check)?;
    out.push(channel)?;
    Ok(())
}

#[tactic(auto, using(crate::proofs::Steps::put), unfolding(crate::specs::Replies::reply, crate::specs::Replies::refusal))]
pub(crate) fn push_refusal(
    out: &mut Vec<u8>,
    format: Format,
    value: Refusal,
) -> Result<(), NoMemory>
    ensures ok { OnOk result (out.new.items
        ≡ out.old.items ++ (reply format []).text (Refused value)) }
    ensures grows { Grows out.old.items out.new.items }
{
    match value {
        Refusal::Empty => out.push(tags::EMPTY)?,
        Refusal::Unknown { output } => {
            out.push(tags::UNKNOWN)?;
            out.push(output)?;
        }
        Refusal::BadChannel { output, channel } => {
            out.push(tags::BAD_CHANNEL)?;
            out.push(output)?;
            out.push(channel)?;
        }
        Refusal::Locked { output } => {
            out.push(tags::LOCKED)?;
            out.push(output)?;
        }
        Refusal::Row { output, fault } => {
            out.push(tags::ROW)?;
            out.push(output)?;
            push_row_fault(out, fault)?;
        }
        Refusal::Time => out.push(tags::TIME)?,
        Refusal::NotPending { id } => {
            out.push(tags::NOT_PENDING)?;
            put64(out, id)?;
        }
    }
    Ok(())
}

/// Writes a plain reply.
#[tactic(auto, using(crate::proofs::Steps::put), unfolding(crate::specs::Replies::reply))]
pub(crate) fn push_plain_reply(
    out: &mut Vec<u8>,
    format: Format,
    value: &Reply,
) -> Result<(), NoMemory>
    requires { HoldsReply format value.now }
    ensures ok { OnOk result (out.new.items
        ≡ out.old.items ++ (reply format []).text value.now) }
    ensures grows { Grows out.old.items out.new.items }
{
    match value {
        Reply::Activated { id, tick, offset } => {
            out.push(tags::ACTIVATED)?;
            put64(out, *id)?;
            push_moment(out, format, *tick, *offset)?;
            Ok(())
        }
        Reply::Scheduled { id, tick, offset } => {
            out.push(tags::SCHEDULED)?;
            put64(out, *id)?;
            push_moment(out, format, *tick, *offset)?;
            Ok(())
        }
        Reply::Deleted { id } => {
            out.push(tags::DELETED)?;
            put64(out, *id)?;
            Ok(())
        }
        Reply::Active(view) => {
            out.push(tags::ACTIVE)?;
            push_view(out, format, view)?;
            Ok(())
        }
        Reply::Pending(items) => {
            out.push(tags::PENDING)?;
            push_pending(out, format, items.as_slice())?;
            Ok(())
        }
        Reply::Refused(refusal) => {
            push_refusal(out, format, *refusal)?;
            Ok(())
        }
    }
}

//! What a table begins with that goes on from others.

ghost use Rattle.std.specs.Prelude.{◌≡◌, ◌<◌, ◌≤◌, ◌++◌, IfOk, OnOk, None, length, map};
ghost use Rattle.std.specs.List.{list_any, range_with_len};
ghost use Rattle.std.specs.Prelude.{eqb};
ghost use Rattle.map_entry.specs.declared.claims.TheConstants.{CLAIMS_LIMIT};
ghost use Rattle.plain_book.specs.Book.{unknown_by};
ghost use Rattle.map_entry.specs.Tick.{frame_key};
ghost use Rattle.book_words.specs.Calls.{action_of, call_due};
ghost use Rattle.plain_book.specs.Carry.{carried, first_entry, held_entry, waiting_entries};
ghost use Rattle.plain_book.specs.Desk.{IsDesk, parts};
ghost use Rattle.plain_book.specs.Rows.{AreEntries};
ghost use Rattle.plain_book.specs.Time.{tick_after};

use crate::moments::{Moment, first_after};
use crate::rows::row;
use crate::{BookState, JournalCall, PendingItem, Request, When};
use io_caps::{NoMemory, TryCopy};
use map_entry::{Entries, Entry, OutputChange, Setup};
use std::alloc::Global;

/// Each output's row from the first tick on that has not begun, as an entry.
fn first_entries(
    alloc: Global,
    setup: &Setup,
    entries: &[Entry],
    claims: u64,
    first: u64,
) -> Result<Entries, NoMemory>
    requires entries { AreEntries setup.now (frame_key first 0) entries.now }
    requires first { first ≡ tick_after setup.now claims }
    ensures { IfOk result (λ made. made ≡ map (first_entry setup.now entries.now claims)
        (range_with_len 0 (length setup.now.device.outputs))) }
{
    let mut made = Entries::new(alloc);
    for output in 0..setup.device.outputs() {
        let row = row(entries, output, first, 0).copy()?;
        made.push(Entry::new(output, first, 0, row, 0))?;
    }
    Ok(made)
}

/// Adds the entries that these changes have from a call on.
fn push_held(
    setup: &Setup,
    entries: &[Entry],
    first: u64,
    call: &JournalCall,
    changes: &[OutputChange],
    made: &mut Entries,
) -> Result<(), NoMemory>
    requires entries { AreEntries setup.now (frame_key first 0) entries.now }
    requires late { frame_key first 0 ≤ call_due call.now }
    requires outputs { unknown_by setup.now.device changes.now ≡ None }
    ensures { OnOk result (made.new ≡ made.old ++ map (held_entry entries.now call.now.at
        call.now.tick call.now.offset) changes.now) }
{
    match changes {
        [] => Ok(()),
        [change, rest @ ..] => {
            let output = change.output;
            let row = row(entries, output, call.tick, call.offset).copy()?;
            made.push(Entry::new(output, call.tick, call.offset, row, call.at))?;
            push_held(setup, entries, first, call, rest, made)
        }
    }
}

/// Whether the activation of an id is pending.
fn is_listed(pending: &[PendingItem], id: u64) -> bool
    ensures { result ≡ list_any (λ item. eqb item.id id) pending.now }
{
    pending.iter().any(|item| item.id == id)
}

/// Adds the entries of a call that is pending.
fn push_call(
    setup: &Setup,
    entries: &[Entry],
    pending: &[PendingItem],
    first: u64,
    call: &JournalCall,
    made: &mut Entries,
) -> Result<(), NoMemory>
    requires entries { AreEntries setup.now (frame_key first 0) entries.now }
    requires outputs { unknown_by setup.now.device (action_of call.now.request) ≡ None }
    ensures { OnOk result (made.new ≡ made.old ++ waiting_entries entries.now pending.now
        (frame_key first 0) call.now) }
{
    match &call.request {
        Request::Activate { when, action } => match when {
            When::Now => Ok(()),
            When::At(_) | When::After(_) => {
                let due = Moment {
                    tick: call.tick,
                    offset: call.offset,
                };
                if Moment::begin(first).is_before(due) && is_listed(pending, call.id) {
                    push_held(setup, entries, first, call, action.as_slice(), made)
                } else {
                    Ok(())
                }
            }
        },
        Request::Delete { id: _ } | Request::Active | Request::Pending => Ok(()),
    }
}

/// What a table begins with that starts after a number of claims, in place of the entries of this
/// book: each output's row, and the entries of the pending calls.
pub fn carry(
    alloc: Global,
    setup: &Setup,
    entries: &[Entry],
    kept: &BookState,
    claims: u64,
) -> Result<Entries, NoMemory>
    requires desk { IsDesk setup.now claims entries.now (parts kept.now) }
    requires claims { claims < CLAIMS_LIMIT }
    ensures { IfOk result (λ made. made ≡ carried setup.now kept.now.journal claims) }
{
    let first = first_after(setup, claims);
    let mut made = first_entries(alloc, setup, entries, claims, first)?;
    let pending = kept.pending.as_slice();
    let journal = kept.journal.as_slice();
    for at in 0..journal.len() {
        let call = &journal[at];
        push_call(setup, entries, pending, first, call, &mut made)?;
    }
    Ok(made)
}

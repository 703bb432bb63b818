//! What a book keeps, and how claims and accepted calls go into it. A call is staged, so that it
//! can be taken back, and then settled.

ghost use Rattle.std.specs.Prelude.{◌≡◌, ◌<◌, List, eqb, not, filter, OnOk, OnErr};
ghost use Rattle.plain_book.specs.Desk.{IsDesk, cut, is_above, latest_item, later_item, looked_at};
ghost use Rattle.plain_book.specs.Desk.{parts, settled, shown_item, staged};
ghost use Rattle.std.specs.Option.{option_or};
ghost use Rattle.map_entry.specs.Tick.{frame_key};
ghost use Rattle.map_entry.specs.declared.entry.Entry.{Entry};
ghost use Rattle.map_entry.specs.declared.claims.TheConstants.{CLAIMS_LIMIT};
ghost use Rattle.plain_book.specs.Time.{begin};

use crate::moments::first_after;
use crate::{Activation, Journal, JournalCall, PendingItem, Reply};
use io_caps::NoMemory;
use map_entry::{Entries, Setup, has_come};

/// What a book keeps beside the entries of its table.
#[derive(Debug, Drop)]
pub struct BookState {
    /// The number of claims from which on the entries select as the journal's do.
    pub from: u64,
    /// The number of claims up to which it has looked at what is pending.
    pub seen: u64,
    pub journal: Journal,
    /// The activations that were pending then.
    pub pending: Vec<PendingItem>,
    /// The activation that the active map showed then.
    pub last: Option<Activation>,
    /// The number of the next activation.
    pub next: u64,
}

/// What is left to do once a call stands.
#[derive(Clone, Copy, Debug)]
pub struct StateChange {
    /// The id of what it takes back.
    pub takes: Option<u64>,
    /// The activation that the active map shows after it.
    pub last: Option<Activation>,
    /// The number of the next activation after it.
    pub next: u64,
}

/// What an accepted request makes.
#[derive(Debug, Drop)]
pub struct Acceptance {
    pub call: JournalCall,
    /// The entries of the call.
    pub entries: Entries,
    /// The call as a pending activation, where it is one.
    pub item: Option<PendingItem>,
    /// The places that it takes of a table, with those of its deletion.
    pub places: u64,
    pub settling: StateChange,
}

/// What is decided of a request: the reply, and what is to be done, where it is accepted.
#[derive(Debug, Drop)]
pub struct Decision {
    pub reply: Reply,
    pub made: Option<Acceptance>,
}

/// A pending activation as the active map shows it.
fn shown_item(item: &PendingItem) -> Activation
    ensures { result ≡ shown_item item.now }
{
    Activation::new(item.id, item.when, item.tick, item.offset)
}

/// A pending activation, or the one that was chosen of those after it.
fn later_item(item: &PendingItem, next: Option<Activation>) -> Activation
    ensures { result ≡ later_item item.now next }
{
    match next {
        Some(next) if has_come(item.tick, item.offset, next.tick, next.offset) => next,
        _ => shown_item(item),
    }
}

/// Of the pending activations that count from a tick or before, the one that counts last, or else
/// the one before them.
fn last_passed(pending: &[PendingItem], first: u64, last: Option<Activation>) -> Option<Activation>
    ensures { result ≡ option_or (latest_item (filter (λ item. not (is_above (frame_key first 0) item))
        pending.now)) last }
{
    match latest_passed(pending, first) {
        Some(passed) => Some(passed),
        None => last,
    }
}

/// Of the pending activations that count from a tick or before, the one that counts last.
fn latest_passed(pending: &[PendingItem], first: u64) -> Option<Activation>
    ensures { result ≡ latest_item (filter (λ item. not (is_above (frame_key first 0) item)) pending.now) }
{
    let mut next = None;
    for at in (0..pending.len()).rev() {
        let item = &pending[at];
        if has_come(item.tick, item.offset, first, 0) {
            next = Some(later_item(item, next));
        }
    }
    next
}

/// Looks at what is pending after a number of claims: what counts by now is pending no more. It
/// takes no memory.
pub fn look(kept: &mut BookState, setup: &Setup, claims: u64)
    requires { claims < CLAIMS_LIMIT }
    ensures parts { parts kept.new ≡ looked_at (parts kept.old) (begin setup.now claims) claims }
    ensures desk { (entries : List Entry) → IsDesk setup.now claims entries (parts kept.old)
        → IsDesk setup.now claims entries (parts kept.new) }
{
    let first = first_after(setup, claims);
    kept.last = last_passed(kept.pending.as_slice(), first, kept.last);
    keep_above(&mut kept.pending, first);
    kept.seen = claims;
}

/// Leaves what counts from after a tick.
fn keep_above(pending: &mut Vec<PendingItem>, first: u64)
    ensures { pending.new.items ≡ filter (is_above (frame_key first 0)) pending.old.items }
{
    pending.retain(|item| !has_come(item.tick, item.offset, first, 0));
}

/// Puts a call after the others, and after what is pending, where it is. If memory runs out, both
/// lists stay as they were.
pub fn stage(
    kept: &mut BookState,
    call: JournalCall,
    item: Option<PendingItem>,
) -> Result<(), NoMemory>
    ensures ok { OnOk result (parts kept.new ≡ staged (parts kept.old) call item) }
    ensures err { OnErr result (parts kept.new ≡ parts kept.old) }
{
    match item {
        None => {
            kept.journal.push(call)?;
            Ok(())
        }
        Some(item) => {
            kept.pending.push(item)?;
            match kept.journal.push(call) {
                Ok(()) => Ok(()),
                Err(error) => {
                    let _last = kept.pending.pop();
                    Err(error)
                }
            }
        }
    }
}

/// Leaves a given number of calls and pending activations: what was staged is taken back. It takes
/// no memory.
pub fn unstage(kept: &mut BookState, calls: usize, items: usize)
    ensures { parts kept.new ≡ cut (parts kept.old) calls items }
{
    kept.journal.truncate(calls);
    kept.pending.truncate(items);
}

/// Does what is left to do once a call stands. It takes no memory.
pub fn settle(kept: &mut BookState, settling: StateChange)
    ensures { parts kept.new ≡ settled (parts kept.old) settling }
{
    match settling.takes {
        None => {}
        Some(id) => take_off(&mut kept.pending, id),
    }
    kept.last = settling.last;
    kept.next = settling.next;
}

/// Takes the activation of an id off.
fn take_off(pending: &mut Vec<PendingItem>, id: u64)
    ensures { pending.new.items ≡ filter (λ item. not (eqb id item.id)) pending.old.items }
{
    pending.retain(|item| id != item.id);
}

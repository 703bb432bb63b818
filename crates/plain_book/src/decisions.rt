//! What a book decides, over its table's entries and what it keeps. Nothing is changed.

ghost use Rattle.std.specs.Prelude.{◌≡◌, ◌<◌, ◌≤◌, ◌+◌, ◌*◌, false, IfOk, IfNone, None, length};
ghost use Rattle.std.specs.Prelude.{option_map};
ghost use Rattle.std.specs.Option.{option_copied};
ghost use Rattle.map_entry.specs.declared.claims.TheConstants.{CLAIMS_LIMIT};
ghost use Rattle.map_entry.specs.Action.{IsAction};
ghost use Rattle.map_entry.specs.Tick.{frame_key};
ghost use Rattle.plain_book.specs.Book.{refusal_of, unknown_by};
ghost use Rattle.plain_book.specs.Desk.{IsDecided, IsDesk, IsOpen, item_above, item_at};
ghost use Rattle.plain_book.specs.Desk.{last_behind, parts, refusal_from, taken_by};
ghost use Rattle.plain_book.specs.Moments.{moment_key};
ghost use Rattle.plain_book.specs.Places.{places_each};
ghost use Rattle.plain_book.specs.Pending.{pending_call};
ghost use Rattle.book_words.specs.Replies.{accepted};
ghost use Rattle.plain_book.specs.Rows.{AreEntries};
ghost use Rattle.plain_book.specs.Time.{is_over_from, land, land_from, tick_after};
ghost use Rattle.book_words.specs.declared.requests.Request.TheVariants.{Activate, Delete};

use crate::moments::{Moment, first_after, land};
use crate::refusals::{bad_channel, empty, locked, unknown};
use crate::rows::{Moments, bad_row, push_changes, push_kept};
use crate::shows::{show_active, show_pending};
use crate::{
    Acceptance, Activation, BookState, Decision, JournalCall, PendingItem, Refusal, Reply, Request,
    StateChange, When,
};
use io_caps::{NoMemory, TryCopy};
use map_entry::{Action, Entries, Entry, Setup, has_come};
use std::alloc::Global;

/// The places of each output that an activation names.
fn places_each(when: &When) -> u64
    ensures value { result ≡ places_each when.now }
    ensures few { result ≤ 2 }
{
    match when {
        When::Now => 1,
        When::At(_) => 2,
        When::After(_) => 2,
    }
}

/// The places of an action whose outputs are there.
fn places(setup: &Setup, when: &When, action: &Action) -> u64
    requires { unknown_by setup.now.device action.now ≡ None }
    ensures value { result ≡ places_each when.now * length action.now }
    ensures few { result ≤ 2 * length setup.now.device.outputs }
    ensures ordered { IsAction action.now }
{
    let _device = &setup.device;
    places_each(when) * action.len() as u64
}

/// The first refusal of an activation that applies.
#[tactic(auto, unfolding(crate::specs::Desk::refusal_from))]
fn refusal(
    alloc: Global,
    setup: &Setup,
    entries: &[Entry],
    kept: &BookState,
    moments: Moments,
    when: &When,
    action: &Action,
) -> Result<Option<Refusal>, NoMemory>
    requires entries { AreEntries setup.now (frame_key moments.first 0) entries.now }
    requires first { moments.first ≡ tick_after setup.now moments.claims }
    ensures value { IfOk result (λ r. r ≡ refusal_from setup.now entries.now kept.now.pending.items
        moments.claims when.now action.now) }
    ensures open { IfOk result (λ r. IfNone r (IsOpen setup.now action.now)) }
{
    let changes = action.as_slice();
    let device = &setup.device;
    if let Some(refusal) = empty(changes) {
        return Ok(Some(refusal));
    }
    if let Some(refusal) = unknown(device, changes) {
        return Ok(Some(refusal));
    }
    if let Some(refusal) = bad_channel(device, changes) {
        return Ok(Some(refusal));
    }
    if let Some(refusal) = locked(kept.pending.as_slice(), changes) {
        return Ok(Some(refusal));
    }
    let failed = bad_row(alloc, setup, entries, moments, action, changes)?;
    if let Some(refusal) = failed {
        return Ok(Some(refusal));
    }
    match land(setup, moments.first, when) {
        None => Ok(Some(Refusal::Time)),
        Some(_) => Ok(None),
    }
}

/// The pending activation of an id.
fn find_item(pending: &[PendingItem], id: u64) -> Option<&PendingItem>
    ensures { option_copied result ≡ item_at id pending.now }
{
    pending.iter().find(|item| item.id == id)
}

/// The pending activation that an accepted one is, where it counts from after the first tick that
/// has not begun.
fn item(
    moments: Moments,
    id: u64,
    when: &When,
    action: &Action,
) -> Result<Option<PendingItem>, NoMemory>
    ensures { IfOk result (λ made. made ≡ item_above (frame_key moments.first 0) id when.now moments.tick
        moments.offset action.now) }
{
    if !has_come(moments.tick, moments.offset, moments.first, 0) {
        let action = action.copy()?;
        Ok(Some(PendingItem::new(id, *when, moments.tick, moments.offset, action)))
    } else {
        Ok(None)
    }
}

/// The activation that the active map shows after an accepted one.
fn last_behind(
    moments: Moments,
    id: u64,
    when: &When,
    last: Option<Activation>,
) -> Option<Activation>
    ensures { result ≡ last_behind (frame_key moments.first 0) id when.now moments.tick
        moments.offset last }
{
    if !has_come(moments.tick, moments.offset, moments.first, 0) {
        last
    } else {
        Some(Activation::new(id, *when, moments.tick, moments.offset))
    }
}

fn accepted(when: &When, id: u64, tick: u64, offset: u16) -> Reply
    ensures { result ≡ accepted when.now id tick offset }
{
    match when {
        When::Now => Reply::Activated { id, tick, offset },
        When::At(_) => Reply::Scheduled { id, tick, offset },
        When::After(_) => Reply::Scheduled { id, tick, offset },
    }
}

/// Decides on an activation that is refused for nothing.
fn accept(
    alloc: Global,
    setup: &Setup,
    entries: &[Entry],
    kept: &BookState,
    moments: Moments,
    client: u8,
    request: &Request,
    when: &When,
    action: &Action,
) -> Result<Decision, NoMemory>
    requires asks { request.now ≡ Activate when.now action.now }
    requires desk { IsDesk setup.now moments.claims entries.now (parts kept.now) }
    requires looked { kept.now.seen ≡ moments.claims }
    requires free { refusal_of setup.now kept.now.journal moments.claims when.now action.now
        ≡ None }
    requires open { IsOpen setup.now action.now }
    requires first { moments.first ≡ tick_after setup.now moments.claims }
    requires lands { frame_key moments.tick moments.offset
        ≡ land setup.now moments.claims when.now }
    ensures { IfOk result (IsDecided setup.now moments.claims entries.now (parts kept.now) client
        request.now) }
{
    let id = kept.next;
    let next = match id.checked_add(1) {
        Some(next) => next,
        None => return Err(NoMemory),
    };
    let places = places(setup, when, action);
    let mut new = Entries::new(alloc);
    push_changes(
        alloc,
        setup,
        entries,
        moments,
        action,
        action.as_slice(),
        &mut new,
    )?;
    let item = item(moments, id, when, action)?;
    let call = JournalCall::new(
        moments.claims,
        client,
        id,
        moments.tick,
        moments.offset,
        request.copy()?,
    );
    let reply = accepted(when, id, moments.tick, moments.offset);
    let settling = StateChange {
        takes: None,
        last: last_behind(moments, id, when, kept.last),
        next,
    };
    let made = Acceptance {
        call,
        entries: new,
        item,
        places,
        settling,
    };
    Ok(Decision {
        reply,
        made: Some(made),
    })
}

/// From when the pending activation of an id counts, with the entries that keep its outputs' rows.
fn taken(
    alloc: Global,
    setup: &Setup,
    entries: &[Entry],
    kept: &BookState,
    claims: u64,
    first: u64,
    id: u64,
) -> Result<Option<(Moment, Entries)>, NoMemory>
    requires desk { IsDesk setup.now claims entries.now (parts kept.now) }
    requires looked { kept.now.seen ≡ claims }
    requires first { first ≡ tick_after setup.now claims }
    ensures { IfOk result (λ made. made ≡ option_map (taken_by setup.now entries.now claims)
        (pending_call setup.now kept.now.journal claims id)) }
{
    match find_item(kept.pending.as_slice(), id) {
        None => Ok(None),
        Some(item) => {
            let Moment { tick, offset } = Moment {
                tick: item.tick,
                offset: item.offset,
            };
            let moments = Moments {
                claims,
                first,
                tick,
                offset,
            };
            let mut made = Entries::new(alloc);
            push_kept(setup, entries, moments, item.action.as_slice(), &mut made)?;
            Ok(Some((Moment { tick, offset }, made)))
        }
    }
}

/// Decides on a deletion.
fn delete(
    alloc: Global,
    setup: &Setup,
    entries: &[Entry],
    kept: &BookState,
    claims: u64,
    first: u64,
    client: u8,
    request: &Request,
    id: u64,
) -> Result<Decision, NoMemory>
    requires asks { request.now ≡ Delete id }
    requires desk { IsDesk setup.now claims entries.now (parts kept.now) }
    requires looked { kept.now.seen ≡ claims }
    requires first { first ≡ tick_after setup.now claims }
    ensures { IfOk result (IsDecided setup.now claims entries.now (parts kept.now) client
        request.now) }
{
    match taken(alloc, setup, entries, kept, claims, first, id)? {
        None => {
            let reply = Reply::Refused(Refusal::NotPending { id });
            let made = None;
            Ok(Decision { reply, made })
        }
        Some((moment, new)) => {
            let Moment { tick, offset } = moment;
            let call = JournalCall::new(claims, client, 0, tick, offset, request.copy()?);
            let settling = StateChange {
                takes: Some(id),
                last: kept.last,
                next: kept.next,
            };
            let item = None;
            let made = Acceptance {
                call,
                entries: new,
                item,
                places: 0,
                settling,
            };
            Ok(Decision {
                reply: Reply::Deleted { id },
                made: Some(made),
            })
        }
    }
}

/// From when an activation counts that is not past the end of time.
fn landed(setup: &Setup, first: u64, when: &When) -> Moment
    requires { is_over_from setup.now first when.now ≡ false }
    ensures { moment_key result ≡ land_from setup.now first when.now }
{
    match land(setup, first, when) {
        Some(moment) => moment,
        // It was seen to have a start.
        None => Moment::begin(first),
    }
}

/// Decides on an activation.
fn activate(
    alloc: Global,
    setup: &Setup,
    entries: &[Entry],
    kept: &BookState,
    claims: u64,
    first: u64,
    client: u8,
    request: &Request,
    when: &When,
    action: &Action,
) -> Result<Decision, NoMemory>
    requires asks { request.now ≡ Activate when.now action.now }
    requires desk { IsDesk setup.now claims entries.now (parts kept.now) }
    requires looked { kept.now.seen ≡ claims }
    requires first { first ≡ tick_after setup.now claims }
    ensures { IfOk result (IsDecided setup.now claims entries.now (parts kept.now) client
        request.now) }
{
    let moments = Moments {
        claims,
        first,
        tick: first,
        offset: 0,
    };
    match refusal(alloc, setup, entries, kept, moments, when, action)? {
        Some(refusal) => {
            let reply = Reply::Refused(refusal);
            let made = None;
            Ok(Decision { reply, made })
        }
        None => {
            let Moment { tick, offset } = landed(setup, first, when);
            let moments = Moments {
                claims,
                first,
                tick,
                offset,
            };
            accept(
                alloc, setup, entries, kept, moments, client, request, when, action,
            )
        }
    }
}

/// Decides on a request after a number of claims, at which the book has looked at what is pending,
/// over the entries of its table. Nothing is changed.
pub fn decide(
    alloc: Global,
    setup: &Setup,
    entries: &[Entry],
    kept: &BookState,
    claims: u64,
    client: u8,
    request: &Request,
) -> Result<Decision, NoMemory>
    requires desk { IsDesk setup.now claims entries.now (parts kept.now) }
    requires looked { kept.now.seen ≡ claims }
    requires claims { claims < CLAIMS_LIMIT }
    ensures { IfOk result (IsDecided setup.now claims entries.now (parts kept.now) client
        request.now) }
{
    let first = first_after(setup, claims);
    match request {
        Request::Activate { when, action } => {
            activate(
                alloc, setup, entries, kept, claims, first, client, request, when, action,
            )
        }
        Request::Delete { id } => delete(
            alloc, setup, entries, kept, claims, first, client, request, *id,
        ),
        Request::Active => {
            let reply = show_active(alloc, setup, entries, kept, claims, first)?;
            let made = None;
            Ok(Decision { reply, made })
        }
        Request::Pending => {
            let reply = show_pending(alloc, kept)?;
            let made = None;
            Ok(Decision { reply, made })
        }
    }
}

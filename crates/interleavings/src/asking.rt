//! What a call does to what a core keeps.

ghost use Rattle.std.specs.Prelude.{◌≡◌, ◌≤◌, ◌+◌, ◌++◌, ◌∷◌, [], false, IfOk, IfSome, OnErr};
ghost use Rattle.std.specs.Prelude.{OnOk, length, slice_get, take};
ghost use Rattle.std.specs.List.{insert};
ghost use Rattle.plain_book.specs.Book.{reply_of};
ghost use Rattle.book_words.specs.History.{AreInOrder, comes_before, put, stamp};
ghost use Rattle.interleavings.specs.Core.{IsCore, desk_after, next_answer, plain_item};
ghost use Rattle.interleavings.specs.Events.{IsInRange};
ghost use Rattle.interleavings.specs.Legal.{accepts};
ghost use Rattle.interleavings.specs.declared.events.Event.TheVariants.{Call as ByCall};

use crate::facts::{Facts, Session};
use crate::{Answer, Event};
use io_caps::{NoMemory, TryCopy};
use plain_book::{
    Desk, Journal, JournalCall, PlainDesk, Reply, ReplyItem, ReplyItems, Request, Said, Stamp,
};
use std::mem;

/// A copy of a reply. Memory runs out only for replies that accept nothing.
fn copied(reply: &Reply) -> Result<Reply, NoMemory>
    ensures ok { IfOk result (λ made. made ≡ reply.now) }
    ensures err { OnErr result (accepts reply.now ≡ false) }
{
    match reply {
        Reply::Activated { id, tick, offset } => Ok(Reply::Activated {
            id: *id,
            tick: *tick,
            offset: *offset,
        }),
        Reply::Scheduled { id, tick, offset } => Ok(Reply::Scheduled {
            id: *id,
            tick: *tick,
            offset: *offset,
        }),
        Reply::Deleted { id } => Ok(Reply::Deleted { id: *id }),
        Reply::Active(view) => Ok(Reply::Active(view.copy()?)),
        Reply::Pending(items) => Ok(Reply::Pending(items.copy()?)),
        Reply::Refused(refusal) => Ok(Reply::Refused(*refusal)),
    }
}

/// Whether a reply stands before another.
fn comes_before(a: &ReplyItem, b: &ReplyItem) -> bool
    ensures { result ≡ comes_before a.now b.now }
{
    a.stamp.claims < b.stamp.claims
        || (a.stamp.claims == b.stamp.claims
            && (a.stamp.calls < b.stamp.calls
                || (a.stamp.calls == b.stamp.calls && a.client < b.client)))
}

/// The place of a reply among those in order: after all that may stand before it. The last ones
/// are looked at first, since a reply is mostly the last.
fn place(replies: &[ReplyItem], item: &ReplyItem) -> usize
    requires order { AreInOrder replies.now }
    ensures within { result ≤ length replies.now }
    ensures put { insert replies.now result item.now ≡ put replies.now item.now }
{
    let mut at = replies.len();
    while 0 < at && comes_before(item, &replies[at - 1]) {
        at -= 1;
    }
    at
}

/// Asks the book. If memory runs out, it stays as it was.
fn ask(desk: &mut PlainDesk, client: u8, request: &Request) -> Result<(Reply, Stamp), NoMemory>
    ensures reply { IfOk result (λ r. r.0
        ≡ reply_of desk.old.setup desk.old.journal desk.old.claims request.now) }
    ensures stamp { IfOk result (λ r. r.1 ≡ stamp (length desk.old.journal) desk.old.claims) }
    ensures desk { OnOk result (desk.new ≡ desk_after desk.old client request.now) }
    ensures err { OnErr result (desk.new ≡ desk.old) }
{
    desk.ask(client, request)
}

/// Asks the book, and puts the reply in its place. If memory runs out, both stay as they were.
fn answer(
    replies: &mut Vec<ReplyItem>,
    desk: &mut PlainDesk,
    client: u8,
    request: &Request,
) -> Result<(Reply, Stamp), NoMemory>
    requires order { AreInOrder replies.old.items }
    ensures reply { IfOk result (λ r. r.0
        ≡ reply_of desk.old.setup desk.old.journal desk.old.claims request.now) }
    ensures stamp { IfOk result (λ r. r.1 ≡ stamp (length desk.old.journal) desk.old.claims) }
    ensures desk { OnOk result (desk.new ≡ desk_after desk.old client request.now) }
    ensures put { OnOk result (replies.new.items
        ≡ put replies.old.items (plain_item desk.old client request.now)) }
    ensures err { OnErr result (replies.new.items ≡ replies.old.items) }
    ensures err_desk { OnErr result (desk.new ≡ desk.old) }
{
    replies.reserve(1)?;
    let (reply, stamp) = ask(desk, client, request)?;
    let said = Said::Plain(copied(&reply)?);
    let item = ReplyItem::new(client, stamp, said);
    let at = place(replies.as_slice(), &item);
    match replies.insert(at, item) {
        Ok(()) => Ok((reply, stamp)),
        Err(_) => unreachable!(),
    }
}

/// Makes a journal whose last call is to be put right, or is not there, that of the book.
fn keep(journal: &mut Journal, asked: &[JournalCall], count: usize, request: Request)
    requires long { length journal.old ≡ count + 1 }
    requires few { length asked.now ≤ count + 1 }
    requires same { take count journal.old ≡ take count asked.now }
    requires last { IfSome (slice_get asked.now count) (λ call. call.request ≡ request) }
    ensures { journal.new ≡ asked.now }
{
    if count < asked.len() {
        let last = &asked[count];
        let call = JournalCall::new(
            last.at,
            last.client,
            last.id,
            last.tick,
            last.offset,
            request,
        );
        journal.set(count, call);
    } else {
        journal.truncate(count);
    }
}

/// A client asks the book.
pub(crate) fn call(
    session: &Session,
    _events: &[Event],
    facts: &mut Facts,
    client: u8,
    request: &Request,
) -> Result<Answer, NoMemory>
    requires core { IsCore session.now _events.now facts.old }
    requires range { IsInRange session.now.setup session.now.workers (ByCall client request.now) }
    ensures answer { IfOk result (λ a. a
        ≡ next_answer session.now _events.now (ByCall client request.now)) }
    ensures core { OnOk result
        (IsCore session.now (_events.now ++ ByCall client request.now ∷ []) facts.new) }
    ensures err { OnErr result (IsCore session.now _events.now facts.new) }
{
    let calls = facts.history.journal.len();
    let copy = request.copy()?;
    // The call's place is made before the book is asked, so that nothing fails afterwards.
    let place = JournalCall::new(0, 0, 0, 0, 0, Request::Active);
    facts.history.journal.push(place)?;
    let kept = mem::replace(&mut facts.history.replies, ReplyItems::new(session.alloc));
    let mut replies = kept.into_vec();
    let asked = answer(&mut replies, &mut facts.desk, client, request);
    facts.history.replies = ReplyItems::from_vec(replies);
    match asked {
        Ok((reply, stamp)) => {
            let journal = facts.desk.journal().as_slice();
            keep(&mut facts.history.journal, journal, calls, copy);
            Ok(Answer::Replied { reply, stamp })
        }
        Err(error) => {
            facts.history.journal.truncate(calls);
            Err(error)
        }
    }
}

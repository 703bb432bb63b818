//! Books that are asked: the trait of whoever is asked, and the book on one thread.

ghost use Rattle.std.specs.Prelude.{◌≡◌, ◌+◌, ◌*◌, ◌<◌, ◌≤◌, ◌++◌, ◌∷◌, List, [], ℕ, IfOk, OnOk, OnErr};
ghost use Rattle.std.specs.Prelude.{Some, length};
ghost use Rattle.map_entry.specs.Entry.{selected};
ghost use Rattle.map_entry.specs.Row.{IsRowOf};
ghost use Rattle.map_entry.specs.Setup.{SetupParts};
ghost use Rattle.map_entry.specs.Tick.{position_key};
ghost use Rattle.map_entry.specs.declared.claims.TheConstants.{CLAIMS_LIMIT};
ghost use Rattle.plain_book.specs.Desk.{IsAnswer, IsAsked, IsDesk, IsMade, desk_parts, parts};
ghost use Rattle.plain_book.specs.Journal.{base_entries, entries_of};
ghost use Rattle.plain_book.specs.Legal.{IsLegalJournal};
ghost use Rattle.plain_book.specs.Rows.{AreEntries};
ghost use Rattle.plain_book.specs.Time.{key_at};
ghost use Rattle.book_words.specs.declared.calls.JournalCall.{JournalCall};
ghost use Rattle.book_words.specs.declared.replies.Reply.{Reply};
ghost use Rattle.book_words.specs.declared.requests.Request.{Request};
ghost use Rattle.book_words.specs.declared.requests.Stamp.{Stamp};

use crate::decisions::decide;
use crate::kept::{Acceptance, BookState, Decision, look, settle, stage};
use crate::moments::first_after;
use crate::rows::row_at;
use crate::ruling::prune;
use crate::{Journal, Reply, Request, Stamp};
use io_caps::{NoMemory, TryCopy};
use map_entry::{Entries, Entry, Row, Setup};
use std::alloc::Global;
use std::marker::Model;

/// A book that is asked.
pub trait Desk {
    /// The setup by which it answers.
    ghost setup: { Self → SetupParts };

    /// The calls that it accepted.
    ghost journal: { Self → List JournalCall };

    /// That it may be asked for a client. An answer uses this up: whether it may be asked again
    /// after one, only what it tells of the answer can say.
    ghost ready: { Self → ℕ → Type 0 };

    /// The names of the book and of the client's pass that it was lent, where it was lent them.
    ghost lent: { Self → ℕ × ℕ };

    /// What an ask keeps of what it was lent, with and without an answer.
    ghost keeps: { Self → Self → Type 0 };

    /// What it tells of an answer: as it was before and after, the client, the request, the reply
    /// and its place.
    ghost tells: { Self → Self → ℕ → Request → Reply → Stamp → Type 0 };

    /// What is as it was where it gave no answer, since memory ran out.
    ghost stays: { Self → Self → Type 0 };

    /// Answers a client's request at its journal and a number of claims, and keeps the call where
    /// it accepts one. Every other answer leaves the journal as it was, and so does running out of
    /// memory, after which it may be asked again.
    fn ask(&mut self, client: u8, request: &Request) -> Result<(Reply, Stamp), NoMemory>
        requires { ready self.old client }
        ensures asked { IfOk result (λ r. IsAsked (setup self.old) (journal self.old) (journal
            self.new) client request.now r.0 r.1) }
        ensures tells { IfOk result (λ r. tells self.old self.new client request.now r.0 r.1) }
        ensures err { OnErr result (journal self.new ≡ journal self.old) }
        ensures stays { OnErr result (stays self.old self.new) }
        ensures again { OnErr result (ready self.new client) }
        ensures setup { setup self.new ≡ setup self.old }
        ensures lent { lent self.new ≡ lent self.old }
        ensures keeps { keeps self.old self.new };
}

/// The entries of a book: all that were made, and those that can still be selected.
#[derive(Drop)]
struct Lists {
    all: Entries,
    live: Vec<Entry>,
}

/// The book on one thread, which contracts see by its setup, how many claims were made, and its
/// journal.
#[derive(Drop)]
pub struct PlainDesk {
    alloc: Global,
    setup: Setup,
    claims: u64,
    lists: Lists,
    kept: BookState,
}

impl Model for PlainDesk {
    ghost use Rattle.std.specs.Prelude.{◌<◌, ◌≡◌};
    ghost use Rattle.map_entry.specs.declared.claims.TheConstants.{CLAIMS_LIMIT};
    ghost use Rattle.plain_book.specs.Desk.{DeskParts, desk_parts, IsDesk, parts};
    ghost use Rattle.plain_book.specs.Journal.{entries_of};

    ghost Value = { DeskParts };

    ghost view = { λ d. desk_parts d.setup d.claims d.kept.journal };

    ghost invariant = { λ d. (d.claims < CLAIMS_LIMIT)
        × IsDesk d.setup d.claims d.lists.live.items (parts d.kept)
        × (d.lists.all ≡ entries_of d.setup d.kept.journal) };
}

/// The base rows as entries of the map, from the device's first tick on.
pub fn base_entries(alloc: Global, setup: &Setup) -> Result<Entries, NoMemory>
    ensures { IfOk result (λ made. made ≡ base_entries setup.now) }
{
    let rows = setup.rows.as_slice();
    let mut made = Entries::new(alloc);
    for output in 0..rows.len() {
        let row = rows[output].copy()?;
        made.push(Entry::new(output as u8, setup.device.base(), 0, row, 0))?;
    }
    Ok(made)
}

impl PlainDesk {
    /// The book of a setup, with no call and no claim.
    pub fn new(alloc: Global, setup: &Setup) -> Result<PlainDesk, NoMemory>
        ensures { IfOk result (λ made. made ≡ desk_parts setup.now 0 []) }
    {
        let _device = &setup.device;
        let all = base_entries(alloc, setup)?;
        let live = base_entries(alloc, setup)?.into_vec();
        let kept = BookState {
            from: 0,
            seen: 0,
            journal: Journal::new(alloc),
            pending: Vec::new(alloc),
            last: None,
            next: 1,
        };
        Ok(PlainDesk {
            alloc,
            setup: setup.copy()?,
            claims: 0,
            lists: Lists { all, live },
            kept,
        })
    }

    /// Makes one more claim.
    pub fn raise(&mut self)
        requires { self.old.claims + 1 < CLAIMS_LIMIT }
        ensures { self.new ≡ desk_parts self.old.setup (self.old.claims + 1) self.old.journal }
    {
        self.claims += 1;
    }

    /// Makes claims until there are as many as given.
    pub fn raise_to(&mut self, claims: u64)
        requires more { self.old.claims ≤ claims }
        requires few { claims < CLAIMS_LIMIT }
        ensures { self.new ≡ desk_parts self.old.setup claims self.old.journal }
    {
        self.claims = claims;
    }

    /// How many claims were made.
    pub fn claims(&self) -> u64
        ensures value { result ≡ self.now.claims }
        ensures few { result < CLAIMS_LIMIT }
    {
        self.claims
    }

    /// The calls that were accepted.
    pub fn journal(&self) -> &Journal
        ensures value { result.now ≡ self.now.journal }
        ensures legal { IsLegalJournal self.now.setup self.now.claims self.now.journal }
    {
        &self.kept.journal
    }

    /// The entries of the base rows and of the calls that were accepted.
    pub fn entries(&self) -> &[Entry]
        ensures value { result.now ≡ entries_of self.now.setup self.now.journal }
        ensures fit { AreEntries self.now.setup (key_at self.now.setup self.now.setup.device.base)
            result.now }
    {
        self.lists.all.as_slice()
    }

    /// The calls that were accepted, and the entries of the base rows and of these calls.
    pub fn into_parts(self) -> (Journal, Entries)
        ensures journal { result.0 ≡ self.journal }
        ensures entries { result.1 ≡ entries_of self.setup self.journal }
    {
        let PlainDesk { lists, kept, .. } = self;
        (kept.journal, lists.all)
    }

    /// The row that an output has at a position, which is a frame counted from TAI 0.
    pub fn row(&self, output: u8, position: u64) -> &Row
        requires output { output < length self.now.setup.device.outputs }
        requires position { self.now.setup.device.base * self.now.setup.device.rate.frames
            ≤ position }
        ensures value { selected (entries_of self.now.setup self.now.journal) output (position_key
            self.now.setup.device.rate.frames position) ≡ Some result.now }
        ensures fits { IsRowOf self.now.setup.device output result.now }
    {
        row_at(&self.setup, self.lists.all.as_slice(), output, position)
    }
}

/// Adds entries to both lists. If memory runs out, they stay as they were.
fn append(lists: &mut Lists, new: Entries) -> Result<(), NoMemory>
    ensures all { OnOk result (lists.new.all ≡ lists.old.all ++ new) }
    ensures live { OnOk result (lists.new.live.items ≡ lists.old.live.items ++ new) }
    ensures err_all { OnErr result (lists.new.all ≡ lists.old.all) }
    ensures err_live { OnErr result (lists.new.live.items ≡ lists.old.live.items) }
{
    let count = lists.live.len();
    let mut copies = new.copy()?.into_vec();
    lists.live.append(&mut copies)?;
    match lists.all.append(new) {
        Ok(()) => Ok(()),
        Err(error) => {
            lists.live.truncate(count);
            Err(error)
        }
    }
}

/// Keeps an accepted call with its entries. If memory runs out, everything stays as it was.
fn keep(
    setup: &Setup,
    lists: &mut Lists,
    kept: &mut BookState,
    claims: u64,
    made: Acceptance,
) -> Result<(), NoMemory>
    requires made { IsMade setup.now claims lists.old.live.items (parts kept.old) made }
    requires looked { kept.old.seen ≡ claims }
    requires claims { claims < CLAIMS_LIMIT }
    requires all { lists.old.all ≡ entries_of setup.now kept.old.journal }
    ensures journal { OnOk result (kept.new.journal ≡ kept.old.journal ++ made.call ∷ []) }
    ensures desk { OnOk result (IsDesk setup.now claims lists.new.live.items (parts kept.new)) }
    ensures all { OnOk result (lists.new.all ≡ entries_of setup.now kept.new.journal) }
    ensures err_kept { OnErr result (parts kept.new ≡ parts kept.old) }
    ensures err_all { OnErr result (lists.new.all ≡ lists.old.all) }
    ensures err_live { OnErr result (lists.new.live.items ≡ lists.old.live.items) }
{
    let Acceptance {
        call,
        entries,
        item,
        places: _,
        settling,
    } = made;
    let (count, fresh) = (lists.all.len(), lists.live.len());
    append(lists, entries)?;
    match stage(kept, call, item) {
        Ok(()) => {
            settle(kept, settling);
            kept.from = claims;
            prune(&mut lists.live, fresh, first_after(setup, claims));
            Ok(())
        }
        Err(error) => {
            lists.all.truncate(count);
            lists.live.truncate(fresh);
            Err(error)
        }
    }
}

/// Answers a request after a number of claims, at which it has looked at what is pending, and keeps
/// the call where one is accepted.
fn answer_now(
    alloc: Global,
    setup: &Setup,
    lists: &mut Lists,
    kept: &mut BookState,
    claims: u64,
    client: u8,
    request: &Request,
) -> Result<Reply, NoMemory>
    requires desk { IsDesk setup.now claims lists.old.live.items (parts kept.old) }
    requires looked { kept.old.seen ≡ claims }
    requires claims { claims < CLAIMS_LIMIT }
    requires all { lists.old.all ≡ entries_of setup.now kept.old.journal }
    ensures answer { IfOk result (IsAnswer setup.now claims kept.old.journal kept.new.journal client
        request.now) }
    ensures desk { IsDesk setup.now claims lists.new.live.items (parts kept.new) }
    ensures all { lists.new.all ≡ entries_of setup.now kept.new.journal }
    ensures err { OnErr result (kept.new.journal ≡ kept.old.journal) }
{
    let live = lists.live.as_slice();
    let Decision { reply, made } = decide(alloc, setup, live, kept, claims, client, request)?;
    match made {
        None => Ok(reply),
        Some(made) => {
            keep(setup, lists, kept, claims, made)?;
            Ok(reply)
        }
    }
}

/// Answers a request after a number of claims, and keeps the call where one is accepted.
fn answer(
    alloc: Global,
    setup: &Setup,
    lists: &mut Lists,
    kept: &mut BookState,
    claims: u64,
    client: u8,
    request: &Request,
) -> Result<Reply, NoMemory>
    requires desk { IsDesk setup.now claims lists.old.live.items (parts kept.old) }
    requires claims { claims < CLAIMS_LIMIT }
    requires all { lists.old.all ≡ entries_of setup.now kept.old.journal }
    ensures answer { IfOk result (IsAnswer setup.now claims kept.old.journal kept.new.journal client
        request.now) }
    ensures desk { IsDesk setup.now claims lists.new.live.items (parts kept.new) }
    ensures all { lists.new.all ≡ entries_of setup.now kept.new.journal }
    ensures err { OnErr result (kept.new.journal ≡ kept.old.journal) }
{
    look(kept, setup, claims);
    answer_now(alloc, setup, lists, kept, claims, client, request)
}

impl Desk for PlainDesk {
    ghost setup = { λ d. d.setup };

    ghost journal = { λ d. d.journal };

    ghost ready = { λ d client. Unit {0} };

    ghost lent = { λ d. (0, 0) };

    ghost keeps = { λ a b. a.claims ≡ b.claims };

    ghost tells = { λ a b client request reply stamp. stamp.claims ≡ a.claims };

    ghost stays = { λ a b. b ≡ a };

    fn ask(&mut self, client: u8, request: &Request) -> Result<(Reply, Stamp), NoMemory>
        ensures asked { IfOk result (λ r. IsAsked self.old.setup self.old.journal self.new.journal
            client request.now r.0 r.1) }
        ensures tells { IfOk result (λ r. r.1.claims ≡ self.old.claims) }
        ensures err { OnErr result (self.new.journal ≡ self.old.journal) }
        ensures stays { OnErr result (self.new ≡ self.old) }
        ensures again { OnErr result (Unit {0}) }
        ensures setup { self.new.setup ≡ self.old.setup }
        ensures lent { ◌≡◌ {A = ℕ × ℕ} (0, 0) (0, 0) }
        ensures keeps { self.old.claims ≡ self.new.claims }
    {
        let calls = self.kept.journal.len() as u64;
        let claims = self.claims;
        let lists = &mut self.lists;
        let reply = answer(
            self.alloc,
            &self.setup,
            lists,
            &mut self.kept,
            claims,
            client,
            request,
        )?;
        Ok((reply, Stamp { calls, claims }))
    }
}

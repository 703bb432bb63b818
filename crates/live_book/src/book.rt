//! The book over a table.

ghost use Rattle.std.specs.Prelude.{◌≡◌, ◌+◌, ◌^◌, ◌<◌, ◌++◌, ◌∷◌, [], true, false, length, drop};
ghost use Rattle.std.specs.Prelude.{IfErr, IfOk, MatchResult, OnErr};
ghost use Rattle.io_caps.specs.declared.limits.TheConstants.{CLIENTS};
ghost use Rattle.map_entry.specs.declared.claims.TheConstants.{CLAIMS_LIMIT};
ghost use Rattle.claim_rule.specs.Views.{note, noted};
ghost use Rattle.claim_word.specs.Faces.{IsClientOf, IsPublisherOf};
ghost use Rattle.plain_book.specs.Desk.{IsAsked};
ghost use Rattle.plain_book.specs.Given.{given_item};
ghost use Rattle.plain_book.specs.Journal.{base_entries};
ghost use Rattle.plain_book.specs.Carry.{carried};
ghost use Rattle.plain_book.specs.Desk.{parts};
ghost use Rattle.live_book.specs.Books.{Agrees, IsBook, book_of, new_book, rest_of};
ghost use Rattle.live_book.specs.Places.{answer_places, is_aside, may_reserve, spent, with_aside};
ghost use Rattle.live_book.specs.Tries.{AreBelow, GoesOn, IsLoadedOnce, IsSame, IsStill, IsTry};
ghost use Rattle.live_book.specs.Tries.{IsUnder, answer_entries};

use crate::attempt::{Under, attempt};
use crate::places::Places;
use crate::rest::Rest;
use claim_word::{ClaimTable, ClientPass, Publisher};
use io_caps::{NoMemory, TryCopy};
use map_entry::{Entries, Setup};
use plain_book::{BookState, GivenItems, Journal, JournalCall, Reply, Request, Stamp, carry};
use std::alloc::Global;
use std::marker::Model;

/// A table's publisher, with the calls that were accepted and the answers that were given.
/// Contracts see these and the setup.
#[derive(Drop)]
pub struct Book {
    alloc: Global,
    setup: Setup,
    publisher: Publisher,
    kept: BookState,
    given: GivenItems,
    /// How many calls stand before the table's first claim.
    begun: usize,
    places: Places,
}

impl Model for Book {
    ghost use Rattle.plain_book.specs.Desk.{parts};
    ghost use Rattle.live_book.specs.Books.{BookFace, IsBook, book_of};

    ghost Value = { BookFace };

    ghost view = { λ b. book_of b.setup b.publisher b.kept.journal b.given b.begun b.places };

    ghost invariant = { λ b. IsBook b.setup b.publisher.view (parts b.kept) b.given b.begun
        b.places };
}

/// Copies of these calls.
fn copies(alloc: Global, calls: &[JournalCall]) -> Result<Journal, NoMemory>
    ensures { IfOk result (λ made. made ≡ calls.now) }
{
    let mut made = Journal::new(alloc);
    for call in calls {
        made.push(call.copy()?)?;
    }
    Ok(made)
}

impl Book {
    /// The book of a setup over a table that has just the base rows as entries, with no call.
    pub fn new(alloc: Global, setup: &Setup, publisher: Publisher) -> Result<Book, NoMemory>
        requires setup { publisher.view.plan.setup ≡ setup.now }
        requires from { publisher.view.plan.from ≡ 0 }
        requires entries { publisher.view.entries ≡ base_entries setup.now }
        ensures { IfOk result (λ made. made ≡ new_book setup.now publisher) }
    {
        let kept = BookState {
            from: 0,
            seen: 0,
            journal: Journal::new(alloc),
            pending: Vec::new(alloc),
            last: None,
            next: 1,
        };
        let outputs = u64::from(setup.device.outputs());
        Ok(Book {
            alloc,
            setup: setup.copy()?,
            publisher,
            kept,
            given: GivenItems::new(alloc),
            begun: 0,
            places: Places::new(outputs, 2 * outputs),
        })
    }

    /// The book of these parts over a table.
    pub(crate) fn of_parts(
        alloc: Global,
        setup: Setup,
        publisher: Publisher,
        kept: BookState,
        begun: usize,
        places: Places,
    ) -> Book
        requires { IsBook setup publisher.view (parts kept) [] begun places }
        ensures { result ≡ book_of setup publisher kept.journal [] begun places }
    {
        Book {
            alloc,
            setup,
            publisher,
            kept,
            given: GivenItems::new(alloc),
            begun,
            places,
        }
    }

    /// Sets places aside for a client's next request, or keeps those that are, so that there are
    /// enough for any. False comes exactly where none are set aside for it and there are too few
    /// left; then nothing changes.
    pub fn reserve(&mut self, client: u8) -> bool
        requires { client < CLIENTS }
        ensures answer { result ≡ may_reserve self.old.places client }
        ensures set { result ≡ true → self.new ≡ record self.old {
          places = with_aside
              self.old.places client true;
        } }
        ensures none { result ≡ false → self.new ≡ self.old }
        ensures there { result ≡ true → is_aside self.new.places client ≡ true }
    {
        self.places.reserve(client)
    }

    /// Drops what is set aside for a client.
    pub fn release(&mut self, client: u8)
        requires { client < CLIENTS }
        ensures { self.new ≡ record self.old { places = with_aside self.old.places client false } }
    {
        self.places.release(client);
    }

    /// How many claims there are once all of this table's are made.
    fn end(&self) -> u64
        ensures value { result ≡ self.now.publisher.view.plan.from
            + self.now.publisher.view.plan.packets }
        ensures few { result < CLAIMS_LIMIT }
    {
        self.publisher.claims_at(self.publisher.most_drawn() as u32)
    }

    /// What a table begins with that follows this one: each output's row, and the entries of what
    /// is pending.
    pub fn carry(&self) -> Result<Entries, NoMemory>
        ensures { IfOk result (λ made. made ≡ carried self.now.setup self.now.journal
            (self.now.publisher.view.plan.from + self.now.publisher.view.plan.packets)) }
    {
        let entries = self.publisher.entries();
        carry(self.alloc, &self.setup, entries, &self.kept, self.end())
    }

    /// The book after the table's last claim, with what a next table begins with, and apart from
    /// it the publisher and the answers. If memory runs out, the book comes back as it was.
    pub fn rest(self) -> Result<(Publisher, GivenItems, Rest), Book>
        ensures rested { IfOk result (λ r. (r.0 ≡ self.publisher) × (r.1 ≡ self.given)
            × (r.2 ≡ rest_of self.setup
            (self.publisher.view.plan.from + self.publisher.view.plan.packets) self.journal)) }
        ensures agrees { Agrees self }
        ensures err { IfErr result (λ book. book ≡ self) }
    {
        let claims = self.end();
        match self.carry() {
            Err(_) => Err(self),
            Ok(base) => {
                let Book {
                    alloc,
                    setup,
                    publisher,
                    kept,
                    given,
                    begun: _,
                    places: _,
                } = self;
                Ok((
                    publisher,
                    given,
                    Rest::of_parts(alloc, setup, kept, base, claims),
                ))
            }
        }
    }

    /// The calls that were accepted.
    pub fn journal(&self) -> &Journal
        ensures { result.now ≡ self.now.journal }
    {
        &self.kept.journal
    }

    /// Copies of the calls that were accepted over this table.
    pub fn calls_since(&self) -> Result<Journal, NoMemory>
        ensures { IfOk result (λ made. made ≡ drop self.now.begun self.now.journal) }
    {
        copies(self.alloc, &self.kept.journal.as_slice()[self.begun..])
    }

    /// The answers that were given over this table, in their order.
    pub fn answers(&self) -> &GivenItems
        ensures value { result.now ≡ self.now.given }
        ensures agrees { Agrees self.now }
    {
        &self.given
    }

    /// Gives publisher, calls and answers back, which takes no memory.
    pub fn into_parts(self) -> (Publisher, Journal, GivenItems)
        ensures publisher { result.0 ≡ self.publisher }
        ensures journal { result.1 ≡ self.journal }
        ensures given { result.2 ≡ self.given }
        ensures agrees { Agrees self }
    {
        let Book {
            alloc: _,
            setup: _,
            publisher,
            kept,
            given,
            begun: _,
            places: _,
        } = self;
        let BookState {
            from: _,
            seen: _,
            journal,
            pending: _,
            last: _,
            next: _,
        } = kept;
        (publisher, journal, given)
    }

    /// How many numbers are drawn of the table at most.
    pub(crate) fn most_drawn(&self) -> u64
        ensures value { result ≡ self.now.publisher.view.plan.packets
            + self.now.publisher.view.plan.workers }
        ensures few { result < 2 ^ 32 }
    {
        self.publisher.most_drawn()
    }

    /// The publisher is told of all that a client has seen.
    fn hear(&mut self, table: &ClaimTable, pass: &mut ClientPass)
        requires of { IsPublisherOf table.now self.old.publisher }
        requires of_pass { IsClientOf table.now pass.old }
        ensures of { IsPublisherOf table.now self.new.publisher }
        ensures book { self.new ≡ record self.old {
          publisher = record self.old.publisher {
            view = noted self.old.publisher.view (note pass.old.view);
          };
        } }
        ensures pass { pass.new ≡ pass.old }
    {
        self.publisher.hear(table, pass);
    }

    /// A client is told of all that the publisher has seen.
    fn tell(&mut self, table: &ClaimTable, pass: &mut ClientPass)
        requires of { IsPublisherOf table.now self.old.publisher }
        requires of_pass { IsClientOf table.now pass.old }
        ensures of_pass { IsClientOf table.now pass.new }
        ensures pass { pass.new ≡ record pass.old {
          view = noted pass.old.view (note self.old.publisher.view);
        } }
        ensures book { self.new ≡ self.old }
    {
        pass.hear(table, &mut self.publisher);
    }

    /// One try to answer, at the claims of a load.
    fn answer(
        &mut self,
        table: &ClaimTable,
        client: u8,
        request: &Request,
    ) -> Result<(Reply, Stamp), Under>
        requires of { IsPublisherOf table.now self.old.publisher }
        requires aside { is_aside self.old.places client ≡ true }
        ensures of { IsPublisherOf table.now self.new.publisher }
        ensures face { self.new.publisher ≡ record self.old.publisher {
          view = self.new.publisher.view;
        } }
        ensures setup { self.new.setup ≡ self.old.setup }
        ensures begun { self.new.begun ≡ self.old.begun }
        ensures spent { IfOk result (λ r. self.new.places ≡ spent self.old.places client
            (answer_places self.old.setup self.old.journal client r.1.claims request.now r.0)) }
        ensures kept_places { OnErr result (self.new.places ≡ self.old.places) }
        ensures tried { IfOk result (λ r. IsTry self.old.setup self.old.publisher.view
            self.new.publisher.view self.old.journal self.new.journal self.old.given self.new.given
            client request.now r.0 r.1) }
        ensures still { OnErr result (IsStill self.old.publisher.view self.new.publisher.view
            self.old.journal self.new.journal self.old.given self.new.given) }
        ensures under { IfErr result (IsUnder self.old.publisher.view self.new.publisher.view) }
    {
        attempt(
            self.alloc,
            &self.setup,
            table,
            &mut self.publisher,
            &mut self.kept,
            &mut self.given,
            self.begun,
            &mut self.places,
            client,
            request,
        )
    }
}

/// One try to answer a client's request, on the book that is lent: by one load of the table's state
/// and at most one exchange. The claims of the answer's stamp are those of the load, and not below
/// any that the client's pass had seen; then the pass is told of them. Places are set aside for the
/// client, and an answer takes what it needs of them. A call that is accepted stands with all its
/// entries at once. Every other answer leaves calls and entries as they were, and a fault the
/// answers too: `Moved` comes exactly where the exchange failed.
pub fn publish_under(
    book: &mut Book,
    pass: &mut ClientPass,
    table: &ClaimTable,
    client: u8,
    request: &Request,
) -> Result<(Reply, Stamp), Under>
    requires of { IsPublisherOf table.now book.old.publisher }
    requires of_pass { IsClientOf table.now pass.old }
    requires aside { is_aside book.old.places client ≡ true }
    ensures of { IsPublisherOf table.now book.new.publisher }
    ensures of_pass { IsClientOf table.now pass.new }
    ensures spent { IfOk result (λ r. book.new.places ≡ spent book.old.places client (answer_places
        book.old.setup book.old.journal client r.1.claims request.now r.0)) }
    ensures kept_places { OnErr result (book.new.places ≡ book.old.places) }
    ensures asked { IfOk result (λ r. IsAsked book.old.setup book.old.journal book.new.journal
        client request.now r.0 r.1) }
    ensures given { IfOk result (λ r. book.new.given
        ≡ book.old.given ++ given_item client request.now r.0 r.1 ∷ []) }
    ensures entries { IfOk result (λ r. book.new.publisher.view.entries
        ≡ book.old.publisher.view.entries ++ answer_entries book.old.setup book.old.journal client
        r.1.claims request.now r.0) }
    ensures load { IfOk result (λ r. IsLoadedOnce book.old.publisher.view book.new.publisher.view
        r.1.claims) }
    ensures floor { IfOk result (λ r. AreBelow book.old.publisher.view.plan r.1.claims
        (pass.old.view.sights ++ pass.old.view.told)) }
    ensures err { OnErr result (IsSame book.old book.new) }
    ensures under { IfErr result (IsUnder book.old.publisher.view book.new.publisher.view) }
    ensures goes_on { GoesOn book.old book.new }
    ensures pass { pass.new ≡ record pass.old {
      view = noted pass.old.view (note book.new.publisher.view);
    } }
{
    book.hear(table, pass);
    let answer = book.answer(table, client, request);
    book.tell(table, pass);
    answer
}

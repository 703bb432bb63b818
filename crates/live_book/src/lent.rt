//! A desk for one ask on a book that is lent.

ghost use Rattle.std.specs.Prelude.{◌≡◌, ◌++◌, ◌∷◌, [], ℕ, true, IfOk, OnErr};
ghost use Rattle.claim_word.specs.Faces.{IsClientOf, IsPublisherOf};
ghost use Rattle.plain_book.specs.Desk.{IsAsked};
ghost use Rattle.plain_book.specs.Given.{given_item};
ghost use Rattle.live_book.specs.Places.{answer_places, is_aside, spent};
ghost use Rattle.live_book.specs.Lent.{HeardMore, IsFewLoads, IsLentSo, IsNoted, IsUnanswered};
ghost use Rattle.live_book.specs.Tries.{AreBelow, GoesOn, IsLoadedLast, IsSame, answer_entries};

use crate::attempt::Under;
use crate::book::{Book, publish_under};
use claim_word::{ClaimTable, ClientPass};
use io_caps::NoMemory;
use plain_book::{Desk, Reply, Request, Stamp};

/// Tries to answer a client's request until it is answered, on the book that is lent: again after
/// each exchange that failed, which is at most as often as the table has packets and workers.
fn answer_lent(
    book: &mut Book,
    pass: &mut ClientPass,
    table: &ClaimTable,
    client: u8,
    request: &Request,
) -> Result<(Reply, Stamp), NoMemory>
    requires of { IsPublisherOf table.now book.old.publisher }
    requires of_pass { IsClientOf table.now pass.old }
    requires aside { is_aside book.old.places client ≡ true }
    ensures of { IsPublisherOf table.now book.new.publisher }
    ensures of_pass { IsClientOf table.now pass.new }
    ensures spent { IfOk result (λ r. book.new.places ≡ spent book.old.places client (answer_places
        book.old.setup book.old.journal client r.1.claims request.now r.0)) }
    ensures kept_places { OnErr result (book.new.places ≡ book.old.places) }
    ensures asked { IfOk result (λ r. IsAsked book.old.setup book.old.journal book.new.journal
        client request.now r.0 r.1) }
    ensures given { IfOk result (λ r. book.new.given
        ≡ book.old.given ++ given_item client request.now r.0 r.1 ∷ []) }
    ensures entries { IfOk result (λ r. book.new.publisher.view.entries
        ≡ book.old.publisher.view.entries ++ answer_entries book.old.setup book.old.journal client
        r.1.claims request.now r.0) }
    ensures load { IfOk result (λ r. IsLoadedLast book.old.publisher.view book.new.publisher.view
        r.1.claims) }
    ensures floor { IfOk result (λ r. AreBelow book.old.publisher.view.plan r.1.claims
        (pass.old.view.sights ++ pass.old.view.told)) }
    ensures err { OnErr result (IsSame book.old book.new) }
    ensures few { IsFewLoads book.old.publisher.view.plan book.old.publisher.view
        book.new.publisher.view }
    ensures goes_on { GoesOn book.old book.new }
    ensures heard { HeardMore pass.old pass.new }
{
    let most = book.most_drawn();
    for _ in 0..most + 1 {
        match publish_under(book, pass, table, client, request) {
            Ok(answer) => return Ok(answer),
            Err(Under::NoMemory) => return Err(NoMemory),
            Err(Under::Moved { claims: _ }) => {}
        }
    }
    unreachable!()
}

/// A desk for one ask of one client, on a book that is lent.
#[derive(Drop)]
pub struct LentDesk<'a> {
    pass: &'a mut ClientPass,
    table: &'a ClaimTable,
    book: &'a mut Book,
    client: u8,
    ghost of: { IsPublisherOf table.now book.now.publisher },
    ghost of_pass: { IsClientOf table.now pass.now },
}

impl<'a> LentDesk<'a> {
    /// The desk of a client for which places are set aside.
    pub fn new(
        pass: &'a mut ClientPass,
        table: &'a ClaimTable,
        book: &'a mut Book,
        client: u8,
    ) -> LentDesk<'a>
        requires of { IsPublisherOf table.now book.old.publisher }
        requires of_pass { IsClientOf table.now pass.old }
        requires aside { is_aside book.old.places client ≡ true }
        ensures book { (result.book.ghost_name ≡ book.entry.ghost_name) × (result.book.now ≡
            book.old) }
        ensures pass { (result.pass.ghost_name ≡ pass.entry.ghost_name) × (result.pass.now ≡
            pass.old) }
        ensures table { result.table.now ≡ table.now }
        ensures ready { result.client ≡ client }
    {
        LentDesk {
            pass,
            table,
            book,
            client,
        }
    }
}

impl<'a> Desk for LentDesk<'a> {
    ghost use Rattle.std.specs.Prelude.{◌≡◌, true};
    ghost use Rattle.live_book.specs.Lent.{IsLentSo, IsNoted, IsUnanswered};
    ghost use Rattle.live_book.specs.Places.{is_aside};

    ghost setup = { λ d. d.book.now.setup };

    ghost journal = { λ d. d.book.now.journal };

    ghost ready = { λ d client. (is_aside d.book.now.places client ≡ true)
        × (d.client ≡ client) };

    ghost lent = { λ d. (d.book.ghost_name, d.pass.ghost_name) };

    ghost keeps = { λ d e. IsLentSo d.table.now d.book.now e.book.now d.pass.now e.pass.now };

    ghost tells = { λ d e client request reply stamp. IsNoted d.book.now e.book.now d.pass.now
        client request reply stamp };

    ghost stays = { λ d e. IsUnanswered d.book.now e.book.now };

    fn ask(&mut self, client: u8, request: &Request) -> Result<(Reply, Stamp), NoMemory>
        requires { (is_aside self.old.book.now.places client ≡ true) × (self.old.client ≡ client) }
        ensures asked { IfOk result (λ r. IsAsked self.old.book.now.setup self.old.book.now.journal
            self.new.book.now.journal client request.now r.0 r.1) }
        ensures tells { IfOk result (λ r. IsNoted self.old.book.now self.new.book.now
            self.old.pass.now client request.now r.0 r.1) }
        ensures err { OnErr result (self.new.book.now.journal ≡ self.old.book.now.journal) }
        ensures stays { OnErr result (IsUnanswered self.old.book.now self.new.book.now) }
        ensures again { OnErr result ((is_aside self.new.book.now.places client ≡ true)
            × (self.new.client ≡ client)) }
        ensures few { IsFewLoads self.old.book.now.publisher.view.plan
            self.old.book.now.publisher.view self.new.book.now.publisher.view }
        ensures setup { self.new.book.now.setup ≡ self.old.book.now.setup }
        ensures lent { ◌≡◌ {A = ℕ × ℕ} (self.new.book.ghost_name, self.new.pass.ghost_name)
            (self.old.book.ghost_name, self.old.pass.ghost_name) }
        ensures keeps { IsLentSo self.old.table.now self.old.book.now self.new.book.now
            self.old.pass.now self.new.pass.now }
    {
        answer_lent(self.book, self.pass, self.table, client, request)
    }
}

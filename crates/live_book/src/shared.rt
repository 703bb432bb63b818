//! What clients share: the book, and what each still asks.

ghost use Rattle.std.specs.Prelude.{◌≡◌, ◌<◌, ◌++◌, ◌∷◌, ◌&&◌, [], ℕ, IfOk, IfSome, OnErr, false};
ghost use Rattle.std.specs.Prelude.{length};
ghost use Rattle.std.specs.Prelude.{slice_get, true};
ghost use Rattle.std.specs.Option.{option_copied};
ghost use Rattle.claim_word.specs.Faces.{IsClientOf, IsPublisherOf};
ghost use Rattle.plain_book.specs.Desk.{IsAsked};
ghost use Rattle.plain_book.specs.Given.{given_item};
ghost use Rattle.live_book.specs.Named.{IsNextAnswered, IsShared, has_left, left_of, without_first};
ghost use Rattle.io_caps.specs.declared.limits.TheConstants.{CLIENTS};
ghost use Rattle.live_book.specs.Places.{is_aside, may_reserve};
ghost use Rattle.live_book.specs.Tries.{GoesOn, IsSame};
ghost use Rattle.live_book.specs.Lent.{HeardMore};

use crate::asks::{AskList, AskLists};
use crate::book::Book;
use crate::lent::LentDesk;
use claim_word::{ClaimTable, ClientPass};
use io_caps::NoMemory;
use plain_book::{Desk, Reply, Request, Stamp};
use std::marker::{Brand, Model, PhantomData};

/// Names a table, the book that its clients share as it was at first, and what each client asks by
/// its number. Each call that is generic over it picks these.
pub trait Named {
    ghost use Rattle.std.specs.Prelude.{ℕ, List};
    ghost use Rattle.claim_word.specs.Faces.{TableFace};
    ghost use Rattle.book_words.specs.declared.requests.Request.{Request};
    ghost use Rattle.live_book.specs.Books.{BookFace};

    ghost table: { TableFace };

    ghost book: { BookFace };

    ghost asks: { ℕ → List Request };
}

impl Named for Brand {
    ghost use Rattle.live_book.specs.Nobody.{no_asks, no_book, no_table};

    ghost table = { no_table };

    ghost book = { no_book };

    ghost asks = { no_asks };
}

/// What clients share: the book, which goes on from the one named, and what each of them still asks
/// of what it asks in all.
#[derive(Drop)]
pub struct Shared<N: Named> {
    book: Book,
    left: Vec<AskList>,
    of: PhantomData<N>,
}

impl<N: Named> Model for Shared<N> {
    ghost use Rattle.live_book.specs.Named.{IsShared, SharedFace};

    ghost Value = { SharedFace };

    ghost view = { λ s. record { book = s.book; left = s.left.items } };

    ghost invariant = { λ s. IsShared N.table N.book N.asks s.book s.left.items };
}

/// The first request that a client asks.
fn first_of(left: &[AskList], client: u8) -> Option<&Request>
    ensures value { option_copied result ≡ slice_get (left_of left.now client) 0 }
    ensures there { IfSome result (λ _. client < length left.now) }
{
    let place = usize::from(client);
    if place < left.len() {
        left[place].first()
    } else {
        None
    }
}

/// Takes the first request off that a client asks.
fn take_first_of(left: &mut Vec<AskList>, client: u8)
    requires { client < length left.old.items }
    ensures { left.new.items ≡ without_first left.old.items client }
{
    left[usize::from(client)].take_first();
}

/// Asks for a client through a desk that is lent the book.
fn ask_lent(
    book: &mut Book,
    pass: &mut ClientPass,
    table: &ClaimTable,
    client: u8,
    request: &Request,
) -> Result<(Reply, Stamp), NoMemory>
    requires of { IsPublisherOf table.now book.old.publisher }
    requires of_pass { IsClientOf table.now pass.old }
    requires aside { is_aside book.old.places client ≡ true }
    ensures of { IsPublisherOf table.now book.new.publisher }
    ensures of_pass { IsClientOf table.now pass.new }
    ensures asked { IfOk result (λ r. IsAsked book.old.setup book.old.journal book.new.journal
        client request.now r.0 r.1) }
    ensures given { IfOk result (λ r. book.new.given
        ≡ book.old.given ++ given_item client request.now r.0 r.1 ∷ []) }
    ensures err { OnErr result (IsSame book.old book.new) }
    ensures goes_on { GoesOn book.old book.new }
    ensures heard { HeardMore pass.old pass.new }
{
    let mut desk = LentDesk::new(pass, table, book, client);
    desk.ask(client, request)
}

/// Answers the first request that a client asks, and takes it off. False where it asks nothing, or
/// no places can be set aside for it.
fn answer_first(
    book: &mut Book,
    left: &mut Vec<AskList>,
    pass: &mut ClientPass,
    table: &ClaimTable,
    client: u8,
) -> Result<bool, NoMemory>
    requires of { IsPublisherOf table.now book.old.publisher }
    requires of_pass { IsClientOf table.now pass.old }
    requires client { client < CLIENTS }
    ensures of { IsPublisherOf table.now book.new.publisher }
    ensures of_pass { IsClientOf table.now pass.new }
    ensures more { IfOk result (λ more. more ≡ (has_left left.old.items client
        && may_reserve book.old.places client)) }
    ensures answered { IfOk result (λ more. more ≡ true → IsNextAnswered client book.old book.new
        left.old.items left.new.items) }
    ensures none { IfOk result (λ more. more ≡ false → book.new ≡ book.old) }
    ensures none_left { IfOk result (λ more. more ≡ false → left.new.items ≡ left.old.items) }
    ensures err { OnErr result (IsSame book.old book.new) }
    ensures err_left { OnErr result (left.new.items ≡ left.old.items) }
    ensures goes_on { GoesOn book.old book.new }
    ensures heard { HeardMore pass.old pass.new }
{
    match first_of(left.as_slice(), client) {
        None => Ok(false),
        Some(request) => {
            if !book.reserve(client) {
                return Ok(false);
            }
            ask_lent(book, pass, table, client, request)?;
            take_first_of(left, client);
            Ok(true)
        }
    }
}

impl<N: Named> Shared<N> {
    /// The named book, with what each client asks.
    pub fn new(book: Book, left: AskLists) -> Shared<N>
        requires of { IsPublisherOf N.table book.publisher }
        requires book { book ≡ N.book }
        requires asks { (client : ℕ) → left_of left client ≡ N.asks client }
        ensures book { result.book ≡ book }
        ensures left { result.left ≡ left }
    {
        Shared {
            book,
            left: left.into_vec(),
            of: PhantomData,
        }
    }

    /// The book and what each client still asks, which takes no memory.
    pub fn into_parts(self) -> (Book, AskLists)
        ensures book { result.0 ≡ self.book }
        ensures left { result.1 ≡ self.left }
        ensures shared { IsShared N.table N.book N.asks self.book self.left }
    {
        let Shared { book, left, of: _ } = self;
        (book, AskLists::from_vec(left))
    }

    /// Answers the first request that a client still asks, through a desk that is lent the book,
    /// and takes it off. False comes exactly where the client asks nothing more, or no places can
    /// be set aside for it; then nothing changes. If memory runs out, entries, calls, answers and
    /// what is asked stay as they were.
    pub fn answer_next(
        &mut self,
        pass: &mut ClientPass,
        table: &ClaimTable,
        client: u8,
    ) -> Result<bool, NoMemory>
        requires table { table.now ≡ N.table }
        requires of_pass { IsClientOf table.now pass.old }
        requires client { client < CLIENTS }
        ensures of_pass { IsClientOf table.now pass.new }
        ensures more { IfOk result (λ more. more ≡ (has_left self.old.left client
            && may_reserve self.old.book.places client)) }
        ensures answered { IfOk result (λ more. more ≡ true → IsNextAnswered client self.old.book
            self.new.book self.old.left self.new.left) }
        ensures none { IfOk result (λ more. more ≡ false → self.new ≡ self.old) }
        ensures err { OnErr result (IsSame self.old.book self.new.book) }
        ensures err_left { OnErr result (self.new.left ≡ self.old.left) }
        ensures heard { HeardMore pass.old pass.new }
    {
        answer_first(&mut self.book, &mut self.left, pass, table, client)
    }
}

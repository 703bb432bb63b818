//! A lap, and what it leaves.

ghost use Rattle.std.specs.Prelude.{◌≡◌};
ghost use Rattle.session_laps.specs.Laps.{IsBack, IsEndedLap};

use crate::ends::end_tables;
use crate::room::Room;
use claim_word::{ClaimTable, ClientPasses};
use input_cells::{FeedPasses, InputTable};
use io_caps::ListOf;
use live_book::Book;
use packet_worker::Worker;
use plain_book::{GivenItems, Journal};

/// The workers of a lap.
pub type Workers = ListOf<Worker>;

/// A lap: its two tables, all passes of them, and the book over its table of claims.
#[derive(Drop)]
pub struct Lap {
    pub table: ClaimTable,
    pub inputs: InputTable,
    pub workers: Workers,
    /// The passes of the inputs' feeders, by their numbers, and of the pace's.
    pub feeds: FeedPasses,
    pub clients: ClientPasses,
    /// The book over the table of claims.
    pub book: Book,
    /// Room for the workers' passes.
    pub room: Room,
    /// How many claims lie before it.
    pub from: u64,
    /// How many ticks it has.
    pub ticks: u64,
}

/// What a lap adds to a history beside its claims: the calls that were accepted in it, and all
/// answers.
#[derive(Debug, Drop)]
pub struct Part {
    pub calls: Journal,
    pub given: GivenItems,
}

impl Lap {
    /// Ends a lap with which its session ends, even if not all of its packets were claimed. It
    /// returns all calls of the session and the lap's answers, and takes no memory.
    pub fn end(self) -> (Journal, GivenItems)
        requires { IsBack self }
        ensures ended { IsEndedLap self }
        ensures journal { result.0 ≡ self.book.journal }
        ensures given { result.1 ≡ self.book.given }
    {
        let Lap {
            table,
            inputs,
            workers,
            feeds,
            clients,
            book,
            room,
            from: _,
            ticks: _,
        } = self;
        let (publisher, journal, given) = book.into_parts();
        end_tables(table, inputs, publisher, workers, feeds, clients, room);
        (journal, given)
    }
}

//! A book between two tables.

ghost use Rattle.std.specs.Prelude.{◌≡◌, ◌+◌, ◌*◌, ◌%◌, ◌<◌, ◌≤◌, List, [], IfOk, length};
ghost use Rattle.io_caps.specs.declared.limits.TheConstants.{LAP_TICKS, MOST_WORKERS};
ghost use Rattle.map_entry.specs.declared.claims.TheConstants.{CLAIMS_LIMIT};
ghost use Rattle.map_entry.specs.declared.entry.Entry.{Entry};
ghost use Rattle.claim_word.specs.Starts.{IsStarted, planned};
ghost use Rattle.plain_book.specs.Carry.{carried};
ghost use Rattle.plain_book.specs.Desk.{IsDesk, parts};
ghost use Rattle.live_book.specs.Books.{goes_over, rest_of};

use crate::book::Book;
use crate::places::Places;
use claim_word::{ClaimTable, Publisher};
use io_caps::{NoMemory, TryCopy};
use map_entry::{Entries, Setup};
use plain_book::{BookState, Journal, base_entries, carry, look};
use std::alloc::Global;
use std::marker::Model;

/// A book between two tables: what it keeps, and what the next table begins with. Contracts see its
/// setup, how many claims were made, and the calls that were accepted.
#[derive(Drop)]
pub struct Rest {
    alloc: Global,
    setup: Setup,
    kept: BookState,
    base: Entries,
}

impl Model for Rest {
    ghost use Rattle.plain_book.specs.Desk.{parts};
    ghost use Rattle.live_book.specs.Books.{IsRest, RestFace, rest_of};

    ghost Value = { RestFace };

    ghost view = { λ r. rest_of r.setup r.kept.seen r.kept.journal };

    ghost invariant = { λ r. IsRest r.setup r.base (parts r.kept) };
}

impl Rest {
    /// The book of a setup before its first table, with no call.
    pub fn new(alloc: Global, setup: &Setup) -> Result<Rest, NoMemory>
        ensures { IfOk result (λ made. made ≡ rest_of setup.now 0 []) }
    {
        let kept = BookState {
            from: 0,
            seen: 0,
            journal: Journal::new(alloc),
            pending: Vec::new(alloc),
            last: None,
            next: 1,
        };
        let _device = &setup.device;
        let entries = base_entries(alloc, setup)?;
        let base = carry(alloc, setup, entries.as_slice(), &kept, 0)?;
        Ok(Rest {
            alloc,
            setup: setup.copy()?,
            kept,
            base,
        })
    }

    /// The book after a number of claims, which goes on with what is carried.
    pub(crate) fn of_parts(
        alloc: Global,
        setup: Setup,
        mut kept: BookState,
        base: Entries,
        claims: u64,
    ) -> Rest
        requires claims { claims < CLAIMS_LIMIT }
        requires desk { (entries : List Entry) × IsDesk setup claims entries (parts kept) }
        requires base { base ≡ carried setup kept.journal claims }
        ensures { result ≡ rest_of setup claims kept.journal }
    {
        look(&mut kept, &setup, claims);
        kept.from = claims;
        Rest {
            alloc,
            setup,
            kept,
            base,
        }
    }

    /// How many claims were made.
    pub fn claims(&self) -> u64
        ensures { result ≡ self.now.claims }
    {
        self.kept.seen
    }

    /// The calls that were accepted.
    pub fn journal(&self) -> &Journal
        ensures { result.now ≡ self.now.journal }
    {
        &self.kept.journal
    }

    /// Starts a table of the given number of ticks, for the given number of workers, which goes on
    /// after the claims made.
    pub fn start_table(&self, ticks: u64, workers: u8) -> Result<(ClaimTable, Publisher), NoMemory>
        requires ticks { ticks ≤ LAP_TICKS }
        requires workers { workers ≤ MOST_WORKERS }
        requires whole { self.now.claims % length self.now.setup.device.outputs ≡ 0 }
        requires claims { self.now.claims + ticks * length self.now.setup.device.outputs
            < CLAIMS_LIMIT }
        ensures { IfOk result (λ made. IsStarted (planned self.now.setup self.now.claims ticks workers
            (carried self.now.setup self.now.journal self.now.claims))
            (carried self.now.setup self.now.journal self.now.claims) made.0 made.1) }
    {
        let from = self.kept.seen;
        ClaimTable::start(self.alloc, &self.setup, &self.base, from, ticks, workers)
    }

    /// The book over such a table, with no answer. It takes no memory, and sets nothing aside. At
    /// most three places for each output are used, so there are enough for any request.
    pub fn over(self, publisher: Publisher) -> Book
        requires setup { publisher.view.plan.setup ≡ self.setup }
        requires from { publisher.view.plan.from ≡ self.claims }
        requires entries { publisher.view.entries ≡ carried self.setup self.journal self.claims }
        ensures book { result ≡ goes_over self publisher }
        ensures room { result.places.used ≤ 3 * length self.setup.device.outputs }
    {
        let Rest {
            alloc,
            setup,
            kept,
            base,
        } = self;
        let outputs = u64::from(setup.device.outputs());
        let begun = kept.journal.len();
        let used = 2 * base.len() as u64 - outputs;
        Book::of_parts(
            alloc,
            setup,
            publisher,
            kept,
            begun,
            Places::new(used, 2 * outputs),
        )
    }
}

//! How a claim table starts.

ghost use Rattle.std.specs.Prelude.{◌≡◌, ◌+◌, ◌*◌, ◌<◌, ◌≤◌, length, IfOk};
ghost use Rattle.io_caps.specs.declared.limits.TheConstants.{LAP_TICKS, MOST_WORKERS};
ghost use Rattle.map_entry.specs.declared.claims.TheConstants.{CLAIMS_LIMIT};
ghost use Rattle.claim_word.specs.Faces.{IsPublisherOf};
ghost use Rattle.claim_word.specs.Starts.{IsBase, IsStarted, planned};

use crate::lay::words_of;
use crate::publisher::Publisher;
use crate::shelf::Shelf;
use crate::span::Span;
use atomic_table::Table;
use claim_rule::{Start, TableLaw, View, WORDS};
use io_caps::limits::MOST_WORKERS;
use io_caps::{NoMemory, TryCopy};
use map_entry::{Entries, Setup};
use std::alloc::Global;
use std::marker::Model;
use std::snapshot::Snapshot;

/// A table that counts claims and holds the entries published.
#[derive(Drop)]
pub struct ClaimTable {
    pub(crate) table: Table<Entries, View, Start, TableLaw, Global>,
}

impl Model for ClaimTable {
    ghost use Rattle.std.specs.Prelude.{◌≡◌, ◌+◌, ◌*◌};
    ghost use Rattle.claim_rule.specs.Claims.{IsSound, plan_of};
    ghost use Rattle.claim_rule.specs.Words.{places, stride};
    ghost use Rattle.claim_word.specs.Faces.{TableFace};

    ghost Value = { TableFace };

    ghost view = { λ t. record {
      id = t.table.shared.table_id;
      plan = plan_of t.table.shared.key;
    } };

    ghost invariant = { λ t. IsSound (plan_of t.table.shared.key)
        × (t.table.shared.table_id.words ≡ 1 + places * stride)
        × (t.table.shared.table_id.slots ≡ 0) };
}

impl ClaimTable {
    /// Starts a table of a given number of ticks, from a number of claims on, for a given number of
    /// workers. It begins with the base entries. All the memory is taken that publishing, and the
    /// end, will need.
    pub fn start(
        alloc: Global,
        setup: &Setup,
        base: &Entries,
        from: u64,
        ticks: u64,
        workers: u8,
    ) -> Result<(ClaimTable, Publisher), NoMemory>
        requires ticks { ticks ≤ LAP_TICKS }
        requires workers { workers ≤ MOST_WORKERS }
        requires claims { from + ticks * length setup.now.device.outputs < CLAIMS_LIMIT }
        requires base { IsBase setup.now from base.now }
        ensures { IfOk result
            (λ t. IsStarted (planned setup.now from ticks workers base.now) base.now t.0 t.1) }
    {
        let outputs = setup.device.outputs();
        let words = words_of(alloc, base, WORDS)?;
        let packets = ticks * outputs as u64;
        let start = Start {
            setup: Snapshot::of(setup),
            from,
            packets,
            workers: workers as u64,
            entries: Snapshot::of(base),
            words: Snapshot::of(&words),
        };
        let mut shelf = Shelf::new(alloc)?;
        shelf.keep_all(base.as_slice());
        let rows = setup.rows.copy()?;
        let lists = Vec::with_capacity(alloc, MOST_WORKERS as usize)?;
        let (table, seat) = Table::of_words(alloc, words.as_slice(), &start)?;
        let publisher = Publisher {
            seat,
            span: Span {
                base: setup.device.base(),
                outputs,
                from,
                packets,
                frames: setup.device.rate().frames,
            },
            workers,
            made: 0,
            clients: 0,
            shelf,
            rows,
            lists,
        };
        Ok((ClaimTable { table }, publisher))
    }
}

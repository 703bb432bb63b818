//! The one that publishes entries.

ghost use Rattle.std.specs.Prelude.{◌≡◌, ◌+◌, ◌^◌, ◌<◌, ◌≤◌, nat_lt, max};
ghost use Rattle.std.specs.Prelude.{length, count_by, OnOk};
ghost use Rattle.std.specs.Prelude.{IfErr};
ghost use Rattle.std.specs.List.{All};
ghost use Rattle.map_entry.specs.Tick.{first_tick};
ghost use Rattle.claim_rule.specs.Words.{places};
ghost use Rattle.claim_word.specs.Faces.{IsPublisherOf};
ghost use Rattle.claim_word.specs.States.{ArePublishable, HasSeen, IsMissed, IsPublished, IsState};
ghost use Rattle.claim_word.specs.States.{having_seen, places_left};

use crate::shelf::Shelf;
use crate::span::Span;
use crate::state::{Moved, State};
use crate::table::ClaimTable;
use crate::write::put_entries;
use atomic_table::Seat;
use claim_rule::{Publishes, Sees, View};
use io_caps::Numbers;
use io_caps::limits::PLACES;
use map_entry::{Entries, Entry, Rows, first_tick};
use std::marker::Model;

/// The one that publishes entries, makes the passes, and ends the table.
#[derive(Drop)]
pub struct Publisher {
    pub(crate) seat: Seat<Entries, View>,
    pub(crate) span: Span,
    pub(crate) workers: u8,
    pub(crate) made: u8,
    pub(crate) clients: u8,
    pub(crate) shelf: Shelf,
    /// A row for each output.
    pub(crate) rows: Rows,
    /// Room for the list of the workers' claims.
    pub(crate) lists: Vec<Numbers>,
}

impl Model for Publisher {
    ghost use Rattle.std.specs.Prelude.{◌≡◌, ◌≤◌, [], vec_capacity};
    ghost use Rattle.io_caps.specs.declared.limits.TheConstants.{MOST_WORKERS};
    ghost use Rattle.claim_word.specs.Faces.{PublisherFace};
    ghost use Rattle.claim_word.specs.Passes.{IsPublisher};

    ghost Value = { PublisherFace };

    ghost view = { λ p. record {
      id = p.seat.table_id;
      view = p.seat.me.0;
      made = p.made;
      clients = p.clients;
    } };

    ghost invariant = { λ p. IsPublisher p.seat.me.0 p.span p.made p.clients p.shelf p.rows
        × (p.seat.me.1 ≡ [])
        × (p.workers ≡ p.seat.me.0.plan.workers)
        × ((p.lists.items ≡ []) × (MOST_WORKERS ≤ vec_capacity p.lists)) };
}

impl Publisher {
    /// The entries published, those with which the table began among them.
    pub fn entries(&self) -> &[Entry]
        ensures value { result.now ≡ self.now.view.entries }
        ensures few { length self.now.view.entries ≤ places }
    {
        self.shelf.as_slice()
    }

    /// How many places are left for entries, where each entry that came before its tick keeps one
    /// more for its deletion.
    pub fn places(&self) -> u32
        ensures { result ≡ places_left self.now.view.plan self.now.view.entries }
    {
        let entries = self.shelf.as_slice();
        let above = self.span.count_above(entries);
        (PLACES as usize).saturating_sub(entries.len() + above) as u32
    }

    /// Looks at the table, by one load.
    pub fn state(&mut self, table: &ClaimTable) -> State
        requires { IsPublisherOf table.now self.old }
        ensures pass { self.new ≡ record self.old { view = having_seen self.old.view result } }
        ensures of { IsPublisherOf table.now self.new }
        ensures state { IsState self.old.view result }
        ensures own { result.entries ≡ length self.old.view.entries }
        ensures seen { HasSeen self.new.view result }
    {
        let word = table.table.shared.load::<Sees>(&mut self.seat, 0);
        self.span.state(word)
    }

    /// Publishes entries all at once, by one exchange after the stores of their words, unless a
    /// number was drawn since the state was seen. Then none is published. No memory is taken.
    pub fn try_publish(
        &mut self,
        table: &ClaimTable,
        entries: &Entries,
        seen: State,
    ) -> Result<(), Moved>
        requires of { IsPublisherOf table.now self.old }
        requires seen { HasSeen self.old.view seen }
        requires entries { ArePublishable self.old.view.plan.setup seen.claims self.old.view.entries
            entries.now }
        ensures pass { self.new ≡ record self.old { view = self.new.view } }
        ensures of { IsPublisherOf table.now self.new }
        ensures published { OnOk result (IsPublished self.old.view self.new.view entries.now) }
        ensures missed { IfErr result (λ m. IsMissed self.old.view self.new.view m.raw) }
        ensures above { IfErr result (λ m. seen.raw < m.raw) }
        ensures most { IfErr result
            (λ m. m.raw ≤ self.old.view.plan.packets + self.old.view.plan.workers) }
    {
        let new = entries.as_slice();
        let count = self.shelf.len();
        put_entries(table, &mut self.seat, count, new);
        let raw = seen.raw as u64;
        let expected = count as u64 * (1 << 32) + raw;
        let next = (count + new.len()) as u64 * (1 << 32) + raw;
        let found = table
            .table
            .shared
            .compare_exchange_with::<Publishes>(&mut self.seat, 0, expected, next, entries);
        if found == expected {
            self.shelf.keep_all(new);
            Ok(())
        } else {
            Err(Moved {
                raw: (found % (1 << 32)) as u32,
            })
        }
    }
}

impl Span {
    /// Whether an entry counted from a tick above the first one not begun when it came to the
    /// table.
    fn is_above(&self, entry: &Entry) -> bool
        requires some { 0 < self.now.outputs }
        requires sum { first_tick self.now.base self.now.outputs
            (max self.now.from entry.now.at) < 2 ^ 64 }
        ensures { result ≡ nat_lt
            (first_tick self.now.base self.now.outputs (max self.now.from entry.now.at))
            entry.now.tick }
    {
        first_tick(self.base, self.outputs, self.from.max(entry.at)) < entry.tick
    }

    /// How many entries counted so.
    fn count_above(&self, entries: &[Entry]) -> usize
        requires some { 0 < self.now.outputs }
        requires sums { All
            (λ e. first_tick self.now.base self.now.outputs (max self.now.from e.at) < 2 ^ 64)
            entries.now }
        ensures value { result ≡ count_by
            (λ e. nat_lt (first_tick self.now.base self.now.outputs (max self.now.from e.at))
            e.tick) entries.now }
        ensures few { result ≤ length entries.now }
    {
        let mut above = 0;
        for entry in entries {
            if self.is_above(entry) {
                above += 1;
            }
        }
        above
    }
}

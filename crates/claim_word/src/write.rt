//! How entries are written word by word after those published.

ghost use Rattle.std.specs.Prelude.{◌≡◌, ◌+◌, ◌*◌, ◌^◌, ◌<◌, ◌≤◌};
ghost use Rattle.std.specs.Prelude.{length, true};
ghost use Rattle.map_entry.specs.declared.claims.TheConstants.{CLAIMS_LIMIT};
ghost use Rattle.claim_rule.specs.declared.words.TheConstants.{TICKS_LIMIT};
ghost use Rattle.std.specs.List.{All};
ghost use Rattle.claim_rule.specs.Views.{wrote};
ghost use Rattle.claim_rule.specs.Words.{Spells, places, stride};
ghost use Rattle.claim_word.specs.Writings.{IsWide, WroteAll, WroteAt};

use crate::table::ClaimTable;
use atomic_table::Seat;
use claim_rule::{HEAD_WORDS, STRIDE, View, Writes, word_of};
use map_entry::{Entries, Entry};

/// The words in front of an entry's cells.
pub(crate) fn heads_of(entry: &Entry) -> (u64, u64)
    requires tick { entry.now.tick < TICKS_LIMIT }
    requires output { entry.now.output < 2 ^ 6 }
    requires at { entry.now.at < CLAIMS_LIMIT }
    requires offset { entry.now.offset < 2 ^ 8 }
    ensures { result ≡ (
      entry.now.tick * 2 ^ 6 + entry.now.output,
      entry.now.at * 2 ^ 8 + entry.now.offset,
    ) }
{
    (
        entry.tick * (1 << 6) + u64::from(entry.output),
        entry.at * (1 << 8) + u64::from(entry.offset),
    )
}

/// Stores a word of a place after the entries published.
fn put_word(table: &ClaimTable, seat: &mut Seat<Entries, View>, cell: usize, word: u64)
    requires table { seat.old.table_id ≡ table.now.id }
    requires publishes { seat.old.me.0.publishes ≡ true }
    requires behind { (length seat.old.me.0.entries * stride ≤ cell) × (cell < places * stride) }
    ensures seat { (seat.new.table_id ≡ seat.old.table_id) × (seat.new.id ≡ seat.old.id)
        × (seat.new.me ≡ (wrote seat.old.me.0 cell word, seat.old.me.1)) }
{
    table.table.shared.store::<Writes>(seat, cell + 1, word);
}

/// Stores the words of an entry at a place after the entries published.
fn put_entry(table: &ClaimTable, seat: &mut Seat<Entries, View>, place: usize, entry: &Entry)
    requires table { seat.old.table_id ≡ table.now.id }
    requires publishes { (seat.old.me.0.publishes ≡ true)
        × (length seat.old.me.0.cells ≡ places * stride) }
    requires behind { (length seat.old.me.0.entries ≤ place) × (place < places) }
    requires wide { IsWide entry.now }
    ensures seat { (seat.new.table_id ≡ seat.old.table_id) × (seat.new.id ≡ seat.old.id)
        × (seat.new.me.1 ≡ seat.old.me.1) }
    ensures wrote { WroteAt seat.old.me.0 seat.new.me.0 place entry.now }
{
    let (first, second) = heads_of(entry);
    put_word(table, seat, place * STRIDE, first);
    put_word(table, seat, place * STRIDE + 1, second);
    let cells = entry.row.as_slice();
    for channel in 0..cells.len() {
        put_word(
            table,
            seat,
            place * STRIDE + (HEAD_WORDS + channel),
            word_of(cells[channel]),
        );
    }
}

/// Stores the words of entries after the entries published.
pub(crate) fn put_entries(
    table: &ClaimTable,
    seat: &mut Seat<Entries, View>,
    count: usize,
    entries: &[Entry],
)
    requires table { seat.old.table_id ≡ table.now.id }
    requires publishes { (seat.old.me.0.publishes ≡ true)
        × (length seat.old.me.0.cells ≡ places * stride)
        × Spells seat.old.me.0.cells seat.old.me.0.entries }
    requires count { (count ≡ length seat.old.me.0.entries)
        × (count + length entries.now ≤ places) }
    requires wide { All IsWide seat.old.me.0.entries × All IsWide entries.now }
    ensures seat { (seat.new.table_id ≡ seat.old.table_id) × (seat.new.id ≡ seat.old.id)
        × (seat.new.me.1 ≡ seat.old.me.1) }
    ensures wrote { WroteAll seat.old.me.0 seat.new.me.0 entries.now }
{
    for at in 0..entries.len() {
        put_entry(table, seat, count + at, &entries[at]);
    }
}

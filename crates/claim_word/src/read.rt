//! How entries are read back word by word.

ghost use Rattle.std.specs.Prelude.{ℕ, ◌≡◌, ◌+◌, ◌*◌, ◌^◌, ◌<◌, ◌≤◌};
ghost use Rattle.std.specs.Prelude.{length, slice_index};
ghost use Rattle.std.specs.Prelude.{slice_index_or};
ghost use Rattle.std.specs.List.{All};
ghost use Rattle.map_entry.specs.declared.entry.Entry.{Entry as EntryValue};
ghost use Rattle.claim_rule.specs.Claims.{IsFit, IsSound};
ghost use Rattle.claim_rule.specs.Words.{entry_words, places, stride};
ghost use Rattle.io_caps.specs.declared.limits.TheConstants.{MOST_CHANNELS};
ghost use Rattle.claim_word.specs.Claims.{pieced_on, read_on};

use crate::table::ClaimTable;
use atomic_table::Seat;
use claim_rule::{HEAD_WORDS, Reads, ReadsPiece, STRIDE, View, cell_of};
use map_entry::{Entries, Row};

/// Loads a word of the entry at a place.
pub(crate) fn load(
    table: &ClaimTable,
    seat: &mut Seat<Entries, View>,
    place: usize,
    at: usize,
) -> u64
    requires table { seat.old.table_id ≡ table.now.id }
    requires place { (place < places) × (at < stride) }
    ensures seat { (seat.new.table_id ≡ seat.old.table_id) × (seat.new.id ≡ seat.old.id)
        × (seat.new.me ≡ (read_on seat.old.me.0 1, seat.old.me.1)) }
    ensures word { (d : EntryValue) → place < length seat.old.me.0.entries
        → at < length (entry_words (slice_index_or seat.old.me.0.entries place d))
        → result ≡ slice_index (entry_words (slice_index_or seat.old.me.0.entries place d)) at }
{
    table
        .table
        .shared
        .load::<Reads>(seat, place * STRIDE + at + 1)
}

/// Loads a word of a row for a part of a packet.
pub(crate) fn load_piece(
    table: &ClaimTable,
    seat: &mut Seat<Entries, View>,
    place: usize,
    at: usize,
) -> u64
    requires table { seat.old.table_id ≡ table.now.id }
    requires place { (place < places) × (at < stride) }
    ensures seat { (seat.new.table_id ≡ seat.old.table_id) × (seat.new.id ≡ seat.old.id)
        × (seat.new.me ≡ (pieced_on seat.old.me.0 1, seat.old.me.1)) }
    ensures word { (d : EntryValue) → place < length seat.old.me.0.entries
        → at < length (entry_words (slice_index_or seat.old.me.0.entries place d))
        → result ≡ slice_index (entry_words (slice_index_or seat.old.me.0.entries place d)) at }
{
    table
        .table
        .shared
        .load::<ReadsPiece>(seat, place * STRIDE + at + 1)
}

/// Reads the row of the entry at a place for a part of a packet into one that is as long.
pub(crate) fn read_piece(
    table: &ClaimTable,
    seat: &mut Seat<Entries, View>,
    place: usize,
    row: &mut Row,
)
    requires table { (seat.old.table_id ≡ table.now.id) × IsSound seat.old.me.0.plan }
    requires place { (place < places) × (place < length seat.old.me.0.entries) }
    requires row { (d : EntryValue)
        → length row.old ≡ length (slice_index_or seat.old.me.0.entries place d).row }
    requires few { length row.old ≤ MOST_CHANNELS }
    requires fits { All (IsFit seat.old.me.0.plan) seat.old.me.0.entries }
    ensures seat { (seat.new.table_id ≡ seat.old.table_id) × (seat.new.id ≡ seat.old.id)
        × (seat.new.me ≡ (pieced_on seat.old.me.0 (length row.old), seat.old.me.1)) }
    ensures row { (d : EntryValue)
        → row.new ≡ (slice_index_or seat.old.me.0.entries place d).row }
{
    for at in 0..row.len() {
        let word = load_piece(table, seat, place, HEAD_WORDS + at);
        row.set(at, cell_of(word));
    }
}

/// Reads the row of the entry at a place into one that is as long.
pub(crate) fn read_row(
    table: &ClaimTable,
    seat: &mut Seat<Entries, View>,
    place: usize,
    row: &mut Row,
)
    requires table { (seat.old.table_id ≡ table.now.id) × IsSound seat.old.me.0.plan }
    requires place { (place < places) × (place < length seat.old.me.0.entries) }
    requires row { (d : EntryValue)
        → length row.old ≡ length (slice_index_or seat.old.me.0.entries place d).row }
    requires few { length row.old ≤ MOST_CHANNELS }
    requires fits { All (IsFit seat.old.me.0.plan) seat.old.me.0.entries }
    ensures seat { (seat.new.table_id ≡ seat.old.table_id) × (seat.new.id ≡ seat.old.id)
        × (seat.new.me ≡ (read_on seat.old.me.0 (length row.old), seat.old.me.1)) }
    ensures row { (d : EntryValue)
        → row.new ≡ (slice_index_or seat.old.me.0.entries place d).row }
{
    for at in 0..row.len() {
        let word = load(table, seat, place, HEAD_WORDS + at);
        row.set(at, cell_of(word));
    }
}

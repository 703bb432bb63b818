//! What a worker's pass remembers of the entries, and how it finds the row of a claim.

ghost use Rattle.std.specs.Prelude.{ℕ, ◌≡◌, ◌-◌, ◌*◌, ◌<◌, ◌≤◌, [], length, map, replicate};
ghost use Rattle.std.specs.Prelude.{vec_len, vec_capacity, slice_index_or, slice_set, IfOk, Some};
ghost use Rattle.std.specs.Prelude.{None, IsTrue};
ghost use Rattle.std.specs.List.{All};
ghost use Rattle.io_caps.specs.declared.limits.TheConstants.{MOST_CHANNELS};
ghost use Rattle.map_entry.specs.declared.entry.Entry.{Entry as EntryValue};
ghost use Rattle.map_entry.specs.Entry.{HasRowsFrom, IsPiece, selected};
ghost use Rattle.map_entry.specs.Tick.{frame_key};
ghost use Rattle.claim_rule.specs.Claims.{IsFit, IsSound};
ghost use Rattle.claim_rule.specs.Words.{head_words, places};
ghost use Rattle.claim_rule.specs.Views.{Begins};
ghost use Rattle.claim_word.specs.Claims.{begin_of, head_of, number_of, pieced_on, read_on, IsLast};
ghost use Rattle.claim_word.specs.Claims.{IsLearnt, IsMemory, IsPieceRead};
ghost use Rattle.claim_word.specs.Chains.{IsChain, IsRuling};
ghost use Rattle.claim_word.specs.Holding.{held_at, IsHeld};

use crate::chain::{Chains, Head};
use crate::read::{load, read_piece, read_row};
use crate::table::ClaimTable;
use crate::worker::Claim;
use atomic_table::Seat;
use claim_rule::View;
use io_caps::limits::PLACES;
use io_caps::{NoMemory, TryCopy};
use map_entry::{Entries, Row, Rows};
use std::alloc::Global;

/// What a pass remembers.
#[derive(Drop)]
pub(crate) struct Memory {
    /// The heads of entries in front, as far as they were read.
    pub heads: Vec<Head>,
    /// The chains of the outputs.
    pub chains: Chains,
    /// For each output the row that was read last.
    pub rows: Vec<Row>,
    /// For each output the place of that row's entry.
    pub row_places: Vec<Option<u16>>,
    /// For each output the row that was read last for a part of a packet.
    pub parts: Vec<Row>,
    /// For each output the place of that row's entry.
    pub part_places: Vec<Option<u16>>,
    /// Whether the row of the last claim was read.
    pub ready: bool,
}

impl Memory {
    /// Nothing is remembered; the room for all is taken.
    pub fn new(alloc: Global, rows: &Rows) -> Result<Memory, NoMemory>
        ensures heads { IfOk result (λ m. (m.heads.items ≡ [])
            × (places ≤ vec_capacity m.heads)) }
        ensures next { IfOk result (λ m. (m.chains.next.items ≡ [])
            × (places ≤ vec_capacity m.chains.next)) }
        ensures tracks { IfOk result
            (λ m. m.chains.tracks.items ≡ replicate (length rows.now) None) }
        ensures rows { IfOk result (λ m. m.rows.items ≡ rows.now) }
        ensures parts { IfOk result (λ m. m.parts.items ≡ rows.now) }
        ensures row_places { IfOk result
            (λ m. m.row_places.items ≡ replicate (length rows.now) None) }
        ensures part_places { IfOk result
            (λ m. m.part_places.items ≡ replicate (length rows.now) None) }
    {
        let outputs = rows.as_slice().len();
        Ok(Memory {
            heads: Vec::with_capacity(alloc, PLACES as usize)?,
            chains: Chains::new(alloc, outputs)?,
            rows: rows.copy()?.into_vec(),
            row_places: vec![in alloc; None; outputs]?,
            parts: rows.copy()?.into_vec(),
            part_places: vec![in alloc; None; outputs]?,
            ready: false,
        })
    }

    /// Reads the row of the last claim, where it was not read: the heads that are new, and then the
    /// words of the row of the entry that rules the tick's first frame, unless they are held.
    pub fn find(&mut self, table: &ClaimTable, seat: &mut Seat<Entries, View>, claim: &Claim)
        requires table { (seat.old.table_id ≡ table.now.id) × IsSound seat.old.me.0.plan }
        requires memory { IsMemory seat.old.me.0 self.old }
        requires entries { (length seat.old.me.0.entries ≤ places)
            × All (IsFit seat.old.me.0.plan) seat.old.me.0.entries }
        requires covers { HasRowsFrom seat.old.me.0.plan.setup.device seat.old.me.0.entries
            (begin_of seat.old.me.0.plan 0) }
        requires last { IsLast seat.old.me.0 claim.now }
        requires top { All (λ d. d.number ≤ number_of seat.old.me.0.plan claim.now)
            seat.old.me.0.draws }
        ensures seat { (seat.new.table_id ≡ seat.old.table_id) × (seat.new.id ≡ seat.old.id) }
        ensures view { (n : ℕ) × (seat.new.me ≡ (read_on seat.old.me.0 n, seat.old.me.1)) }
        ensures memory { IsMemory seat.new.me.0 self.new }
        ensures row { selected seat.old.me.0.entries claim.now.output (frame_key claim.now.tick 0)
            ≡ Some (slice_index_or self.new.rows.items claim.now.output []) }
    {
        if self.ready {
            return;
        }
        let place = self.place_of(table, seat, claim, 0);
        hold_row(
            table,
            seat,
            place,
            &mut self.rows,
            &mut self.row_places,
            claim.output(),
        );
        self.ready = true;
    }

    /// Reads the row that rules a frame of the last claim, of the given number, and returns the
    /// frame up to which it does.
    pub fn find_from(
        &mut self,
        table: &ClaimTable,
        seat: &mut Seat<Entries, View>,
        claim: &Claim,
        frame: u16,
        frames: u16,
    ) -> u16
        requires table { (seat.old.table_id ≡ table.now.id) × IsSound seat.old.me.0.plan }
        requires memory { IsMemory seat.old.me.0 self.old }
        requires entries { (length seat.old.me.0.entries ≤ places)
            × All (IsFit seat.old.me.0.plan) seat.old.me.0.entries }
        requires covers { HasRowsFrom seat.old.me.0.plan.setup.device seat.old.me.0.entries
            (begin_of seat.old.me.0.plan 0) }
        requires last { IsLast seat.old.me.0 claim.now }
        requires top { All (λ d. d.number ≤ number_of seat.old.me.0.plan claim.now)
            seat.old.me.0.draws }
        requires frame { frame < frames }
        ensures seat { (seat.new.table_id ≡ seat.old.table_id) × (seat.new.id ≡ seat.old.id) }
        ensures view { IsPieceRead seat.old.me seat.new.me claim.now.output }
        ensures memory { IsMemory seat.new.me.0 self.new }
        ensures row { (f : ℕ) → frame ≤ f → f < result
            → selected seat.old.me.0.entries claim.now.output (frame_key claim.now.tick f)
            ≡ Some (slice_index_or self.new.parts.items claim.now.output []) }
        ensures piece { IsPiece seat.old.me.0.entries claim.now.output claim.now.tick frame frames
            result }
    {
        let place = self.place_of(table, seat, claim, frame);
        hold_part(
            table,
            seat,
            place,
            &mut self.parts,
            &mut self.part_places,
            claim.output(),
        );
        let heads = self.heads.as_slice();
        self.chains.upto(heads, place, claim.tick(), frame, frames)
    }

    /// Reads the heads that are new, and answers the place of the entry that rules a frame of the
    /// last claim.
    fn place_of(
        &mut self,
        table: &ClaimTable,
        seat: &mut Seat<Entries, View>,
        claim: &Claim,
        frame: u16,
    ) -> usize
        requires table { (seat.old.table_id ≡ table.now.id) × IsSound seat.old.me.0.plan }
        requires memory { IsMemory seat.old.me.0 self.old }
        requires entries { (length seat.old.me.0.entries ≤ places)
            × All (IsFit seat.old.me.0.plan) seat.old.me.0.entries }
        requires covers { HasRowsFrom seat.old.me.0.plan.setup.device seat.old.me.0.entries
            (begin_of seat.old.me.0.plan 0) }
        requires last { IsLast seat.old.me.0 claim.now }
        requires top { All (λ d. d.number ≤ number_of seat.old.me.0.plan claim.now)
            seat.old.me.0.draws }
        ensures seat { (seat.new.table_id ≡ seat.old.table_id) × (seat.new.id ≡ seat.old.id)
            × (seat.new.me ≡ (
              read_on seat.old.me.0
                  (head_words * (length seat.old.me.0.entries - vec_len self.old.heads)),
              seat.old.me.1,
            )) }
        ensures learnt { IsLearnt seat.old.me.0 self.new
            (number_of seat.old.me.0.plan claim.now) }
        ensures rows { (self.new.rows ≡ self.old.rows) × (self.new.parts ≡ self.old.parts)
            × (self.new.ready ≡ self.old.ready) }
        ensures places { (self.new.row_places ≡ self.old.row_places)
            × (self.new.part_places ≡ self.old.part_places) }
        ensures chain { IsChain self.new.heads.items (length self.new.heads.items)
            self.new.chains.next.items result }
        ensures rules { IsRuling self.new.heads.items (length self.new.heads.items)
            (frame_key claim.now.tick frame) claim.now.output result }
    {
        read_heads(table, seat, claim.entries() as usize, &mut self.heads);
        let heads = self.heads.as_slice();
        self.chains.link_all(heads);
        self.chains
            .ruling(heads, claim.output(), claim.tick(), frame)
    }
}

/// Reads the row of the entry at a place for a part of a packet into the row of an output, which is
/// as long.
fn read_part(
    table: &ClaimTable,
    seat: &mut Seat<Entries, View>,
    place: usize,
    rows: &mut Vec<Row>,
    output: u8,
)
    requires table { (seat.old.table_id ≡ table.now.id) × IsSound seat.old.me.0.plan }
    requires place { (place < places) × (place < length seat.old.me.0.entries) }
    requires fits { All (IsFit seat.old.me.0.plan) seat.old.me.0.entries }
    requires rows { (output < length rows.old.items)
        × (length (slice_index_or rows.old.items output []) ≤ MOST_CHANNELS) }
    requires long { (d : EntryValue)
        → length (slice_index_or rows.old.items output [])
        ≡ length (slice_index_or seat.old.me.0.entries place d).row }
    ensures seat { (seat.new.table_id ≡ seat.old.table_id) × (seat.new.id ≡ seat.old.id)
        × (seat.new.me ≡ (
          pieced_on seat.old.me.0 (length (slice_index_or rows.old.items output [])),
          seat.old.me.1,
        )) }
    ensures rows { (d : EntryValue)
        → rows.new.items ≡ slice_set rows.old.items output
        (slice_index_or seat.old.me.0.entries place d).row }
{
    read_piece(table, seat, place, &mut rows[output as usize]);
}

/// Reads the heads of entries that were not read.
fn read_heads(
    table: &ClaimTable,
    seat: &mut Seat<Entries, View>,
    entries: usize,
    heads: &mut Vec<Head>,
)
    requires table { (seat.old.table_id ≡ table.now.id) × IsSound seat.old.me.0.plan }
    requires entries { (entries ≡ length seat.old.me.0.entries) × (entries ≤ places)
        × (places ≤ vec_capacity heads.old) }
    requires fits { All (IsFit seat.old.me.0.plan) seat.old.me.0.entries }
    requires heads { Begins heads.old.items (map head_of seat.old.me.0.entries) }
    ensures seat { (seat.new.table_id ≡ seat.old.table_id) × (seat.new.id ≡ seat.old.id)
        × (seat.new.me ≡ (
          read_on seat.old.me.0 (head_words * (entries - vec_len heads.old)),
          seat.old.me.1,
        )) }
    ensures heads { (heads.new.items ≡ map head_of seat.old.me.0.entries)
        × (vec_capacity heads.new ≡ vec_capacity heads.old) }
{
    while heads.len() < entries {
        let first = load(table, seat, heads.len(), 0);
        let second = load(table, seat, heads.len(), 1);
        heads.push_reserved(Head::of(first, second));
    }
}

/// Reads the row of the entry at a place into the row of an output, which is as long.
fn read_into(
    table: &ClaimTable,
    seat: &mut Seat<Entries, View>,
    place: usize,
    rows: &mut Vec<Row>,
    output: u8,
)
    requires table { (seat.old.table_id ≡ table.now.id) × IsSound seat.old.me.0.plan }
    requires place { (place < places) × (place < length seat.old.me.0.entries) }
    requires fits { All (IsFit seat.old.me.0.plan) seat.old.me.0.entries }
    requires rows { (output < length rows.old.items)
        × (length (slice_index_or rows.old.items output []) ≤ MOST_CHANNELS) }
    requires long { (d : EntryValue)
        → length (slice_index_or rows.old.items output [])
        ≡ length (slice_index_or seat.old.me.0.entries place d).row }
    ensures seat { (seat.new.table_id ≡ seat.old.table_id) × (seat.new.id ≡ seat.old.id)
        × (seat.new.me ≡ (
          read_on seat.old.me.0 (length (slice_index_or rows.old.items output [])),
          seat.old.me.1,
        )) }
    ensures rows { (d : EntryValue)
        → rows.new.items ≡ slice_set rows.old.items output
        (slice_index_or seat.old.me.0.entries place d).row }
{
    read_row(table, seat, place, &mut rows[output as usize]);
}

/// Whether an output's row is held as that of the entry at a place.
fn is_held(held: &[Option<u16>], output: u8, place: usize) -> bool
    requires { output < length held.now }
    ensures { IsTrue result → held_at held.now output ≡ Some place }
{
    match held[output as usize] {
        Some(at) => at as usize == place,
        None => false,
    }
}

/// Makes the row of an output that of the entry at a place, which is read unless it is held.
fn hold_row(
    table: &ClaimTable,
    seat: &mut Seat<Entries, View>,
    place: usize,
    rows: &mut Vec<Row>,
    held: &mut Vec<Option<u16>>,
    output: u8,
)
    requires table { (seat.old.table_id ≡ table.now.id) × IsSound seat.old.me.0.plan }
    requires place { (place < places) × (place < length seat.old.me.0.entries) }
    requires fits { All (IsFit seat.old.me.0.plan) seat.old.me.0.entries }
    requires rows { (output < length rows.old.items)
        × (length (slice_index_or rows.old.items output []) ≤ MOST_CHANNELS) }
    requires long { (d : EntryValue)
        → length (slice_index_or rows.old.items output [])
        ≡ length (slice_index_or seat.old.me.0.entries place d).row }
    requires held { (output < length held.old.items)
        × IsHeld seat.old.me.0.entries (length held.old.items) held.old.items rows.old.items }
    ensures seat { (seat.new.table_id ≡ seat.old.table_id) × (seat.new.id ≡ seat.old.id) }
    ensures view { (n : ℕ) × (n ≤ length (slice_index_or rows.old.items output []))
        × (seat.new.me ≡ (read_on seat.old.me.0 n, seat.old.me.1)) }
    ensures rows { (d : EntryValue)
        → rows.new.items ≡ slice_set rows.old.items output
        (slice_index_or seat.old.me.0.entries place d).row }
    ensures held { IsHeld seat.old.me.0.entries (length held.old.items) held.new.items
        rows.new.items }
{
    if is_held(held.as_slice(), output, place) {
        return;
    }
    read_into(table, seat, place, rows, output);
    held[output as usize] = Some(place as u16);
}

/// Makes the row of an output for a part of a packet that of the entry at a place, which is read
/// unless it is held.
fn hold_part(
    table: &ClaimTable,
    seat: &mut Seat<Entries, View>,
    place: usize,
    rows: &mut Vec<Row>,
    held: &mut Vec<Option<u16>>,
    output: u8,
)
    requires table { (seat.old.table_id ≡ table.now.id) × IsSound seat.old.me.0.plan }
    requires place { (place < places) × (place < length seat.old.me.0.entries) }
    requires fits { All (IsFit seat.old.me.0.plan) seat.old.me.0.entries }
    requires rows { (output < length rows.old.items)
        × (length (slice_index_or rows.old.items output []) ≤ MOST_CHANNELS) }
    requires long { (d : EntryValue)
        → length (slice_index_or rows.old.items output [])
        ≡ length (slice_index_or seat.old.me.0.entries place d).row }
    requires held { (output < length held.old.items)
        × IsHeld seat.old.me.0.entries (length held.old.items) held.old.items rows.old.items }
    ensures seat { (seat.new.table_id ≡ seat.old.table_id) × (seat.new.id ≡ seat.old.id) }
    ensures view { (n : ℕ) × (n ≤ length (slice_index_or rows.old.items output []))
        × (seat.new.me ≡ (pieced_on seat.old.me.0 n, seat.old.me.1)) }
    ensures rows { (d : EntryValue)
        → rows.new.items ≡ slice_set rows.old.items output
        (slice_index_or seat.old.me.0.entries place d).row }
    ensures held { IsHeld seat.old.me.0.entries (length held.old.items) held.new.items
        rows.new.items }
{
    if is_held(held.as_slice(), output, place) {
        return;
    }
    read_part(table, seat, place, rows, output);
    held[output as usize] = Some(place as u16);
}

//! The table of one input, and a reader's seat at it.

ghost use Rattle.std.specs.Prelude.{Option, List, ℤ, pos, length, slice_index_or, ◌≡◌, ◌+◌, ◌-◌};
ghost use Rattle.std.specs.Prelude.{◌*◌, ◌<◌, ◌≤◌, ◌^◌, ◌↔◌, IfOk, IsTrue, ℕ, true, false};
ghost use Rattle.std.specs.List.{Contains};
ghost use Rattle.input_rule.specs.declared.view.HeardSample.{HeardSample};
ghost use Rattle.input_rule.specs.Views.{HasMissed, HasSeen, closed_of, listened, looked, saw};
ghost use Rattle.input_rule.specs.Words.{HasTick, block_len, block_start, presence, sample_word};
ghost use Rattle.packet_writer.specs.Heard.{HasFrames, channel_samples};
ghost use Rattle.input_cells.specs.Faces.{HearsAt, face_of, unfed, unread};
ghost use Rattle.input_cells.specs.Agreement.{HasHeard, IsHeardOf};
ghost use Rattle.input_cells.specs.Shapes.{BeginsUnfed, IsSmall};

use crate::feeder::InputFeeder;
use atomic_table::{Seat, Table};
use input_rule::{Hands, Hears, Law, Looks, SeesClosing, Shape, View, sample_of};
use io_caps::NoMemory;
use std::alloc::Global;
use std::marker::Model;

/// The table of one input, or of the pace.
#[derive(Drop)]
pub(crate) struct OneInput {
    pub(crate) table: Table<u8, View, Shape, Law, Global>,
    pub(crate) shape: Shape,
    /// The samples of a block.
    pub(crate) block: u64,
}

impl Model for OneInput {
    ghost use Rattle.input_cells.specs.Faces.{InputFace, IsInput};

    ghost Value = { InputFace };

    ghost view = { λ t. record { id = t.table.shared.table_id; shape = t.shape } };

    ghost invariant = { λ t. IsInput t.table.shared.key t.table.shared.table_id t.shape t.block };
}

impl OneInput {
    /// The table of an input to which nothing was fed, and its feeder. Its words are the first ones
    /// of the row.
    pub(crate) fn start(
        alloc: Global,
        shape: Shape,
        row: &[u64],
    ) -> Result<(OneInput, InputFeeder), NoMemory>
        requires small { IsSmall shape }
        requires row { BeginsUnfed shape row.now }
        ensures shape { IfOk result (λ t. t.0.shape ≡ shape) }
        ensures feeder { IfOk result (λ t. t.1 ≡ unfed t.0) }
    {
        let block = shape.frames * shape.channels;
        let count = 1 + (shape.ticks + shape.ticks * block) as usize;
        let (table, seat) = Table::of_words(alloc, &row[..count], &shape)?;
        let one = OneInput {
            table,
            shape,
            block,
        };
        Ok((one, InputFeeder { seat }))
    }

    /// Whether the table has the tick.
    pub(crate) fn has_tick(&self, tick: u64) -> bool
        ensures { IsTrue result ↔ HasTick self.now.shape tick }
    {
        self.shape.from <= tick && tick - self.shape.from < self.shape.ticks
    }

    /// Whether a block has the frame.
    pub(crate) fn has_frame(&self, frame: u16) -> bool
        ensures { IsTrue result ↔ (frame < self.now.shape.frames) }
    {
        (frame as u64) < self.shape.frames
    }

    /// Whether a block has the channel.
    pub(crate) fn has_channel(&self, channel: u8) -> bool
        ensures { IsTrue result ↔ (channel < self.now.shape.channels) }
    {
        (channel as u64) < self.shape.channels
    }

    /// The presence word of a tick.
    pub(crate) fn presence_word(&self, tick: u64) -> usize
        requires { HasTick self.now.shape tick }
        ensures word { result ≡ presence self.now.shape tick }
        ensures within { result < self.now.id.words }
    {
        (tick - self.shape.from) as usize + 1
    }

    /// The first sample word of a tick, after which all samples of the tick are words of the
    /// table.
    pub(crate) fn block_word(&self, tick: u64) -> usize
        requires { HasTick self.now.shape tick }
        ensures word { result ≡ block_start self.now.shape tick }
        ensures within { result + block_len self.now.shape ≤ self.now.id.words }
        ensures few { self.now.id.words < 2 ^ 63 }
    {
        1 + (self.shape.ticks + (tick - self.shape.from) * self.block) as usize
    }
}

impl OneInput {
    /// The sample word of a tick, at a frame and a channel. The next words are those of the frames
    /// after it.
    pub(crate) fn sample_word(&self, tick: u64, frame: usize, channel: usize) -> usize
        requires tick { HasTick self.now.shape tick }
        requires frame { frame ≤ self.now.shape.frames }
        requires channel { channel < self.now.shape.channels }
        ensures word { result ≡ block_start self.now.shape tick
            + (channel * self.now.shape.frames + frame) }
        ensures within { result + (self.now.shape.frames - frame) ≤ self.now.id.words }
        ensures few { self.now.id.words < 2 ^ 63 }
    {
        self.block_word(tick) + (channel * self.shape.frames as usize + frame)
    }

    /// The sample word of a tick, at a place of its block.
    pub(crate) fn word_of_place(&self, tick: u64, place: usize) -> usize
        requires tick { HasTick self.now.shape tick }
        requires place { place < block_len self.now.shape }
        ensures { result ≡ sample_word self.now.shape tick place }
    {
        let channels = self.shape.channels as usize;
        self.sample_word(tick, place / channels, place % channels)
    }

    /// Whether a part has the channels of the blocks.
    fn has_channels(&self, part: Part) -> bool
        ensures { IsTrue result ↔ (part.channels ≡ self.now.shape.channels) }
    {
        part.channels as u64 == self.shape.channels
    }

    /// Whether the blocks have a given number of frames of the part's channels.
    fn has_room(&self, part: Part, frames: usize) -> bool
        requires { frames < 2 ^ 63 }
        ensures room { IsTrue result
            ↔ ((part.frame + frames) * part.channels ≤ block_len self.now.shape) }
        ensures short { block_len self.now.shape < 2 ^ 63 }
    {
        (part.frame as u128 + frames as u128) * part.channels as u128 <= self.block as u128
    }

    /// The place of a sample in its block, by its frame and its channel.
    pub(crate) fn place(&self, frame: u16, channel: u8) -> usize
        requires frame { frame < self.now.shape.frames }
        requires channel { channel < self.now.shape.channels }
        requires some_tick { 0 < self.now.shape.ticks }
        ensures place { result ≡ frame * self.now.shape.channels + channel }
        ensures within { result < block_len self.now.shape }
    {
        frame as usize * self.shape.channels as usize + channel as usize
    }
}

/// A channel of a block of a given number of channels, from a frame on.
#[derive(Clone, Copy)]
pub(crate) struct Part {
    pub(crate) channels: usize,
    pub(crate) channel: u8,
    pub(crate) frame: u16,
}

/// A reader's seat at the table of one input.
#[derive(Drop)]
pub(crate) struct InputReader {
    pub(crate) seat: Seat<u8, View>,
}

impl Model for InputReader {
    ghost use Rattle.std.specs.Prelude.{◌≡◌, true, []};
    ghost use Rattle.input_cells.specs.Faces.{SeatFace};

    ghost Value = { SeatFace };

    ghost view = { λ p. record { id = p.seat.table_id; view = p.seat.me.0 } };

    ghost invariant = { λ p. (p.seat.me.0.live ≡ true) × (p.seat.me.1 ≡ []) };
}

impl InputReader {
    /// A reader of the same table that has seen nothing. It is made by one load.
    pub(crate) fn again(&mut self, table: &OneInput) -> InputReader
        requires { face_of self.old ≡ table.now }
        ensures new { result ≡ unread table.now }
        ensures same { self.new ≡ self.old }
    {
        InputReader {
            seat: table.table.shared.split_seat::<Hands>(&mut self.seat),
        }
    }

    /// The closing number, by one load.
    pub(crate) fn closed(&mut self, table: &OneInput) -> u64
        requires { face_of self.old ≡ table.now }
        ensures seen { self.new ≡ record self.old { view = saw self.old.view result } }
        ensures later { closed_of self.old.view ≤ result }
        ensures begun { self.old.view.shape.from ≤ result }
    {
        table.table.shared.load::<SeesClosing>(&mut self.seat, 0)
    }

    /// Whether the block of a tick is there, by one load.
    pub(crate) fn look(&mut self, table: &OneInput, tick: u64) -> bool
        requires table { face_of self.old ≡ table.now }
        requires tick { HasTick table.now.shape tick }
        ensures seen { self.new ≡ record self.old { view = looked self.old.view tick result } }
        ensures saw { result ≡ true → HasSeen self.new.view tick }
        ensures again { HasSeen self.old.view tick → result ≡ true }
        ensures never { HasMissed self.old.view tick → result ≡ false }
    {
        let word = table.presence_word(tick);
        table.table.shared.load::<Looks>(&mut self.seat, word) == 1
    }

    /// The sample at a place of a block that was seen, by one load of its word.
    pub(crate) fn listen(&mut self, table: &OneInput, tick: u64, place: usize, word: usize) -> i32
        requires table { face_of self.old ≡ table.now }
        requires tick { HasTick table.now.shape tick }
        requires place { place < block_len table.now.shape }
        requires word { word ≡ sample_word table.now.shape tick place }
        requires seen { HasSeen self.old.view tick }
        ensures heard { self.new
            ≡ record self.old { view = listened self.old.view tick place result } }
        ensures same { (h : HeardSample) → Contains self.old.view.heard h → h.tick ≡ tick
            → h.place ≡ place → h.value ≡ result }
    {
        sample_of(table.table.shared.load::<Hears>(&mut self.seat, word))
    }

    /// Copies the samples at places of a block that was seen, each a given number of places after
    /// the one before, by one load each.
    fn copy(&mut self, table: &OneInput, tick: u64, first: usize, step: usize, out: &mut [i32])
        requires table { face_of self.old ≡ table.now }
        requires tick { HasTick table.now.shape tick }
        requires seen { HasSeen self.old.view tick }
        requires places { (n : ℕ) → n < length out.old
            → first + n * step < block_len table.now.shape }
        requires short { block_len table.now.shape < 2 ^ 63 }
        ensures hears { HearsAt self.old self.new }
        ensures len { length out.new ≡ length out.old }
        ensures heard { (n : ℕ) → n < length out.old
            → HasHeard self.new.view tick (first + n * step) (slice_index_or out.new n (pos 0)) }
    {
        for n in 0..out.len() {
            let place = first + n * step;
            out[n] = self.listen(table, tick, place, table.word_of_place(tick, place));
        }
    }

    /// Copies the samples of a channel of a block that was seen, from a frame on, by one load each:
    /// their words stand one after the other. Out of line, so that its loop keeps its registers.
    #[inline(never)]
    fn copy_run(&mut self, table: &OneInput, tick: u64, part: Part, out: &mut [i32])
        requires table { face_of self.old ≡ table.now }
        requires tick { HasTick table.now.shape tick }
        requires seen { HasSeen self.old.view tick }
        requires channels { part.channels ≡ table.now.shape.channels }
        requires channel { part.channel < part.channels }
        requires room { (part.frame + length out.old) * part.channels ≤ block_len table.now.shape }
        requires short { block_len table.now.shape < 2 ^ 63 }
        ensures hears { HearsAt self.old self.new }
        ensures len { length out.new ≡ length out.old }
        ensures heard { (n : ℕ) → n < length out.old → HasHeard self.new.view tick
            (part.frame * part.channels + part.channel + n * part.channels)
            (slice_index_or out.new n (pos 0)) }
    {
        let first = part.frame as usize * part.channels + part.channel as usize;
        let start = table.sample_word(tick, part.frame as usize, part.channel as usize);
        for n in 0..out.len() {
            out[n] = self.listen(table, tick, first + n * part.channels, start + n);
        }
    }

    /// Copies the samples of a channel of a block that was seen, from a frame on. Where there are
    /// fewer, no block agrees with what was seen, and it is silence.
    pub(crate) fn copy_channel(&mut self, table: &OneInput, tick: u64, part: Part, out: &mut [i32])
        requires table { face_of self.old ≡ table.now }
        requires tick { HasTick table.now.shape tick }
        requires seen { HasSeen self.old.view tick }
        requires channel { part.channel < part.channels }
        ensures hears { HearsAt self.old self.new }
        ensures len { length out.new ≡ length out.old }
        ensures value { (b : Option (List ℤ)) → IsHeardOf self.new.view tick b
            → HasFrames b part.channels (part.frame + length out.old)
            → out.new ≡ channel_samples b part.channels part.channel part.frame (length out.old) }
    {
        if !table.has_room(part, out.len()) {
            out.fill(0);
        } else if table.has_channels(part) {
            self.copy_run(table, tick, part, out);
        } else {
            let first = part.frame as usize * part.channels + part.channel as usize;
            self.copy(table, tick, first, part.channels, out);
        }
    }
}

//! The feeder's seat at the table of one input.

ghost use Rattle.std.specs.Prelude.{◌≡◌, ◌<◌, ◌≤◌, length};
ghost use Rattle.input_rule.specs.Words.{HasTick, IsAbsent, block_len, closing, presence};
ghost use Rattle.input_rule.specs.Words.{sample_word};
ghost use Rattle.input_cells.specs.Faces.{face_of, unread};
ghost use Rattle.input_cells.specs.Agreement.{AreTrue};
ghost use Rattle.input_rule.specs.Views.{taken_in};
ghost use Rattle.input_cells.specs.Feeding.{Spells, Stores, StoresSample};

use crate::one::{InputReader, OneInput};
use atomic_table::Seat;
use input_rule::{Hands, Learns, TakesIn, View, Writes, word_of};
use std::marker::Model;

/// The feeder's seat. Contracts see what it knows: all words of its table.
#[derive(Drop)]
pub(crate) struct InputFeeder {
    pub(crate) seat: Seat<u8, View>,
}

impl Model for InputFeeder {
    ghost use Rattle.std.specs.Prelude.{◌≡◌, []};
    ghost use Rattle.input_cells.specs.Faces.{SeatFace};
    ghost use Rattle.input_cells.specs.Feeding.{IsFeeding};

    ghost Value = { SeatFace };

    ghost view = { λ p. record { id = p.seat.table_id; view = p.seat.me.0 } };

    ghost invariant = { λ p. IsFeeding p.seat.me.0 × (p.seat.me.1 ≡ []) };
}

impl InputFeeder {
    /// Stores a sample of a tick of which no block is there yet, in its word.
    fn store_sample(&mut self, table: &OneInput, tick: u64, place: usize, word: usize, sample: i32)
        requires table { face_of self.old ≡ table.now }
        requires tick { HasTick table.now.shape tick }
        requires place { place < block_len table.now.shape }
        requires word { word ≡ sample_word table.now.shape tick place }
        requires absent { IsAbsent self.old.view.shape self.old.view.words tick }
        ensures { StoresSample self.old self.new tick place sample }
    {
        table
            .table
            .shared
            .store::<Writes>(&mut self.seat, word, word_of(sample));
    }

    /// Stores the samples of a tick of which no block is there yet.
    pub(crate) fn store_samples(&mut self, table: &OneInput, tick: u64, samples: &[i32])
        requires table { face_of self.old ≡ table.now }
        requires tick { HasTick table.now.shape tick }
        requires absent { IsAbsent self.old.view.shape self.old.view.words tick }
        requires len { length samples.now ≡ block_len table.now.shape }
        ensures { Spells self.old self.new tick samples.now (length samples.now) }
    {
        let channels = table.shape.channels as usize;
        for frame in 0..table.shape.frames as usize {
            for channel in 0..channels {
                let place = frame * channels + channel;
                let word = table.sample_word(tick, frame, channel);
                self.store_sample(table, tick, place, word, samples[place]);
            }
        }
    }

    /// Stores that the block of a tick, which is not closed, is there.
    pub(crate) fn store_presence(&mut self, table: &OneInput, tick: u64)
        requires table { face_of self.old ≡ table.now }
        requires tick { HasTick table.now.shape tick }
        requires open { closing self.old.view.words ≤ tick }
        ensures { Stores self.old self.new (presence self.old.view.shape tick) 1 }
    {
        let word = table.presence_word(tick);
        table.table.shared.store::<Writes>(&mut self.seat, word, 1);
    }

    /// Stores a closing number that is no lower.
    pub(crate) fn store_closing(&mut self, table: &OneInput, upto: u64)
        requires table { face_of self.old ≡ table.now }
        requires rises { closing self.old.view.words ≤ upto }
        ensures { Stores self.old self.new 0 upto }
    {
        table.table.shared.store::<Writes>(&mut self.seat, 0, upto);
    }
    /// A reader's seat at the same table that has seen nothing. It is made by one load.
    pub(crate) fn reader(&mut self, table: &OneInput) -> InputReader
        requires { face_of self.old ≡ table.now }
        ensures new { result ≡ unread table.now }
        ensures same { self.new ≡ self.old }
    {
        InputReader {
            seat: table.table.shared.split_seat::<Hands>(&mut self.seat),
        }
    }

    /// Takes in what a reader knows, by one load, and learns by another that it is true of the
    /// words.
    pub(crate) fn confirm(&mut self, table: &OneInput, reader: InputReader)
        requires table { face_of self.old ≡ table.now }
        requires reader { face_of reader ≡ table.now }
        ensures taken { self.new ≡ record self.old { view = taken_in self.old.view reader.view } }
        ensures fits { AreTrue self.old.view reader.view }
    {
        let InputReader { seat } = reader;
        table
            .table
            .shared
            .join_seat::<TakesIn>(&mut self.seat, seat);
        table.table.shared.load::<Learns>(&mut self.seat, 0);
    }
}

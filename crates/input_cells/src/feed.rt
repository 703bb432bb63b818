//! A feeder's pass.

ghost use Rattle.std.specs.Prelude.{◌≡◌, ◌↔◌, IsErr, IsSome, IsTrue, OnErr, OnOk};
ghost use Rattle.input_rule.specs.Words.{HasTick, block_len};
ghost use Rattle.input_cells.specs.Faces.{FeedsInput, IsFeedOf, face_of, unfed};
ghost use Rattle.input_cells.specs.Agreement.{AreTrue};
ghost use Rattle.input_rule.specs.Views.{taken_in};
ghost use Rattle.input_cells.specs.Shapes.{IsSmall};
ghost use Rattle.input_cells.specs.Feeding.{Closes, MaySet, Sets, block_fed, closing_of};

use crate::Block;
use crate::feeder::InputFeeder;
use crate::one::{InputReader, OneInput};
use crate::table::InputTable;
use crate::ticks::TickSet;
use input_rule::Shape;
use std::marker::Model;
use thiserror::Error;

/// The block of the tick was set before.
#[derive(Clone, Copy, Debug, PartialEq, Eq, Error)]
#[error("the block was set before")]
pub struct AlreadySet;

/// The pass of the one feeder of an input, or of the pace. Contracts see what it knows: all words
/// of its table.
#[derive(Drop)]
pub struct FeedPass {
    pub(crate) feeder: InputFeeder,
    shape: Shape,
    /// The closing number, and the ticks that were set, by their places in the table.
    closed: u64,
    set: TickSet,
}

impl Model for FeedPass {
    ghost use Rattle.input_cells.specs.Faces.{SeatFace};
    ghost use Rattle.input_cells.specs.Feeding.{IsFeedPass};

    ghost Value = { SeatFace };

    ghost view = { λ p. p.feeder };

    ghost invariant = { λ p. IsFeedPass p.feeder.view p.shape p.closed p.set };
}

impl FeedPass {
    /// The pass of a feeder that has fed nothing.
    pub(crate) fn new(feeder: InputFeeder, shape: Shape) -> FeedPass
        requires small { IsSmall shape }
        requires unfed { feeder ≡ unfed (face_of feeder) }
        requires face { feeder.view.shape ≡ shape }
        ensures { result ≡ feeder }
    {
        FeedPass {
            feeder,
            shape,
            closed: shape.from,
            set: TickSet::new(),
        }
    }

    /// Takes in what a reader knows, and learns that it is true of the words.
    pub(crate) fn confirm(&mut self, table: &OneInput, reader: InputReader)
        requires table { face_of self.old ≡ table.now }
        requires reader { face_of reader ≡ table.now }
        ensures taken { self.new ≡ record self.old { view = taken_in self.old.view reader.view } }
        ensures fits { AreTrue self.old.view reader.view }
    {
        self.feeder.confirm(table, reader);
    }

    /// The closing number. The ticks below it are closed.
    pub fn closing(&self) -> u64
        ensures { result ≡ closing_of self.now }
    {
        self.closed
    }

    /// Whether a block of a given number of samples has the shape of an input.
    fn fits(&self, samples: usize) -> bool
        ensures { IsTrue result
            ↔ (FeedsInput self.now × (samples ≡ block_len self.now.view.shape)) }
    {
        self.shape.channels > 0 && samples as u64 == self.shape.frames * self.shape.channels
    }

    /// Whether the table has the tick.
    fn has_tick(&self, tick: u64) -> bool
        ensures { IsTrue result ↔ HasTick self.now.view.shape tick }
    {
        self.shape.from <= tick && tick - self.shape.from < self.shape.ticks
    }

    /// Whether `set` may be called: the pass is an input's, the table has the tick, the tick is not
    /// closed, and the block has the input's shape.
    pub fn may_set(&self, tick: u64, block: &Block) -> bool
        ensures { IsTrue result ↔ MaySet self.now tick block.now }
    {
        self.has_tick(tick) && self.closed <= tick && self.fits(block.len())
    }

    /// Sets the block of a tick that is not closed: first the samples, then that it is there.
    /// Refused exactly where this pass set that tick before, and then nothing changes. It takes no
    /// memory.
    pub fn set(&mut self, table: &InputTable, tick: u64, block: &Block) -> Result<(), AlreadySet>
        requires pass { IsFeedOf table.now self.old }
        requires may { MaySet self.old tick block.now }
        ensures err { IsErr result ↔ IsSome (block_fed self.old tick) }
        ensures ok { OnOk result (Sets self.old self.new tick block.now) }
        ensures kept { OnErr result (self.new ≡ self.old) }
        ensures pass { IsFeedOf table.now self.new }
    {
        let at = tick - self.shape.from;
        if self.set.contains(at) {
            return Err(AlreadySet);
        }
        let one = &table.inputs[self.shape.input as usize];
        self.feeder.store_samples(one, tick, block.as_slice());
        self.feeder.store_presence(one, tick);
        self.set.insert(at);
        Ok(())
    }

    /// Raises the closing number, or leaves a greater one. The ticks below it are closed. It takes
    /// no memory.
    pub fn close(&mut self, table: &InputTable, upto: u64)
        requires { IsFeedOf table.now self.old }
        ensures closes { Closes self.old self.new upto }
        ensures pass { IsFeedOf table.now self.new }
    {
        if upto > self.closed {
            let one = &table.inputs[self.shape.input as usize];
            self.feeder.store_closing(one, upto);
            self.closed = upto;
        }
    }
}

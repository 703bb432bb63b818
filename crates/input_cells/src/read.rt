//! A reader's pass.

ghost use Rattle.std.specs.Prelude.{◌≡◌, ◌+◌, ◌*◌, ◌<◌, ◌≤◌, Option, List, ℤ, true, false, length};
ghost use Rattle.std.specs.List.{Contains};
ghost use Rattle.input_rule.specs.declared.view.HeardSample.{HeardSample};
ghost use Rattle.input_rule.specs.Views.{HasMissed, HasSeen, closed_of, listened, looked, saw};
ghost use Rattle.input_rule.specs.Words.{HasTick};
ghost use Rattle.packet_writer.specs.Heard.{HasFrames, channel_samples};
ghost use Rattle.input_cells.specs.Agreement.{IsHeardOf};
ghost use Rattle.input_cells.specs.Faces.{Grows, HasInput, HasShape, HasView, IsReadOf};
ghost use Rattle.input_cells.specs.Faces.{OnlyHears, changed};

use crate::one::{InputReader, Part};
use crate::table::InputTable;
use std::marker::Model;

/// A reader's pass: a seat at the table of each input, and of the pace. Contracts see what it knows
/// of each.
#[derive(Drop)]
pub struct ReadPass {
    pub(crate) seats: Vec<InputReader>,
}

impl Model for ReadPass {
    ghost use Rattle.std.specs.Prelude.{List};
    ghost use Rattle.input_cells.specs.Faces.{SeatFace};

    ghost Value = { List SeatFace };

    ghost view = { λ p. p.seats.items };
}

impl ReadPass {
    /// The closing number of an input, or of the pace, whose number is the next one after the
    /// inputs. The ticks below it are closed.
    pub fn closed(&mut self, table: &InputTable, input: u8) -> u64
        requires pass { IsReadOf table.now self.old }
        requires input { input < length table.now }
        ensures seen { self.new ≡ changed (λ v. saw v result) input self.old }
        ensures later { HasView self.old input (λ v. closed_of v ≤ result) }
        ensures begun { HasView self.old input (λ v. v.shape.from ≤ result) }
        ensures pass { IsReadOf table.now self.new }
        ensures grows { Grows self.old self.new }
    {
        let one = &table.inputs[input as usize];
        let seat = &mut self.seats[input as usize];
        seat.closed(one)
    }

    /// Whether the block of an input at a tick is there.
    pub fn look(&mut self, table: &InputTable, input: u8, tick: u64) -> bool
        requires pass { IsReadOf table.now self.old }
        requires input { HasInput table.now input }
        requires tick { HasShape table.now input (λ s. HasTick s tick) }
        ensures seen { self.new ≡ changed (λ v. looked v tick result) input self.old }
        ensures saw { result ≡ true → HasView self.new input (λ v. HasSeen v tick) }
        ensures again { HasView self.old input (λ v. HasSeen v tick) → result ≡ true }
        ensures never { HasView self.old input (λ v. HasMissed v tick) → result ≡ false }
        ensures pass { IsReadOf table.now self.new }
        ensures grows { Grows self.old self.new }
    {
        let one = &table.inputs[input as usize];
        let seat = &mut self.seats[input as usize];
        seat.look(one, tick)
    }

    /// The sample of an input's block at a frame and a channel. An earlier look of this pass saw
    /// the block.
    pub fn sample(
        &mut self,
        table: &InputTable,
        input: u8,
        tick: u64,
        frame: u16,
        channel: u8,
    ) -> i32
        requires pass { IsReadOf table.now self.old }
        requires input { HasInput table.now input }
        requires tick { HasShape table.now input (λ s. HasTick s tick) }
        requires frame { HasShape table.now input (λ s. frame < s.frames) }
        requires channel { HasShape table.now input (λ s. channel < s.channels) }
        requires seen { HasView self.old input (λ v. HasSeen v tick) }
        ensures heard { self.new ≡ changed
            (λ v. listened v tick (frame * v.shape.channels + channel) result) input self.old }
        ensures same { HasView self.old input (λ v. (h : HeardSample) → Contains v.heard h
            → h.tick ≡ tick
            → h.place ≡ frame * v.shape.channels + channel → h.value ≡ result) }
        ensures pass { IsReadOf table.now self.new }
        ensures grows { Grows self.old self.new }
    {
        let one = &table.inputs[input as usize];
        let seat = &mut self.seats[input as usize];
        let word = one.sample_word(tick, frame as usize, channel as usize);
        seat.listen(one, tick, one.place(frame, channel), word)
    }

    /// Copies the samples of a channel of an input's block, which an earlier look of this pass saw,
    /// from a frame on.
    pub(crate) fn copy_channel(
        &mut self,
        table: &InputTable,
        input: u8,
        tick: u64,
        part: Part,
        out: &mut [i32],
    )
        requires pass { IsReadOf table.now self.old }
        requires input { HasInput table.now input }
        requires tick { HasShape table.now input (λ s. HasTick s tick) }
        requires seen { HasView self.old input (λ v. HasSeen v tick) }
        requires channel { part.channel < part.channels }
        ensures hears { OnlyHears self.old self.new }
        ensures len { length out.new ≡ length out.old }
        ensures value { (b : Option (List ℤ)) → HasView self.new input (λ v. IsHeardOf v tick b)
            → HasFrames b part.channels (part.frame + length out.old)
            → out.new ≡ channel_samples b part.channels part.channel part.frame (length out.old) }
    {
        let one = &table.inputs[input as usize];
        let seat = &mut self.seats[input as usize];
        seat.copy_channel(one, tick, part, out);
    }
}

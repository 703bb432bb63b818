//! The table of all inputs.

ghost use Rattle.std.specs.Prelude.{◌≡◌, ◌+◌, ◌-◌, ◌<◌, ◌≤◌, ◌^◌, ◌↔◌, IfOk, IsTrue, false, length};
ghost use Rattle.std.specs.Prelude.{replicate};
ghost use Rattle.io_caps.specs.declared.limits.TheConstants.{LAP_TICKS, MOST_WORKERS};
ghost use Rattle.input_rule.specs.Words.{HasTick};
ghost use Rattle.input_cells.specs.Faces.{AreNumbered, HasShape};
ghost use Rattle.input_cells.specs.Shapes.{IsTableOf};

use crate::feeds::Feeds;
use crate::lay::lay;
use crate::one::OneInput;
use io_caps::{Device, NoMemory};
use std::alloc::Global;
use std::marker::Model;

/// The input table: a table for each input, by their numbers, and one for the pace. Contracts see
/// which tables they are and how their words lie.
#[derive(Drop)]
pub struct InputTable {
    pub(crate) inputs: Vec<OneInput>,
}

impl Model for InputTable {
    ghost use Rattle.std.specs.Prelude.{List};
    ghost use Rattle.input_cells.specs.Faces.{AreNumbered, InputFace};

    ghost Value = { List InputFace };

    ghost view = { λ t. t.inputs.items };

    ghost invariant = { λ t. AreNumbered t.inputs.items };
}

impl InputTable {
    /// A table for the inputs of a device, with a given number of ticks from a first one on and
    /// room for a given number of readers, and what makes its passes. No block is there, and each
    /// closing number, the pace's too, is the first tick.
    pub fn start(
        alloc: Global,
        device: &Device,
        from: u64,
        ticks: u64,
        readers: u8,
    ) -> Result<(InputTable, Feeds), NoMemory>
        requires ticks { ticks ≤ LAP_TICKS }
        requires end { from + ticks < 2 ^ 64 }
        requires readers { readers ≤ MOST_WORKERS }
        ensures table { IfOk result (λ t. IsTableOf device.now from ticks t.0) }
        ensures of { IfOk result (λ t. t.1.table ≡ t.0) }
        ensures given { IfOk result (λ t.
            t.1.given ≡ replicate (length device.now.inputs + 1) false) }
        ensures most { IfOk result (λ t. t.1.most ≡ readers) }
        ensures made { IfOk result (λ t. t.1.made ≡ 0) }
    {
        let mut laid = lay(alloc, device, from, ticks)?;
        let passes = laid.reader.copies(alloc, laid.inputs.as_slice(), readers)?;
        let feeds = Feeds {
            feeders: laid.feeders,
            readers: passes,
            spare: laid.reader,
            most: readers,
        };
        let table = InputTable {
            inputs: laid.inputs,
        };
        Ok((table, feeds))
    }

    /// How many inputs there are. The pace has the next number.
    pub fn inputs(&self) -> usize
        ensures value { result ≡ length self.now - 1 }
        ensures numbered { AreNumbered self.now }
    {
        self.inputs.len().saturating_sub(1)
    }

    /// How many feeders there are: one for each input, and the pace's.
    pub fn feeders(&self) -> usize
        ensures { result ≡ length self.now }
    {
        self.inputs.len()
    }

    /// Whether the table has the tick.
    pub fn has_tick(&self, input: u8, tick: u64) -> bool
        requires { input < length self.now }
        ensures { IsTrue result ↔ HasShape self.now input (λ s. HasTick s tick) }
    {
        self.inputs[input as usize].has_tick(tick)
    }

    /// Whether the blocks of an input have the frame.
    pub fn has_frame(&self, input: u8, frame: u16) -> bool
        requires { input < length self.now }
        ensures { IsTrue result ↔ HasShape self.now input (λ s. frame < s.frames) }
    {
        self.inputs[input as usize].has_frame(frame)
    }

    /// Whether the blocks of an input have the channel.
    pub fn has_channel(&self, input: u8, channel: u8) -> bool
        requires { input < length self.now }
        ensures { IsTrue result ↔ HasShape self.now input (λ s. channel < s.channels) }
    {
        self.inputs[input as usize].has_channel(channel)
    }
}

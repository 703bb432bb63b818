//! Changes of the channels of one output.

ghost use Rattle.std.specs.Prelude.{◌≡◌, ◌↔◌, IsTrue, IfSome, IfNone, OnSome};
ghost use Rattle.map_entry.specs.Action.{AreAscending, IsOutputChange, NamesChannels};
ghost use Rattle.map_entry.specs.Action.{output_change};

use crate::{Cell, Changes};
use io_caps::{NoMemory, TryCopy};
use std::marker::Model;

/// A channel and its new cell.
#[derive(Clone, Copy, Debug, PartialEq, Eq)]
pub struct Change {
    pub channel: u8,
    pub cell: Cell,
}

impl TryCopy for Change {
    fn copy(&self) -> Result<Change, NoMemory> {
        Ok(*self)
    }
}

/// What an action changes of one output. The channels ascend, so no two are alike.
#[derive(Debug, Drop)]
pub struct OutputChange {
    pub output: u8,
    pub changes: Changes,
}

impl Model for OutputChange {
    ghost use Rattle.map_entry.specs.Action.{OutputChangeParts, output_change, IsOutputChange};

    ghost Value = { OutputChangeParts };

    ghost view = { λ c. output_change c.output c.changes };

    ghost invariant = { λ c. IsOutputChange (output_change c.output c.changes) };
}

impl OutputChange {
    /// The change of an output, and `None` exactly where the channels do not ascend.
    pub fn build(output: u8, changes: Changes) -> Option<OutputChange>
        ensures some { IfSome result (λ made. made ≡ output_change output changes) }
        ensures within { OnSome result (IsOutputChange (output_change output changes)) }
        ensures none { IfNone result (IsOutputChange (output_change output changes) → ⊥) }
    {
        if are_ascending(changes.as_slice()) {
            Some(OutputChange { output, changes })
        } else {
            None
        }
    }

    /// Whether each channel is below a given number.
    pub fn names_below(&self, channels: usize) -> bool
        ensures { IsTrue result ↔ NamesChannels channels self.now }
    {
        self.changes
            .as_slice()
            .iter()
            .all(|change| (change.channel as usize) < channels)
    }

    /// The changes, whose channels ascend.
    pub fn changes(&self) -> &[Change]
        ensures value { result.now ≡ self.now.changes }
        ensures valid { IsOutputChange self.now }
    {
        self.changes.as_slice()
    }
}

/// Whether the channels ascend.
fn are_ascending(changes: &[Change]) -> bool
    ensures { IsTrue result ↔ AreAscending (λ change. change.channel) changes.now }
{
    for at in 1..changes.len() {
        if changes[at - 1].channel >= changes[at].channel {
            return false;
        }
    }
    true
}

impl TryCopy for OutputChange {
    fn copy(&self) -> Result<OutputChange, NoMemory> {
        Ok(OutputChange {
            output: self.output,
            changes: self.changes.copy()?,
        })
    }
}

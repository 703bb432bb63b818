//! The map entries of a history, by output.

ghost use Rattle.std.specs.Prelude.{[], IfOk};
ghost use Rattle.serial_player.specs.OutputEntries.{HaveEntries};

use io_caps::{ListOf, NoMemory};
use map_entry::Entries;
use std::alloc::Global;

/// Map entries by output: those of an output stand in their order.
pub(crate) type OutputEntries = ListOf<Entries>;

/// A list without entries for each output.
fn no_entries(alloc: Global, outputs: u8) -> Result<Vec<Entries>, NoMemory>
    ensures { IfOk result (λ made. HaveEntries outputs [] made.items) }
{
    let mut made = Vec::new(alloc);
    for _ in 0..outputs {
        made.push(Entries::new(alloc))?;
    }
    Ok(made)
}

/// The entries of each output. A claim looks at those of its output alone.
pub(crate) fn sort_entries(
    alloc: Global,
    outputs: u8,
    entries: Entries,
) -> Result<OutputEntries, NoMemory>
    ensures { IfOk result (HaveEntries outputs entries) }
{
    let mut made = no_entries(alloc, outputs)?;
    for entry in entries.into_vec() {
        let output = entry.output as usize;
        if output < made.len() {
            made[output].push(entry)?;
        }
    }
    Ok(OutputEntries::from_vec(made))
}

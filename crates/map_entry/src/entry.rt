//! Entries: which row an output has from when on.

ghost use Rattle.std.specs.Prelude.{◌≡◌, not, nat_lt};
ghost use Rattle.map_entry.specs.Entry.{due, entry_of, rules};
ghost use Rattle.map_entry.specs.Tick.{frame_key};

use crate::Row;
use io_caps::{NoMemory, TryCopy};

/// That an output has a row from a frame of a tick on, published after a number of claims.
#[derive(Debug, Drop)]
pub struct Entry {
    pub output: u8,
    pub tick: u64,
    /// The frame of the tick from which on it has the row.
    pub offset: u16,
    pub row: Row,
    /// How many claims were made before its publication.
    pub at: u64,
}

/// Whether what counts from a frame of a tick has taken effect at another.
#[inline(always)]
pub fn has_come(from: u64, offset: u16, tick: u64, frame: u16) -> bool
    ensures { result ≡ not (nat_lt (frame_key tick frame) (frame_key from offset)) }
{
    from < tick || (from == tick && offset <= frame)
}

impl Entry {
    /// The entry of these parts, which takes no memory.
    pub fn new(output: u8, tick: u64, offset: u16, row: Row, at: u64) -> Entry
        ensures { result ≡ entry_of output tick offset row at }
    {
        Entry {
            output,
            tick,
            offset,
            row,
            at,
        }
    }

    /// Whether it rules this output at a frame of a tick: it is of the output, and has taken
    /// effect.
    pub fn rules(&self, output: u8, tick: u64, frame: u16) -> bool
        ensures { result ≡ rules due output (frame_key tick frame) self.now }
    {
        self.output == output && has_come(self.tick, self.offset, tick, frame)
    }
}

impl TryCopy for Entry {
    fn copy(&self) -> Result<Entry, NoMemory> {
        Ok(Entry {
            output: self.output,
            tick: self.tick,
            offset: self.offset,
            row: self.row.copy()?,
            at: self.at,
        })
    }
}

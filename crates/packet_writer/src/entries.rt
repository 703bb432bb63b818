//! The rows that entries give an output at a tick.

ghost use Rattle.std.specs.Prelude.{◌≡◌, ℕ};
ghost use Rattle.packet_writer.specs.Packet.{row_at};

use crate::piece::{FrameRows, Piece};
use map_entry::{Entry, select_piece};

/// The rows of an output at a tick, by entries.
#[derive(Clone, Copy, Debug)]
pub struct EntryRows<'a> {
    entries: &'a [Entry],
    output: u8,
    tick: u64,
}

impl<'a> EntryRows<'a> {
    /// The rows of an output at a tick, by these entries.
    pub fn new(entries: &'a [Entry], output: u8, tick: u64) -> EntryRows<'a>
        ensures { (frame : ℕ) → ⟦<EntryRows<'static> as FrameRows>⟧.row_of result frame
            ≡ row_at entries.now output tick frame }
    {
        EntryRows {
            entries,
            output,
            tick,
        }
    }
}

impl<'a> FrameRows for EntryRows<'a> {
    ghost row_of = { λ s. row_at s.entries.now s.output s.tick };

    fn piece(&self, frame: u16, frames: u16) -> Piece<'_> {
        match select_piece(self.entries, self.output, self.tick, frame, frames) {
            Some((row, upto)) => Piece {
                row: row.as_slice(),
                frame,
                upto,
            },
            None => Piece {
                row: &[],
                frame,
                upto: frame + 1,
            },
        }
    }
}

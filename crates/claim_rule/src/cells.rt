//! A cell in a word.

ghost use Rattle.std.specs.Prelude.{◌≡◌};
ghost use Rattle.map_entry.specs.declared.cell.Cell.{Cell as CellValue};
ghost use Rattle.claim_rule.specs.Words.{IsByteCell, cell_word};

use map_entry::Cell;

/// The word that spells a cell.
pub fn word_of(cell: Cell) -> u64
    ensures { result ≡ cell_word cell }
{
    match cell {
        Cell::Unrouted => 0,
        Cell::From { input, channel } => u64::from(input) * (1 << 8) + u64::from(channel) + 1,
    }
}

/// The cell that a word spells.
pub fn cell_of(word: u64) -> Cell
    ensures { (c : CellValue) → IsByteCell c → word ≡ cell_word c → result ≡ c }
{
    if word == 0 {
        return Cell::Unrouted;
    }
    let named = word - 1;
    Cell::From {
        input: (named / (1 << 8) % (1 << 8)) as u8,
        channel: (named % (1 << 8)) as u8,
    }
}

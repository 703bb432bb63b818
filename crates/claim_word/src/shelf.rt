//! The entries that a publisher has published, with room for all that a table takes.

ghost use Rattle.std.specs.Prelude.{◌≡◌, ◌+◌, ◌<◌, ◌≤◌, [], ◌∷◌};
ghost use Rattle.std.specs.Prelude.{◌++◌, length, take, replicate};
ghost use Rattle.std.specs.Prelude.{vec_len, vec_capacity, IfOk};
ghost use Rattle.std.specs.List.{All};
ghost use Rattle.io_caps.specs.declared.limits.TheConstants.{PLACES, MOST_CHANNELS};
ghost use Rattle.map_entry.specs.declared.cell.Cell.TheVariants.{Unrouted};

use io_caps::NoMemory;
use io_caps::limits::{MOST_CHANNELS, PLACES};
use map_entry::{Cell, Entries, Entry, Row};
use std::alloc::Global;
use std::marker::Model;

/// Entries, which contracts see as their list, and a spare row for each place that is left, so that
/// one more takes no memory.
#[derive(Drop)]
pub(crate) struct Shelf {
    entries: Vec<Entry>,
    spare: Vec<Row>,
}

impl Model for Shelf {
    ghost use Rattle.std.specs.Prelude.{List, vec_capacity};
    ghost use Rattle.map_entry.specs.declared.entry.Entry.{Entry};
    ghost use Rattle.claim_word.specs.Shelf.{IsShelf};

    ghost Value = { List Entry };

    ghost view = { λ shelf. shelf.entries.items };

    ghost invariant = { λ shelf.
        IsShelf shelf.entries.items (vec_capacity shelf.entries) shelf.spare.items };
}

impl Shelf {
    /// Without entries.
    pub fn new(alloc: Global) -> Result<Shelf, NoMemory>
        ensures { IfOk result (λ shelf. shelf ≡ []) }
    {
        Ok(Shelf {
            entries: Vec::with_capacity(alloc, PLACES as usize)?,
            spare: spare_rows(alloc)?,
        })
    }

    /// Puts a copy of an entry after the others.
    pub fn keep(&mut self, entry: &Entry)
        requires room { length self.old < PLACES }
        requires short { length entry.now.row ≤ MOST_CHANNELS }
        ensures { self.new ≡ self.old ++ entry.now ∷ [] }
    {
        if let Some(mut row) = self.spare.pop() {
            fill(&mut row, &entry.row);
            self.entries.push_reserved(Entry::new(
                entry.output,
                entry.tick,
                entry.offset,
                row,
                entry.at,
            ));
        }
    }

    /// Puts copies of entries after the others.
    pub fn keep_all(&mut self, entries: &[Entry])
        requires room { length self.old + length entries.now ≤ PLACES }
        requires short { All (λ e. length e.row ≤ MOST_CHANNELS) entries.now }
        ensures { self.new ≡ self.old ++ entries.now }
    {
        for entry in entries {
            self.keep(entry);
        }
    }

    /// How many there are.
    pub fn len(&self) -> usize
        ensures value { result ≡ length self.now }
        ensures few { length self.now ≤ PLACES }
    {
        self.entries.len()
    }

    /// The entries as a slice.
    pub fn as_slice(&self) -> &[Entry]
        ensures { result.now ≡ self.now }
    {
        self.entries.as_slice()
    }

    /// The entries alone.
    pub fn into_entries(self) -> Entries
        ensures { result ≡ self }
    {
        let Shelf { entries, spare: _ } = self;
        Entries::from_vec(entries)
    }
}

/// A row of the most channels for each place.
fn spare_rows(alloc: Global) -> Result<Vec<Row>, NoMemory>
    ensures long { IfOk result (λ rows. length rows.items ≡ PLACES) }
    ensures wide { IfOk result (λ rows. All (λ row. length row ≡ MOST_CHANNELS) rows.items) }
{
    let mut rows = Vec::with_capacity(alloc, PLACES as usize)?;
    for _ in 0..PLACES {
        rows.push(unrouted(alloc, MOST_CHANNELS)?)?;
    }
    Ok(rows)
}

/// A row of a given number of channels that are not routed.
fn unrouted(alloc: Global, channels: usize) -> Result<Row, NoMemory>
    ensures { IfOk result (λ row. length row ≡ channels) }
{
    Ok(Row::from_vec(vec![in alloc; Cell::Unrouted; channels]?))
}

/// Makes a row equal to another that is not longer.
fn fill(row: &mut Row, model: &Row)
    requires { length model.now ≤ length row.old }
    ensures { row.new ≡ model.now }
{
    row.truncate(model.len());
    let cells = model.as_slice();
    for at in 0..cells.len() {
        row.set(at, cells[at]);
    }
}

//! The words with which a table begins.

ghost use Rattle.std.specs.Prelude.{◌≡◌, ◌+◌, ◌*◌, ◌<◌, ◌≤◌, ◌∷◌};
ghost use Rattle.std.specs.Prelude.{length, drop, slice_set, IfOk};
ghost use Rattle.std.specs.List.{All};
ghost use Rattle.claim_rule.specs.Words.{Spells, places, state_word, stride};
ghost use Rattle.claim_word.specs.Writings.{IsLaid, WroteAll, WroteAt, holding, IsWide};

use crate::write::heads_of;
use claim_rule::{HEAD_WORDS, STRIDE, word_of};
use io_caps::NoMemory;
use map_entry::{Entries, Entry};
use std::alloc::Global;

/// The words of a table that begins with these entries.
pub(crate) fn words_of(alloc: Global, entries: &Entries, count: usize) -> Result<Vec<u64>, NoMemory>
    requires count { count ≡ 1 + places * stride }
    requires few { length entries.now ≤ places }
    requires wide { All IsWide entries.now }
    ensures long { IfOk result (λ words. length words.items ≡ count) }
    ensures laid { IfOk result (λ words. IsLaid words.items entries.now) }
{
    let mut words = zeros(alloc, count)?;
    lay_table(words.as_mut_slice(), entries.as_slice());
    Ok(words)
}

/// A given number of zeros.
fn zeros(alloc: Global, count: usize) -> Result<Vec<u64>, NoMemory>
    ensures { IfOk result (λ words. length words.items ≡ count) }
{
    Ok(vec![in alloc; 0u64; count]?)
}

fn lay_table(words: &mut [u64], entries: &[Entry])
    requires words { length words.old ≡ 1 + places * stride }
    requires few { length entries.now ≤ places }
    requires wide { All IsWide entries.now }
    ensures long { length words.new ≡ length words.old }
    ensures laid { IsLaid words.new entries.now }
{
    lay_entries(words, entries);
    words[0] = entries.len() as u64 * (1 << 32);
}

fn lay_entries(words: &mut [u64], entries: &[Entry])
    requires words { length words.old ≡ 1 + places * stride }
    requires few { length entries.now ≤ places }
    requires wide { All IsWide entries.now }
    ensures { WroteAll (holding (drop 1 words.old)) (holding (drop 1 words.new)) entries.now }
{
    for at in 0..entries.len() {
        lay_entry(words, at, &entries[at]);
    }
}

fn lay_entry(words: &mut [u64], place: usize, entry: &Entry)
    requires words { length words.old ≡ 1 + places * stride }
    requires place { place < places }
    requires wide { IsWide entry.now }
    ensures { WroteAt (holding (drop 1 words.old)) (holding (drop 1 words.new)) place entry.now }
{
    let (first, second) = heads_of(entry);
    lay_word(words, place * STRIDE, first);
    lay_word(words, place * STRIDE + 1, second);
    let cells = entry.row.as_slice();
    for channel in 0..cells.len() {
        lay_word(
            words,
            place * STRIDE + (HEAD_WORDS + channel),
            word_of(cells[channel]),
        );
    }
}

fn lay_word(words: &mut [u64], cell: usize, word: u64)
    requires { cell + 1 < length words.old }
    ensures long { length words.new ≡ length words.old }
    ensures laid { drop 1 words.new ≡ slice_set (drop 1 words.old) cell word }
{
    words[cell + 1] = word;
}

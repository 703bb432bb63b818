//! A fixed set of ticks.

ghost use Rattle.std.specs.Prelude.{◌≡◌, ◌≢◌, ◌<◌, ◌==◌, ℕ, replicate};
ghost use Rattle.io_caps.specs.declared.limits.TheConstants.{LAP_TICKS};
ghost use Rattle.input_cells.specs.Ticks.{bit_of};

use io_caps::limits::LAP_TICKS;
use std::marker::Model;

const WORD_BITS: u64 = 64;

/// The words of the set, which has a bit for each tick of a table.
const SET_WORDS: usize = (LAP_TICKS / WORD_BITS) as usize;

const _: () = prove!(SET_WORDS as u64 * WORD_BITS == LAP_TICKS);

/// Some of the ticks of a table, by their places. Contracts see its words.
#[derive(Drop)]
pub(crate) struct TickSet {
    words: [u64; SET_WORDS],
}

impl Model for TickSet {
    ghost use Rattle.std.specs.Prelude.{List, ℕ};

    ghost Value = { List ℕ };

    ghost view = { λ s. s.words };
}

impl TickSet {
    /// No tick.
    pub(crate) fn new() -> TickSet
        ensures { (k : ℕ) → bit_of result k ≡ 0 }
    {
        TickSet {
            words: [0; SET_WORDS],
        }
    }

    /// Whether the tick at a place is in the set.
    pub(crate) fn contains(&self, at: u64) -> bool
        requires { at < LAP_TICKS }
        ensures { result ≡ (bit_of self.now at == 1) }
    {
        self.words[(at / WORD_BITS) as usize] >> (at % WORD_BITS) & 1 == 1
    }

    /// Puts the tick at a place into the set.
    pub(crate) fn insert(&mut self, at: u64)
        requires { at < LAP_TICKS }
        ensures here { bit_of self.new at ≡ 1 }
        ensures others { (k : ℕ) → k ≢ at → bit_of self.new k ≡ bit_of self.old k }
    {
        let word = (at / WORD_BITS) as usize;
        self.words[word] = self.words[word] | 1 << (at % WORD_BITS);
    }
}

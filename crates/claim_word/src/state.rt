//! What a look at a table tells.

use io_caps::{NoMemory, TryCopy};
use std::error::Error;

/// What word 0 of a table told.
#[derive(Clone, Copy, Debug, PartialEq, Eq)]
pub struct State {
    /// How many numbers were drawn.
    pub raw: u32,
    /// How many claims of the whole session were made: numbers drawn past the packets are none.
    pub claims: u64,
    /// How many entries were published.
    pub entries: u32,
}

impl TryCopy for State {
    fn copy(&self) -> Result<State, NoMemory> {
        Ok(*self)
    }
}

/// A number was drawn since the state was seen: this many were drawn by now.
#[derive(Clone, Copy, Debug, PartialEq, Eq)]
pub struct Moved {
    pub raw: u32,
}

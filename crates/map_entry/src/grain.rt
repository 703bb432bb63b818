//! How exactly activations count.

use io_caps::{NoMemory, TryCopy};

/// From where activations at a time count: from the beginning of a tick, or from a frame.
#[derive(Clone, Copy, Debug, PartialEq, Eq)]
pub enum Grain {
    Tick,
    Frame,
}

impl TryCopy for Grain {
    fn copy(&self) -> Result<Grain, NoMemory> {
        Ok(*self)
    }
}

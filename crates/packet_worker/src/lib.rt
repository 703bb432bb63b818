//! A worker: claims packets at the claim table, and gathers each from the entries that its claim
//! found and the blocks that its reader's pass sees. No call waits, and only `Worker::new` takes
//! memory.
#![tactic(auto)]

mod bench;
mod build;
mod gathered;
pub mod laws;
mod making;
mod rows;
mod worker;

pub use gathered::Gathered;
pub use input_cells::StillOpen;
pub use worker::Worker;

#[cfg(test)]
mod tests;

//! The input table: blocks that are set once, by one feeder an input, and read by many.
#![tactic(auto)]

mod feed;
mod feeder;
mod feeds;
mod finish;
pub mod laws;
mod lay;
mod looking;
mod one;
mod read;
mod source;
mod table;
mod ticks;

pub use block_builder::Block;
pub use feed::{AlreadySet, FeedPass};
pub use feeds::Feeds;
pub use looking::StillOpen;
pub use read::ReadPass;
pub use source::SeenSamples;
pub use table::InputTable;

/// The feeders' passes: those of the inputs by their numbers, and last the pace's.
pub type FeedPasses = io_caps::ListOf<FeedPass>;

/// Readers' passes.
pub type ReadPasses = io_caps::ListOf<ReadPass>;

#[cfg(test)]
mod tests;

//! The claim table: workers claim packets by one atomic addition each, and a publisher publishes
//! entries by one atomic exchange each, on the same word. No call here waits.
#![tactic(auto)]

mod chain;
mod client;
mod end;
mod lay;
mod memory;
mod numbers;
mod passes;
mod publisher;
mod read;
mod shelf;
mod span;
mod state;
mod table;
mod worker;
mod write;

pub use client::ClientPass;
pub use end::Ended;
use io_caps::{ListOf, Numbers};
pub use publisher::Publisher;
pub use state::{Moved, State};
pub use table::ClaimTable;
pub use worker::{Claim, Claimed, Piece, WorkerPass};

/// The workers' passes of a table.
pub type WorkerPasses = ListOf<WorkerPass>;

/// The clients' passes of a table.
pub type ClientPasses = ListOf<ClientPass>;

/// For each worker's pass the numbers of its claims, in the order of its draws.
pub type ClaimLists = ListOf<Numbers>;

#[cfg(test)]
mod tests;

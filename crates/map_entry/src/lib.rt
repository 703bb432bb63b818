//! What is routed to the outputs: cells and rows, entries and which of them rules a frame, actions,
//! and the setup of a device with its base rows.
#![tactic(auto)]

mod action;
mod cell;
mod change;
mod check;
mod claims;
mod entry;
mod fault;
mod grain;
mod pieces;
mod routing;
mod setup;

pub use action::Action;
pub use cell::Cell;
pub use change::{Change, OutputChange};
pub use check::check_row;
pub use claims::{CLAIMS_LIMIT, claim_output, claim_tick, first_tick};
pub use entry::{Entry, has_come};
pub use fault::{RowFault, SetupFault};
pub use grain::Grain;
use io_caps::ListOf;
pub use routing::{apply, frame_at, select, select_in, select_piece};
pub use setup::Setup;

/// What an output is routed from: a cell for each channel.
pub type Row = ListOf<Cell>;

/// A row for each output.
pub type Rows = ListOf<Row>;

/// Entries, in the order of their publication.
pub type Entries = ListOf<Entry>;

/// Changes of the channels of one output.
pub type Changes = ListOf<Change>;

#[cfg(test)]
mod tests;

//! The rule of the claim table, on whose word 0 workers claim packets and a publisher publishes
//! entries, and the views of those who step on it. It is for proofs: all that runs here is how a
//! word spells a cell.
#![tactic(auto)]

mod cells;
pub mod laws;
mod plan;
mod rule;
mod view;
mod words;

pub use cells::{cell_of, word_of};
pub use plan::{Plan, Start};
pub use rule::{
    Draws, Hands, Notes, NotesIn, Publishes, Reads, ReadsPiece, Sees, TableLaw, TakesIn, Writes,
};
pub use view::{Draw, Sight, View};
pub use words::{HEAD_WORDS, STRIDE, TICKS_LIMIT, WORDS};

//! The one-thread book: what a client asks of it, what it answers, and the journal of what it
//! accepted.
#![tactic(auto)]

mod bases;
mod decisions;
mod desk;
mod kept;
pub mod laws;
mod moments;
mod order;
mod refusals;
mod rows;
mod ruling;
mod shows;
#[cfg(test)]
mod tests;

pub use bases::carry;
pub use book_words::{
    Activation, ActiveView, ClaimItem, ClaimItems, Given, GivenItems, History, Journal,
    JournalCall, PendingItem, PendingItems, Refusal, Reply, ReplyItem, ReplyItems, Request,
    Requests, Said, Stamp, When,
};
pub use decisions::decide;
pub use desk::{Desk, PlainDesk, base_entries};
pub use kept::{Acceptance, BookState, Decision, StateChange, look, settle, stage, unstage};
pub use order::{in_order, merge};

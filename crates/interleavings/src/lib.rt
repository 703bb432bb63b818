//! The core without a thread: what is drawn, seen, set and asked in a session, in any order, what
//! it is answered, and the history that it makes. Histories that are legal, and the law that each
//! of these is.
#![tactic(auto)]

mod asking;
mod blocks;
#[cfg(test)]
mod cases;
mod events;
mod facts;
pub mod laws;
mod machine;
mod render;
mod start;
mod steps;
#[cfg(test)]
mod tests;

pub use events::{Answer, AnsweredEvent, Event, Events, are_in_range};
pub use machine::{Core, law_core};

//! A session of many ticks, in laps: each has tables of its own, and goes on from the one before it.
//! No call here waits.
#![tactic(auto)]

mod ends;
mod lap;
pub mod laws;
mod make;
mod room;
mod session;
#[cfg(test)]
mod tests;

pub use lap::{Lap, Part, Workers};
pub use room::Room;
pub use session::Session;

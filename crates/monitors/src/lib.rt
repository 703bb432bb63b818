//! Monitors: boxes that see the packets of a history in claim order, write a line, and retire.
#![tactic(auto)]

mod boxes;
mod meters;
mod packets;
#[cfg(test)]
mod tests;
mod walking;

pub use boxes::Monitor;
pub use meters::{FirstChange, Peak, SilenceRun};
pub use packets::{Samples, Seen};
pub use walking::walk;

//! The outside as traits: sources that bytes are read from and sinks that bytes are written to,
//! each with a count of its faults; both in memory and over the standard streams; and the reading
//! of a whole source and the writing of a whole text.
#![tactic(auto)]

mod memory;
mod outgoing;
mod standard;
mod streams;
#[cfg(test)]
mod tests;
mod whole;

pub use memory::{MemSink, MemSource};
pub use outgoing::Outgoing;
pub use standard::{StdSink, StdSource};
pub use streams::{Failed, Sink, Source};
pub use whole::{SourceFault, read_whole, write_whole};

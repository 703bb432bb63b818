//! What a table is for, and how it begins.

use map_entry::{Entries, Setup};
use std::snapshot::Snapshot;

/// What a table is for. No value of it is made.
pub struct Plan {
    /// The device, with its base rows.
    pub setup: Setup,
    /// How many claims were made before the table.
    pub from: u64,
    /// How many packets the table has.
    pub packets: u64,
    /// How many passes claim them.
    pub workers: u64,
    /// With how many entries the table begins.
    pub given: u64,
}

/// How a table begins: what it is for, the entries with which it begins, and the words that spell
/// them.
#[derive(Drop)]
pub struct Start {
    pub setup: Snapshot<Setup>,
    pub from: u64,
    pub packets: u64,
    pub workers: u64,
    pub entries: Snapshot<Entries>,
    pub words: Snapshot<Vec<u64>>,
}

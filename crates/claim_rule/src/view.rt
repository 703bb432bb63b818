//! What those know who step on a table.

use crate::plan::Plan;
use map_entry::Entry;
use std::collections::LinkedList;

/// One draw: the number drawn, and the entries that were published then.
pub struct Draw {
    pub number: u64,
    pub found: LinkedList<Entry>,
}

/// A state that was seen: how many numbers were drawn, and how many entries published.
pub struct Sight {
    pub raw: u64,
    pub count: u64,
}

/// What a seat knows. No value of it is made.
pub struct View {
    /// False once another seat has taken it in.
    pub live: bool,
    pub plan: Plan,
    /// Its parts of the right to know all draws: one of a worker's pass, what is left of a
    /// publisher's.
    pub parts: u64,
    /// What it drew, in order.
    pub draws: LinkedList<Draw>,
    /// Entries that stand in front of all others: those that its last draw found, of the publisher
    /// all.
    pub entries: LinkedList<Entry>,
    /// How often it has loaded a word of an entry.
    pub loads: u64,
    /// How often it has loaded a word of a row for a part of a packet.
    pub pieces: u64,
    /// Whether it publishes.
    pub publishes: bool,
    /// The words of the entries' places, of the publisher.
    pub cells: LinkedList<u64>,
    /// The states that it has seen, in order.
    pub sights: LinkedList<Sight>,
    /// The states of which it was told.
    pub told: LinkedList<Sight>,
}

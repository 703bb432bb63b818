//! What a core keeps so that it needs no event again.

use crate::blocks::BlockTable;
use io_caps::{Flags, ListOf};
use map_entry::Setup;
use plain_book::{History, PlainDesk};
use std::alloc::Global;

/// What a core is made for: a setup, a given number of ticks, and a given number of workers.
#[derive(Drop)]
pub(crate) struct Session {
    pub alloc: Global,
    pub setup: Setup,
    pub ticks: u64,
    pub workers: u8,
}

/// A worker's latest claim, and of each input whether the worker saw its block for that claim.
#[derive(Debug, Drop)]
pub(crate) struct Sight {
    pub latest: Option<u64>,
    pub seen: Flags,
}

/// The book, each worker's sight, the blocks that were set, the number below which each input's
/// ticks are closed, and the history.
#[derive(Drop)]
pub(crate) struct Facts {
    pub desk: PlainDesk,
    pub sights: ListOf<Sight>,
    pub blocks: BlockTable,
    pub closings: ListOf<u64>,
    pub history: History,
}

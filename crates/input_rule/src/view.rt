//! What passes know. No value of a view is ever made: views stand in contracts alone.

use std::collections::LinkedList;

/// How the words of one input's table lie: the closing number, then a presence word for each tick,
/// then the samples of each tick, channel by channel and each channel in frame order. So those of a
/// channel stand one after the other. The pace has a table with no channels.
#[derive(Clone, Copy, Debug, PartialEq, Eq)]
pub struct Shape {
    /// The input's number.
    pub input: u8,
    /// The first tick, and how many ticks there are.
    pub from: u64,
    pub ticks: u64,
    /// The frames of a tick, and the channels of a frame.
    pub frames: u64,
    pub channels: u64,
}

/// A look at a block: whether it was there, and the closing number that the pass had seen before.
pub struct Look {
    pub input: u8,
    pub tick: u64,
    pub present: bool,
    pub closed: u64,
}

/// A sample that was read, by its place in the block.
pub struct HeardSample {
    pub input: u8,
    pub tick: u64,
    pub place: u64,
    pub value: i32,
}

/// What a pass knows of one input's table.
pub struct View {
    /// The shape of the table. A view that was taken in by another is not live, and knows none.
    pub live: bool,
    pub shape: Shape,
    /// The feeder knows all words of the table.
    pub feeds: bool,
    pub words: LinkedList<u64>,
    /// A reader knows each closing number that it has seen, its looks and the samples that it has
    /// read, the oldest first.
    pub closings: LinkedList<u64>,
    pub looks: LinkedList<Look>,
    pub heard: LinkedList<HeardSample>,
}

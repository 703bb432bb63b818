//! How wide entries and tables are, in words.

use io_caps::limits::{MOST_CHANNELS, PLACES};

/// How many words stand in front of an entry's cells.
pub const HEAD_WORDS: usize = 2;

const _: () = prove!(HEAD_WORDS == 2);

/// How many words an entry takes, however few channels its output has.
pub const STRIDE: usize = HEAD_WORDS + MOST_CHANNELS;

/// How many words a table has: one for claims and entries, and those of the entries.
pub const WORDS: usize = 1 + PLACES as usize * STRIDE;

/// The ticks of entries are below this.
pub const TICKS_LIMIT: u64 = 1 << 58;

const _: () = prove!(TICKS_LIMIT == 288230376151711744);

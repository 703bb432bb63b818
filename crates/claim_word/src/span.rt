//! The numbers of a table's plan, as each pass keeps them.

ghost use Rattle.std.specs.Prelude.{◌≡◌, ◌+◌, ◌<◌, min};
ghost use Rattle.map_entry.specs.declared.claims.TheConstants.{CLAIMS_LIMIT};
ghost use Rattle.claim_rule.specs.Plays.{raw_of, count_of};

use crate::state::State;

/// From which claim on a table serves which packets.
#[derive(Clone, Copy)]
pub(crate) struct Span {
    /// The device's first tick.
    pub base: u64,
    pub outputs: u8,
    /// How many claims were made before the table.
    pub from: u64,
    /// How many packets the table has.
    pub packets: u64,
    /// The frames of a tick.
    pub frames: u16,
}

impl Span {
    /// What word 0 tells.
    pub fn state(&self, word: u64) -> State
        requires { self.now.from + self.now.packets < CLAIMS_LIMIT }
        ensures { result ≡ record {
          raw = raw_of word;
          claims = self.now.from + min (raw_of word) self.now.packets;
          entries = count_of word;
        } }
    {
        let raw = word % (1 << 32);
        State {
            raw: raw as u32,
            claims: self.from + raw.min(self.packets),
            entries: (word / (1 << 32)) as u32,
        }
    }
}

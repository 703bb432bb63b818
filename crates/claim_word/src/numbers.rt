//! What a publisher knows of its table's numbers.

ghost use Rattle.std.specs.Prelude.{◌≡◌, ◌+◌, ◌^◌, ◌<◌};
ghost use Rattle.map_entry.specs.declared.claims.TheConstants.{CLAIMS_LIMIT};
ghost use Rattle.claim_rule.specs.Claims.{claims_at};

use crate::publisher::Publisher;

impl Publisher {
    /// How many claims of the whole session were made once that many numbers are drawn.
    pub fn claims_at(&self, drawn: u32) -> u64
        ensures value { result ≡ claims_at self.now.view.plan drawn }
        ensures few { result < CLAIMS_LIMIT }
    {
        self.span.from + u64::from(drawn).min(self.span.packets)
    }

    /// How many numbers are drawn at most: one for each packet, and one more for each worker.
    pub fn most_drawn(&self) -> u64
        ensures value { result ≡ self.now.view.plan.packets + self.now.view.plan.workers }
        ensures few { result < 2 ^ 32 }
    {
        self.span.packets + u64::from(self.workers)
    }
}

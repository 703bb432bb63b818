//! What came to a builder. It exists only in proofs.

ghost use Rattle.std.specs.Prelude.{◌≡◌, List, []};
ghost use base.Fml.{ftrue};
ghost use Rattle.block_builder.specs.declared.arrival.Arrival.{Arrival};

use std::marker::Model;

/// The arrivals so far. It takes no memory.
#[derive(Drop)]
pub(crate) struct ArrivalLog {
    ghost arrivals: { List Arrival },
}

impl Model for ArrivalLog {
    ghost also_owns = { λ _. ftrue };
}

// It owns nothing, so a builder may go to another thread.
unsafe impl Send for ArrivalLog {}

/// What comes to an input, by reference: an `Arrival` whose packet is lent.
#[derive(Clone, Copy, Drop)]
pub(crate) enum ArrivalRef<'a> {
    Packet(&'a [u8]),
    Mark(u64),
    End,
}

impl ArrivalLog {
    ghost use Rattle.block_builder.specs.ArrivalRef.{noted};

    /// Nothing came.
    pub(crate) fn new() -> ArrivalLog
        ensures { result.arrivals ≡ [] }
    {
        ArrivalLog {}
    }

    /// One thing more came.
    #[inline(always)]
    pub(crate) fn then(&self, _came: &ArrivalRef<'_>) -> ArrivalLog
        ensures { result.arrivals ≡ noted self.now.arrivals _came.now }
    {
        ArrivalLog {}
    }
}

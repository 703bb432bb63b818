//! The builder of an input's blocks.

ghost use Rattle.std.specs.Prelude.{◌≡◌, ◌≤◌, ◌<◌, ◌+◌, [], ◌∷◌, ◌↔◌, Some, IfOk, IfNone, IfSome};
ghost use Rattle.std.specs.Prelude.{IsTrue, OnErr, OnOk, OnSome, length};
ghost use Rattle.block_builder.specs.Blocks.{IsBlock, block_at, clock_piece, closed_of, intake_of};
ghost use Rattle.block_builder.specs.Blocks.{pieces_by};
ghost use Rattle.block_builder.specs.Building.{IsDrained, IsTakenBy, handed_on, with_arrival};
ghost use Rattle.block_builder.specs.ArrivalRef.{arrival_of};
ghost use Rattle.block_builder.specs.declared.arrival.Arrival.TheVariants.{End, Mark, Packet};
ghost use Rattle.io_caps.specs.declared.limits.TheConstants.{SESSION_TICKS};

use crate::intake::Intake;
use crate::packet::take_packet;
use crate::past::{ArrivalLog, ArrivalRef};
use crate::slot::Slot;
use crate::window::take_first;
use crate::{Block, Taken};
use io_caps::{Device, NoMemory};
use std::alloc::Global;
use std::collections::VecDeque;
use std::marker::Model;

/// Makes the blocks of one input of what comes to it. Contracts see what rules the input, what came
/// so far, and how many ticks were handed out. It keeps what its open ticks hold, and those that
/// are closed and were not handed out.
#[derive(Drop)]
pub struct Builder {
    intake: Intake,
    slots: VecDeque<Slot>,
    alloc: Global,
    given: u64,
    closed: u64,
    past: ArrivalLog,
}

impl Model for Builder {
    ghost use Rattle.block_builder.specs.Building.{Building};

    ghost Value = { Building };

    ghost use Rattle.block_builder.specs.Building.{IsBuilder};

    ghost view = { λ b. record { intake = b.intake; arrivals = b.past.arrivals; given = b.given } };

    ghost invariant = { λ b. IsBuilder b.intake b.past.arrivals b.slots.items b.given b.closed };
}

impl Builder {
    /// A builder for an input that is there, in a session of a given number of ticks from the
    /// device's first one.
    pub fn new(alloc: Global, device: &Device, input: u8, ticks: u64) -> Result<Builder, NoMemory>
        requires input { input < length device.now.inputs }
        requires ticks { ticks ≤ SESSION_TICKS }
        ensures intake { IfOk result (λ b. intake_of device.now input ticks ≡ Some b.intake) }
        ensures arrivals { IfOk result (λ b. b.arrivals ≡ []) }
        ensures given { IfOk result (λ b. b.given ≡ 0) }
    {
        Ok(Builder {
            intake: Intake::of(device, input, ticks),
            slots: VecDeque::new(alloc),
            alloc,
            given: 0,
            closed: 0,
            past: ArrivalLog::new(),
        })
    }

    /// Whether no closed tick is left to be handed out.
    pub fn drained(&self) -> bool
        ensures { IsTrue result ↔ IsDrained self.now }
    {
        self.closed <= self.given
    }

    /// Hands out the next closed tick with its block, and `None` where no closed tick is left. The
    /// tick is one of the device's; a block has the input's shape.
    pub fn next_closed(&mut self) -> Option<(u64, Option<Block>)>
        ensures none { IfNone result (IsDrained self.old × (self.new ≡ self.old)) }
        ensures some { IfSome result (λ _. IsDrained self.old → ⊥) }
        ensures tick { IfSome result (λ r. r.0 ≡ self.old.intake.base + self.old.given) }
        ensures within { OnSome result (self.old.given < self.old.intake.ticks) }
        ensures block { IfSome result (λ r. r.1 ≡ block_at self.old.intake self.old.arrivals r.0) }
        ensures shape { IfSome result (λ r. IfSome r.1 (IsBlock self.old.intake)) }
        ensures next { OnSome result (self.new ≡ handed_on self.old) }
        ensures handed { self.new.given ≤ closed_of self.new.intake self.new.arrivals }
    {
        if self.closed <= self.given {
            return None;
        }
        let tick = self.given;
        let block = take_first(&mut self.slots, tick);
        self.given = tick + 1;
        Some((self.intake.base + tick, block))
    }

    /// Takes a packet, once all closed ticks were handed out, and tells what became of it. Its
    /// frames go where no earlier packet's are, in the ticks that are open; afterwards it closes
    /// the ticks that lie more than the hold before that of its last frame. If memory runs out, the
    /// builder stays as it was.
    pub fn take(&mut self, packet: &[u8]) -> Result<Taken, NoMemory>
        requires { IsDrained self.old }
        ensures ok { OnOk result (self.new ≡ with_arrival self.old (Packet packet.now)) }
        ensures err { OnErr result (self.new ≡ self.old) }
        ensures taken { IfOk result (λ taken. IsTakenBy self.old packet.now taken) }
    {
        let (taken, upto) = take_packet(
            self.alloc,
            &mut self.slots,
            self.intake,
            self.given,
            packet,
        )?;
        self.closed = self.closed.max(upto);
        self.past = self.past.then(&ArrivalRef::Packet(packet));
        Ok(taken)
    }

    /// A reading of the clock in a tick closes the ticks that lie more than the hold before it.
    pub fn mark(&mut self, tick: u64)
        ensures { self.new ≡ with_arrival self.old (Mark tick) }
    {
        let last = tick.saturating_sub(self.intake.base);
        self.close(last, &ArrivalRef::Mark(tick));
    }

    /// The end of input closes all ticks.
    pub fn finish(&mut self)
        ensures { self.new ≡ with_arrival self.old End }
    {
        self.close(
            self.intake.ticks + self.intake.hold as u64,
            &ArrivalRef::End,
        );
    }

    /// What brings no frame closes the ticks that lie more than the hold before a tick.
    fn close(&mut self, last: u64, came: &ArrivalRef<'_>)
        requires { pieces_by self.old.intake (arrival_of came.now) ≡ clock_piece last ∷ [] }
        ensures { self.new ≡ with_arrival self.old (arrival_of came.now) }
    {
        let upto = last
            .saturating_sub(self.intake.hold as u64)
            .min(self.intake.ticks);
        self.closed = self.closed.max(upto);
        self.past = self.past.then(came);
    }
}

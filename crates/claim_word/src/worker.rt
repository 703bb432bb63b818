//! A worker's pass: claims, and the rows that rule them.

ghost use Rattle.std.specs.Prelude.{◌≡◌, ◌≤◌, ◌<◌, ℕ, true, false, Some};
ghost use Rattle.map_entry.specs.Entry.{IsPiece, selected};
ghost use Rattle.map_entry.specs.Row.{IsRowOf};
ghost use Rattle.map_entry.specs.Tick.{frame_key};
ghost use Rattle.claim_rule.specs.Claims.{IsSound, outputs_of};
ghost use Rattle.claim_word.specs.Faces.{IsPassOf};
ghost use Rattle.claim_word.specs.Claims.{IsDrawn, IsFrugal, IsLast, IsLate, OnPacket, is_over};
ghost use Rattle.claim_word.specs.Claims.{number_of};

use crate::memory::Memory;
use crate::span::Span;
use crate::table::ClaimTable;
use atomic_table::Seat;
use claim_rule::{Draws, View};
use map_entry::{Entries, Row};
use std::marker::Model;

/// A packet that is to be made, fixed by a draw. It cannot be made or copied elsewhere.
#[derive(Debug, Drop)]
pub struct Claim {
    k: u64,
    tick: u64,
    output: u8,
    entries: u32,
}

impl Claim {
    /// Its number in the whole session.
    pub fn k(&self) -> u64
        ensures { result ≡ self.now.k }
    {
        self.k
    }

    /// The tick of its packet.
    pub fn tick(&self) -> u64
        ensures { result ≡ self.now.tick }
    {
        self.tick
    }

    /// The output of its packet.
    pub fn output(&self) -> u8
        ensures { result ≡ self.now.output }
    {
        self.output
    }

    /// How many entries were published when it was drawn.
    pub fn entries(&self) -> u32
        ensures { result ≡ self.now.entries }
    {
        self.entries
    }
}

/// A packet, or that all are claimed.
#[derive(Debug, Drop)]
pub enum Claimed {
    Packet(Claim),
    Over,
}

/// A row of a packet, and the frame up to which it rules.
#[derive(Clone, Copy, Debug)]
pub struct Piece<'a> {
    pub row: &'a Row,
    pub upto: u16,
}

/// A worker's right to claim packets.
#[derive(Drop)]
pub struct WorkerPass {
    pub(crate) seat: Seat<Entries, View>,
    pub(crate) span: Span,
    pub(crate) ended: bool,
    pub(crate) claims: Vec<u64>,
    pub(crate) memory: Memory,
}

impl Model for WorkerPass {
    ghost use Rattle.std.specs.Prelude.{◌≡◌, [], vec_capacity};
    ghost use Rattle.claim_word.specs.Faces.{PassFace};
    ghost use Rattle.claim_word.specs.Claims.{IsWorker, IsMemory};

    ghost Value = { PassFace };

    ghost view = { λ p. record { id = p.seat.table_id; view = p.seat.me.0; ended = p.ended } };

    ghost invariant = { λ p.
        IsWorker p.seat.me.0 p.span p.claims.items (vec_capacity p.claims) p.ended
        × IsMemory p.seat.me.0 p.memory × (p.seat.me.1 ≡ []) };
}

impl WorkerPass {
    ghost use Rattle.std.specs.Borrow.{sem};
    ghost use Rattle.claim_word.specs.Lending.{EndsPieced, EndsRead};

    /// Claims the next packet by one atomic addition, or tells that all are claimed; from then on
    /// it tells so without a step.
    pub fn claim(&mut self, table: &ClaimTable) -> Claimed
        requires { IsPassOf table.now self.old }
        ensures of { IsPassOf table.now self.new }
        ensures drawn { OnPacket result
            (λ c. IsDrawn self.old self.new (number_of self.old.view.plan c)) }
        ensures last { OnPacket result (IsLast self.new.view) }
        ensures there { OnPacket result (λ c. c.output < outputs_of self.old.view.plan) }
        ensures ended { self.new.ended ≡ is_over result }
        ensures late { is_over result ≡ true → self.old.ended ≡ false
            → IsLate self.old self.new }
        ensures stays { self.old.ended ≡ true → self.new ≡ self.old }
        ensures sound { IsSound self.new.view.plan }
        ensures loads { IsFrugal self.new.view }
    {
        if self.ended {
            return Claimed::Over;
        }
        let word = table.table.shared.fetch_add::<Draws>(&mut self.seat, 0, 1);
        let number = word % (1 << 32);
        if number >= self.span.packets {
            self.ended = true;
            return Claimed::Over;
        }
        let k = self.span.from + number;
        self.claims.push_reserved(k);
        self.memory.ready = false;
        Claimed::Packet(Claim {
            k,
            tick: self.span.base + k / self.span.outputs as u64,
            output: (k % self.span.outputs as u64) as u8,
            entries: (word / (1 << 32)) as u32,
        })
    }

    /// The row that rules the first frame of the claim's packet, by the entries that its draw
    /// found. The claim is the pass's last.
    pub fn row(&mut self, table: &ClaimTable, claim: &Claim) -> &Row
        requires pass { IsPassOf table.now self.old }
        requires last { IsLast self.old.view claim.now }
        ensures* after { sem 𝓛 (EndsRead self.entry claim.now) }
        ensures row { selected self.old.view.entries claim.now.output (frame_key claim.now.tick 0)
            ≡ Some result.now }
        ensures fits { IsRowOf self.old.view.plan.setup.device claim.now.output result.now }
        ensures sound { IsSound self.old.view.plan }
    {
        self.memory.find(table, &mut self.seat, claim);
        &self.memory.rows[claim.output as usize]
    }

    /// The row that rules a frame of the claim's packet, by the entries that its draw found, and
    /// the frame up to which it does. The claim is the pass's last.
    pub fn row_from(&mut self, table: &ClaimTable, claim: &Claim, frame: u16) -> Piece<'_>
        requires pass { IsPassOf table.now self.old }
        requires last { IsLast self.old.view claim.now }
        requires frame { frame < self.old.view.plan.setup.device.rate.frames }
        ensures* after { sem 𝓛 (EndsPieced self.entry claim.now) }
        ensures row { (f : ℕ) → frame ≤ f → f < result.upto
            → selected self.old.view.entries claim.now.output (frame_key claim.now.tick f)
            ≡ Some result.row.now }
        ensures piece { IsPiece self.old.view.entries claim.now.output claim.now.tick frame
            self.old.view.plan.setup.device.rate.frames result.upto }
        ensures fits { IsRowOf self.old.view.plan.setup.device claim.now.output result.row.now }
        ensures sound { IsSound self.old.view.plan }
    {
        let frames = self.span.frames;
        let upto = self
            .memory
            .find_from(table, &mut self.seat, claim, frame, frames);
        Piece {
            row: &self.memory.parts[claim.output as usize],
            upto,
        }
    }
}

//! A worker at a claim table and an input table.

ghost use Rattle.std.specs.Prelude.{◌≡◌, ◌<◌, ◌≤◌, List, true, false, IfOk, length};
ghost use Rattle.claim_rule.specs.Claims.{IsSound, outputs_of};
ghost use Rattle.claim_word.specs.Claims.{IsDrawn, IsFrugal, IsLast, IsLate, OnPacket, is_over};
ghost use Rattle.claim_word.specs.Claims.{number_of};
ghost use Rattle.claim_word.specs.Faces.{IsPassOf};
ghost use Rattle.input_rule.specs.Views.{closed_of, saw};
ghost use Rattle.input_cells.specs.Faces.{Grows, HasView, InputFace, changed};
ghost use Rattle.input_cells.specs.Looking.{HasTickEach};
ghost use Rattle.packet_worker.specs.Faces.{IsReaderOf, IsWorkerOf, worker_of};
ghost use Rattle.packet_worker.specs.Gathering.{EndsClosed, EndsFree, KnowsOn};

use crate::bench::Bench;
use crate::build::{build_closed, build_free};
use crate::gathered::Gathered;
use claim_word::{Claim, ClaimTable, Claimed, WorkerPass};
use input_cells::{InputTable, ReadPass, StillOpen};
use io_caps::{NoMemory, TryCopy};
use map_entry::Setup;
use std::alloc::Global;
use std::marker::Model;

/// Claims packets and gathers them, each in the same bytes.
#[derive(Drop)]
pub struct Worker {
    setup: Setup,
    pass: WorkerPass,
    bench: Bench,
}

impl Model for Worker {
    ghost use Rattle.std.specs.Prelude.{◌≡◌};
    ghost use Rattle.packet_worker.specs.Bench.{IsBench};
    ghost use Rattle.packet_worker.specs.Faces.{WorkerFace, worker_of};

    ghost Value = { WorkerFace };

    ghost view = { λ w. worker_of w.setup w.pass w.bench.reads };

    ghost invariant = { λ w. IsBench w.setup.device w.bench };
}

impl Worker {
    ghost use Rattle.std.specs.Borrow.{sem};
    ghost use Rattle.packet_worker.specs.Lending.{LendsClosed, LendsFree};

    /// A worker of these passes. All the memory is taken that it will need.
    pub fn new(
        alloc: Global,
        setup: &Setup,
        pass: WorkerPass,
        reads: ReadPass,
    ) -> Result<Worker, NoMemory>
        ensures { IfOk result (λ w. w ≡ worker_of setup.now pass reads) }
    {
        Ok(Worker {
            setup: setup.copy()?,
            pass,
            bench: Bench::new(alloc, &setup.device, reads)?,
        })
    }

    /// Gives the passes back.
    pub fn into_passes(self) -> (WorkerPass, ReadPass)
        ensures pass { result.0 ≡ self.pass }
        ensures reads { result.1 ≡ self.reads }
    {
        let Worker {
            setup: _,
            pass,
            bench,
        } = self;
        (pass, bench.into_reads())
    }

    /// Claims the next packet by one atomic addition, or tells that all are claimed; from then on
    /// it tells so without a step.
    pub fn claim(&mut self, table: &ClaimTable) -> Claimed
        requires { IsPassOf table.now self.old.pass }
        ensures of { IsPassOf table.now self.new.pass }
        ensures kept { self.new ≡ record self.old { pass = self.new.pass } }
        ensures works { (inputs : List InputFace) → IsWorkerOf table.now inputs self.old
            → IsWorkerOf table.now inputs self.new }
        ensures drawn { OnPacket result
            (λ c. IsDrawn self.old.pass self.new.pass (number_of self.old.pass.view.plan c)) }
        ensures last { OnPacket result (IsLast self.new.pass.view) }
        ensures there { OnPacket result (λ c. c.output < outputs_of self.old.pass.view.plan) }
        ensures ended { self.new.pass.ended ≡ is_over result }
        ensures late { is_over result ≡ true → self.old.pass.ended ≡ false
            → IsLate self.old.pass self.new.pass }
        ensures stays { self.old.pass.ended ≡ true → self.new ≡ self.old }
        ensures sound { IsSound self.new.pass.view.plan }
        ensures loads { IsFrugal self.new.pass.view }
    {
        self.pass.claim(table)
    }

    /// The packet of the worker's last claim, once its tick is closed at each input that a row of
    /// the tick names, and the pace has passed it. Else the first closing number that is not above
    /// the tick: of these inputs in order, and last of the pace. It may be called again then.
    pub fn gather_closed(
        &mut self,
        table: &ClaimTable,
        inputs: &InputTable,
        claim: &Claim,
    ) -> Result<Gathered<'_>, StillOpen>
        requires worker { IsWorkerOf table.now inputs.now self.old }
        requires last { IsLast self.old.pass.view claim.now }
        requires tick { HasTickEach inputs.now claim.now.tick }
        ensures* after { sem 𝓛 (LendsClosed self.entry table.now inputs.now claim.now result) }
    {
        match build_closed(
            &self.setup,
            table,
            inputs,
            claim,
            &mut self.pass,
            &mut self.bench,
        ) {
            Ok(()) => Ok(self.bench.gathered()),
            Err(open) => Err(open),
        }
    }

    /// The packet of the worker's last claim, of the blocks that are there now.
    pub fn gather_free(
        &mut self,
        table: &ClaimTable,
        inputs: &InputTable,
        claim: &Claim,
    ) -> Gathered<'_>
        requires worker { IsWorkerOf table.now inputs.now self.old }
        requires last { IsLast self.old.pass.view claim.now }
        requires tick { HasTickEach inputs.now claim.now.tick }
        ensures* after { sem 𝓛 (LendsFree self.entry table.now inputs.now claim.now result) }
    {
        build_free(
            &self.setup,
            table,
            inputs,
            claim,
            &mut self.pass,
            &mut self.bench,
        );
        self.bench.gathered()
    }

    /// The closing number of the pace, by one load.
    pub fn pace(&mut self, inputs: &InputTable) -> u64
        requires { IsReaderOf inputs.now self.old }
        ensures of { IsReaderOf inputs.now self.new }
        ensures seen { self.new ≡ record self.old {
          reads = changed (λ v. saw v result) (length self.old.setup.device.inputs)
              self.old.reads;
        } }
        ensures later { HasView self.old.reads (length self.old.setup.device.inputs)
            (λ v. closed_of v ≤ result) }
        ensures begun { HasView self.old.reads (length self.old.setup.device.inputs)
            (λ v. v.shape.from ≤ result) }
        ensures grows { Grows self.old.reads self.new.reads }
        ensures knows { KnowsOn self.old self.new }
    {
        self.bench.reads.closed(inputs, self.setup.device.inputs())
    }
}

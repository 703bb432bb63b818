//! How the packet of a worker's last claim is built, by the rows that rule it.

ghost use Rattle.std.specs.Prelude.{◌≡◌, IfErr, OnOk, length};
ghost use Rattle.std.specs.List.{All};
ghost use Rattle.claim_word.specs.Claims.{IsLast};
ghost use Rattle.input_cells.specs.Faces.{Grows, looks_of};
ghost use Rattle.input_cells.specs.Looking.{HasTickEach, IsLate, IsOpenAt, SeesClosed, SeesFree};
ghost use Rattle.packet_writer.specs.Flags.{names_by};
ghost use Rattle.packet_worker.specs.Bench.{IsBench, IsPacketOf, made_in};
ghost use Rattle.packet_worker.specs.Faces.{IsWorkerOf, worker_of};
ghost use Rattle.packet_worker.specs.Gathering.{IsReadFor};

use crate::bench::Bench;
use claim_word::{Claim, ClaimTable, WorkerPass};
use input_cells::{InputTable, StillOpen};
use map_entry::Setup;

/// Builds the packet of the last claim in closed form, or tells what is still open.
pub(crate) fn build_closed(
    setup: &Setup,
    table: &ClaimTable,
    inputs: &InputTable,
    claim: &Claim,
    pass: &mut WorkerPass,
    bench: &mut Bench,
) -> Result<(), StillOpen>
    requires worker { IsWorkerOf table.now inputs.now
        (worker_of setup.now pass.old bench.old.reads) }
    requires last { IsLast pass.old.view claim.now }
    requires tick { HasTickEach inputs.now claim.now.tick }
    requires bench { IsBench setup.now.device bench.old }
    ensures pass { IsReadFor pass.old pass.new claim.now }
    ensures bench { IsBench setup.now.device bench.new }
    ensures grows { Grows bench.old.reads bench.new.reads }
    ensures late { All IsLate (looks_of bench.old.reads) → All IsLate (looks_of bench.new.reads) }
    ensures sees { OnOk result (SeesClosed (length setup.now.device.inputs) claim.now.tick
        (names_by setup.now pass.old.view.entries claim.now.k) bench.old.reads bench.new.reads
        bench.new.found.items) }
    ensures packet { OnOk result (IsPacketOf setup.now pass.old.view.entries claim.now.k
        bench.new.reads bench.new.found.items (made_in bench.new)) }
    ensures open { IfErr result (IsOpenAt (length setup.now.device.inputs) claim.now.tick
        (names_by setup.now pass.old.view.entries claim.now.k) bench.old.reads bench.new.reads) }
{
    bench.read_rows(setup, table, claim, pass);
    bench.gather_closed(setup, inputs, claim.k(), claim.tick())
}

/// Builds the packet of the last claim in free form.
pub(crate) fn build_free(
    setup: &Setup,
    table: &ClaimTable,
    inputs: &InputTable,
    claim: &Claim,
    pass: &mut WorkerPass,
    bench: &mut Bench,
)
    requires worker { IsWorkerOf table.now inputs.now
        (worker_of setup.now pass.old bench.old.reads) }
    requires last { IsLast pass.old.view claim.now }
    requires tick { HasTickEach inputs.now claim.now.tick }
    requires bench { IsBench setup.now.device bench.old }
    ensures pass { IsReadFor pass.old pass.new claim.now }
    ensures bench { IsBench setup.now.device bench.new }
    ensures grows { Grows bench.old.reads bench.new.reads }
    ensures sees { SeesFree (length setup.now.device.inputs) claim.now.tick
        (names_by setup.now pass.old.view.entries claim.now.k) bench.old.reads bench.new.reads
        bench.new.found.items }
    ensures packet { IsPacketOf setup.now pass.old.view.entries claim.now.k bench.new.reads
        bench.new.found.items (made_in bench.new) }
{
    bench.read_rows(setup, table, claim, pass);
    bench.gather_free(setup, inputs, claim.k(), claim.tick());
}

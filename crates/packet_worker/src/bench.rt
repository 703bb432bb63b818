//! What a worker gathers with: its pass of an input table, rows, flags, and the bytes of a packet.

ghost use Rattle.std.specs.Prelude.{◌≡◌, ◌≤◌, ◌<◌, ◌+◌, ℕ, IfErr, IfOk, OnOk, length};
ghost use Rattle.std.specs.List.{All};
ghost use Rattle.claim_rule.specs.Claims.{IsSound};
ghost use Rattle.claim_word.specs.Claims.{IsLast};
ghost use Rattle.claim_word.specs.Faces.{IsPassOf};
ghost use Rattle.map_entry.specs.declared.claims.TheConstants.{CLAIMS_LIMIT};
ghost use Rattle.input_cells.specs.Faces.{Grows, IsReadOf, looks_of};
ghost use Rattle.input_cells.specs.Looking.{HasTickEach, IsLate, IsOpenAt, SeesClosed, SeesFree};
ghost use Rattle.input_cells.specs.Shapes.{IsTableOf};
ghost use Rattle.packet_writer.specs.Flags.{is_named};
ghost use Rattle.packet_writer.specs.Packet.{FitOutput, output_of_claim, tick_of_claim};
ghost use Rattle.packet_worker.specs.Bench.{IsBench, IsPacketBy, made_in};
ghost use Rattle.packet_worker.specs.Gathering.{IsReadFor};
ghost use Rattle.packet_worker.specs.Rows.{AreRowsOf, row_in};

use crate::gathered::Gathered;
use crate::making::{make_closed, make_free};
use crate::rows::{PacketRows, read_rows};
use claim_word::{Claim, ClaimTable, WorkerPass};
use input_cells::{InputTable, ReadPass, StillOpen};
use io_caps::limits::MOST_PAYLOAD;
use io_caps::{Device, NoMemory};
use map_entry::Setup;
use rtp_pcm::HEAD_LEN;
use std::alloc::Global;

/// A reader's pass, the rows of a packet, a flag for each input, and bytes for the longest packet.
#[derive(Drop)]
pub(crate) struct Bench {
    pub reads: ReadPass,
    pub rows: PacketRows,
    pub found: Vec<bool>,
    pub packet: Vec<u8>,
    /// How many bytes in front are the last packet.
    pub len: usize,
}

/// A number of bytes.
fn bytes(alloc: Global, len: usize) -> Result<Vec<u8>, NoMemory>
    ensures { IfOk result (λ b. length b.items ≡ len) }
{
    Ok(vec![in alloc; 0u8; len]?)
}

impl Bench {
    /// A bench for a device.
    pub fn new(alloc: Global, device: &Device, reads: ReadPass) -> Result<Bench, NoMemory>
        ensures bench { IfOk result (IsBench device.now) }
        ensures reads { IfOk result (λ b. b.reads ≡ reads) }
    {
        Ok(Bench {
            reads,
            rows: PacketRows::new(alloc)?,
            found: vec![in alloc; false; device.inputs() as usize]?,
            packet: bytes(alloc, HEAD_LEN + MOST_PAYLOAD)?,
            len: 0,
        })
    }

    /// Gives the pass back.
    pub fn into_reads(self) -> ReadPass
        ensures { result ≡ self.reads }
    {
        self.reads
    }

    /// Reads the rows of the packet of a pass's last claim.
    pub fn read_rows(
        &mut self,
        setup: &Setup,
        table: &ClaimTable,
        claim: &Claim,
        pass: &mut WorkerPass,
    )
        requires pass { IsPassOf table.now pass.old }
        requires last { IsLast pass.old.view claim.now }
        requires setup { pass.old.view.plan.setup ≡ setup.now }
        requires bench { IsBench setup.now.device self.old }
        ensures pass { IsReadFor pass.old pass.new claim.now }
        ensures sound { IsSound pass.old.view.plan }
        ensures rows { AreRowsOf setup.now.device pass.old.view.entries claim.now
            setup.now.device.rate.frames self.new.rows.pieces }
        ensures bench { IsBench setup.now.device self.new }
        ensures reads { self.new.reads ≡ self.old.reads }
    {
        let device = &setup.device;
        let channels = device.output(claim.output()).channels();
        let frames = device.rate().frames;
        read_rows(table, claim, frames, channels, pass, &mut self.rows);
    }

    /// Gathers the packet of a claim in closed form, by the rows that were read.
    pub fn gather_closed(
        &mut self,
        setup: &Setup,
        inputs: &InputTable,
        k: u64,
        tick: u64,
    ) -> Result<(), StillOpen>
        requires bench { IsBench setup.now.device self.old }
        requires reads { IsReadOf inputs.now self.old.reads }
        requires table { (first : ℕ) × (ticks : ℕ)
            × IsTableOf setup.now.device first ticks inputs.now }
        requires tick { HasTickEach inputs.now tick }
        requires claim { (k < CLAIMS_LIMIT) × (tick ≡ tick_of_claim setup.now k) }
        requires rows { FitOutput setup.now.device (output_of_claim setup.now k)
            (row_in self.old.rows.pieces) }
        ensures bench { IsBench setup.now.device self.new }
        ensures grows { Grows self.old.reads self.new.reads }
        ensures late { All IsLate (looks_of self.old.reads) → All IsLate (looks_of self.new.reads) }
        ensures sees { OnOk result (SeesClosed (length setup.now.device.inputs) tick
            (is_named setup.now.device.rate.frames (row_in self.old.rows.pieces))
            self.old.reads self.new.reads self.new.found.items) }
        ensures packet { OnOk result (IsPacketBy setup.now (row_in self.old.rows.pieces) k
            self.new.reads self.new.found.items (made_in self.new)) }
        ensures open { IfErr result (IsOpenAt (length setup.now.device.inputs) tick
            (is_named setup.now.device.rate.frames (row_in self.old.rows.pieces))
            self.old.reads self.new.reads) }
    {
        match make_closed(
            setup,
            &self.rows,
            inputs,
            &mut self.reads,
            k,
            tick,
            &mut self.found,
            &mut self.packet,
        ) {
            Ok(len) => {
                self.len = len;
                Ok(())
            }
            Err(open) => Err(open),
        }
    }

    /// Gathers the packet of a claim in free form, by the rows that were read.
    pub fn gather_free(&mut self, setup: &Setup, inputs: &InputTable, k: u64, tick: u64)
        requires bench { IsBench setup.now.device self.old }
        requires reads { IsReadOf inputs.now self.old.reads }
        requires table { (first : ℕ) × (ticks : ℕ)
            × IsTableOf setup.now.device first ticks inputs.now }
        requires tick { HasTickEach inputs.now tick }
        requires claim { (k < CLAIMS_LIMIT) × (tick ≡ tick_of_claim setup.now k) }
        requires rows { FitOutput setup.now.device (output_of_claim setup.now k)
            (row_in self.old.rows.pieces) }
        ensures bench { IsBench setup.now.device self.new }
        ensures grows { Grows self.old.reads self.new.reads }
        ensures sees { SeesFree (length setup.now.device.inputs) tick
            (is_named setup.now.device.rate.frames (row_in self.old.rows.pieces))
            self.old.reads self.new.reads self.new.found.items }
        ensures packet { IsPacketBy setup.now (row_in self.old.rows.pieces) k self.new.reads
            self.new.found.items (made_in self.new) }
    {
        self.len = make_free(
            setup,
            &self.rows,
            inputs,
            &mut self.reads,
            k,
            tick,
            &mut self.found,
            &mut self.packet,
        );
    }

    /// The packet that was gathered last, and its flags.
    pub fn gathered(&self) -> Gathered<'_>
        requires { self.now.len ≤ length self.now.packet.items }
        ensures packet { result.packet.now ≡ made_in self.now }
        ensures found { result.found.now ≡ self.now.found.items }
    {
        Gathered {
            packet: &self.packet[..self.len],
            found: &self.found,
        }
    }
}

//! The claims of a history.

ghost use Rattle.std.specs.Prelude.{◌≡◌, ◌<◌, ◌+◌, [], ℕ, IfOk, length, slice_index_or};
ghost use Rattle.packet_writer.specs.Packet.{claim_rows};
ghost use Rattle.serial_player.specs.Made.{AreClaimsOf, AreFlagsOf, AreReady, IsClaimOf, IsOneOf};
ghost use Rattle.serial_player.specs.Made.{IsPacketOf, IsReady, IsRecordOf, packet_length_of};
ghost use Rattle.serial_player.specs.Table.{place_of_claim};

use crate::blocks::{FoundOf, TickOf};
use block_builder::Blocks;
use capture_file::{CLAIM_HEAD_LEN, write_claim_front};
use io_caps::{Bytes, Flags, NoMemory};
use map_entry::{Entries, Entry, Setup, claim_output, claim_tick};
use packet_writer::{EntryRows, FrameRows, look_at_marked, mark_named, packet_len, write_claim};
use plain_book::{ClaimItem, ClaimItems};
use std::alloc::Global;

/// A claim before it is made: its number, the map entries of the base rows and of all calls, or
/// those of its output alone, and the blocks of all packets. Its flags are no part of it: they are given, or chosen as those of
/// all blocks that its packet finds.
#[derive(Drop)]
pub struct OneClaim<'a> {
    pub setup: &'a Setup,
    pub entries: &'a [Entry],
    pub table: &'a [Blocks],
    pub k: u64,
}

/// The first claims before they are made: how many they are, the map entries of the base rows and
/// of all calls, by output, and the blocks of all packets.
#[derive(Drop)]
pub(crate) struct AllClaims<'a> {
    pub(crate) setup: &'a Setup,
    pub(crate) count: usize,
    pub(crate) entries: &'a [Entries],
    pub(crate) table: &'a [Blocks],
}

impl<'a> AllClaims<'a> {
    /// The map entries of an output.
    fn output_entries(&self, output: usize) -> &'a [Entry]
        requires { output < length self.now.entries.now }
        ensures { result.now ≡ slice_index_or self.now.entries.now output [] }
    {
        self.entries[output].as_slice()
    }

    /// The claim of a number.
    pub(crate) fn claim(&self, k: usize) -> OneClaim<'a>
        requires ready { AreReady self.now }
        requires there { k < self.now.count }
        ensures { IsOneOf self.now k result }
    {
        let setup = self.setup;
        let output = claim_output(setup.device.outputs(), k as u64);
        OneClaim {
            setup,
            entries: self.output_entries(output as usize),
            table: self.table,
            k: k as u64,
        }
    }

    /// Makes them.
    pub(crate) fn make(&self, alloc: Global) -> Result<ClaimItems, NoMemory>
        requires { AreReady self.now }
        ensures { IfOk result (AreClaimsOf self.now) }
    {
        let mut made = ClaimItems::new(alloc);
        for k in 0..self.count {
            made.push(self.claim(k).make(alloc)?)?;
        }
        Ok(made)
    }
}

impl<'a> OneClaim<'a> {
    /// The place of its tick after the first one.
    fn place(&self) -> usize
        ensures { result ≡ place_of_claim self.now.setup.now self.now.k }
    {
        let setup = self.setup;
        (self.k / u64::from(setup.device.outputs())) as usize
    }

    /// The rows that rule the frames of its packet.
    fn rows(&self) -> EntryRows<'a>
        requires { IsReady self.now }
        ensures { (frame : ℕ) → ⟦<EntryRows<'static> as FrameRows>⟧.row_of result frame
            ≡ claim_rows self.now.setup.now self.now.entries.now self.now.k frame }
    {
        let setup = self.setup;
        let device = &setup.device;
        let output = claim_output(device.outputs(), self.k);
        let tick = claim_tick(device.base(), device.outputs(), self.k);
        EntryRows::new(self.entries, output, tick)
    }

    /// How many bytes its packet has.
    pub fn packet_len(&self) -> usize
        requires { IsReady self.now }
        ensures { result ≡ packet_length_of self.now }
    {
        let setup = self.setup;
        let output = claim_output(setup.device.outputs(), self.k);
        packet_len(&setup.device, output)
    }

    /// Sets the flag of each input whose block its packet finds: one of its rows names the input,
    /// and the block is there.
    pub fn set_found(&self, found: &mut [bool])
        requires ready { IsReady self.now }
        requires found { length found.old ≡ length self.now.setup.now.device.inputs }
        ensures len { length found.new ≡ length found.old }
        ensures flags { AreFlagsOf self.now found.new }
    {
        let setup = self.setup;
        mark_named(&self.rows(), setup.device.rate().frames, found);
        let untold = look_at_marked(&mut TickOf::new(self.table, self.place()), found);
        // A look at a block in memory always tells.
        prove!(untold.is_none());
    }

    /// Of which inputs its packet finds a block.
    fn flags(&self, alloc: Global) -> Result<Flags, NoMemory>
        requires { IsReady self.now }
        ensures { IfOk result (AreFlagsOf self.now) }
    {
        let setup = self.setup;
        let mut made = vec![in alloc; false; setup.device.inputs() as usize]?;
        self.set_found(made.as_mut_slice());
        Ok(Flags::from_vec(made))
    }

    /// Writes its packet, of the blocks of which these flags are set, into bytes of its length.
    pub fn write_packet(&self, found: &[bool], out: &mut [u8])
        requires ready { IsReady self.now }
        requires room { length out.old ≡ packet_length_of self.now }
        ensures { IsPacketOf self.now found.now out.new }
    {
        write_claim(
            &mut FoundOf::new(self.table, self.place(), found),
            self.setup,
            &self.rows(),
            self.k,
            out,
        );
    }

    /// Returns its packet, of the blocks of which these flags are set.
    pub fn packet(&self, alloc: Global, found: &[bool]) -> Result<Bytes, NoMemory>
        requires { IsReady self.now }
        ensures { IfOk result (IsPacketOf self.now found.now) }
    {
        let mut made = vec![in alloc; 0u8; self.packet_len()]?;
        self.write_packet(found, made.as_mut_slice());
        Ok(Bytes::from_vec(made))
    }

    /// Makes it, with the flags of all blocks that its packet finds.
    fn make(&self, alloc: Global) -> Result<ClaimItem, NoMemory>
        requires { IsReady self.now }
        ensures { IfOk result (IsClaimOf self.now) }
    {
        let found = self.flags(alloc)?;
        let packet = self.packet(alloc, found.as_slice())?;
        Ok(ClaimItem::new(self.k, found, packet))
    }

    /// Writes its record, with these flags, into bytes of just the record's length.
    pub(crate) fn write_record(&self, found: &[bool], out: &mut [u8])
        requires ready { IsReady self.now }
        requires found { length found.now ≡ length self.now.setup.now.device.inputs }
        requires room { length out.old
            ≡ CLAIM_HEAD_LEN + length found.now + packet_length_of self.now }
        ensures { IsRecordOf self.now found.now out.new }
    {
        let (front, packet) = out.split_at_mut(CLAIM_HEAD_LEN + found.len());
        write_claim_front(front, self.k, found, packet.len());
        self.write_packet(found, packet);
    }
}

//! A claim, by its row and what its worker saw.

ghost use Rattle.std.specs.Prelude.{◌≡◌, ◌<◌, ◌&&◌, Bool, IfOk, List, ℕ, length, map, refl};
ghost use Rattle.std.specs.List.{range_with_len};
ghost use Rattle.std.proofs.Common.{◌∙◌};
ghost use Rattle.map_entry.specs.declared.claims.TheConstants.{CLAIMS_LIMIT};
ghost use Rattle.map_entry.specs.declared.entry.Entry.{Entry};
ghost use Rattle.packet_writer.specs.Flags.{is_named};
ghost use Rattle.packet_writer.specs.Packet.{FitOutput, claim_rows, flag_of, output_of_claim};
ghost use Rattle.packet_writer.specs.Packet.{packet_by};
ghost use Rattle.packet_writer.specs.Heard.{AreRows};
ghost use Rattle.packet_writer.specs.Packet.{tick_of_claim};
ghost use Rattle.packet_writer.specs.Stays.{IsOnward};
ghost use Rattle.interleavings.specs.Core.{AreWhole, CanShow, set_at};
ghost use Rattle.interleavings.specs.Run.{claim_with, seen_flags};

use crate::blocks::{FoundBlocks, InputBlocks};
use crate::facts::{Facts, Session};
use io_caps::{Bytes, Flags, NoMemory};
use map_entry::{Setup, claim_output, claim_tick};
use packet_writer::{
    EntryRows, FrameRows, Looks, look_at_marked, mark_named, packet_len, write_claim,
};
use plain_book::ClaimItem;
use std::alloc::Global;

/// The tick of a claim.
pub(crate) fn tick_of(setup: &Setup, k: u64) -> u64
    requires { k < CLAIMS_LIMIT }
    ensures { result ≡ tick_of_claim setup.now k }
{
    let device = &setup.device;
    claim_tick(device.base(), device.outputs(), k)
}

/// The output of a claim.
fn output_of(setup: &Setup, k: u64) -> u8
    ensures value { result ≡ output_of_claim setup.now k }
    ensures there { result < length setup.now.device.outputs }
{
    claim_output(setup.device.outputs(), k)
}

/// Flags as they were seen.
#[derive(Drop)]
struct SeenFlags<'a> {
    flags: &'a [bool],
}

impl<'a> Looks for SeenFlags<'a> {
    ghost sees = { λ s input there. there ≡ flag_of s.flags.now input };

    ghost untold = { λ s input. ⊥ };

    ghost stays = { λ before after. after.flags.now ≡ before.flags.now };

    ghost onward = { record { still = λ a. refl; on = λ a b c f g. g ∙ f } };

    fn look(&mut self, input: u8) -> Option<bool> {
        Some(flag(self.flags, input))
    }
}

/// The flag of an input; past the end none is set.
fn flag(flags: &[bool], input: u8) -> bool
    ensures { result ≡ flag_of flags.now input }
{
    match flags.get(input as usize) {
        Some(set) => *set,
        None => false,
    }
}

/// Sets the flag of each input that rows name and that was seen.
fn mark_seen<R: FrameRows>(setup: &Setup, rows: &R, seen: &[bool], flags: &mut [bool])
    requires { length flags.old ≡ length setup.now.device.inputs }
    ensures len { length flags.new ≡ length flags.old }
    ensures each { (i : ℕ) → i < length setup.now.device.inputs → flag_of flags.new i
        ≡ (is_named setup.now.device.rate.frames (R.row_of rows.now) i && flag_of seen.now i) }
{
    mark_named(rows, setup.device.rate().frames, flags);
    let untold = look_at_marked(&mut SeenFlags { flags: seen }, flags);
    // What was seen is always told.
    prove!(untold.is_none());
}

/// Of which inputs rows name a block that was seen.
fn flags<R: FrameRows>(
    alloc: Global,
    setup: &Setup,
    rows: &R,
    seen: &[bool],
) -> Result<Flags, NoMemory>
    ensures { IfOk result (λ made. made ≡ map (λ input.
        is_named setup.now.device.rate.frames (R.row_of rows.now) input && flag_of seen.now input)
        (range_with_len 0 (length setup.now.device.inputs))) }
{
    let mut made = vec![in alloc; false; setup.device.inputs() as usize]?;
    mark_seen(setup, rows, seen, made.as_mut_slice());
    Ok(Flags::from_vec(made))
}

/// The packet of a claim, by its rows and the blocks that were found.
fn packet<R: FrameRows>(
    alloc: Global,
    setup: &Setup,
    rows: &R,
    table: &[InputBlocks],
    found: &[bool],
    k: u64,
) -> Result<Bytes, NoMemory>
    requires claim { k < CLAIMS_LIMIT }
    requires rows { FitOutput setup.now.device (output_of_claim setup.now k) (R.row_of rows.now) }
    requires blocks { AreWhole setup.now (set_at table.now) }
    ensures { IfOk result (λ made. (entries : List Entry)
        → AreRows setup.now.device.rate.frames (R.row_of rows.now) (claim_rows setup.now entries k)
        → made ≡ packet_by setup.now entries (set_at table.now) found.now k) }
{
    let len = packet_len(&setup.device, output_of(setup, k));
    let mut made = vec![in alloc; 0u8; len]?;
    let mut blocks = FoundBlocks::new(table, found, tick_of(setup, k));
    write_claim(&mut blocks, setup, rows, k, made.as_mut_slice());
    Ok(Bytes::from_vec(made))
}

/// A claim as the history has it, by what its worker saw.
pub(crate) fn show(
    session: &Session,
    facts: &Facts,
    seen: &[bool],
    k: u64,
) -> Result<ClaimItem, NoMemory>
    requires facts { CanShow session.now facts.now }
    requires claim { k < CLAIMS_LIMIT }
    ensures { IfOk result (λ made. made ≡ claim_with session.now.setup facts.now.desk.journal
        (set_at facts.now.blocks.items) k
        (seen_flags session.now.setup facts.now.desk.journal (flag_of seen.now) k)) }
{
    let setup = &session.setup;
    let rows = EntryRows::new(facts.desk.entries(), output_of(setup, k), tick_of(setup, k));
    let found = flags(session.alloc, setup, &rows, seen)?;
    let table = facts.blocks.as_slice();
    let packet = packet(session.alloc, setup, &rows, table, found.as_slice(), k)?;
    Ok(ClaimItem::new(k, found, packet))
}

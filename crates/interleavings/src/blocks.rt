//! The blocks that were set, by input and tick.

ghost use Rattle.std.specs.Prelude.{◌≡◌, ◌≤◌, ◌<◌, ◌*◌, ◌&&◌, ℕ, None, Some, refl};
ghost use Rattle.std.specs.Prelude.{IfNone, IfOk, IfSome, OnErr, OnOk, eqb, is_some, length};
ghost use Rattle.std.specs.Prelude.{if◌then◌else◌};
ghost use Rattle.std.proofs.Common.{◌∙◌};
ghost use Rattle.packet_writer.specs.Packet.{found_block};
ghost use Rattle.packet_writer.specs.Stays.{IsOnward};
ghost use Rattle.interleavings.specs.Core.{set_at};

use block_builder::Block;
use io_caps::NoMemory;
use packet_writer::{Samples, copy_from_block};
use std::alloc::Global;
use std::collections::BTreeMap;

/// The blocks of an input, by tick.
pub(crate) type InputBlocks = BTreeMap<u64, Block>;

/// The blocks of each input.
pub(crate) type BlockTable = Vec<InputBlocks>;

/// The table of a given number of inputs, with no block.
pub(crate) fn no_blocks(alloc: Global, inputs: u8) -> Result<BlockTable, NoMemory>
    ensures long { IfOk result (λ made. length made.items ≡ inputs) }
    ensures none { IfOk result (λ made. (input tick : ℕ) → set_at made.items input tick ≡ None) }
{
    let mut made = Vec::new(alloc);
    for _ in 0..inputs {
        made.push(BTreeMap::new(alloc))?;
    }
    Ok(made)
}

/// The block of an input at a tick, where there is one.
pub(crate) fn block_at(table: &[InputBlocks], input: u8, tick: u64) -> Option<&[i32]>
    ensures some { IfSome result (λ samples. set_at table.now input tick ≡ Some samples.now) }
    ensures none { IfNone result (set_at table.now input tick ≡ None) }
{
    match table.get(input as usize)?.get(&tick) {
        Some(block) => Some(block.as_slice()),
        None => None,
    }
}

/// Whether there is a block of an input at a tick.
pub(crate) fn has_block(table: &[InputBlocks], input: u8, tick: u64) -> bool
    ensures { result ≡ is_some (set_at table.now input tick) }
{
    block_at(table, input, tick).is_some()
}

/// Puts the block of an input at a tick into the table. If memory runs out, all blocks stay as they
/// were.
pub(crate) fn put_block(
    table: &mut BlockTable,
    input: u8,
    tick: u64,
    block: Block,
) -> Result<(), NoMemory>
    requires { input < length table.old.items }
    ensures long { length table.new.items ≡ length table.old.items }
    ensures put { OnOk result ((i t : ℕ) → set_at table.new.items i t
        ≡ (if eqb input i && eqb tick t then Some block else set_at table.old.items i t)) }
    ensures err { OnErr result ((i t : ℕ) → set_at table.new.items i t
        ≡ set_at table.old.items i t) }
{
    table[input as usize].insert(tick, block)?;
    Ok(())
}

/// The blocks of a tick that were found, of those in a table.
#[derive(Drop)]
pub(crate) struct FoundBlocks<'a> {
    table: &'a [InputBlocks],
    found: &'a [bool],
    tick: u64,
}

impl<'a> FoundBlocks<'a> {
    pub(crate) fn new(table: &'a [InputBlocks], found: &'a [bool], tick: u64) -> FoundBlocks<'a>
        ensures table { result.table.now ≡ table.now }
        ensures found { result.found.now ≡ found.now }
        ensures tick { result.tick ≡ tick }
    {
        FoundBlocks { table, found, tick }
    }
}

/// The block of an input that was found at a tick.
fn found_at<'a>(table: &'a [InputBlocks], found: &[bool], tick: u64, input: u8) -> Option<&'a [i32]>
    ensures some { IfSome result (λ samples. found_block (set_at table.now) found.now tick input
        ≡ Some samples.now) }
    ensures none { IfNone result (found_block (set_at table.now) found.now tick input ≡ None) }
{
    match found.get(input as usize) {
        Some(true) => block_at(table, input, tick),
        _ => None,
    }
}

impl<'a> Samples for FoundBlocks<'a> {
    ghost agrees = { λ s b. (input : ℕ) → b input
        ≡ found_block (set_at s.table.now) s.found.now s.tick input };

    ghost stays = { λ before after. (after.table.now ≡ before.table.now)
        × (after.found.now ≡ before.found.now) × (after.tick ≡ before.tick) };

    ghost onward = { record {
      still = λ a. (refl, refl, refl);
      on = λ a b c f g. (g.0 ∙ f.0, g.1 ∙ f.1, g.2 ∙ f.2);
    } };

    fn copy_channel(
        &mut self,
        input: u8,
        channels: usize,
        channel: u8,
        frame: u16,
        out: &mut [i32],
    ) {
        match found_at(self.table, self.found, self.tick, input) {
            Some(samples) => {
                copy_from_block(samples, channels, channel as usize, frame as usize, out)
            }
            None => out.fill(0),
        }
    }
}

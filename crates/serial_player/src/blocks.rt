//! The input blocks of a capture, built once for all claims.

ghost use Rattle.std.specs.Prelude.{◌≡◌, ◌≤◌, [], All, IfOk, IfSome, IfNone, Some, None, is_some};
ghost use Rattle.std.specs.Prelude.{ℕ, length, map, refl};
ghost use Rattle.std.proofs.Common.{◌∙◌};
ghost use Rattle.io_caps.specs.declared.limits.TheConstants.{SESSION_TICKS};
ghost use Rattle.capture_file.specs.Items.{IsItemThere};
ghost use Rattle.capture_file.specs.Packets.{packet_at};
ghost use Rattle.capture_file.specs.declared.items.Item.TheVariants.{Packet};
ghost use Rattle.serial_player.specs.Arrivals.{HavePackets};
ghost use Rattle.serial_player.specs.Table.{found_placed, placed, table_of};

use block_builder::{Blocks, blocks_of_packets};
use capture_file::Item;
use io_caps::{Device, ListOf, NoMemory};
use packet_writer::{Looks, Samples, copy_from_block};
use std::alloc::Global;

/// The blocks of a capture: by input, and then by tick from the first one on.
pub type BlockTable = ListOf<Blocks>;

/// The packets of an input, in order of arrival.
type Packets<'a> = Vec<&'a [u8]>;

/// The input and the packet of a record that brings one.
fn packet_of<'a>(item: &Item<'a>) -> Option<(u8, &'a [u8])>
    ensures some { IfSome result (λ p. item.now ≡ Packet p.0 p.1.now) }
    ensures none { IfNone result ((input : ℕ) → packet_at input item.now ≡ None) }
{
    match item {
        Item::Packet { input, bytes } => Some((*input, bytes.as_slice())),
        _ => None,
    }
}

/// A list without packets for each input.
fn no_packets<'a>(alloc: Global, inputs: u8) -> Result<Vec<Packets<'a>>, NoMemory>
    ensures { IfOk result (λ made.
        HavePackets (λ list. map (λ p. p.now) list.items) inputs [] made.items) }
{
    let mut made = Vec::new(alloc);
    for _ in 0..inputs {
        made.push(Vec::new(alloc))?;
    }
    Ok(made)
}

/// The packets of each input.
fn sort_packets<'a>(
    alloc: Global,
    inputs: u8,
    items: &[Item<'a>],
) -> Result<Vec<Packets<'a>>, NoMemory>
    requires { All (IsItemThere inputs) items.now }
    ensures { IfOk result (λ made.
        HavePackets (λ list. map (λ p. p.now) list.items) inputs items.now made.items) }
{
    let mut made = no_packets(alloc, inputs)?;
    for item in items {
        if let Some((input, packet)) = packet_of(item) {
            made[input as usize].push(packet)?;
        }
    }
    Ok(made)
}

/// Returns the blocks of each input, for this many ticks. It takes time in proportion to the bytes
/// of the packets and of the blocks.
pub fn tabulate(
    alloc: Global,
    device: &Device,
    items: &[Item],
    ticks: u64,
) -> Result<BlockTable, NoMemory>
    requires few { ticks ≤ SESSION_TICKS }
    requires there { All (IsItemThere (length device.now.inputs)) items.now }
    ensures { IfOk result (λ made. made ≡ table_of device.now items.now ticks) }
{
    let packets = sort_packets(alloc, device.inputs(), items)?;
    let mut made = BlockTable::new(alloc);
    for input in 0..device.inputs() {
        let packets = &packets[input as usize];
        made.push(blocks_of_packets(alloc, device, input, ticks, packets)?)?;
    }
    Ok(made)
}

/// The blocks of one tick, by its place after the first one.
#[derive(Debug, Drop)]
pub(crate) struct TickOf<'a> {
    table: &'a [Blocks],
    place: usize,
}

impl<'a> TickOf<'a> {
    pub(crate) fn new(table: &'a [Blocks], place: usize) -> TickOf<'a>
        ensures table { result.table.now ≡ table.now }
        ensures place { result.place ≡ place }
    {
        TickOf { table, place }
    }
}

/// The blocks of one tick that a claim found, by its flags.
#[derive(Debug, Drop)]
pub(crate) struct FoundOf<'a> {
    table: &'a [Blocks],
    place: usize,
    found: &'a [bool],
}

impl<'a> FoundOf<'a> {
    pub(crate) fn new(table: &'a [Blocks], place: usize, found: &'a [bool]) -> FoundOf<'a>
        ensures table { result.table.now ≡ table.now }
        ensures place { result.place ≡ place }
        ensures found { result.found.now ≡ found.now }
    {
        FoundOf {
            table,
            place,
            found,
        }
    }
}

/// The block of an input at a tick, where there is one.
fn block_at(table: &[Blocks], place: usize, input: u8) -> Option<&[i32]>
    ensures some { IfSome result (λ samples. placed table.now place input ≡ Some samples.now) }
    ensures none { IfNone result (placed table.now place input ≡ None) }
{
    let blocks = table.get(input as usize)?;
    match blocks.get(place) {
        Some(Some(block)) => Some(block.as_slice()),
        _ => None,
    }
}

/// The block of an input at a tick, where its flag is set and there is one.
fn found_at<'a>(table: &'a [Blocks], place: usize, found: &[bool], input: u8) -> Option<&'a [i32]>
    ensures some { IfSome result (λ samples.
        found_placed table.now place found.now input ≡ Some samples.now) }
    ensures none { IfNone result (found_placed table.now place found.now input ≡ None) }
{
    match found.get(input as usize) {
        Some(true) => block_at(table, place, input),
        _ => None,
    }
}

impl<'a> Samples for FoundOf<'a> {
    ghost agrees = { λ s b. (input : ℕ)
        → b input ≡ found_placed s.table.now s.place s.found.now input };

    ghost stays = { λ before after. (after.table.now ≡ before.table.now)
        × (after.place ≡ before.place) × (after.found.now ≡ before.found.now) };

    ghost onward = { record {
      still = λ a. (refl, refl, refl);
      on = λ a b c f g. (g.0 ∙ f.0, g.1 ∙ f.1, g.2 ∙ f.2);
    } };

    fn copy_channel(
        &mut self,
        input: u8,
        channels: usize,
        channel: u8,
        frame: u16,
        out: &mut [i32],
    ) {
        match found_at(self.table, self.place, self.found, input) {
            Some(samples) => {
                copy_from_block(samples, channels, channel as usize, frame as usize, out)
            }
            None => out.fill(0),
        }
    }
}

impl<'a> Looks for TickOf<'a> {
    ghost sees = { λ s input there. there ≡ is_some (placed s.table.now s.place input) };

    ghost untold = { λ s input. ⊥ };

    ghost stays = { λ before after.
        (after.table.now ≡ before.table.now) × (after.place ≡ before.place) };

    ghost onward = { record {
      still = λ a. (refl, refl);
      on = λ a b c f g. (g.0 ∙ f.0, g.1 ∙ f.1);
    } };

    fn look(&mut self, input: u8) -> Option<bool> {
        Some(block_at(self.table, self.place, input).is_some())
    }
}

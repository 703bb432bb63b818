//! How the tables of a device's inputs are laid out.

ghost use Rattle.std.specs.Prelude.{◌≡◌, ◌+◌, ◌-◌, ◌≤◌, ◌∷◌, ◌++◌, [], ℕ, IfOk, OnOk, OnErr, Some};
ghost use Rattle.std.specs.Prelude.{length, map, replicate};
ghost use Rattle.std.specs.List.{All, range_with_len};
ghost use Rattle.io_caps.specs.declared.limits.TheConstants.{LAP_TICKS, MOST_CHANNELS, MOST_FRAMES};
ghost use Rattle.map_entry.specs.Row.{channels_of};
ghost use Rattle.input_cells.specs.Faces.{face_of, unfed, unread};
ghost use Rattle.input_cells.specs.Shapes.{BeginsUnfed, IsSmall, shape_of};

use crate::feed::FeedPass;
use crate::one::{InputReader, OneInput};
use crate::read::ReadPass;
use input_rule::Shape;
use io_caps::{Device, NoMemory};
use std::alloc::Global;

/// The tables of the inputs, and of the pace, with their feeders' passes and a reader's pass.
#[derive(Drop)]
pub(crate) struct FreshTable {
    pub(crate) inputs: Vec<OneInput>,
    pub(crate) feeders: Vec<Option<FeedPass>>,
    pub(crate) reader: ReadPass,
}

/// How many channels an input has; the pace, which is no input, has none.
fn channels(device: &Device, input: usize) -> u64
    ensures value { result ≡ channels_of device.now.inputs input }
    ensures few { result ≤ MOST_CHANNELS }
{
    match device.input_slice().get(input) {
        Some(port) => port.channels() as u64,
        None => 0,
    }
}

/// The table of an input, or of the pace, from a tick on and for a given number of ticks.
fn shape(device: &Device, from: u64, ticks: u64, input: usize) -> Shape
    requires ticks { ticks ≤ LAP_TICKS }
    requires input { input ≤ length device.now.inputs }
    ensures value { result ≡ shape_of device.now from ticks input }
    ensures small { IsSmall result }
{
    let rate = device.rate();
    Shape {
        input: input as u8,
        from,
        ticks,
        frames: rate.frames as u64,
        channels: channels(device, input),
    }
}

/// The most channels of an input.
fn most_channels(device: &Device) -> u64
    ensures most { (input : ℕ) → channels_of device.now.inputs input ≤ result }
    ensures few { result ≤ MOST_CHANNELS }
{
    let mut most = 0;
    for input in 0..device.inputs() {
        most = most.max(channels(device, input as usize));
    }
    most
}

/// The words of a table of a given number of words to which nothing was fed: the first tick, and
/// then zeros.
fn first_row(alloc: Global, from: u64, len: usize) -> Result<Vec<u64>, NoMemory>
    requires { 1 ≤ len }
    ensures { IfOk result (λ row. row.items ≡ from ∷ replicate (len - 1) 0) }
{
    let mut row = vec![in alloc; 0u64; len]?;
    row[0] = from;
    Ok(row)
}

/// A row that begins with the words of each input's table to which nothing was fed.
fn widest_row(alloc: Global, device: &Device, from: u64, ticks: u64) -> Result<Vec<u64>, NoMemory>
    requires { ticks ≤ LAP_TICKS }
    ensures { IfOk result (λ row. (input : ℕ)
        → BeginsUnfed (shape_of device.now from ticks input) row.items) }
{
    let block = device.rate().frames as u64 * most_channels(device);
    first_row(alloc, from, 1 + (ticks + ticks * block) as usize)
}

impl FreshTable {
    /// Lays out one table more.
    fn push(&mut self, alloc: Global, shape: Shape, row: &[u64]) -> Result<(), NoMemory>
        requires small { IsSmall shape }
        requires row { BeginsUnfed shape row.now }
        requires feeders { self.old.feeders.items
            ≡ map (λ t. Some (unfed t)) self.old.inputs.items }
        requires reader { self.old.reader ≡ map unread self.old.inputs.items }
        ensures shapes { OnOk result (map (λ t. t.shape) self.new.inputs.items
            ≡ map (λ t. t.shape) self.old.inputs.items ++ shape ∷ []) }
        ensures feeders { OnOk result
            (self.new.feeders.items ≡ map (λ t. Some (unfed t)) self.new.inputs.items) }
        ensures reader { OnOk result (self.new.reader ≡ map unread self.new.inputs.items) }
    {
        let (one, mut feeder) = OneInput::start(alloc, shape, row)?;
        let seat = feeder.reader(&one);
        self.reader.seats.push(seat)?;
        self.feeders.push(Some(FeedPass::new(feeder, shape)))?;
        self.inputs.push(one)?;
        Ok(())
    }
}

/// Lays out the tables of the device's inputs, and of the pace.
pub(crate) fn lay(
    alloc: Global,
    device: &Device,
    from: u64,
    ticks: u64,
) -> Result<FreshTable, NoMemory>
    requires { ticks ≤ LAP_TICKS }
    ensures shapes { IfOk result (λ l. map (λ t. t.shape) l.inputs.items
        ≡ map (shape_of device.now from ticks) (range_with_len 0 (length device.now.inputs + 1))) }
    ensures feeders { IfOk result
        (λ l. l.feeders.items ≡ map (λ t. Some (unfed t)) l.inputs.items) }
    ensures reader { IfOk result (λ l. l.reader ≡ map unread l.inputs.items) }
{
    let row = widest_row(alloc, device, from, ticks)?;
    let mut laid = FreshTable {
        inputs: Vec::new(alloc),
        feeders: Vec::new(alloc),
        reader: ReadPass {
            seats: Vec::new(alloc),
        },
    };
    for input in 0..device.inputs() as usize + 1 {
        laid.push(alloc, shape(device, from, ticks, input), row.as_slice())?;
    }
    Ok(laid)
}

impl ReadPass {
    /// A pass of the same table that has seen nothing.
    fn again(&mut self, alloc: Global, inputs: &[OneInput]) -> Result<ReadPass, NoMemory>
        requires { self.old ≡ map unread inputs.now }
        ensures new { IfOk result (λ p. p ≡ map unread inputs.now) }
        ensures same { self.new ≡ self.old }
    {
        let mut seats = Vec::new(alloc);
        for input in 0..inputs.len() {
            let seat: InputReader = self.seats[input].again(&inputs[input]);
            seats.push(seat)?;
        }
        Ok(ReadPass { seats })
    }

    /// A given number of passes of the same table that have seen nothing.
    pub(crate) fn copies(
        &mut self,
        alloc: Global,
        inputs: &[OneInput],
        count: u8,
    ) -> Result<Vec<ReadPass>, NoMemory>
        requires { self.old ≡ map unread inputs.now }
        ensures count { IfOk result (λ ps. length ps.items ≡ count) }
        ensures new { IfOk result (λ ps. All (λ p. p ≡ map unread inputs.now) ps.items) }
        ensures same { self.new ≡ self.old }
    {
        let mut passes = Vec::new(alloc);
        for _ in 0..count {
            passes.push(self.again(alloc, inputs)?)?;
        }
        Ok(passes)
    }
}

//! Tables worked by hand, and that no call gives up where there is memory.

ghost use Rattle.std.specs.Prelude.{◌≡◌, ◌↔◌, ◌<◌, ◌≤◌, IfOk, IsTrue, OnOk, ℕ, length, map};
ghost use Rattle.input_rule.specs.Words.{HasTick};
ghost use Rattle.packet_writer.specs.Packet.{FitOutput, RowFits, packet_length};
ghost use Rattle.input_cells.specs.Agreement.{AreSeen};
ghost use Rattle.input_cells.specs.Faces.{HasInput, HasShape, IsFeedOf, IsReadOf, face_of};
ghost use Rattle.input_cells.specs.Looking.{HasTickEach};
ghost use Rattle.input_cells.specs.Shapes.{IsTableOf};

use super::*;
use io_caps::limits::LAP_TICKS;
use io_caps::{
    Device, DeviceParts, Input, Inputs, Labels, NoMemory, Output, Outputs, Parent, Rate, Routable,
    Text, Width,
};
use map_entry::Cell;
use packet_writer::{OneRow, packet_len, write_packet};
use std::alloc::Global;
use std::test::Fail;

// ---- a device of an input and an output, of two channels each, with two frames a tick

fn text(alloc: Global, byte: u8) -> Result<Text, NoMemory> {
    let mut made = Text::new(alloc);
    made.push(byte)?;
    Ok(made)
}

fn labels(alloc: Global) -> Result<Labels, NoMemory> {
    let mut made = Labels::new(alloc);
    made.push(text(alloc, b'l')?)?;
    made.push(text(alloc, b'r')?)?;
    Ok(made)
}

fn inputs(alloc: Global) -> Result<Inputs, NoMemory> {
    let mut made = Inputs::new(alloc);
    made.push(Input {
        id: text(alloc, b'a')?,
        name: Text::new(alloc),
        description: Text::new(alloc),
        labels: labels(alloc)?,
        width: Width::L16,
        payload_type: 96,
        block_size: 1,
        reordering: true,
        parent: Parent::Nobody,
    })?;
    Ok(made)
}

fn outputs(alloc: Global) -> Result<Outputs, NoMemory> {
    let mut made = Outputs::new(alloc);
    made.push(Output {
        id: text(alloc, b'x')?,
        name: Text::new(alloc),
        description: Text::new(alloc),
        labels: labels(alloc)?,
        width: Width::L16,
        payload_type: 96,
        ssrc: 1,
        source_id: None,
        routable: Routable::All,
    })?;
    Ok(made)
}

fn device(alloc: Global) -> Result<Device, Fail> {
    let parts = DeviceParts {
        rate: Rate {
            hz: 48000,
            frames: 2,
        },
        base: 0,
        hold: 1,
        inputs: inputs(alloc)?,
        outputs: outputs(alloc)?,
    };
    match Device::build(alloc, parts) {
        Ok(device) => Ok(device),
        Err(_) => Err("a device".into()),
    }
}

// ---- its table

/// A table with the passes of its input's feeder and of the pace's, and a reader's.
#[derive(Drop)]
struct Running {
    device: Device,
    from: u64,
    ticks: u64,
    table: InputTable,
    feeder: FeedPass,
    pace: FeedPass,
    reader: ReadPass,
    ghost of_device: { IsTableOf device from ticks table },
    ghost feeds: { IsFeedOf table feeder },
    ghost paces: { IsFeedOf table pace },
    ghost reads: { IsReadOf table reader },
}

/// The passes of a table that was started with one reader, and that each is given once.
fn passes(
    device: Device,
    from: u64,
    ticks: u64,
    table: InputTable,
    mut feeds: Feeds,
) -> Result<Running, Fail>
    requires table { IsTableOf device from ticks table }
    requires of { feeds.table ≡ table }
    requires pace { 1 < length table }
{
    let feeder = feeds.feed(&table, 0)?;
    let pace = feeds.feed(&table, 1)?;
    let reader = feeds.reader(&table)?;
    if feeds.feed(&table, 0).is_ok() || feeds.reader(&table).is_ok() {
        return Err("no seat".into());
    }
    Ok(Running {
        device,
        from,
        ticks,
        table,
        feeder,
        pace,
        reader,
    })
}

fn start(alloc: Global, from: u64, ticks: u64) -> Result<Running, Fail> {
    if ticks > LAP_TICKS || from > LAP_TICKS {
        return Err("a table's ticks".into());
    }
    let device = device(alloc)?;
    let (table, feeds) = InputTable::start(alloc, &device, from, ticks, 1)?;
    if table.feeders() != 2 {
        return Err("an input and the pace".into());
    }
    passes(device, from, ticks, table, feeds)
}

/// What is done at a table.
#[derive(Clone, Copy)]
enum Step {
    /// The feeder sets the block of a tick.
    Set(u64, [i32; 4]),
    /// The feeder raises the closing number, or the pace's does.
    Close(u64),
    Pace(u64),
    /// The reader loads the closing number, looks at a tick, and reads a sample of a tick: at a
    /// frame of a channel.
    Closed,
    Look(u64),
    Sample(u64, u16, u8),
    /// The reader looks as the packet writer does: wherever the closing number stands, or only at a
    /// tick that is closed.
    LookFree(u64),
    LookClosed(u64),
}

/// What is told.
#[derive(Clone, Copy, Debug, PartialEq, Eq)]
enum Told {
    Done,
    /// It was set before.
    Again,
    /// The closing number of the feeder, or the one that the reader loaded.
    Closing(u64),
    There(bool),
    /// It cannot be told yet, by the closing number that the reader loaded of an input or the pace.
    Open(u8, u64),
    Value(i32),
    /// It may not be asked.
    No,
}

fn block(alloc: Global, samples: [i32; 4]) -> Result<Block, NoMemory> {
    Ok(Block::from_vec(Vec::from_array(alloc, samples)?))
}

/// Whether the table has just one input, and the tick.
fn has_one_with(table: &InputTable, tick: u64) -> bool
    ensures tick { IsTrue result → HasTickEach table.now tick }
    ensures one { IsTrue result → length table.now ≡ 2 }
{
    table.inputs() == 1 && table.has_tick(0, tick)
}

impl Running {
    fn set(&mut self, tick: u64, block: &Block) -> Told {
        if !self.feeder.may_set(tick, block) {
            return Told::No;
        }
        match self.feeder.set(&self.table, tick, block) {
            Ok(()) => Told::Done,
            Err(AlreadySet) => Told::Again,
        }
    }

    fn close(&mut self, upto: u64) -> Told {
        self.feeder.close(&self.table, upto);
        Told::Closing(self.feeder.closing())
    }

    fn pace(&mut self, upto: u64) -> Told {
        self.pace.close(&self.table, upto);
        Told::Closing(self.pace.closing())
    }

    fn closed(&mut self) -> Told {
        if self.table.inputs() == 0 {
            return Told::No;
        }
        Told::Closing(self.reader.closed(&self.table, 0))
    }

    fn look(&mut self, tick: u64) -> Told {
        if self.table.inputs() == 0 || !self.table.has_tick(0, tick) {
            return Told::No;
        }
        Told::There(self.reader.look(&self.table, 0, tick))
    }

    /// A sample of a block that is there.
    fn sample(&mut self, tick: u64, frame: u16, channel: u8) -> Told {
        let table = &self.table;
        if table.inputs() == 0 || !table.has_tick(0, tick) {
            return Told::No;
        }
        if !table.has_frame(0, frame) || !table.has_channel(0, channel) {
            return Told::No;
        }
        if !self.reader.look(table, 0, tick) {
            return Told::No;
        }
        Told::Value(self.reader.sample(table, 0, tick, frame, channel))
    }

    fn look_free(&mut self, tick: u64) -> Told {
        if !has_one_with(&self.table, tick) {
            return Told::No;
        }
        let mut flags = [true];
        self.reader.look_free(&self.table, tick, &mut flags);
        Told::There(flags[0])
    }

    fn look_closed(&mut self, tick: u64) -> Told {
        if !has_one_with(&self.table, tick) {
            return Told::No;
        }
        let mut flags = [true];
        match self.reader.look_closed(&self.table, tick, &mut flags) {
            Ok(()) => Told::There(flags[0]),
            Err(StillOpen { input, closed }) => Told::Open(input, closed),
        }
    }

    fn take(&mut self, alloc: Global, step: Step) -> Result<Told, NoMemory> {
        Ok(match step {
            Step::Set(tick, samples) => self.set(tick, &block(alloc, samples)?),
            Step::Close(upto) => self.close(upto),
            Step::Pace(upto) => self.pace(upto),
            Step::Closed => self.closed(),
            Step::Look(tick) => self.look(tick),
            Step::Sample(tick, frame, channel) => self.sample(tick, frame, channel),
            Step::LookFree(tick) => self.look_free(tick),
            Step::LookClosed(tick) => self.look_closed(tick),
        })
    }
}

/// Samples of 16 bits, which are the highest of 24.
const FRAMES: [i32; 4] = [0x111100, 0x222200, 0x333300, 0x444400];

/// A table of tick 0.
const BY_HAND: [(Step, Told); 24] = [
    (Step::Closed, Told::Closing(0)),
    (Step::Look(0), Told::There(false)),
    (Step::Look(1), Told::No),
    (Step::LookFree(0), Told::There(false)),
    (Step::LookClosed(0), Told::Open(0, 0)),
    (Step::Sample(0, 1, 0), Told::No),
    (Step::Set(1, FRAMES), Told::No),
    (Step::Set(0, FRAMES), Told::Done),
    (Step::Look(0), Told::There(true)),
    (Step::LookFree(0), Told::There(true)),
    (Step::LookClosed(0), Told::Open(0, 0)),
    (Step::Sample(0, 1, 0), Told::Value(3355392)),
    (Step::Sample(0, 0, 1), Told::Value(2236928)),
    (Step::Sample(0, 2, 0), Told::No),
    (Step::Sample(0, 0, 2), Told::No),
    (Step::Set(0, [9, 9, 9, 9]), Told::Again),
    (Step::Sample(0, 1, 0), Told::Value(3355392)),
    (Step::Close(1), Told::Closing(1)),
    (Step::Closed, Told::Closing(1)),
    (Step::Close(0), Told::Closing(1)),
    (Step::Set(0, FRAMES), Told::No),
    (Step::LookClosed(0), Told::Open(1, 0)),
    (Step::Pace(1), Told::Closing(1)),
    (Step::LookClosed(0), Told::There(true)),
];

#[test]
fn input_table_by_hand(rt: HostRuntime) -> Result<(), Fail> {
    let alloc = rt.alloc();
    let mut running = start(alloc, 0, 1)?;
    for (step, wanted) in BY_HAND {
        assert_eq!(rt; running.take(alloc, step)?, wanted);
    }
    Ok(())
}

/// A table of ticks 7 to 9.
const THREE_TICKS: [(Step, Told); 14] = [
    (Step::Closed, Told::Closing(7)),
    (Step::Look(6), Told::No),
    (Step::Set(9, [-1, i32::MIN, i32::MAX, 0]), Told::Done),
    (Step::Set(7, [5, 6, 7, 8]), Told::Done),
    (Step::Close(9), Told::Closing(9)),
    (Step::Look(8), Told::There(false)),
    (Step::Pace(9), Told::Closing(9)),
    (Step::LookClosed(8), Told::There(false)),
    (Step::LookClosed(9), Told::Open(0, 9)),
    (Step::Sample(9, 0, 0), Told::Value(-1)),
    (Step::Sample(9, 0, 1), Told::Value(i32::MIN)),
    (Step::Sample(9, 1, 0), Told::Value(i32::MAX)),
    (Step::Sample(7, 1, 1), Told::Value(8)),
    (Step::Set(8, FRAMES), Told::No),
];

#[test]
fn ticks_by_hand(rt: HostRuntime) -> Result<(), Fail> {
    let alloc = rt.alloc();
    let mut running = start(alloc, 7, 3)?;
    for (step, wanted) in THREE_TICKS {
        assert_eq!(rt; running.take(alloc, step)?, wanted);
    }
    Ok(())
}

// ---- a packet of what the reader sees

/// Whether a row has a cell for each of a given number of channels, and these name channels that
/// are there.
fn fits(inputs: &[Input], channels: usize, row: &[Cell]) -> bool
    ensures { IsTrue result ↔ RowFits inputs.now channels row.now }
{
    row.len() == channels && row.iter().all(|cell| cell.is_channel_there(inputs))
}

/// Looks at the first input's block of a tick: whether it is there.
fn see(table: &InputTable, reader: &mut ReadPass, tick: u64) -> [bool; 1]
    requires reads { IsReadOf table.now reader.old }
    requires input { HasInput table.now 0 }
    requires tick { HasShape table.now 0 (λ s. HasTick s tick) }
    ensures reads { IsReadOf table.now reader.new }
    ensures seen { AreSeen table.now reader.new tick result }
{
    [reader.look(table, 0, tick)]
}

/// Writes the packet of the first output at a tick, by a row and the blocks that the reader saw.
fn write(
    device: &Device,
    table: &InputTable,
    reader: &mut ReadPass,
    tick: u64,
    flags: &[bool],
    row: &[Cell],
    out: &mut [u8],
)
    requires table { (from : ℕ) × (ticks : ℕ) × IsTableOf device.now from ticks table.now }
    requires reads { IsReadOf table.now reader.old }
    requires seen { AreSeen table.now reader.old tick flags.now }
    requires there { 0 < length device.now.outputs }
    requires row { FitOutput device.now 0 (λ frame. row.now) }
    requires room { length out.old ≡ packet_length device.now 0 }
    ensures reads { IsReadOf table.now reader.new }
{
    let mut source = SeenSamples::new(table, reader, tick, flags);
    source.agree();
    write_packet(&mut source, device, 0, &OneRow::new(row), tick, out);
}

impl Running {
    /// The packet of the first output, where it can be written.
    fn packet(&mut self, tick: u64, row: &[Cell], out: &mut [u8]) -> Told {
        let device = &self.device;
        let table = &self.table;
        if table.inputs() == 0 || !table.has_tick(0, tick) || device.outputs() == 0 {
            return Told::No;
        }
        if !fits(device.input_slice(), device.output(0).channels(), row) {
            return Told::No;
        }
        if out.len() != packet_len(device, 0) {
            return Told::No;
        }
        let flags = see(table, &mut self.reader, tick);
        write(device, table, &mut self.reader, tick, &flags, row, out);
        Told::There(flags[0])
    }
}

#[test]
fn packets_of_a_table(rt: HostRuntime) -> Result<(), Fail> {
    let alloc = rt.alloc();
    let mut running = start(alloc, 0, 1)?;
    let row = [
        Cell::From {
            input: 0,
            channel: 1,
        },
        Cell::Unrouted,
    ];
    let mut out = [9u8; 20];
    assert_eq!(rt; running.packet(0, &row, &mut out), Told::There(false));
    assert_eq!(rt; &out[12..], [0u8; 8].as_slice());
    assert_eq!(rt; running.take(alloc, Step::Set(0, FRAMES))?, Told::Done);
    assert_eq!(rt; running.packet(0, &row, &mut out), Told::There(true));
    assert_eq!(rt;
        &out[12..],
        [0x22u8, 0x22, 0, 0, 0x44, 0x44, 0, 0].as_slice()
    );
    Ok(())
}

// ---- the end of a table

/// The passes of all feeders.
fn feeders(alloc: Global, table: &InputTable, feeds: &mut Feeds) -> Result<FeedPasses, Fail>
    requires { feeds.old.table ≡ table.now }
    ensures passes { IfOk result (λ made. map face_of made ≡ table.now) }
    ensures of { OnOk result (feeds.new.table ≡ table.now) }
{
    let mut made = FeedPasses::new(alloc);
    if table.feeders() > u8::MAX as usize {
        return Err("fewer inputs".into());
    }
    for input in 0..table.feeders() as u8 {
        made.push(feeds.feed(table, input)?)?;
    }
    Ok(made)
}

#[test]
fn table_ends(rt: HostRuntime) -> Result<(), Fail> {
    let alloc = rt.alloc();
    let (table, mut feeds) = InputTable::start(alloc, &device(alloc)?, 0, 1, 1)?;
    let feeders = feeders(alloc, &table, &mut feeds)?;
    let mut readers = ReadPasses::new(alloc);
    readers.push(feeds.reader(&table)?)?;
    table.end(feeders, readers);
    Ok(())
}

// ---- threads

fn goes_to_a_thread<T: Send + Drop>() {}

fn is_shared<T: Sync>() {}

#[test]
fn threads_may_have_them(_rt: HostRuntime) {
    is_shared::<InputTable>();
    goes_to_a_thread::<InputTable>();
    goes_to_a_thread::<Feeds>();
    goes_to_a_thread::<FeedPass>();
    goes_to_a_thread::<ReadPass>();
}

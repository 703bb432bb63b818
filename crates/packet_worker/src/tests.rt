//! Packets gathered by hand, and that no call gives up where there is memory.

ghost use Rattle.std.specs.Prelude.{◌≡◌, ◌≤◌, ◌<◌, ◌*◌, ◌-◌, ◌++◌, ◌∷◌, [], ℕ, List, IfOk, IsTrue};
ghost use Rattle.std.specs.Prelude.{OnOk, false, length, true};
ghost use Rattle.session_laws.specs.Facts.Gathering.{GatherClosed};
ghost use Rattle.book_words.specs.declared.history.ClaimItem.{ClaimItem as ClaimValue};
ghost use Rattle.book_words.specs.History.{claim_item};
ghost use Rattle.io_caps.specs.declared.limits.TheConstants.{LAP_TICKS, MOST_OUTPUTS};
ghost use Rattle.map_entry.specs.Entry.{IsEntryOk};
ghost use Rattle.map_entry.specs.Row.{IsRowOf};
ghost use Rattle.map_entry.specs.Tick.{first_tick};
ghost use Rattle.claim_rule.specs.declared.words.TheConstants.{TICKS_LIMIT};
ghost use Rattle.claim_word.specs.Claims.{IsLast};
ghost use Rattle.claim_word.specs.Faces.{IsPublisherOf};
ghost use Rattle.claim_word.specs.Starts.{IsBase};
ghost use Rattle.claim_word.specs.States.{HasSeen};
ghost use Rattle.input_cells.specs.Faces.{IsFeedOf};
ghost use Rattle.input_cells.specs.Looking.{HasTickEach};
ghost use Rattle.input_cells.specs.Shapes.{IsTableOf};
ghost use Rattle.packet_worker.specs.Faces.{IsWorkerOf};
ghost use Rattle.packet_worker.specs.Gathering.{KeepsClaim};
ghost use Rattle.packet_worker.specs.Jobs.{IsAllMade, IsDue};

use super::*;
use crate::laws::{jobs_go_on, workers_are_of_tables};
use book_words::{ClaimItem, ClaimItems};
use claim_rule::TICKS_LIMIT;
use claim_word::{Claim, ClaimTable, Claimed, Moved, Publisher, State};
use input_cells::{AlreadySet, Block, FeedPass, Feeds, InputTable};
use io_caps::limits::PLACES;
use io_caps::{
    Bytes, Device, DeviceParts, Flags, Input, Inputs, Labels, ListOf, NoMemory, Output, Outputs,
    Parent, Rate, Routable, Text, TryCopy, Width,
};
use map_entry::{CLAIMS_LIMIT, Cell, Entries, Entry, Row, Rows, Setup, check_row, first_tick};
use std::alloc::Global;
use std::process::Abort;
use std::test::Fail;

const NONE: Cell = Cell::Unrouted;

const LEFT: Cell = Cell::From {
    input: 0,
    channel: 0,
};

const RIGHT: Cell = Cell::From {
    input: 0,
    channel: 1,
};

// ---- a device of an input and two outputs, of two channels each

fn text(alloc: Global, byte: u8) -> Result<Text, NoMemory> {
    let mut made = Text::new(alloc);
    made.push(byte)?;
    Ok(made)
}

fn labels(alloc: Global) -> Result<Labels, NoMemory> {
    let mut made = Labels::new(alloc);
    made.push(text(alloc, b'l')?)?;
    made.push(text(alloc, b'r')?)?;
    Ok(made)
}

fn inputs(alloc: Global) -> Result<Inputs, NoMemory> {
    let mut made = Inputs::new(alloc);
    made.push(Input {
        id: text(alloc, b'a')?,
        name: Text::new(alloc),
        description: Text::new(alloc),
        labels: labels(alloc)?,
        width: Width::L16,
        payload_type: 96,
        block_size: 1,
        reordering: true,
        parent: Parent::Nobody,
    })?;
    Ok(made)
}

fn outputs(alloc: Global) -> Result<Outputs, NoMemory> {
    let mut made = Outputs::new(alloc);
    for (id, width, ssrc) in [(b'x', Width::L16, 1), (b'y', Width::L24, 2)] {
        made.push(Output {
            id: text(alloc, id)?,
            name: Text::new(alloc),
            description: Text::new(alloc),
            labels: labels(alloc)?,
            width,
            payload_type: 96,
            ssrc,
            source_id: None,
            routable: Routable::All,
        })?;
    }
    Ok(made)
}

fn row(alloc: Global, cells: [Cell; 2]) -> Result<Row, NoMemory> {
    let [left, right] = cells;
    let mut made = Row::new(alloc);
    made.push(left)?;
    made.push(right)?;
    Ok(made)
}

fn rows(alloc: Global) -> Result<Rows, NoMemory> {
    let mut made = Rows::new(alloc);
    made.push(row(alloc, [LEFT, RIGHT])?)?;
    made.push(row(alloc, [NONE, RIGHT])?)?;
    Ok(made)
}

fn setup(alloc: Global) -> Result<Setup, Fail> {
    let parts = DeviceParts {
        rate: Rate {
            hz: 48000,
            frames: 2,
        },
        base: 0,
        hold: 1,
        inputs: inputs(alloc)?,
        outputs: outputs(alloc)?,
    };
    let Ok(device) = Device::build(alloc, parts) else {
        return Err("a device".into());
    };
    match Setup::build(alloc, device, rows(alloc)?) {
        Ok(setup) => Ok(setup),
        Err(_) => Err("a setup".into()),
    }
}

// ---- tables of it

/// The base row of an output, as an entry from the first tick on.
fn base_entry(setup: &Setup, output: u8) -> Result<Entry, NoMemory>
    requires { output < length setup.now.device.outputs }
    ensures output { IfOk result (λ e. e.output ≡ output) }
    ensures tick { IfOk result (λ e. e.tick ≡ setup.now.device.base) }
    ensures offset { IfOk result (λ e. e.offset ≡ 0) }
    ensures at { IfOk result (λ e. e.at ≡ 0) }
    ensures ok { IfOk result (IsEntryOk setup.now.device) }
{
    let rows = setup.rows.as_slice();
    let row = rows[output as usize].copy()?;
    Ok(Entry::new(output, setup.device.base(), 0, row, 0))
}

/// The base rows of all outputs, with which a table may begin at any claim.
fn base_entries(alloc: Global, setup: &Setup) -> Result<Entries, NoMemory>
    ensures base { IfOk result (λ es. (from : ℕ) → IsBase setup.now from es) }
    ensures few { OnOk result (length setup.now.device.outputs ≤ MOST_OUTPUTS) }
{
    let mut made = Entries::new(alloc);
    for output in 0..setup.device.outputs() {
        let entry = base_entry(setup, output)?;
        made.push(entry)?;
    }
    Ok(made)
}

/// The first claim of tables, their first tick, and how many ticks they have.
#[derive(Clone, Copy)]
struct Span {
    from: u64,
    first: u64,
    ticks: u64,
}

/// Tables of a span, which begin with the base rows.
#[derive(Drop)]
struct Tables {
    setup: Setup,
    table: ClaimTable,
    publisher: Publisher,
    inputs: InputTable,
    feeds: Feeds,
    span: Span,
    ghost plan: { table.plan.setup ≡ setup },
    ghost publishes: { IsPublisherOf table publisher },
    ghost device: { IsTableOf setup.device span.first span.ticks inputs },
    ghost feeds_it: { feeds.table ≡ inputs },
}

fn start_claims(
    alloc: Global,
    setup: &Setup,
    from: u64,
    ticks: u64,
) -> Result<(ClaimTable, Publisher), NoMemory>
    requires from { from ≤ LAP_TICKS }
    requires ticks { ticks ≤ LAP_TICKS }
    ensures setup { IfOk result (λ t. t.0.plan.setup ≡ setup.now) }
    ensures of { IfOk result (λ t. IsPublisherOf t.0 t.1) }
{
    ClaimTable::start(alloc, setup, &base_entries(alloc, setup)?, from, ticks, 1)
}

fn start_tables(alloc: Global, span: Span) -> Result<Tables, Fail>
    requires from { span.from ≤ LAP_TICKS }
    requires first { span.first ≤ LAP_TICKS }
    requires ticks { span.ticks ≤ LAP_TICKS }
{
    let setup = setup(alloc)?;
    let (table, publisher) = start_claims(alloc, &setup, span.from, span.ticks)?;
    let (inputs, feeds) = InputTable::start(alloc, &setup.device, span.first, span.ticks, 1)?;
    Ok(Tables {
        setup,
        table,
        publisher,
        inputs,
        feeds,
        span,
    })
}

/// Whether an output may have a row.
fn is_row(device: &Device, output: u8, row: &Row) -> bool
    ensures { IsTrue result → IsRowOf device.now output row.now }
{
    if output >= device.outputs() || row.len() != device.output(output).channels() {
        return false;
    }
    match check_row(device, output, row) {
        Ok(()) => true,
        Err(_) => false,
    }
}

/// Whether an entry counts from no tick that has begun after a number of claims, and words can
/// spell its tick.
fn is_timely(device: &Device, claims: u64, tick: u64) -> bool
    ensures timely { IsTrue result
        → first_tick device.now.base (length device.now.outputs) claims ≤ tick }
    ensures few { IsTrue result → tick < TICKS_LIMIT }
{
    if claims >= CLAIMS_LIMIT || tick >= TICKS_LIMIT {
        return false;
    }
    first_tick(device.base(), device.outputs(), claims) <= tick
}

/// The list of one item.
fn only<T: Drop>(alloc: Global, item: T) -> Result<ListOf<T>, NoMemory>
    ensures { IfOk result (λ list. list ≡ item ∷ []) }
{
    let mut list = ListOf::new(alloc);
    list.push(item)?;
    Ok(list)
}

/// That the first output has a row with these cells from a frame of a tick on.
type New = (u64, u16, [Cell; 2]);

/// Publishes an entry; it has to come.
fn publish(
    alloc: Global,
    setup: &Setup,
    table: &ClaimTable,
    publisher: &mut Publisher,
    seen: State,
    new: New,
) -> Result<(), Fail>
    requires setup { table.now.plan.setup ≡ setup.now }
    requires of { IsPublisherOf table.now publisher.old }
    requires seen { HasSeen publisher.old.view seen }
    ensures of { IsPublisherOf table.now publisher.new }
{
    let (tick, offset, cells) = new;
    let entry = Entry::new(0, tick, offset, row(alloc, cells)?, seen.claims);
    if publisher.entries().len() >= PLACES as usize {
        return Err("a place".into());
    }
    if !is_row(&setup.device, 0, &entry.row)
        || !is_timely(&setup.device, seen.claims, tick)
        || offset >= setup.device.rate().frames
    {
        return Err("an entry that may come".into());
    }
    let entries = only(alloc, entry)?;
    match publisher.try_publish(table, &entries, seen) {
        Ok(()) => Ok(()),
        Err(Moved { .. }) => Err("an exchange".into()),
    }
}

impl Tables {
    /// Publishes an entry.
    fn add(&mut self, alloc: Global, new: New) -> Result<(), Fail> {
        let seen = self.publisher.state(&self.table);
        publish(
            alloc,
            &self.setup,
            &self.table,
            &mut self.publisher,
            seen,
            new,
        )
    }

    /// The worker.
    fn worker(&mut self, alloc: Global) -> Result<Worker, Fail>
        ensures of { IfOk result (IsWorkerOf self.new.table self.new.inputs) }
        ensures begun { IfOk result (λ w. w.pass.view.draws ≡ []) }
        ensures more { IfOk result (λ w. w.pass.ended ≡ false) }
        ensures table { self.new.table ≡ self.old.table }
        ensures inputs { self.new.inputs ≡ self.old.inputs }
    {
        workers_are_of_tables();
        let pass = self.publisher.worker(&self.table)?;
        let reads = self.feeds.reader(&self.inputs)?;
        Ok(Worker::new(alloc, &self.setup, pass, reads)?)
    }

    /// The pass of the feeder of the input, or of the pace, by their numbers.
    fn feeder(&mut self, input: u8) -> Result<FeedPass, Fail>
        ensures of { IfOk result (IsFeedOf self.new.inputs) }
        ensures table { self.new.table ≡ self.old.table }
        ensures inputs { self.new.inputs ≡ self.old.inputs }
    {
        if input as usize >= self.inputs.feeders() {
            return Err("a feeder".into());
        }
        Ok(self.feeds.feed(&self.inputs, input)?)
    }
}

/// A worker with its last claim, its tables, and the passes of the feeder of its one input and of
/// the pace.
#[derive(Drop)]
struct Running {
    table: ClaimTable,
    inputs: InputTable,
    feeder: FeedPass,
    pace: FeedPass,
    worker: Worker,
    claim: Claim,
    ghost feeds: { IsFeedOf inputs feeder },
    ghost paces: { IsFeedOf inputs pace },
    ghost works: { IsWorkerOf table inputs worker },
    ghost last: { IsLast worker.pass.view claim },
}

/// Claims a given number of packets, of which none is gathered.
fn skip(table: &ClaimTable, inputs: &InputTable, worker: &mut Worker, packets: u8)
    requires { IsWorkerOf table.now inputs.now worker.old }
    ensures { IsWorkerOf table.now inputs.now worker.new }
{
    for _ in 0..packets {
        worker.claim(table);
    }
}

/// A worker that claims its next packet.
fn begin(
    table: ClaimTable,
    inputs: InputTable,
    feeder: FeedPass,
    pace: FeedPass,
    mut worker: Worker,
) -> Result<Running, Fail>
    requires feeds { IsFeedOf inputs feeder }
    requires paces { IsFeedOf inputs pace }
    requires works { IsWorkerOf table inputs worker }
{
    match worker.claim(&table) {
        Claimed::Packet(claim) => Ok(Running {
            table,
            inputs,
            feeder,
            pace,
            worker,
            claim,
        }),
        Claimed::Over => Err("a packet".into()),
    }
}

/// Tables to which entries are published first, and how many claims are made before the one that is
/// gathered.
#[derive(Clone, Copy)]
struct Case {
    span: Span,
    new: [Option<New>; 2],
    skipped: u8,
}

/// The tables, with all entries published.
fn published(alloc: Global, span: Span, new: [Option<New>; 2]) -> Result<Tables, Fail>
    requires from { span.from ≤ LAP_TICKS }
    requires first { span.first ≤ LAP_TICKS }
    requires ticks { span.ticks ≤ LAP_TICKS }
{
    let mut tables = start_tables(alloc, span)?;
    for entry in new {
        if let Some(new) = entry {
            tables.add(alloc, new)?;
        }
    }
    Ok(tables)
}

fn start(alloc: Global, case: Case) -> Result<Running, Fail> {
    let Case { span, new, skipped } = case;
    if span.from > 100 || span.first > 100 || span.ticks > 100 {
        return Err("a small span".into());
    }
    let mut tables = published(alloc, span, new)?;
    let mut worker = tables.worker(alloc)?;
    let feeder = tables.feeder(0)?;
    let pace = tables.feeder(1)?;
    let Tables {
        setup: _,
        table,
        publisher: _,
        inputs,
        feeds: _,
        ..
    } = tables;
    skip(&table, &inputs, &mut worker, skipped);
    begin(table, inputs, feeder, pace, worker)
}

/// What is done, at the tick of the claim.
#[derive(Clone, Copy)]
enum Step {
    /// The feeder sets the block, or raises the closing number; the pace does.
    Set,
    Close(u64),
    Pace(u64),
    /// The worker gathers, or looks at the pace.
    Closed,
    Free,
    Look,
}

/// What is told.
#[derive(Clone, Copy, Debug, PartialEq, Eq)]
enum Told {
    Done,
    Again,
    Open(u8, u64),
    /// Payload and flag.
    Packet([u8; 8], bool),
    Pace(u64),
    No,
}

const FRAMES: [i32; 4] = [0x111100, 0x222200, 0x333300, 0x444400];

fn shown(gathered: Gathered) -> Told {
    let Some(found) = gathered.found.first() else {
        return Told::No;
    };
    match gathered.packet {
        [_, _, _, _, _, _, _, _, _, _, _, _, a, b, c, d, e, f, g, h] => {
            Told::Packet([*a, *b, *c, *d, *e, *f, *g, *h], *found)
        }
        _ => Told::No,
    }
}

impl Running {
    fn take(&mut self, alloc: Global, step: Step) -> Result<Told, NoMemory> {
        if self.inputs.inputs() != 1 || !self.inputs.has_tick(0, self.claim.tick()) {
            return Ok(Told::No);
        }
        Ok(match step {
            Step::Set => self.set(&Block::from_vec(Vec::from_array(alloc, FRAMES)?)),
            Step::Close(upto) => {
                self.feeder.close(&self.inputs, upto);
                Told::Done
            }
            Step::Pace(upto) => {
                self.pace.close(&self.inputs, upto);
                Told::Done
            }
            Step::Closed => {
                match self
                    .worker
                    .gather_closed(&self.table, &self.inputs, &self.claim)
                {
                    Ok(gathered) => shown(gathered),
                    Err(StillOpen { input, closed }) => Told::Open(input, closed),
                }
            }
            Step::Free => shown(
                self.worker
                    .gather_free(&self.table, &self.inputs, &self.claim),
            ),
            Step::Look => Told::Pace(self.worker.pace(&self.inputs)),
        })
    }

    fn set(&mut self, block: &Block) -> Told {
        let tick = self.claim.tick();
        if !self.feeder.may_set(tick, block) {
            return Told::No;
        }
        match self.feeder.set(&self.inputs, tick, block) {
            Ok(()) => Told::Done,
            Err(AlreadySet) => Told::Again,
        }
    }
}

/// Takes each step, and asks what is told.
fn run(rt: &impl Abort, alloc: Global, case: Case, steps: &[(Step, Told)]) -> Result<(), Fail> {
    let mut running = start(alloc, case)?;
    for (step, wanted) in steps {
        assert_eq!(rt; running.take(alloc, *step)?, *wanted);
    }
    Ok(())
}

const SILENCE: [u8; 8] = [0, 0, 0, 0, 0, 0, 0, 0];

const HEARD: [u8; 8] = [0x11, 0x11, 0x22, 0x22, 0x33, 0x33, 0x44, 0x44];

/// One tick, the first one.
const ONE: Span = Span {
    from: 0,
    first: 0,
    ticks: 1,
};

/// The first claim of a table of one tick, by the base rows.
const FIRST: Case = Case {
    span: ONE,
    new: [None, None],
    skipped: 0,
};

/// Two ticks, the first ones.
const TWO: Span = Span {
    from: 0,
    first: 0,
    ticks: 2,
};

/// Two ticks, after five.
const LATER: Span = Span {
    from: 10,
    first: 5,
    ticks: 2,
};

#[test]
fn gather_closed_by_hand(rt: HostRuntime) -> Result<(), Fail> {
    let steps = [
        (Step::Closed, Told::Open(0, 0)),
        (Step::Set, Told::Done),
        (Step::Close(1), Told::Done),
        (Step::Closed, Told::Open(1, 0)),
        (Step::Look, Told::Pace(0)),
        (Step::Pace(1), Told::Done),
        (Step::Look, Told::Pace(1)),
        (Step::Closed, Told::Packet(HEARD, true)),
        (Step::Closed, Told::Packet(HEARD, true)),
        (Step::Set, Told::No),
    ];
    run(&rt, rt.alloc(), FIRST, &steps)
}

#[test]
fn gather_free_by_hand(rt: HostRuntime) -> Result<(), Fail> {
    // a block that comes between two gathers of one claim
    let steps = [
        (Step::Free, Told::Packet(SILENCE, false)),
        (Step::Set, Told::Done),
        (Step::Set, Told::Again),
        (Step::Free, Told::Packet(HEARD, true)),
        (Step::Free, Told::Packet(HEARD, true)),
    ];
    run(&rt, rt.alloc(), FIRST, &steps)
}

#[test]
fn blocks_between_two_gathers(rt: HostRuntime) -> Result<(), Fail> {
    let steps = [
        (Step::Pace(1), Told::Done),
        (Step::Closed, Told::Open(0, 0)),
        (Step::Free, Told::Packet(SILENCE, false)),
        (Step::Set, Told::Done),
        (Step::Closed, Told::Open(0, 0)),
        (Step::Close(1), Told::Done),
        (Step::Closed, Told::Packet(HEARD, true)),
    ];
    run(&rt, rt.alloc(), FIRST, &steps)
}

#[test]
fn input_that_never_comes(rt: HostRuntime) -> Result<(), Fail> {
    let steps = [
        (Step::Pace(1), Told::Done),
        (Step::Closed, Told::Open(0, 0)),
        (Step::Close(1), Told::Done),
        (Step::Closed, Told::Packet(SILENCE, false)),
        (Step::Free, Told::Packet(SILENCE, false)),
    ];
    run(&rt, rt.alloc(), FIRST, &steps)
}

#[test]
fn row_that_names_no_input(rt: HostRuntime) -> Result<(), Fail> {
    let case = Case {
        span: ONE,
        new: [Some((0, 0, [NONE, NONE])), None],
        skipped: 0,
    };
    // it keeps pace all the same, and does not ask for the input
    let steps = [
        (Step::Set, Told::Done),
        (Step::Closed, Told::Open(1, 0)),
        (Step::Pace(1), Told::Done),
        (Step::Closed, Told::Packet(SILENCE, false)),
        (Step::Free, Told::Packet(SILENCE, false)),
    ];
    run(&rt, rt.alloc(), case, &steps)
}

#[test]
fn closings_below_at_and_above(rt: HostRuntime) -> Result<(), Fail> {
    // the last tick of tables that begin later, which is 6
    let case = Case {
        span: LATER,
        new: [None, None],
        skipped: 2,
    };
    let steps = [
        (Step::Closed, Told::Open(0, 5)),
        (Step::Set, Told::Done),
        (Step::Close(6), Told::Done),
        (Step::Closed, Told::Open(0, 6)),
        (Step::Close(7), Told::Done),
        (Step::Closed, Told::Open(1, 5)),
        (Step::Pace(6), Told::Done),
        (Step::Closed, Told::Open(1, 6)),
        (Step::Pace(7), Told::Done),
        (Step::Closed, Told::Packet(HEARD, true)),
    ];
    run(&rt, rt.alloc(), case, &steps)
}

/// By the changes published: the payload of the first packet of tick 1, and whether it found its
/// input.
const PIECES: [([Option<New>; 2], [u8; 8], bool); 4] = [
    // a row from the middle on, and none before
    (
        [Some((0, 0, [NONE, NONE])), Some((1, 1, [LEFT, NONE]))],
        [0, 0, 0, 0, 0x33, 0x33, 0, 0],
        true,
    ),
    // another row at each frame
    (
        [Some((1, 0, [RIGHT, NONE])), Some((1, 1, [NONE, LEFT]))],
        [0x22, 0x22, 0, 0, 0, 0, 0x33, 0x33],
        true,
    ),
    // the row of the last frame names no input
    (
        [Some((1, 1, [NONE, NONE])), None],
        [0x11, 0x11, 0x22, 0x22, 0, 0, 0, 0],
        true,
    ),
    // no row does
    (
        [Some((1, 0, [NONE, NONE])), Some((1, 1, [NONE, NONE]))],
        SILENCE,
        false,
    ),
];

#[test]
fn row_pieces_by_hand(rt: HostRuntime) -> Result<(), Fail> {
    for (new, payload, found) in PIECES {
        let case = Case {
            span: TWO,
            new,
            skipped: 2,
        };
        let steps = [
            (Step::Set, Told::Done),
            (Step::Free, Told::Packet(payload, found)),
            (Step::Close(2), Told::Done),
            (Step::Pace(2), Told::Done),
            (Step::Closed, Told::Packet(payload, found)),
        ];
        run(&rt, rt.alloc(), case, &steps)?;
    }
    Ok(())
}

// ---- a worker's job

/// The packet that was gathered, as the claim of its number.
fn item(alloc: Global, k: u64, gathered: Gathered) -> Result<ClaimItem, NoMemory>
    ensures { IfOk result (λ made. made
        ≡ claim_item k gathered.entry.found.now gathered.entry.packet.now) }
{
    let found = Flags::from_vec(gathered.found.to_vec(alloc)?);
    let packet = Bytes::from_vec(gathered.packet.to_vec(alloc)?);
    Ok(ClaimItem::new(k, found, packet))
}

/// Gathers the packet of the worker's last claim, which has to be there.
fn gather_one(
    alloc: Global,
    table: &ClaimTable,
    inputs: &InputTable,
    worker: &mut Worker,
    claim: &Claim,
) -> Result<ClaimItem, Fail>
    requires work { IsWorkerOf table.now inputs.now worker.old }
    requires last { IsLast worker.old.pass.view claim.now }
    requires tick { HasTickEach inputs.now claim.now.tick }
    ensures on { KeepsClaim table.now inputs.now claim.now worker.old worker.new }
    ensures made { IfOk result (λ item. (items : List ClaimValue)
        → IsDue GatherClosed worker.old claim.now items
        → IsAllMade GatherClosed worker.new (items ++ item ∷ [])) }
{
    jobs_go_on();
    match worker.gather_closed(table, inputs, claim) {
        Ok(gathered) => Ok(item(alloc, claim.k(), gathered)?),
        Err(_) => Err("a closed tick".into()),
    }
}

/// Makes the claims of all packets that are left, in the order of the worker's draws.
fn gather_all(
    alloc: Global,
    table: &ClaimTable,
    inputs: &InputTable,
    worker: &mut Worker,
) -> Result<ClaimItems, Fail>
    requires work { IsWorkerOf table.now inputs.now worker.old }
    requires begun { worker.old.pass.view.draws ≡ [] }
    requires more { worker.old.pass.ended ≡ false }
    ensures made { IfOk result (IsAllMade GatherClosed worker.new) }
    ensures ended { OnOk result (worker.new.pass.ended ≡ true) }
{
    jobs_go_on();
    let mut items = ClaimItems::new(alloc);
    for _ in 0..u32::MAX {
        match worker.claim(table) {
            Claimed::Over => return Ok(items),
            Claimed::Packet(claim) => {
                if inputs.inputs() != 1 || !inputs.has_tick(0, claim.tick()) {
                    return Err("a tick of the table".into());
                }
                items.push(gather_one(alloc, table, inputs, worker, &claim)?)?
            }
        }
    }
    Err("an end".into())
}

#[test]
fn all_packets_of_a_table(rt: HostRuntime) -> Result<(), Fail> {
    let alloc = rt.alloc();
    let mut tables = start_tables(alloc, ONE)?;
    let mut worker = tables.worker(alloc)?;
    tables.feeder(0)?.close(&tables.inputs, 1);
    tables.feeder(1)?.close(&tables.inputs, 1);
    let items = gather_all(alloc, &tables.table, &tables.inputs, &mut worker)?;
    assert_eq!(rt; items.len(), 2);
    Ok(())
}

// ---- threads

fn goes_to_a_thread<T: Send + Drop>() {}

#[test]
fn threads_may_have_it(_rt: HostRuntime) {
    goes_to_a_thread::<Worker>();
}

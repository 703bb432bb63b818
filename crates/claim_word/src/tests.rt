//! Tables worked by hand, and that no call gives up where there is memory.

ghost use Rattle.std.specs.Prelude.{◌≡◌, ◌<◌, ◌≤◌, ◌∷◌, [], IfOk, IsTrue};
ghost use Rattle.std.specs.Prelude.{OnOk, length};
ghost use Rattle.io_caps.specs.declared.limits.TheConstants.{LAP_TICKS, MOST_OUTPUTS};
ghost use Rattle.map_entry.specs.Entry.{IsEntryOk};
ghost use Rattle.map_entry.specs.Row.{IsRowOf};
ghost use Rattle.map_entry.specs.Tick.{first_tick};
ghost use Rattle.claim_rule.specs.declared.words.TheConstants.{TICKS_LIMIT};
ghost use Rattle.claim_word.specs.Faces.{IsClientOf, IsPassOf, IsPublisherOf};
ghost use Rattle.claim_word.specs.Starts.{IsBase};
ghost use Rattle.claim_word.specs.States.{HasSeen};

use super::*;
use claim_rule::TICKS_LIMIT;
use io_caps::limits::PLACES;
use io_caps::{
    Device, DeviceParts, Input, Inputs, Labels, ListOf, NoMemory, NoSeat, Or, Output, Outputs,
    Parent, Rate, Routable, Text, TryCopy, Width,
};
use map_entry::{CLAIMS_LIMIT, Cell, Entries, Entry, Row, Rows, Setup, check_row, first_tick};
use std::alloc::Global;
use std::test::Fail;

const NONE: Cell = Cell::Unrouted;

const LEFT: Cell = Cell::From {
    input: 0,
    channel: 0,
};

const RIGHT: Cell = Cell::From {
    input: 0,
    channel: 1,
};

// ---- a device of an input and two outputs, of two channels each

fn text(alloc: Global, byte: u8) -> Result<Text, NoMemory> {
    let mut made = Text::new(alloc);
    made.push(byte)?;
    Ok(made)
}

fn labels(alloc: Global) -> Result<Labels, NoMemory> {
    let mut made = Labels::new(alloc);
    made.push(text(alloc, b'l')?)?;
    made.push(text(alloc, b'r')?)?;
    Ok(made)
}

fn inputs(alloc: Global) -> Result<Inputs, NoMemory> {
    let mut made = Inputs::new(alloc);
    made.push(Input {
        id: text(alloc, b'a')?,
        name: Text::new(alloc),
        description: Text::new(alloc),
        labels: labels(alloc)?,
        width: Width::L16,
        payload_type: 96,
        block_size: 1,
        reordering: true,
        parent: Parent::Nobody,
    })?;
    Ok(made)
}

fn outputs(alloc: Global) -> Result<Outputs, NoMemory> {
    let mut made = Outputs::new(alloc);
    for (id, width, ssrc) in [(b'x', Width::L16, 1), (b'y', Width::L24, 2)] {
        made.push(Output {
            id: text(alloc, id)?,
            name: Text::new(alloc),
            description: Text::new(alloc),
            labels: labels(alloc)?,
            width,
            payload_type: 96,
            ssrc,
            source_id: None,
            routable: Routable::All,
        })?;
    }
    Ok(made)
}

fn row(alloc: Global, cells: [Cell; 2]) -> Result<Row, NoMemory> {
    let [left, right] = cells;
    let mut made = Row::new(alloc);
    made.push(left)?;
    made.push(right)?;
    Ok(made)
}

fn rows(alloc: Global) -> Result<Rows, NoMemory> {
    let mut made = Rows::new(alloc);
    made.push(row(alloc, [NONE, NONE])?)?;
    made.push(row(alloc, [NONE, NONE])?)?;
    Ok(made)
}

fn setup(alloc: Global) -> Result<Setup, Fail> {
    let parts = DeviceParts {
        rate: Rate {
            hz: 48000,
            frames: 2,
        },
        base: 0,
        hold: 1,
        inputs: inputs(alloc)?,
        outputs: outputs(alloc)?,
    };
    let Ok(device) = Device::build(alloc, parts) else {
        return Err("a device".into());
    };
    match Setup::build(alloc, device, rows(alloc)?) {
        Ok(setup) => Ok(setup),
        Err(_) => Err("a setup".into()),
    }
}

// ---- tables of it

/// The base row of an output, as an entry from the first tick on.
fn base_entry(setup: &Setup, output: u8) -> Result<Entry, NoMemory>
    requires { output < length setup.now.device.outputs }
    ensures output { IfOk result (λ e. e.output ≡ output) }
    ensures tick { IfOk result (λ e. e.tick ≡ setup.now.device.base) }
    ensures offset { IfOk result (λ e. e.offset ≡ 0) }
    ensures at { IfOk result (λ e. e.at ≡ 0) }
    ensures ok { IfOk result (IsEntryOk setup.now.device) }
{
    let rows = setup.rows.as_slice();
    let row = rows[output as usize].copy()?;
    Ok(Entry::new(output, setup.device.base(), 0, row, 0))
}

fn base_entries(alloc: Global, setup: &Setup) -> Result<Entries, NoMemory>
    ensures base { IfOk result (IsBase setup.now 0) }
    ensures few { OnOk result (length setup.now.device.outputs ≤ MOST_OUTPUTS) }
{
    let mut made = Entries::new(alloc);
    for output in 0..setup.device.outputs() {
        let entry = base_entry(setup, output)?;
        made.push(entry)?;
    }
    Ok(made)
}

fn start_table(
    alloc: Global,
    setup: &Setup,
    ticks: u64,
) -> Result<(ClaimTable, Publisher), NoMemory>
    requires { ticks ≤ LAP_TICKS }
    ensures setup { IfOk result (λ t. t.0.plan.setup ≡ setup.now) }
    ensures of { IfOk result (λ t. IsPublisherOf t.0 t.1) }
    ensures made { IfOk result (λ t. t.1.made ≡ 0) }
    ensures clients { IfOk result (λ t. t.1.clients ≡ 0) }
{
    ClaimTable::start(alloc, setup, &base_entries(alloc, setup)?, 0, ticks, 1)
}

/// A table with its publisher, the pass of its one worker, and a client's.
#[derive(Drop)]
struct Running {
    setup: Setup,
    table: ClaimTable,
    publisher: Publisher,
    pass: WorkerPass,
    client: ClientPass,
    ghost plan: { table.plan.setup ≡ setup },
    ghost publishes: { IsPublisherOf table publisher },
    ghost claims: { IsPassOf table pass },
    ghost looks: { IsClientOf table client },
    ghost made: { publisher.made ≡ 1 },
    ghost clients: { publisher.clients ≡ 1 },
}

/// The passes of a table that has made none yet.
fn passes(setup: Setup, table: ClaimTable, mut publisher: Publisher) -> Result<Running, Fail>
    requires plan { table.plan.setup ≡ setup }
    requires publishes { IsPublisherOf table publisher }
    requires made { publisher.made ≡ 0 }
    requires clients { publisher.clients ≡ 0 }
{
    let pass = publisher.worker(&table)?;
    let client = publisher.client(&table)?;
    Ok(Running {
        setup,
        table,
        publisher,
        pass,
        client,
    })
}

fn start(alloc: Global, ticks: u64) -> Result<Running, Fail>
    requires { ticks ≤ LAP_TICKS }
{
    let setup = setup(alloc)?;
    let (table, publisher) = start_table(alloc, &setup, ticks)?;
    passes(setup, table, publisher)
}

fn is_row(device: &Device, output: u8, row: &Row) -> bool
    ensures { IsTrue result → IsRowOf device.now output row.now }
{
    if output >= device.outputs() || row.len() != device.output(output).channels() {
        return false;
    }
    match check_row(device, output, row) {
        Ok(()) => true,
        Err(_) => false,
    }
}

/// Whether an entry counts from no tick that has begun after a number of claims, and words can
/// spell its tick.
fn is_timely(device: &Device, claims: u64, tick: u64) -> bool
    ensures timely { IsTrue result
        → first_tick device.now.base (length device.now.outputs) claims ≤ tick }
    ensures few { IsTrue result → tick < TICKS_LIMIT }
{
    if claims >= CLAIMS_LIMIT || tick >= TICKS_LIMIT {
        return false;
    }
    first_tick(device.base(), device.outputs(), claims) <= tick
}

/// The list of one item.
fn only<T: Drop>(alloc: Global, item: T) -> Result<ListOf<T>, NoMemory>
    ensures { IfOk result (λ list. list ≡ item ∷ []) }
{
    let mut list = ListOf::new(alloc);
    list.push(item)?;
    Ok(list)
}

/// That an output has a row with these cells from a tick on.
type New = (u8, u64, [Cell; 2]);

/// Publishes an entry unless a number was drawn since: then it tells how many were.
fn publish(
    alloc: Global,
    setup: &Setup,
    table: &ClaimTable,
    publisher: &mut Publisher,
    seen: State,
    new: New,
    offset: u16,
) -> Result<Option<u32>, Fail>
    requires setup { table.now.plan.setup ≡ setup.now }
    requires of { IsPublisherOf table.now publisher.old }
    requires seen { HasSeen publisher.old.view seen }
    ensures of { IsPublisherOf table.now publisher.new }
    ensures made { publisher.new.made ≡ publisher.old.made }
    ensures clients { publisher.new.clients ≡ publisher.old.clients }
{
    let (output, tick, cells) = new;
    let entry = Entry::new(output, tick, offset, row(alloc, cells)?, seen.claims);
    if publisher.entries().len() >= PLACES as usize {
        return Err("a place".into());
    }
    if !is_row(&setup.device, output, &entry.row)
        || !is_timely(&setup.device, seen.claims, tick)
        || offset >= setup.device.rate().frames
    {
        return Err("an entry that may come".into());
    }
    let entries = only(alloc, entry)?;
    match publisher.try_publish(table, &entries, seen) {
        Ok(()) => Ok(None),
        Err(Moved { raw }) => Ok(Some(raw)),
    }
}

/// The number of the next packet, or that all are claimed.
fn next(table: &ClaimTable, pass: &mut WorkerPass) -> Option<u64>
    requires { IsPassOf table.now pass.old }
    ensures { IsPassOf table.now pass.new }
{
    match pass.claim(table) {
        Claimed::Packet(claim) => Some(claim.k()),
        Claimed::Over => None,
    }
}

/// The row of the next packet.
fn next_row(table: &ClaimTable, pass: &mut WorkerPass) -> Result<[Cell; 2], Fail>
    requires { IsPassOf table.now pass.old }
    ensures { IsPassOf table.now pass.new }
{
    match pass.claim(table) {
        Claimed::Packet(claim) => match pass.row(table, &claim).as_slice() {
            [left, right] => Ok([*left, *right]),
            _ => Err("two cells".into()),
        },
        Claimed::Over => Err("a packet".into()),
    }
}

/// The row from a frame of the next packet on, and up to which frame.
fn next_part(
    setup: &Setup,
    table: &ClaimTable,
    pass: &mut WorkerPass,
    frame: u16,
) -> Result<([Cell; 2], u16), Fail>
    requires setup { table.now.plan.setup ≡ setup.now }
    requires of { IsPassOf table.now pass.old }
    ensures { IsPassOf table.now pass.new }
{
    if frame >= setup.device.rate().frames {
        return Err("a frame of the tick".into());
    }
    match pass.claim(table) {
        Claimed::Packet(claim) => {
            let Piece { row, upto } = pass.row_from(table, &claim, frame);
            match row.as_slice() {
                [left, right] => Ok(([*left, *right], upto)),
                _ => Err("two cells".into()),
            }
        }
        Claimed::Over => Err("a packet".into()),
    }
}

impl Running {
    /// Publishes an entry: how many numbers were drawn meanwhile, if it did not come.
    fn add(&mut self, alloc: Global, new: New) -> Result<Option<u32>, Fail> {
        let seen = self.publisher.state(&self.table);
        publish(
            alloc,
            &self.setup,
            &self.table,
            &mut self.publisher,
            seen,
            new,
            0,
        )
    }

    /// Publishes an entry that counts from a frame of its tick.
    fn add_at(&mut self, alloc: Global, new: New, offset: u16) -> Result<Option<u32>, Fail> {
        let seen = self.publisher.state(&self.table);
        publish(
            alloc,
            &self.setup,
            &self.table,
            &mut self.publisher,
            seen,
            new,
            offset,
        )
    }

    /// Claims a packet between the look at the table and the entry's publication: its number, and
    /// how many were drawn by then.
    fn add_late(&mut self, alloc: Global, new: New) -> Result<(Option<u64>, Option<u32>), Fail> {
        let seen = self.publisher.state(&self.table);
        let number = next(&self.table, &mut self.pass);
        let moved = publish(
            alloc,
            &self.setup,
            &self.table,
            &mut self.publisher,
            seen,
            new,
            0,
        )?;
        Ok((number, moved))
    }

    fn next(&mut self) -> Option<u64> {
        next(&self.table, &mut self.pass)
    }

    fn next_row(&mut self) -> Result<[Cell; 2], Fail> {
        next_row(&self.table, &mut self.pass)
    }

    fn next_part(&mut self, frame: u16) -> Result<([Cell; 2], u16), Fail> {
        next_part(&self.setup, &self.table, &mut self.pass, frame)
    }

    /// What a client sees that the publisher told, and that tells the publisher.
    fn look(&mut self) -> State {
        self.client.hear(&self.table, &mut self.publisher);
        let seen = self.client.load(&self.table);
        self.publisher.hear(&self.table, &mut self.client);
        seen
    }

    /// What comes of a second worker.
    fn second(self) -> Result<(), Or<NoSeat>> {
        let Running {
            setup: _,
            table,
            mut publisher,
            pass: _,
            client: _,
        } = self;
        publisher.worker(&table)?;
        Ok(())
    }

    fn end(self, alloc: Global) -> Result<Ended, NoMemory> {
        let Running {
            setup: _,
            table,
            publisher,
            pass,
            client,
        } = self;
        let workers = only(alloc, pass)?;
        let clients = only(alloc, client)?;
        Ok(table.end(publisher, workers, clients))
    }
}

/// How many entries there were, and what was claimed, where there was one pass.
fn told(ended: &Ended) -> Option<(usize, &[u64])> {
    match ended.claims.as_slice() {
        [claims] => Some((ended.entries.len(), claims.as_slice())),
        _ => None,
    }
}

#[test]
fn claim_table_by_hand(rt: HostRuntime) -> Result<(), Fail> {
    let alloc = rt.alloc();
    let mut running = start(alloc, 1)?;
    let new = (0, 1, [LEFT, NONE]);
    assert_eq!(rt; running.add_late(alloc, new)?, (Some(0), Some(1)));
    assert_eq!(rt; running.add(alloc, new)?, None);
    for wanted in [Some(1), None, None] {
        assert_eq!(rt; running.next(), wanted);
    }
    let ended = running.end(alloc)?;
    assert_eq!(rt; told(&ended), Some((3, [0, 1].as_slice())));
    Ok(())
}

#[test]
fn no_second_pass(rt: HostRuntime) -> Result<(), Fail> {
    match start(rt.alloc(), 1)?.second() {
        Err(Or::Fault(NoSeat)) => Ok(()),
        _ => Err("no seat".into()),
    }
}

/// What is published before each claim of three ticks, and the row of the claim.
const STEPS: [(New, [Cell; 2]); 6] = [
    ((0, 1, [LEFT, LEFT]), [NONE, NONE]),
    ((1, 1, [LEFT, RIGHT]), [NONE, NONE]),
    // the later one of two
    ((0, 1, [RIGHT, LEFT]), [RIGHT, LEFT]),
    ((0, 2, [LEFT, NONE]), [LEFT, RIGHT]),
    ((0, 2, [NONE, NONE]), [NONE, NONE]),
    // one that has not begun
    ((1, 3, [RIGHT, RIGHT]), [LEFT, RIGHT]),
];

#[test]
fn rows_by_hand(rt: HostRuntime) -> Result<(), Fail> {
    let alloc = rt.alloc();
    let mut running = start(alloc, 3)?;
    for (new, wanted) in STEPS {
        assert_eq!(rt; running.add(alloc, new)?, None);
        assert_eq!(rt; running.next_row()?, wanted);
    }
    Ok(())
}

#[test]
fn row_pieces_by_hand(rt: HostRuntime) -> Result<(), Fail> {
    let alloc = rt.alloc();
    for (frame, wanted) in [(0, ([NONE, NONE], 1)), (1, ([LEFT, NONE], 2))] {
        let mut running = start(alloc, 2)?;
        assert_eq!(rt; running.add_at(alloc, (0, 1, [LEFT, NONE]), 1)?, None);
        assert_eq!(rt; running.next_part(0)?, ([NONE, NONE], 2));
        assert_eq!(rt; running.next(), Some(1));
        assert_eq!(rt; running.next_part(frame)?, wanted);
    }
    Ok(())
}

#[test]
fn states_are_told(rt: HostRuntime) -> Result<(), Fail> {
    let alloc = rt.alloc();
    let mut running = start(alloc, 1)?;
    assert_eq!(rt; running.publisher.places(), 1022);
    assert_eq!(rt; running.add(alloc, (0, 1, [LEFT, NONE]))?, None);
    // one that came before its tick keeps a second place
    assert_eq!(rt; running.publisher.places(), 1020);
    let wanted = State {
        raw: 0,
        claims: 0,
        entries: 3,
    };
    assert_eq!(rt; running.look(), wanted);
    Ok(())
}

fn goes_to_a_thread<T: Send + Drop>() {}

fn is_shared<T: Sync>() {}

#[test]
fn threads_may_have_them(_rt: HostRuntime) {
    is_shared::<ClaimTable>();
    goes_to_a_thread::<Publisher>();
    goes_to_a_thread::<WorkerPass>();
    goes_to_a_thread::<ClientPass>();
    goes_to_a_thread::<ClaimTable>();
    goes_to_a_thread::<Ended>();
}

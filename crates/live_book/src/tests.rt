//! Books over tables, worked by hand.

ghost use Rattle.std.specs.Prelude.{◌≡◌, ◌<◌, ◌≤◌, ℕ, IfOk};
ghost use Rattle.io_caps.specs.declared.limits.TheConstants.{CLIENTS, LAP_TICKS};
ghost use Rattle.claim_word.specs.Faces.{IsClientOf, IsPassOf, IsPublisherOf};
ghost use Rattle.live_book.specs.Named.{left_of};

use super::*;
use claim_word::{ClaimTable, Claimed, ClientPass, Publisher, WorkerPass};
use io_caps::limits::CLIENTS;
use io_caps::{
    Device, DeviceParts, Input, Inputs, Labels, NoMemory, Output, Outputs, Parent, Rate, Routable,
    Text, Width,
};
use map_entry::{
    Action, Cell, Change, Changes, Entry, Grain, OutputChange, Row, Rows, Setup, select_in,
};
use plain_book::{Activation, Desk, Reply, Request, Requests, Stamp, When};
use std::alloc::Global;
use std::marker::Brand;
use std::process::Abort;
use std::test::Fail;
use tai_time::Tai;

const LEFT: Cell = Cell::From {
    input: 0,
    channel: 0,
};

// ---- a device of an input and two outputs, of two channels each

fn text(alloc: Global, byte: u8) -> Result<Text, NoMemory> {
    let mut made = Text::new(alloc);
    made.push(byte)?;
    Ok(made)
}

fn labels(alloc: Global) -> Result<Labels, NoMemory> {
    let mut made = Labels::new(alloc);
    made.push(text(alloc, b'l')?)?;
    made.push(text(alloc, b'r')?)?;
    Ok(made)
}

fn inputs(alloc: Global) -> Result<Inputs, NoMemory> {
    let mut made = Inputs::new(alloc);
    made.push(Input {
        id: text(alloc, b'a')?,
        name: Text::new(alloc),
        description: Text::new(alloc),
        labels: labels(alloc)?,
        width: Width::L16,
        payload_type: 96,
        block_size: 1,
        reordering: true,
        parent: Parent::Nobody,
    })?;
    Ok(made)
}

fn outputs(alloc: Global) -> Result<Outputs, NoMemory> {
    let mut made = Outputs::new(alloc);
    for (id, width, ssrc) in [(b'x', Width::L16, 1), (b'y', Width::L24, 2)] {
        made.push(Output {
            id: text(alloc, id)?,
            name: Text::new(alloc),
            description: Text::new(alloc),
            labels: labels(alloc)?,
            width,
            payload_type: 96,
            ssrc,
            source_id: None,
            routable: Routable::All,
        })?;
    }
    Ok(made)
}

fn rows(alloc: Global) -> Result<Rows, NoMemory> {
    let mut made = Rows::new(alloc);
    for _ in 0..2 {
        let mut row = Row::new(alloc);
        row.push(Cell::Unrouted)?;
        row.push(Cell::Unrouted)?;
        made.push(row)?;
    }
    Ok(made)
}

/// At 48000 Hz, with two frames a tick, from tick 0 on.
fn setup(alloc: Global) -> Result<Setup, Fail> {
    setup_from(alloc, 0)
}

/// The same from a tick on.
fn setup_from(alloc: Global, base: u64) -> Result<Setup, Fail> {
    let parts = DeviceParts {
        rate: Rate {
            hz: 48000,
            frames: 2,
        },
        base,
        hold: 1,
        inputs: inputs(alloc)?,
        outputs: outputs(alloc)?,
    };
    let Ok(device) = Device::build(alloc, parts) else {
        return Err("a device".into());
    };
    match Setup::build(alloc, device, rows(alloc)?) {
        Ok(setup) => Ok(setup),
        Err(_) => Err("a setup".into()),
    }
}

// ---- a book over a table for one worker

/// The passes of a table.
#[derive(Drop)]
struct Passes {
    worker: WorkerPass,
    first: ClientPass,
    second: ClientPass,
}

fn make_passes(table: &ClaimTable, publisher: &mut Publisher) -> Result<Passes, Fail>
    requires { IsPublisherOf table.now publisher.old }
    ensures of { IsPublisherOf table.now publisher.new }
    ensures entries { publisher.new.view.entries ≡ publisher.old.view.entries }
    ensures worker { IfOk result (λ p. IsPassOf table.now p.worker) }
    ensures first { IfOk result (λ p. IsClientOf table.now p.first) }
    ensures second { IfOk result (λ p. IsClientOf table.now p.second) }
{
    let Ok(worker) = publisher.worker(table) else {
        return Err("a worker's pass".into());
    };
    let Ok(first) = publisher.client(table) else {
        return Err("a client's pass".into());
    };
    match publisher.client(table) {
        Ok(second) => Ok(Passes {
            worker,
            first,
            second,
        }),
        Err(_) => Err("a client's pass".into()),
    }
}

/// A book over a table, with the table's passes.
#[derive(Drop)]
struct Running {
    table: ClaimTable,
    passes: Passes,
    book: Book,
    ghost of: { IsPublisherOf table book.publisher },
    ghost worker: { IsPassOf table passes.worker },
    ghost first: { IsClientOf table passes.first },
    ghost second: { IsClientOf table passes.second },
}

/// A table of four ticks.
fn start(alloc: Global) -> Result<Running, Fail> {
    start_over(alloc, &setup(alloc)?, 4)
}

/// A table of a number of ticks.
fn start_over(alloc: Global, setup: &Setup, ticks: u64) -> Result<Running, Fail>
    requires { ticks ≤ LAP_TICKS }
{
    let (table, mut publisher) = start_table(alloc, setup, ticks, 1)?;
    let passes = make_passes(&table, &mut publisher)?;
    let book = sent(Book::new(alloc, setup, publisher)?);
    Ok(Running {
        table,
        passes,
        book,
    })
}

/// What may be handed to another thread.
fn sent<T: Send>(value: T) -> T
    ensures { result ≡ value }
{
    value
}

/// The answer, where there are places for one.
fn ask(
    book: &mut Book,
    pass: &mut ClientPass,
    table: &ClaimTable,
    client: u8,
    request: &Request,
) -> Result<Option<(Reply, Stamp)>, NoMemory>
    requires of { IsPublisherOf table.now book.old.publisher }
    requires of_pass { IsClientOf table.now pass.old }
    requires client { client < CLIENTS }
    ensures of { IsPublisherOf table.now book.new.publisher }
    ensures of_pass { IsClientOf table.now pass.new }
{
    if !book.reserve(client) {
        return Ok(None);
    }
    let mut desk = LentDesk::new(pass, table, book, client);
    let answer = desk.ask(client, request)?;
    Ok(Some(answer))
}

/// The left channel of these outputs from that of the input, at once.
fn activation(alloc: Global, outputs: u8) -> Result<Request, Fail> {
    let mut action = Action::new(alloc);
    for output in 0..outputs {
        let mut changes = Changes::new(alloc);
        changes.push(Change {
            channel: 0,
            cell: LEFT,
        })?;
        let change = OutputChange::build(output, changes).ok_or("channels that ascend")?;
        if !action.try_push(change)? {
            return Err("outputs that ascend".into());
        }
    }
    Ok(Request::Activate {
        when: When::Now,
        action,
    })
}

/// The left channel of the first output from a channel of the input, from a time on.
fn scheduled(alloc: Global, channel: u8, nanos: u32) -> Result<Request, Fail> {
    if nanos >= 1_000_000_000 {
        return Err("nanoseconds of a second".into());
    }
    let mut changes = Changes::new(alloc);
    changes.push(Change {
        channel: 0,
        cell: Cell::From { input: 0, channel },
    })?;
    let change = OutputChange::build(0, changes).ok_or("channels that ascend")?;
    let mut action = Action::new(alloc);
    if !action.try_push(change)? {
        return Err("outputs that ascend".into());
    }
    Ok(Request::Activate {
        when: When::At(Tai { secs: 0, nanos }),
        action,
    })
}

// ---- what is done, and what is told

/// What is done. The first client asks for activations and deletions, the second reads.
#[derive(Clone, Copy)]
enum Step {
    /// The left channel of this many outputs from that of the input, at once.
    Activate(u8),
    /// So often, each with the next identifier and from tick 0 on.
    Fill(u8, u64),
    /// The left channel of the first output from a channel of the input, from nanoseconds on.
    Schedule(u8, u32),
    Delete(u64),
    Read,
    /// The worker claims.
    Claim,
    /// Places are set aside for a client, or dropped.
    Reserve(u8),
    Release(u8),
    /// How much the next table would begin with, and the left cells of the first output at three
    /// frames of ticks by it.
    Carry([(u64, u16); 3]),
    /// How many calls were accepted, and how many answers were given.
    Count,
}

/// What is told.
#[derive(Clone, Copy, Debug, PartialEq, Eq)]
enum Told {
    /// Identifier and tick, after a number of calls and claims.
    Accepted(u64, u64, u64, u64),
    Deleted(u64, u64),
    /// The last activation and the left cell of the first output.
    Active(u64, Cell, u64, u64),
    Done(bool),
    Carried(usize, [Cell; 3]),
    Counts(usize, usize),
    Other,
}

/// The answer to the first client.
fn accepted(answer: Option<(Reply, Stamp)>) -> Told {
    let Some((reply, at)) = answer else {
        return Told::Other;
    };
    match &reply {
        Reply::Activated { id, tick, .. } | Reply::Scheduled { id, tick, .. } => {
            Told::Accepted(*id, *tick, at.calls, at.claims)
        }
        Reply::Deleted { .. } => Told::Deleted(at.calls, at.claims),
        _ => Told::Other,
    }
}

/// The answer to a reading of the active map.
fn shown(answer: Option<(Reply, Stamp)>) -> Told {
    let Some((reply, at)) = answer else {
        return Told::Other;
    };
    match &reply {
        Reply::Active(view) => {
            let id = last_id(&view.last);
            Told::Active(id, left_cell(&view.rows), at.calls, at.claims)
        }
        _ => Told::Other,
    }
}

fn last_id(last: &Option<Activation>) -> u64 {
    match last {
        Some(last) => last.id,
        None => 0,
    }
}

fn left_cell(rows: &Rows) -> Cell {
    match rows.get(0) {
        Some(row) => first_cell(row),
        None => Cell::Unrouted,
    }
}

fn first_cell(row: &Row) -> Cell {
    match row.as_slice() {
        [left, ..] => *left,
        [] => Cell::Unrouted,
    }
}

/// The left cell of the first output at a frame of a tick.
fn cell_at(entries: &[Entry], at: (u64, u16)) -> Cell {
    match select_in(entries, 0, at.0, at.1) {
        Some(row) => first_cell(row),
        None => Cell::Unrouted,
    }
}

impl Running {
    /// What the first client is told.
    fn change(&mut self, request: &Request) -> Result<Told, NoMemory> {
        let pass = &mut self.passes.first;
        Ok(accepted(ask(&mut self.book, pass, &self.table, 0, request)?))
    }

    /// What the second client is told of the active map.
    fn read(&mut self) -> Result<Told, NoMemory> {
        let pass = &mut self.passes.second;
        Ok(shown(ask(&mut self.book, pass, &self.table, 1, &Request::Active)?))
    }

    /// Whether the worker's next claim is a packet.
    fn claim(&mut self) -> bool {
        matches!(self.passes.worker.claim(&self.table), Claimed::Packet(_))
    }

    /// Asks for activations until as many have been accepted: whether each was, at tick 0.
    fn fill(&mut self, request: &Request, most: u64) -> Result<bool, NoMemory> {
        for id in 1..=most {
            match self.change(request)? {
                Told::Accepted(made, 0, _, _) if made == id => {}
                _ => return Ok(false),
            }
        }
        Ok(true)
    }

    fn reserve(&mut self, client: u8) -> bool {
        client < CLIENTS && self.book.reserve(client)
    }

    fn release(&mut self, client: u8) {
        if client < CLIENTS {
            self.book.release(client);
        }
    }

    fn carried(&self, [first, second, third]: [(u64, u16); 3]) -> Result<Told, NoMemory> {
        let carried = self.book.carry()?;
        let entries = carried.as_slice();
        Ok(Told::Carried(
            entries.len(),
            [
                cell_at(entries, first),
                cell_at(entries, second),
                cell_at(entries, third),
            ],
        ))
    }

    fn take(&mut self, alloc: Global, step: Step) -> Result<Told, Fail> {
        Ok(match step {
            Step::Activate(outputs) => self.change(&activation(alloc, outputs)?)?,
            Step::Fill(outputs, most) => {
                Told::Done(self.fill(&activation(alloc, outputs)?, most)?)
            }
            Step::Schedule(channel, nanos) => self.change(&scheduled(alloc, channel, nanos)?)?,
            Step::Delete(id) => self.change(&Request::Delete { id })?,
            Step::Read => self.read()?,
            Step::Claim => Told::Done(self.claim()),
            Step::Reserve(client) => Told::Done(self.reserve(client)),
            Step::Release(client) => {
                self.release(client);
                Told::Done(true)
            }
            Step::Carry(moments) => self.carried(moments)?,
            Step::Count => Told::Counts(self.book.journal().len(), self.book.answers().len()),
        })
    }
}

/// Takes each step, and asks what is told.
fn run(
    rt: &impl Abort,
    alloc: Global,
    mut running: Running,
    steps: &[(Step, Told)],
) -> Result<(), Fail> {
    for (step, wanted) in steps {
        assert_eq!(rt; running.take(alloc, *step)?, *wanted);
    }
    Ok(())
}

const RIGHT: Cell = Cell::From {
    input: 0,
    channel: 1,
};

const NONE: Cell = Cell::Unrouted;

#[test]
fn lent_desk_by_hand(rt: HostRuntime) -> Result<(), Fail> {
    let steps = [
        (Step::Activate(1), Told::Accepted(1, 0, 0, 0)),
        (Step::Claim, Told::Done(true)),
        (Step::Read, Told::Active(1, LEFT, 1, 1)),
        (Step::Count, Told::Counts(1, 2)),
    ];
    run(&rt, rt.alloc(), start(rt.alloc())?, &steps)
}

/// As many activations of both outputs as one table has places for: two places are used at first,
/// two by each, and four are to be free for one more.
#[test]
fn places_of_a_lap(rt: HostRuntime) -> Result<(), Fail> {
    let steps = [
        (Step::Fill(2, 510), Told::Done(true)),
        (Step::Reserve(0), Told::Done(false)),
        (Step::Reserve(1), Told::Done(false)),
        (Step::Activate(1), Told::Other),
        (Step::Count, Told::Counts(510, 510)),
    ];
    run(&rt, rt.alloc(), start(rt.alloc())?, &steps)
}

/// What is set aside for one client is not there for another, until it is dropped.
#[test]
fn set_aside(rt: HostRuntime) -> Result<(), Fail> {
    let steps = [
        (Step::Fill(2, 509), Told::Done(true)),
        (Step::Reserve(1), Told::Done(true)),
        (Step::Reserve(1), Told::Done(true)),
        (Step::Reserve(0), Told::Done(false)),
        (Step::Release(1), Told::Done(true)),
        (Step::Reserve(0), Told::Done(true)),
    ];
    run(&rt, rt.alloc(), start(rt.alloc())?, &steps)
}

/// A row that was to count from tick 1000 is deleted, and another counts from tick 500; the next
/// table begins at tick 600.
#[test]
fn carry_over_lap(rt: HostRuntime) -> Result<(), Fail> {
    let alloc = rt.alloc();
    let steps = [
        (Step::Schedule(0, 41_666_666), Told::Accepted(1, 1000, 0, 0)),
        (Step::Delete(1), Told::Deleted(1, 0)),
        (Step::Schedule(1, 20_833_333), Told::Accepted(2, 500, 2, 0)),
        (
            Step::Carry([(600, 0), (999, 0), (1000, 0)]),
            Told::Carried(2, [RIGHT, RIGHT, RIGHT]),
        ),
    ];
    let running = start_over(alloc, &setup_from(alloc, 344)?, 256)?;
    run(&rt, alloc, running, &steps)
}

/// An activation that is pending at the table's end goes on to the next, until it is deleted.
#[test]
fn pending_over_lap(rt: HostRuntime) -> Result<(), Fail> {
    let alloc = rt.alloc();
    let moments = Step::Carry([(999, 1), (1000, 0), (1001, 0)]);
    let steps = [
        (Step::Schedule(0, 41_666_666), Told::Accepted(1, 1000, 0, 0)),
        (moments, Told::Carried(3, [NONE, LEFT, LEFT])),
        (Step::Delete(1), Told::Deleted(1, 0)),
        (moments, Told::Carried(2, [NONE, NONE, NONE])),
    ];
    let running = start_over(alloc, &setup_from(alloc, 344)?, 256)?;
    run(&rt, alloc, running, &steps)
}

/// From tick 344 on, where activations count from frames.
fn frame_setup(alloc: Global) -> Result<Setup, Fail> {
    let Setup { device, rows, .. } = setup_from(alloc, 344)?;
    Ok(Setup {
        device,
        rows,
        grain: Grain::Frame,
    })
}

/// An activation that is to count from within a tick goes on to the next table with its frame.
#[test]
fn frame_over_lap(rt: HostRuntime) -> Result<(), Fail> {
    let alloc = rt.alloc();
    let steps = [
        (Step::Schedule(0, 41_687_500), Told::Accepted(1, 1000, 0, 0)),
        (
            Step::Carry([(1000, 0), (1000, 1), (1001, 0)]),
            Told::Carried(3, [NONE, LEFT, LEFT]),
        ),
    ];
    let running = start_over(alloc, &frame_setup(alloc)?, 256)?;
    run(&rt, alloc, running, &steps)
}

/// How many answers were given, how many calls the book goes on from, and after how many claims.
fn rested(running: Running) -> Result<(usize, usize, u64), Fail> {
    let Running {
        table: _,
        passes: _,
        book,
    } = running;
    match book.rest() {
        Ok((_, answers, rest)) => Ok((answers.len(), rest.journal().len(), rest.claims())),
        Err(_) => Err("memory".into()),
    }
}

/// At the end of a table the book goes on with its calls, after all claims of the table; the
/// answers come apart from it.
#[test]
fn rest_by_hand(rt: HostRuntime) -> Result<(), Fail> {
    let mut running = start(rt.alloc())?;
    let told = running.take(rt.alloc(), Step::Activate(1))?;
    assert_eq!(rt; told, Told::Accepted(1, 0, 0, 0));
    assert_eq!(rt; rested(running)?, (1, 1, 8));
    Ok(())
}

/// Two asks of a client that asks once.
fn answer_twice<N: Named + Send>(
    book: Book,
    left: AskLists,
    pass: &mut ClientPass,
    table: &ClaimTable,
) -> Result<(bool, bool, usize), NoMemory>
    requires table { table.now ≡ N.table }
    requires of { IsPublisherOf table.now book.publisher }
    requires of_pass { IsClientOf table.now pass.old }
    requires book { book ≡ N.book }
    requires asks { (client : ℕ) → left_of left client ≡ N.asks client }
{
    let mut shared = sent(Shared::<N>::new(book, left));
    let first = shared.answer_next(pass, table, 0)?;
    let second = shared.answer_next(pass, table, 0)?;
    let (book, _) = shared.into_parts();
    Ok((first, second, book.answers().len()))
}

/// What the first client asks: what is pending.
fn asks_once(alloc: Global) -> Result<AskLists, NoMemory> {
    let mut requests = Requests::new(alloc);
    requests.push(Request::Pending)?;
    let mut left = AskLists::new(alloc);
    left.push(AskList::new(requests))?;
    Ok(left)
}

#[test]
fn asked_once(rt: HostRuntime) -> Result<(), Fail> {
    let left = asks_once(rt.alloc())?;
    let Running {
        table,
        mut passes,
        book,
    } = start(rt.alloc())?;
    let answered = answer_twice::<Brand>(book, left, &mut passes.first, &table)?;
    assert_eq!(rt; answered, (true, false, 1));
    Ok(())
}

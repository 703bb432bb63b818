//! A worked session, and lists of events beside a model that is made outside.

ghost use Rattle.std.specs.Prelude.{◌≡◌, OnOk};

use super::*;
use crate::cases::NUMBERS;
use block_builder::Block;
use io_caps::{
    Device, DeviceParts, Input, Inputs, Labels, NoMemory, Output, Outputs, Parent, Rate, Routable,
    Text, Width,
};
use map_entry::{Action, Cell, Change, Changes, Grain, OutputChange, Row, Rows, Setup};
use plain_book::{ActiveView, ClaimItem, History, Refusal, Reply, ReplyItem, Request, Said, When};
use std::alloc::Global;
use std::test::Fail;
use tai_time::Tai;

fn text(alloc: Global, byte: u8) -> Result<Text, NoMemory> {
    let mut made = Text::new(alloc);
    made.push(byte)?;
    Ok(made)
}

/// Labels of two channels.
fn labels(alloc: Global) -> Result<Labels, NoMemory> {
    let mut made = Labels::new(alloc);
    made.push(Text::new(alloc))?;
    made.push(Text::new(alloc))?;
    Ok(made)
}

fn input(alloc: Global, id: u8) -> Result<Input, NoMemory> {
    Ok(Input {
        id: text(alloc, id)?,
        name: Text::new(alloc),
        description: Text::new(alloc),
        labels: labels(alloc)?,
        width: Width::L16,
        payload_type: 96,
        block_size: 1,
        reordering: true,
        parent: Parent::Nobody,
    })
}

fn inputs(alloc: Global) -> Result<Inputs, NoMemory> {
    let mut made = Inputs::new(alloc);
    made.push(input(alloc, b'a')?)?;
    made.push(input(alloc, b'b')?)?;
    Ok(made)
}

fn output(alloc: Global, id: u8, width: Width, kind: u8, ssrc: u32) -> Result<Output, NoMemory> {
    Ok(Output {
        id: text(alloc, id)?,
        name: Text::new(alloc),
        description: Text::new(alloc),
        labels: labels(alloc)?,
        width,
        payload_type: kind,
        ssrc,
        source_id: None,
        routable: Routable::All,
    })
}

fn outputs(alloc: Global) -> Result<Outputs, NoMemory> {
    let mut made = Outputs::new(alloc);
    made.push(output(alloc, b'x', Width::L16, 96, 1)?)?;
    made.push(output(alloc, b'y', Width::L24, 97, 2)?)?;
    Ok(made)
}

fn row(alloc: Global, left: Cell, right: Cell) -> Result<Row, NoMemory> {
    let mut made = Row::new(alloc);
    made.push(left)?;
    made.push(right)?;
    Ok(made)
}

/// A row of both outputs.
fn rows(alloc: Global, x: [Cell; 2], y: [Cell; 2]) -> Result<Rows, NoMemory> {
    let mut made = Rows::new(alloc);
    made.push(row(alloc, x[0], x[1])?)?;
    made.push(row(alloc, y[0], y[1])?)?;
    Ok(made)
}

/// Inputs `a` and `b`, outputs `x` and `y`, each of two channels, with two frames a tick.
fn setup(alloc: Global, base: u64, x: [Cell; 2], y: [Cell; 2]) -> Result<Setup, Fail> {
    let parts = DeviceParts {
        rate: Rate {
            hz: 48000,
            frames: 2,
        },
        base,
        hold: 1,
        inputs: inputs(alloc)?,
        outputs: outputs(alloc)?,
    };
    let Ok(device) = Device::build(alloc, parts) else {
        return Err("a device".into());
    };
    match Setup::build(alloc, device, rows(alloc, x, y)?) {
        Ok(setup) => Ok(setup),
        Err(_) => Err("a setup".into()),
    }
}

const OFF: Cell = Cell::Unrouted;

fn from(input: u8, channel: u8) -> Cell {
    Cell::From { input, channel }
}

fn block(alloc: Global, samples: [i32; 4]) -> Result<Block, NoMemory> {
    let mut made = Block::new(alloc);
    for sample in samples {
        made.push(sample)?;
    }
    Ok(made)
}

/// Adds the change of one channel of an output to an action.
fn name(
    alloc: Global,
    action: &mut Action,
    output: u8,
    channel: u8,
    cell: Cell,
) -> Result<(), Fail> {
    let mut changes = Changes::new(alloc);
    changes.push(Change { channel, cell })?;
    let Some(change) = OutputChange::build(output, changes) else {
        return Err("a change".into());
    };
    if action.try_push(change)? {
        Ok(())
    } else {
        Err("outputs that ascend".into())
    }
}

// ---- a worked session

fn claims(events: &mut Events, count: usize) -> Result<(), NoMemory> {
    for _ in 0..count {
        events.push(Event::Claim { worker: 0 })?;
    }
    Ok(())
}

/// The block of input `a` at tick 2.
fn set_block(alloc: Global) -> Result<Event, NoMemory> {
    let block = block(alloc, [0x111100, 0x222200, 0x333300, 0x444400])?;
    let (input, tick) = (0, 2);
    Ok(Event::Set { input, tick, block })
}

/// An activation at once: the first channels of both outputs take those of input `a`.
fn activate_both(alloc: Global) -> Result<Event, Fail> {
    let mut action = Action::new(alloc);
    name(alloc, &mut action, 0, 0, from(0, 0))?;
    name(alloc, &mut action, 1, 0, from(0, 1))?;
    let when = When::Now;
    let request = Request::Activate { when, action };
    let client = 0;
    Ok(Event::Call { client, request })
}

/// Three claims, an activation, and three more claims, of which the last two are of a tick whose
/// block is there.
fn worked(alloc: Global) -> Result<Events, Fail> {
    let mut events = Events::new(alloc);
    events.push(set_block(alloc)?)?;
    claims(&mut events, 3)?;
    events.push(activate_both(alloc)?)?;
    claims(&mut events, 2)?;
    let (worker, input) = (0, 0);
    events.push(Event::Look { worker, input })?;
    claims(&mut events, 1)?;
    Ok(events)
}

/// Whether a claim has a flag, and these bytes of samples.
fn has(history: &History, k: usize, flag: bool, samples: &[u8]) -> bool {
    match history.claims.get(k) {
        Some(claim) => {
            let packet = claim.packet.as_slice();
            claim.found.get(0) == Some(&flag) && packet.get(12..) == Some(samples)
        }
        None => false,
    }
}

/// The core of these events, over two silent outputs.
fn worked_core(alloc: Global) -> Result<Core, Fail> {
    let setup = setup(alloc, 0, [OFF, OFF], [OFF, OFF])?;
    let events = worked(alloc)?;
    if are_in_range(&setup, 1, &events) {
        Ok(law_core(alloc, &setup, 3, 1, &events)?)
    } else {
        Err("events that a core takes".into())
    }
}

const SILENCE: [u8; 12] = [0; 12];

const LEFT: [u8; 8] = [0x11, 0x11, 0, 0, 0x33, 0x33, 0, 0];

const RIGHT: [u8; 12] = [0x22, 0x22, 0, 0, 0, 0, 0x44, 0x44, 0, 0, 0, 0];

#[test]
fn mid_tick_activation(rt: HostRuntime) -> Result<(), Fail> {
    let core = worked_core(rt.alloc())?;
    assert!(&rt; has(core.history(), 3, false, &SILENCE));
    assert!(&rt; has(core.history(), 4, true, &LEFT));
    assert!(&rt; has(core.history(), 5, true, &RIGHT));
    Ok(())
}

// ---- frames

/// An activation of the first channel of output `x` from the second frame of tick 1 on.
fn activate_within(alloc: Global) -> Result<Event, Fail> {
    let mut action = Action::new(alloc);
    name(alloc, &mut action, 0, 0, from(0, 0))?;
    let when = When::At(Tai {
        secs: 0,
        nanos: 62_500,
    });
    let request = Request::Activate { when, action };
    let client = 0;
    Ok(Event::Call { client, request })
}

/// An activation from the second frame of tick 1 on, two claims and a third, a look at the block of
/// that tick, and the deletion of the activation before or after the third claim.
fn within_a_tick(alloc: Global, early: bool) -> Result<Events, Fail> {
    let block = block(alloc, [0x111100, 0x222200, 0x333300, 0x444400])?;
    let (worker, input, tick) = (0, 0, 1);
    let client = 0;
    let request = Request::Delete { id: 1 };
    let deletion = Event::Call { client, request };
    let mut events = Events::new(alloc);
    events.push(Event::Set { input, tick, block })?;
    events.push(activate_within(alloc)?)?;
    claims(&mut events, 2)?;
    if early {
        events.push(deletion)?;
        claims(&mut events, 1)?;
    } else {
        claims(&mut events, 1)?;
        events.push(deletion)?;
    }
    events.push(Event::Look { worker, input })?;
    Ok(events)
}

/// The core of these events, whose activations count from frames.
fn frame_core(alloc: Global, early: bool) -> Result<Core, Fail> {
    let Setup { device, rows, .. } = setup(alloc, 0, [OFF, OFF], [OFF, OFF])?;
    let grain = Grain::Frame;
    let setup = Setup {
        device,
        rows,
        grain,
    };
    let events = within_a_tick(alloc, early)?;
    if are_in_range(&setup, 1, &events) {
        Ok(law_core(alloc, &setup, 3, 1, &events)?)
    } else {
        Err("events that a core takes".into())
    }
}

/// The book's reply of an item, where it is a plain one.
fn plain(item: Option<&ReplyItem>) -> Option<&Reply> {
    match &item?.said {
        Said::Plain(reply) => Some(reply),
        Said::Http(_) => None,
    }
}

fn is_scheduled(item: Option<&ReplyItem>) -> bool {
    match plain(item) {
        Some(Reply::Scheduled { id, tick, offset }) => (*id, *tick, *offset) == (1, 1, 1),
        _ => false,
    }
}

fn is_deleted(item: Option<&ReplyItem>) -> bool {
    match plain(item) {
        Some(Reply::Deleted { id }) => *id == 1,
        _ => false,
    }
}

#[test]
fn frame_grain(rt: HostRuntime) -> Result<(), Fail> {
    let half = [0, 0, 0, 0, 0x33, 0x33, 0, 0];
    for (early, samples) in [(true, [0; 8]), (false, half)] {
        let core = frame_core(rt.alloc(), early)?;
        let history = core.history();
        assert!(&rt; has(history, 2, !early, &samples));
        let first = history.replies.get(0);
        let second = history.replies.get(1);
        assert!(&rt; is_scheduled(first));
        assert_eq!(rt; is_deleted(second), early);
    }
    Ok(())
}

// ---- lists of events

/// Numbers from a seed.
#[derive(Drop)]
struct Draws {
    state: u64,
}

impl Draws {
    /// A number that is at most this one.
    fn upto(&mut self, most: u8) -> u8 {
        let next = self.state.wrapping_mul(6364136223846793005);
        self.state = next.wrapping_add(1442695040888963407);
        ((self.state >> 33) % (u64::from(most) + 1)) as u8
    }
}

fn draw_cell(draws: &mut Draws) -> Cell {
    match draws.upto(4) {
        4 => OFF,
        number => from(number / 2, number % 2),
    }
}

fn draw_action(alloc: Global, draws: &mut Draws) -> Result<Action, Fail> {
    let mut action = Action::new(alloc);
    let which = draws.upto(2);
    for output in 0..2 {
        if which == output || which == 2 {
            let channel = draws.upto(1);
            let cell = draw_cell(draws);
            name(alloc, &mut action, output, channel, cell)?;
        }
    }
    Ok(action)
}

fn draw_time(draws: &mut Draws) -> Tai {
    Tai {
        secs: 0,
        nanos: u32::from(draws.upto(200)) * 2000,
    }
}

fn draw_when(draws: &mut Draws, kind: u8) -> When {
    match kind {
        0 | 1 => When::Now,
        2 => When::At(draw_time(draws)),
        _ => When::After(draw_time(draws)),
    }
}

fn draw_request(alloc: Global, draws: &mut Draws) -> Result<Request, Fail> {
    let kind = draws.upto(6);
    if kind < 4 {
        let when = draw_when(draws, kind);
        let action = draw_action(alloc, draws)?;
        return Ok(Request::Activate { when, action });
    }
    Ok(match kind {
        4 => Request::Delete {
            id: 1 + u64::from(draws.upto(2)),
        },
        5 => Request::Active,
        _ => Request::Pending,
    })
}

fn draw_sample(draws: &mut Draws) -> i32 {
    let high = i32::from(draws.upto(255)) * 65536;
    high - 8388608 + i32::from(draws.upto(255))
}

fn draw_block(alloc: Global, draws: &mut Draws) -> Result<Block, NoMemory> {
    let mut made = Block::new(alloc);
    for _ in 0..4 {
        made.push(draw_sample(draws))?;
    }
    Ok(made)
}

fn draw_set(alloc: Global, draws: &mut Draws) -> Result<Event, NoMemory> {
    let input = draws.upto(1);
    let tick = 5 + u64::from(draws.upto(2));
    let block = draw_block(alloc, draws)?;
    Ok(Event::Set { input, tick, block })
}

fn draw_call(alloc: Global, draws: &mut Draws) -> Result<Event, Fail> {
    let client = draws.upto(3);
    let request = draw_request(alloc, draws)?;
    Ok(Event::Call { client, request })
}

fn draw_event(alloc: Global, draws: &mut Draws) -> Result<Event, Fail> {
    match draws.upto(9) {
        0..=2 => Ok(Event::Claim {
            worker: draws.upto(2),
        }),
        3 | 4 => Ok(Event::Look {
            worker: draws.upto(2),
            input: draws.upto(1),
        }),
        5 | 6 => Ok(draw_set(alloc, draws)?),
        7 => Ok(Event::Close {
            input: draws.upto(1),
            upto: 5 + u64::from(draws.upto(2)),
        }),
        _ => draw_call(alloc, draws),
    }
}

/// A number for a list of numbers. The model takes its remainder by 2^32 at each step.
#[derive(Drop)]
struct Total {
    value: u64,
}

impl Total {
    fn add(&mut self, number: u64) {
        self.value = self.value.wrapping_mul(31).wrapping_add(number);
    }

    fn add_bytes(&mut self, bytes: &[u8]) {
        for byte in bytes {
            self.add(u64::from(*byte));
        }
    }
}

fn add_cell(total: &mut Total, cell: Cell) {
    match cell {
        Cell::Unrouted => total.add(0),
        Cell::From { input, channel } => total.add(1 + u64::from(input) * 2 + u64::from(channel)),
    }
}

fn add_view(total: &mut Total, view: &ActiveView) {
    total.add(4);
    total.add(match view.last {
        Some(last) => last.id,
        None => 0,
    });
    for row in view.rows.as_slice() {
        for cell in row.as_slice() {
            add_cell(total, *cell);
        }
    }
}

fn add_refusal(total: &mut Total, refusal: Refusal) {
    total.add(6);
    match refusal {
        Refusal::Locked { output } => {
            total.add(1);
            total.add(u64::from(output));
        }
        Refusal::NotPending { id } => {
            total.add(2);
            total.add(id);
        }
        _ => total.add(3),
    }
}

fn add_reply(total: &mut Total, reply: &Reply) {
    match reply {
        Reply::Activated { id, tick, .. } => {
            total.add(1);
            total.add(*id);
            total.add(*tick);
        }
        Reply::Scheduled { id, tick, .. } => {
            total.add(2);
            total.add(*id);
            total.add(*tick);
        }
        Reply::Deleted { id } => {
            total.add(3);
            total.add(*id);
        }
        Reply::Active(view) => add_view(total, view),
        Reply::Pending(items) => {
            total.add(5);
            for item in items.as_slice() {
                total.add(item.id);
            }
        }
        Reply::Refused(refusal) => add_refusal(total, *refusal),
    }
}

fn add_answer(total: &mut Total, answer: &Answer) {
    match answer {
        Answer::Claimed { k } => {
            total.add(1);
            total.add(*k);
        }
        Answer::Over => total.add(2),
        Answer::Seen { present } => {
            total.add(3);
            total.add(u64::from(*present));
        }
        Answer::Nothing => total.add(4),
        Answer::Done => total.add(5),
        Answer::AlreadySet => total.add(6),
        Answer::Closed => total.add(7),
        Answer::Replied { reply, stamp } => {
            total.add(8);
            add_reply(total, reply);
            total.add(stamp.calls);
            total.add(stamp.claims);
        }
    }
}

fn add_claim(total: &mut Total, claim: &ClaimItem) {
    total.add(claim.k);
    for flag in claim.found.as_slice() {
        total.add(u64::from(*flag));
    }
    total.add_bytes(claim.packet.as_slice());
}

fn add_history(total: &mut Total, history: &History) {
    for claim in history.claims.as_slice() {
        add_claim(total, claim);
    }
    for call in history.journal.as_slice() {
        total.add(call.at);
        total.add(u64::from(call.client));
        total.add(call.id);
        total.add(call.tick);
    }
    for reply in history.replies.as_slice() {
        total.add(u64::from(reply.client));
        total.add(reply.stamp.calls);
        total.add(reply.stamp.claims);
    }
}

/// One more event, drawn for three workers, and what it is answered.
fn step_drawn(
    alloc: Global,
    setup: &Setup,
    draws: &mut Draws,
    core: &mut Core,
    total: &mut Total,
) -> Result<(), Fail>
    requires setup { core.old.setup ≡ setup.now }
    requires workers { core.old.workers ≡ 3 }
    ensures setup { OnOk result (core.new.setup ≡ setup.now) }
    ensures workers { OnOk result (core.new.workers ≡ 3) }
{
    let event = draw_event(alloc, draws)?;
    if !event.is_in_range(setup, 3) {
        return Err("an event that a core takes".into());
    }
    let answer = core.step(&event)?;
    add_answer(total, &answer);
    Ok(())
}

/// The number of a drawn list of events.
fn number_of(alloc: Global, setup: &Setup, seed: u64) -> Result<u64, Fail> {
    let mut draws = Draws { state: seed };
    let mut total = Total { value: 0 };
    let mut core = Core::new(alloc, setup, 4, 3)?;
    for _ in 0..24 {
        step_drawn(alloc, setup, &mut draws, &mut core, &mut total)?;
    }
    add_history(&mut total, core.history());
    Ok(total.value % (1 << 32))
}

#[test]
fn lists_come_to_the_numbers_of_the_model(rt: HostRuntime) -> Result<(), Fail> {
    let alloc = rt.alloc();
    let setup = setup(alloc, 5, [from(0, 0), from(1, 1)], [OFF, from(0, 1)])?;
    for seed in 0..NUMBERS.len() {
        let number = number_of(alloc, &setup, seed as u64)?;
        assert!(&rt; number == u64::from(NUMBERS[seed]));
    }
    Ok(())
}

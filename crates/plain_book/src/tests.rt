//! Worked requests, asked of the one-thread book step by step.

ghost use Rattle.std.specs.Prelude.{◌<◌, ◌^◌};

use crate::{
    Activation, BookState, ClaimItem, ClaimItems, Desk, Given, History, Journal, JournalCall,
    PendingItem, PendingItems, PlainDesk, Refusal, Reply, ReplyItem, ReplyItems, Request, Said,
    Stamp, When, in_order, stage, unstage,
};
use io_caps::{
    Bytes, Device, DeviceParts, Flags, Input, Inputs, Labels, NoMemory, Output, Outputs, Parent,
    Rate, Routable, Text, TryCopy, Width,
};
use map_entry::{
    Action, CLAIMS_LIMIT, Cell, Change, Changes, Grain, OutputChange, Row, RowFault, Rows, Setup,
};
use std::alloc::Global;
use std::process::Abort;
use std::test::Fail;
use tai_time::Tai;

/// An output that is named, and one of its channels with the new cell, where one is named.
type Named = (u8, Option<(u8, Cell)>);

/// What is changed. Neighbours of one output are one change.
type Names = [Option<Named>; 2];

/// What is asked.
#[derive(Clone, Copy, Debug)]
enum Asked {
    Activate(When, Names),
    Delete(u64),
    Active,
    Pending,
}

/// A given number of more claims, then a request, and what it is told.
type Step = (u64, Asked, Told);

const A0: Cell = Cell::From {
    input: 0,
    channel: 0,
};

const A1: Cell = Cell::From {
    input: 0,
    channel: 1,
};

const OFF: Cell = Cell::Unrouted;

const BASE: [Cell; 2] = [OFF, OFF];

/// Nothing.
const NONE: Names = [None, None];

/// A channel of input `b`, whose channels are routed in pairs and in order.
fn b(channel: u8) -> Cell {
    Cell::From { input: 1, channel }
}

/// A channel of an output.
fn one(output: u8, channel: u8, cell: Cell) -> Names {
    [Some((output, Some((channel, cell)))), None]
}

/// Both channels of an output.
fn both(output: u8, left: Cell, right: Cell) -> Names {
    [
        Some((output, Some((0, left)))),
        Some((output, Some((1, right)))),
    ]
}

/// The first channel of both outputs.
fn across(x: Cell, y: Cell) -> Names {
    [Some((0, Some((0, x)))), Some((1, Some((0, y))))]
}

/// A reply in a few words: an active map by the activation that counted last and the rows, pending
/// activations by the first id and how many they are.
#[derive(Clone, Copy, Debug, PartialEq, Eq)]
enum Told {
    Activated(u64, u64),
    Scheduled(u64, u64),
    Deleted(u64),
    Active(Option<u64>, [[Cell; 2]; 2]),
    Pending(Option<u64>, usize),
    Refused(Refusal),
}

fn last_id(last: &Option<Activation>) -> Option<u64> {
    match last {
        Some(last) => Some(last.id),
        None => None,
    }
}

fn first_id(items: &PendingItems) -> Option<u64> {
    match items.get(0) {
        Some(item) => Some(item.id),
        None => None,
    }
}

/// The two cells of an output's row.
fn cells(rows: &Rows, output: usize) -> [Cell; 2] {
    match rows.get(output) {
        Some(row) => match row.as_slice() {
            [left, right] => [*left, *right],
            _ => BASE,
        },
        None => BASE,
    }
}

fn in_words(reply: &Reply) -> Told {
    match reply {
        Reply::Activated { id, tick, .. } => Told::Activated(*id, *tick),
        Reply::Scheduled { id, tick, .. } => Told::Scheduled(*id, *tick),
        Reply::Deleted { id } => Told::Deleted(*id),
        Reply::Active(view) => {
            Told::Active(
                last_id(&view.last),
                [cells(&view.rows, 0), cells(&view.rows, 1)],
            )
        }
        Reply::Pending(items) => Told::Pending(first_id(items), items.len()),
        Reply::Refused(refusal) => Told::Refused(*refusal),
    }
}

fn text(alloc: Global, byte: u8) -> Result<Text, NoMemory> {
    let mut made = Text::new(alloc);
    made.push(byte)?;
    Ok(made)
}

fn labels(alloc: Global, channels: usize) -> Result<Labels, NoMemory> {
    let mut made = Labels::new(alloc);
    for _ in 0..channels {
        made.push(Text::new(alloc))?;
    }
    Ok(made)
}

fn input(alloc: Global, id: u8, channels: usize, block: u8) -> Result<Input, NoMemory> {
    Ok(Input {
        id: text(alloc, id)?,
        name: Text::new(alloc),
        description: Text::new(alloc),
        labels: labels(alloc, channels)?,
        width: Width::L16,
        payload_type: 96,
        block_size: block,
        reordering: block == 1,
        parent: Parent::Nobody,
    })
}

fn output(alloc: Global, id: u8) -> Result<Output, NoMemory> {
    Ok(Output {
        id: text(alloc, id)?,
        name: Text::new(alloc),
        description: Text::new(alloc),
        labels: labels(alloc, 2)?,
        width: Width::L16,
        payload_type: 96,
        ssrc: 1,
        source_id: None,
        routable: Routable::All,
    })
}

/// Input `a` of two channels, and `b` of four, which are routed in pairs and in order; outputs `x`
/// and `y` of two channels.
fn parts(alloc: Global, frames: u16, base: u64) -> Result<DeviceParts, NoMemory> {
    let mut inputs = Inputs::new(alloc);
    inputs.push(input(alloc, b'a', 2, 1)?)?;
    inputs.push(input(alloc, b'b', 4, 2)?)?;
    let mut outputs = Outputs::new(alloc);
    outputs.push(output(alloc, b'x')?)?;
    outputs.push(output(alloc, b'y')?)?;
    Ok(DeviceParts {
        rate: Rate { hz: 48000, frames },
        base,
        hold: 1,
        inputs,
        outputs,
    })
}

fn rows(alloc: Global) -> Result<Rows, NoMemory> {
    let mut made = Rows::new(alloc);
    for _ in 0..2 {
        let mut row = Row::new(alloc);
        row.push(Cell::Unrouted)?;
        row.push(Cell::Unrouted)?;
        made.push(row)?;
    }
    Ok(made)
}

/// The book of the device at 48000 Hz with two frames a tick, from a first tick on.
fn desk(alloc: Global, base: u64) -> Result<PlainDesk, Fail> {
    let device = Device::build(alloc, parts(alloc, 2, base)?)
        .ok()
        .ok_or("a device")?;
    let setup = Setup::build(alloc, device, rows(alloc)?)
        .ok()
        .ok_or("a setup")?;
    Ok(PlainDesk::new(alloc, &setup)?)
}

fn push(action: &mut Action, output: u8, changes: Changes) -> Result<(), Fail> {
    let change = OutputChange::build(output, changes).ok_or("channels that ascend")?;
    if action.try_push(change)? {
        Ok(())
    } else {
        Err("outputs that ascend".into())
    }
}

fn action(alloc: Global, named: &Names) -> Result<Action, Fail> {
    let mut made = Action::new(alloc);
    let [first, second] = *named;
    let Some((output, change)) = first else {
        return Ok(made);
    };
    let mut changes = changes(alloc, change)?;
    match second {
        None => push(&mut made, output, changes)?,
        Some((next, other)) if next == output => {
            if let Some((channel, cell)) = other {
                changes.push(Change { channel, cell })?;
            }
            push(&mut made, output, changes)?;
        }
        Some((next, other)) => {
            push(&mut made, output, changes)?;
            push(&mut made, next, self::changes(alloc, other)?)?;
        }
    }
    Ok(made)
}

fn changes(alloc: Global, change: Option<(u8, Cell)>) -> Result<Changes, NoMemory> {
    let mut made = Changes::new(alloc);
    if let Some((channel, cell)) = change {
        made.push(Change { channel, cell })?;
    }
    Ok(made)
}

fn request(alloc: Global, asked: &Asked) -> Result<Request, Fail> {
    match asked {
        Asked::Activate(when, names) => Ok(Request::Activate {
            when: *when,
            action: action(alloc, names)?,
        }),
        Asked::Delete(id) => Ok(Request::Delete { id: *id }),
        Asked::Active => Ok(Request::Active),
        Asked::Pending => Ok(Request::Pending),
    }
}

fn ask(rt: &impl Abort, desk: &mut PlainDesk, request: &Request) -> Result<Told, Fail> {
    let calls = desk.journal().len() as u64;
    let claims = desk.claims();
    let (reply, stamp) = desk.ask(3, request)?;
    assert_eq!(rt; stamp, Stamp { calls, claims });
    Ok(in_words(&reply))
}

fn raise(desk: &mut PlainDesk, claims: u64) {
    let all = desk.claims().saturating_add(claims);
    if all < CLAIMS_LIMIT {
        desk.raise_to(all);
    }
}

/// What the whole journal says of an activation that is not deleted.
fn stands(journal: &[JournalCall], id: u64) -> bool {
    journal.iter().all(|call| match &call.request {
        Request::Delete { id: of } => *of != id,
        _ => true,
    })
}

/// The slow way to what a reading of the active map shows last, where this tick is the first that
/// has not begun.
fn whole_last(journal: &[JournalCall], first: u64) -> Option<u64> {
    let mut found: Option<(u64, u64)> = None;
    for call in journal {
        let counts = call.id > 0 && call.tick <= first && stands(journal, call.id);
        found = match found {
            Some((tick, id)) if !counts || tick > call.tick => Some((tick, id)),
            _ if counts => Some((call.tick, call.id)),
            other => other,
        };
    }
    match found {
        Some((_, id)) => Some(id),
        None => None,
    }
}

/// The slow way to how many activations are pending.
fn whole_pending(journal: &[JournalCall], first: u64) -> usize {
    let mut found = 0usize;
    for call in journal {
        if call.id > 0 && call.tick > first && stands(journal, call.id) {
            found = found.saturating_add(1);
        }
    }
    found
}

/// Looks at the whole journal beside the book, which looks at what it keeps.
fn compare(rt: &impl Abort, desk: &mut PlainDesk, base: u64) -> Result<(), Fail> {
    let first = base.saturating_add(desk.claims().div_ceil(2));
    let last = whole_last(desk.journal().as_slice(), first);
    let count = whole_pending(desk.journal().as_slice(), first);
    match ask(rt, desk, &Request::Active)? {
        Told::Active(shown, _) => assert_eq!(rt; shown, last),
        _ => return Err("an active map".into()),
    }
    match ask(rt, desk, &Request::Pending)? {
        Told::Pending(_, shown) => assert_eq!(rt; shown, count),
        _ => return Err("pending activations".into()),
    }
    Ok(())
}

/// Asks step by step, of the book of the device from a first tick on.
fn run(rt: &impl Abort, alloc: Global, base: u64, steps: &[Step]) -> Result<(), Fail> {
    let mut desk = desk(alloc, base)?;
    for at in 0..steps.len() {
        let (claims, asked, expected) = &steps[at];
        raise(&mut desk, *claims);
        let request = request(alloc, asked)?;
        assert_eq!(rt; ask(rt, &mut desk, &request)?, *expected, "step {at}");
        compare(rt, &mut desk, base)?;
    }
    Ok(())
}

fn now(names: Names) -> Asked {
    Asked::Activate(When::Now, names)
}

fn at(time: Tai, names: Names) -> Asked {
    Asked::Activate(When::At(time), names)
}

fn after(time: Tai, names: Names) -> Asked {
    Asked::Activate(When::After(time), names)
}

fn refused(refusal: Refusal) -> Told {
    Told::Refused(refusal)
}

fn row_refused(output: u8, fault: RowFault) -> Told {
    Told::Refused(Refusal::Row { output, fault })
}

fn nanos(nanos: u32) -> Tai
    requires { nanos < 10 ^ 9 }
{
    Tai { secs: 0, nanos }
}

/// The last nanosecond of time.
const LAST: Tai = Tai {
    secs: 1_099_511_627_775,
    nanos: 999_999_999,
};

/// The book of the device with two frames a tick, whose activations count from frames.
fn frame_desk(alloc: Global) -> Result<PlainDesk, Fail> {
    let device = Device::build(alloc, parts(alloc, 2, 0)?)
        .ok()
        .ok_or("a device")?;
    let Setup { device, rows, .. } = Setup::build(alloc, device, rows(alloc)?)
        .ok()
        .ok_or("a setup")?;
    let grain = Grain::Frame;
    Ok(PlainDesk::new(
        alloc,
        &Setup {
            device,
            rows,
            grain,
        },
    )?)
}

/// An activation at a frame within a tick, and its deletion after a number of claims.
#[test]
fn exact_to_the_frame(rt: HostRuntime) -> Result<(), Fail> {
    let alloc = rt.alloc();
    for (claims, deleted) in [
        (2, Told::Deleted(1)),
        (3, refused(Refusal::NotPending { id: 1 })),
    ] {
        let mut desk = frame_desk(alloc)?;
        let asked = request(alloc, &at(nanos(62_500), one(0, 0, A0)))?;
        let (reply, _) = desk.ask(0, &asked)?;
        match reply {
            Reply::Scheduled {
                id: 1,
                tick: 1,
                offset: 1,
            } => {}
            _ => return Err("tick 1, offset 1".into()),
        }
        raise(&mut desk, claims);
        let request = request(alloc, &Asked::Delete(1))?;
        assert_eq!(rt; ask(&rt, &mut desk, &request)?, deleted);
    }
    Ok(())
}

#[test]
fn locked_output_over_http(rt: HostRuntime) -> Result<(), Fail> {
    let steps = [
        (0, at(nanos(416_666), one(0, 0, A0)), Told::Scheduled(1, 10)),
        (
            0,
            now(one(0, 0, A0)),
            refused(Refusal::Locked { output: 0 }),
        ),
        (0, now(one(1, 0, A0)), Told::Activated(2, 0)),
        (0, Asked::Pending, Told::Pending(Some(1), 1)),
    ];
    run(&rt, rt.alloc(), 0, &steps)
}

#[test]
fn deletion_before_and_after_its_tick(rt: HostRuntime) -> Result<(), Fail> {
    let before = [
        (1, at(nanos(83_333), one(0, 0, A0)), Told::Scheduled(1, 2)),
        (1, Asked::Delete(1), Told::Deleted(1)),
        (0, Asked::Delete(1), refused(Refusal::NotPending { id: 1 })),
        (2, Asked::Active, Told::Active(None, [BASE, BASE])),
    ];
    run(&rt, rt.alloc(), 0, &before)?;
    let behind = [
        (1, at(nanos(83_333), one(0, 0, A0)), Told::Scheduled(1, 2)),
        (2, Asked::Delete(1), refused(Refusal::NotPending { id: 1 })),
        (0, Asked::Active, Told::Active(Some(1), [[A0, OFF], BASE])),
    ];
    run(&rt, rt.alloc(), 0, &behind)
}

#[test]
fn schedule_delete_schedule(rt: HostRuntime) -> Result<(), Fail> {
    let steps = [
        (
            0,
            at(nanos(41_666_666), one(0, 0, A0)),
            Told::Scheduled(1, 1000),
        ),
        (0, Asked::Delete(1), Told::Deleted(1)),
        (
            0,
            at(nanos(20_833_333), one(0, 0, A1)),
            Told::Scheduled(2, 500),
        ),
        (998, Asked::Active, Told::Active(None, [BASE, BASE])),
        (2, Asked::Active, Told::Active(Some(2), [[A1, OFF], BASE])),
        (
            1000,
            Asked::Active,
            Told::Active(Some(2), [[A1, OFF], BASE]),
        ),
    ];
    run(&rt, rt.alloc(), 0, &steps)
}

#[test]
fn blocks_and_order(rt: HostRuntime) -> Result<(), Fail> {
    let steps = [
        (0, now(one(1, 0, b(0))), row_refused(1, RowFault::Block(0))),
        (
            0,
            now(both(1, b(1), b(0))),
            row_refused(1, RowFault::Order(0)),
        ),
        (0, now(both(1, b(2), b(3))), Told::Activated(1, 0)),
        (0, now(one(1, 1, OFF)), row_refused(1, RowFault::Block(0))),
        (
            0,
            Asked::Active,
            Told::Active(Some(1), [BASE, [b(2), b(3)]]),
        ),
    ];
    run(&rt, rt.alloc(), 0, &steps)
}

#[test]
fn times_and_shapes_over_http(rt: HostRuntime) -> Result<(), Fail> {
    let steps = [
        (
            0,
            after(nanos(1_000_000), one(0, 0, A0)),
            Told::Scheduled(1, 24),
        ),
        (0, at(LAST, one(1, 0, A0)), refused(Refusal::Time)),
        (0, now(NONE), refused(Refusal::Empty)),
        (
            0,
            now(one(1, 2, A0)),
            refused(Refusal::BadChannel {
                output: 1,
                channel: 2,
            }),
        ),
    ];
    run(&rt, rt.alloc(), 0, &steps)
}

/// A time that has passed, and one within the tick that has begun last; both count from the next
/// tick on at once.
#[test]
fn times_that_have_passed(rt: HostRuntime) -> Result<(), Fail> {
    let steps = [
        (3, at(nanos(0), one(0, 0, A0)), Told::Scheduled(1, 2)),
        (0, at(nanos(41_667), one(1, 0, A0)), Told::Scheduled(2, 2)),
        (0, Asked::Pending, Told::Pending(None, 0)),
        (0, at(nanos(83_333), one(0, 0, A1)), Told::Scheduled(3, 2)),
        (0, at(nanos(83_334), one(0, 0, A0)), Told::Scheduled(4, 3)),
        (0, Asked::Delete(3), refused(Refusal::NotPending { id: 3 })),
        (
            0,
            Asked::Active,
            Told::Active(Some(3), [[A1, OFF], [A0, OFF]]),
        ),
        (0, after(nanos(0), one(1, 0, A1)), Told::Scheduled(5, 2)),
        (0, after(nanos(1), one(1, 0, A0)), Told::Scheduled(6, 3)),
        (0, after(LAST, NONE), refused(Refusal::Empty)),
        (0, Asked::Delete(4), Told::Deleted(4)),
        (0, after(LAST, one(0, 0, A0)), refused(Refusal::Time)),
    ];
    run(&rt, rt.alloc(), 0, &steps)
}

/// Two refusals at once: the first of the order is told, of the lowest output and channel.
#[test]
fn first_refusal(rt: HostRuntime) -> Result<(), Fail> {
    let steps = [
        (
            0,
            at(nanos(416_666), across(A0, A0)),
            Told::Scheduled(1, 10),
        ),
        (0, at(LAST, NONE), refused(Refusal::Empty)),
        (
            0,
            now([Some((0, Some((9, A0)))), Some((7, None))]),
            refused(Refusal::Unknown { output: 7 }),
        ),
        (
            0,
            now([Some((2, None)), Some((3, None))]),
            refused(Refusal::Unknown { output: 2 }),
        ),
        (
            0,
            now([Some((0, Some((2, b(9))))), Some((0, Some((3, A0))))]),
            refused(Refusal::BadChannel {
                output: 0,
                channel: 2,
            }),
        ),
        (
            0,
            now([Some((0, None)), Some((1, Some((2, A0))))]),
            refused(Refusal::BadChannel {
                output: 1,
                channel: 2,
            }),
        ),
        (
            0,
            now(across(b(9), b(9))),
            refused(Refusal::Locked { output: 0 }),
        ),
        (
            0,
            at(LAST, one(1, 0, b(0))),
            refused(Refusal::Locked { output: 1 }),
        ),
        (0, Asked::Delete(1), Told::Deleted(1)),
        (
            0,
            at(LAST, across(OFF, b(9))),
            row_refused(1, RowFault::Channel(0)),
        ),
        (
            0,
            at(LAST, across(b(0), b(9))),
            row_refused(0, RowFault::Block(0)),
        ),
        (0, at(LAST, across(OFF, OFF)), refused(Refusal::Time)),
        (0, Asked::Delete(0), refused(Refusal::NotPending { id: 0 })),
        (0, Asked::Delete(2), refused(Refusal::NotPending { id: 2 })),
    ];
    run(&rt, rt.alloc(), 0, &steps)
}

/// An output that is named without a channel, a deletion of an activation at once, schedules that
/// meet on one output, and one that counts last though it was accepted first.
#[test]
fn one_output(rt: HostRuntime) -> Result<(), Fail> {
    let steps = [
        (0, now([Some((0, None)), None]), Told::Activated(1, 0)),
        (0, Asked::Delete(1), refused(Refusal::NotPending { id: 1 })),
        (0, at(nanos(83_333), one(0, 0, A0)), Told::Scheduled(2, 2)),
        (
            0,
            at(nanos(41_666), one(0, 1, A1)),
            refused(Refusal::Locked { output: 0 }),
        ),
        (0, at(nanos(41_666), one(1, 1, A1)), Told::Scheduled(3, 1)),
        (0, Asked::Pending, Told::Pending(Some(2), 2)),
        (2, Asked::Pending, Told::Pending(Some(2), 1)),
        (0, Asked::Active, Told::Active(Some(3), [BASE, [OFF, A1]])),
        (
            2,
            Asked::Active,
            Told::Active(Some(2), [[A0, OFF], [OFF, A1]]),
        ),
        (0, now(one(1, 0, A0)), Told::Activated(4, 2)),
        (
            0,
            Asked::Active,
            Told::Active(Some(4), [[A0, OFF], [A0, A1]]),
        ),
    ];
    run(&rt, rt.alloc(), 0, &steps)
}

/// The greatest first tick: ticks up to 2^23 after it begin before the end of time, and the next
/// one does not.
#[test]
fn end_of_time(rt: HostRuntime) -> Result<(), Fail> {
    let base = 26_388_279_058_235_391;
    let steps = [
        (0, now(one(0, 0, A0)), Told::Activated(1, base)),
        (0, at(LAST, one(0, 0, A1)), refused(Refusal::Time)),
        (
            0,
            after(nanos(41_666), one(0, 0, A1)),
            Told::Scheduled(2, base + 1),
        ),
        (2, Asked::Active, Told::Active(Some(2), [[A1, OFF], BASE])),
    ];
    run(&rt, rt.alloc(), base, &steps)
}

/// As many claims as there may be.
#[test]
fn most_claims(rt: HostRuntime) -> Result<(), Fail> {
    let tick = 549_755_813_888;
    let steps = [
        (
            CLAIMS_LIMIT - 1,
            now(one(0, 0, A0)),
            Told::Activated(1, tick),
        ),
        (0, at(nanos(0), one(1, 0, A1)), Told::Scheduled(2, tick)),
        (
            0,
            after(nanos(1), one(1, 1, A0)),
            Told::Scheduled(3, tick + 1),
        ),
        (0, Asked::Pending, Told::Pending(Some(3), 1)),
        (0, Asked::Delete(3), Told::Deleted(3)),
        (
            0,
            Asked::Active,
            Told::Active(Some(2), [[A0, OFF], [A1, OFF]]),
        ),
    ];
    run(&rt, rt.alloc(), 0, &steps)
}

fn kept(alloc: Global) -> BookState {
    BookState {
        from: 0,
        seen: 0,
        journal: Journal::new(alloc),
        pending: Vec::new(alloc),
        last: None,
        next: 1,
    }
}

fn counts(kept: &BookState) -> (usize, usize) {
    (kept.journal.len(), kept.pending.len())
}

/// What is staged can be taken back.
#[test]
fn staged(rt: HostRuntime) -> Result<(), Fail> {
    let alloc = rt.alloc();
    let mut kept = sent(kept(alloc));
    let item = PendingItem::new(1, When::Now, 2, 0, action(alloc, &NONE)?);
    let call = JournalCall::new(0, 3, 1, 2, 0, Request::Active);
    stage(&mut kept, call, Some(item))?;
    assert_eq!(rt; counts(&kept), (1, 1));
    unstage(&mut kept, 0, 0);
    assert_eq!(rt; counts(&kept), (0, 0));
    Ok(())
}

fn given(alloc: Global) -> Result<Given, Fail> {
    Ok(Given {
        client: 3,
        request: request(alloc, &now(one(0, 0, A0)))?,
        reply: Reply::Deleted { id: 7 },
        stamp: Stamp {
            calls: 0,
            claims: 0,
        },
    })
}

fn history(alloc: Global) -> Result<History, NoMemory> {
    let mut claims = ClaimItems::new(alloc);
    claims.push(ClaimItem::new(0, Flags::new(alloc), Bytes::new(alloc)))?;
    let mut replies = ReplyItems::new(alloc);
    let said = Said::Plain(Reply::Refused(Refusal::Empty));
    let stamp = Stamp {
        calls: 0,
        claims: 0,
    };
    replies.push(ReplyItem::new(3, stamp, said))?;
    Ok(History {
        claims,
        journal: Journal::new(alloc),
        replies,
    })
}

/// Answers and histories can be copied.
#[test]
fn copied(rt: HostRuntime) -> Result<(), Fail> {
    let given = sent(given(rt.alloc())?.copy()?);
    assert_eq!(rt; in_words(&given.reply), Told::Deleted(7));
    let history = sent(history(rt.alloc())?.copy()?);
    assert_eq!(rt; (history.claims.len(), history.replies.len()), (1, 1));
    Ok(())
}

/// What may be handed to another thread.
fn sent<T: Send>(value: T) -> T {
    value
}

/// More activations at once than a table has places.
#[test]
fn no_full_table(rt: HostRuntime) -> Result<(), Fail> {
    let alloc = rt.alloc();
    let mut desk = sent(desk(alloc, 0)?);
    let request = request(alloc, &now(across(A0, A1)))?;
    for id in 1..=256u64 {
        assert_eq!(rt; ask(&rt, &mut desk, &request)?, Told::Activated(id, 0));
    }
    let late = self::request(alloc, &at(LAST, across(A0, A1)))?;
    assert_eq!(rt; ask(&rt, &mut desk, &late)?, refused(Refusal::Time));
    assert_eq!(rt;
        ask(&rt, &mut desk, &Request::Active)?,
        Told::Active(Some(256), [[A0, OFF], [A1, OFF]])
    );
    Ok(())
}

/// Replies to clients, each at a place.
fn replies(alloc: Global, of: &[(u8, u64, u64)]) -> Result<ReplyItems, NoMemory> {
    let mut made = ReplyItems::new(alloc);
    for (client, calls, claims) in of {
        let said = Said::Plain(Reply::Refused(Refusal::Empty));
        let stamp = Stamp {
            calls: *calls,
            claims: *claims,
        };
        made.push(ReplyItem::new(*client, stamp, said))?;
    }
    Ok(made)
}

/// Of each reply, its client and its place.
fn places(alloc: Global, of: &ReplyItems) -> Result<Vec<(u8, u64, u64)>, NoMemory> {
    let mut made = Vec::new(alloc);
    for reply in of.as_slice() {
        made.push((reply.client, reply.stamp.calls, reply.stamp.claims))?;
    }
    Ok(made)
}

/// Replies are put in order by claims, calls and client.
#[test]
fn replies_in_order(rt: HostRuntime) -> Result<(), Fail> {
    let alloc = rt.alloc();
    let came = [(5, 1, 2), (2, 1, 2), (2, 0, 1), (7, 2, 2)];
    let made = in_order(replies(alloc, &came)?)?;
    let sorted = [(2, 0, 1), (2, 1, 2), (5, 1, 2), (7, 2, 2)];
    assert_eq!(rt; places(alloc, &made)?.as_slice(), sorted.as_slice());
    Ok(())
}

//! A builder in a table of cases whose values come from outside, and beside the rule itself.

use super::by_hand::build;
use super::cases::CASES;
use super::ports::{Shape, device, level, packet};
use crate::yardstick::block_by_rule;
use crate::{Arrival, Block, Builder, PacketFault, Taken};
use io_caps::{Bytes, Device, ListOf, NoMemory, Numbers, Width};
use std::alloc::Global;
use std::test::Fail;

/// Whether all is as it is to be, or what is not.
#[derive(Clone, Copy, Debug, PartialEq, Eq)]
pub(crate) enum Verdict {
    Same,
    NoDevice,
    /// The answer to an arrival.
    Answer(u64),
    /// The block of a tick that was handed out.
    Handed(u64),
    /// The block of a tick by the rule.
    Rule(u64),
}

/// The numbers of a row, read one after the other.
#[derive(Drop)]
struct Row<'a> {
    numbers: &'a [u64],
    at: usize,
}

impl Row<'_> {
    fn next(&mut self) -> u64 {
        let number = self.numbers.get(self.at).copied().unwrap_or(0);
        self.at = self.at.saturating_add(1);
        number
    }
}

/// What comes to an input, how many ticks are handed out after each, and the answers.
#[derive(Drop)]
struct Script {
    arrivals: ListOf<Arrival>,
    handed: Numbers,
    answers: Numbers,
}

fn read_shape(row: &mut Row<'_>) -> Shape {
    Shape {
        frames: (row.next() % 65536) as u16,
        channels: (row.next() % 256) as u8,
        width: if row.next() == 2 {
            Width::L16
        } else {
            Width::L24
        },
        base: row.next(),
        hold: (row.next() % 256) as u8,
    }
}

/// An arrival of a kind: see the table.
fn make_arrival(
    alloc: Global,
    shape: Shape,
    kind: u64,
    number: u64,
    frames: u64,
    mark: u64,
) -> Result<Arrival, NoMemory> {
    if kind == 4 {
        return Ok(Arrival::Mark(number));
    }
    if kind == 5 {
        return Ok(Arrival::End);
    }
    let mut bytes = packet(alloc, shape, number, frames, mark)?;
    match kind {
        1 => put_byte(&mut bytes, 1, 5),
        2 => bytes.push(0)?,
        3 => {
            put_byte(&mut bytes, 0, number);
            bytes.truncate(12);
        }
        _ => {}
    }
    Ok(Arrival::Packet(bytes))
}

fn put_byte(bytes: &mut Bytes, at: usize, byte: u64) {
    if at < bytes.len() {
        bytes.set(at, (byte % 256) as u8);
    }
}

fn read_script(alloc: Global, shape: Shape, row: &mut Row<'_>) -> Result<Script, NoMemory> {
    let mut script = Script {
        arrivals: ListOf::new(alloc),
        handed: Numbers::new(alloc),
        answers: Numbers::new(alloc),
    };
    for at in 0..row.next() {
        let kind = row.next();
        let number = row.next();
        let frames = row.next();
        let mark = at.wrapping_mul(32).wrapping_add(1);
        script
            .arrivals
            .push(make_arrival(alloc, shape, kind, number, frames, mark)?)?;
        script.handed.push(row.next())?;
        script.answers.push(row.next())?;
    }
    Ok(script)
}

/// What became of a packet, as in the table.
fn answer_of(taken: Taken) -> u64 {
    match taken {
        Taken::Used { frames } => frames as u64,
        Taken::Spent => 0,
        Taken::Beyond => 1000,
        Taken::Foreign { .. } => 1001,
        Taken::Misfit(PacketFault::PartFrame) => 1002,
        Taken::Misfit(PacketFault::Rtp(_)) => 1003,
    }
}

/// Ticks that were handed out, with their blocks.
pub(crate) type Handed = ListOf<(u64, Option<Block>)>;

/// Hands out a given number of closed ticks, or those that there are.
pub(crate) fn hand_out(
    builder: &mut Builder,
    most: u64,
    handed: &mut Handed,
) -> Result<(), NoMemory> {
    for _ in 0..most {
        let Some(next) = builder.next_closed() else {
            return Ok(());
        };
        handed.push(next)?;
    }
    Ok(())
}

/// Gives an arrival to a builder, once all closed ticks were handed out, and answers what became of
/// it.
pub(crate) fn give(
    builder: &mut Builder,
    arrival: &Arrival,
    handed: &mut Handed,
) -> Result<u64, NoMemory> {
    match arrival {
        Arrival::Mark(tick) => builder.mark(*tick),
        Arrival::End => builder.finish(),
        Arrival::Packet(bytes) => {
            hand_out(builder, u64::MAX, handed)?;
            if builder.drained() {
                return Ok(answer_of(builder.take(bytes.as_slice())?));
            }
        }
    }
    Ok(1004)
}

/// Gives all arrivals to a builder, and answers the first that was told something else than in the
/// script.
fn play(
    builder: &mut Builder,
    script: &Script,
    handed: &mut Handed,
) -> Result<Option<u64>, NoMemory> {
    for (at, arrival) in script.arrivals.as_slice().iter().enumerate() {
        let answer = give(builder, arrival, handed)?;
        if script.answers.get(at) != Some(&answer) {
            return Ok(Some(at as u64));
        }
        hand_out(builder, script.handed.get(at).copied().unwrap_or(0), handed)?;
    }
    builder.finish();
    hand_out(builder, u64::MAX, handed)?;
    Ok(None)
}

/// The block of the next tick of a row.
fn read_block(alloc: Global, shape: Shape, row: &mut Row<'_>) -> Result<Option<Block>, NoMemory> {
    let mut block = Block::new(alloc);
    let mut is_held = false;
    for _ in 0..shape.frames {
        let mark = row.next();
        is_held = is_held || mark > 0;
        push_frame(&mut block, shape, mark)?;
    }
    Ok(if is_held { Some(block) } else { None })
}

fn push_frame(block: &mut Block, shape: Shape, mark: u64) -> Result<(), NoMemory> {
    for channel in 0..shape.channels {
        let sample = if mark > 0 {
            i32::from(level(mark, 0, channel as u64)) * 256
        } else {
            0
        };
        block.push(sample)?;
    }
    Ok(())
}

fn is_same(a: &Option<Block>, b: &Option<Block>) -> bool {
    match (a, b) {
        (Some(a), Some(b)) => a.as_slice() == b.as_slice(),
        (None, None) => true,
        _ => false,
    }
}

/// The block of a tick by the rule, where the session has it.
pub(crate) fn rule(
    alloc: Global,
    device: &Device,
    ticks: u64,
    arrivals: &[Arrival],
    tick: u64,
) -> Result<Option<Block>, NoMemory> {
    let base = device.base();
    let end = base.saturating_add(ticks);
    if device.inputs() == 0 || ticks > 4096 || tick < base || tick >= end {
        return Ok(None);
    }
    block_by_rule(alloc, device, 0, ticks, arrivals, tick)
}

/// Compares a tick that was handed out with a block.
pub(crate) fn is_handed(handed: &Handed, at: u64, tick: u64, block: &Option<Block>) -> bool {
    match handed.get(at as usize) {
        Some((told, found)) => *told == tick && is_same(found, block),
        None => false,
    }
}

fn run_case(alloc: Global, numbers: &[u64]) -> Result<Verdict, NoMemory> {
    let mut row = Row { numbers, at: 0 };
    let shape = read_shape(&mut row);
    let ticks = row.next();
    let script = read_script(alloc, shape, &mut row)?;
    let Some(device) = device(alloc, shape)? else {
        return Ok(Verdict::NoDevice);
    };
    let Some(mut builder) = build(alloc, &device, ticks)? else {
        return Ok(Verdict::NoDevice);
    };
    let mut handed = Handed::new(alloc);
    if let Some(at) = play(&mut builder, &script, &mut handed)? {
        return Ok(Verdict::Answer(at));
    }
    for at in 0..ticks {
        let tick = shape.base.wrapping_add(at);
        let block = read_block(alloc, shape, &mut row)?;
        if !is_handed(&handed, at, tick, &block) {
            return Ok(Verdict::Handed(at));
        }
        let by_rule = rule(alloc, &device, ticks, script.arrivals.as_slice(), tick)?;
        if !is_same(&by_rule, &block) {
            return Ok(Verdict::Rule(at));
        }
    }
    Ok(Verdict::Same)
}

#[test]
fn cases_of_the_rule(rt: HostRuntime) -> Result<(), Fail> {
    for (number, row) in CASES.iter().enumerate() {
        assert_eq!(rt; run_case(rt.alloc(), row)?, Verdict::Same, "case {number}");
    }
    Ok(())
}

//! Packets of random bytes, and of random bits after a head that reads: a builder beside the rule
//! itself.

use super::by_hand::build;
use super::by_rule::{Handed, Verdict, give, hand_out, is_handed, rule};
use super::ports::{Shape, device};
use crate::Arrival;
use io_caps::{Bytes, Device, ListOf, NoMemory, Width};
use std::alloc::Global;
use std::test::Fail;

/// 3 frames a tick, base just before the 32 bits of a timestamp wrap, hold 2; one input of 3
/// channels of 24 bits.
const SHAPE: Shape = Shape {
    frames: 3,
    channels: 3,
    width: Width::L24,
    base: (1 << 32) / 3 - 1,
    hold: 2,
};

const TICKS: u64 = 12;

/// Numbers that look random, and are the same each time.
#[derive(Drop)]
struct Draw(u64);

impl Draw {
    /// The next number below 65536.
    fn next(&mut self) -> u64 {
        self.0 = self
            .0
            .wrapping_mul(6364136223846793005)
            .wrapping_add(1442695040888963407);
        self.0 / (1 << 48)
    }

    fn byte(&mut self) -> u8 {
        (self.next() % 256) as u8
    }
}

/// A given number of random bytes.
fn noise(alloc: Global, draw: &mut Draw, len: u64) -> Result<Bytes, NoMemory> {
    let mut bytes = Bytes::new(alloc);
    for _ in 0..len {
        bytes.push(draw.byte())?;
    }
    Ok(bytes)
}

/// Random bytes after a head of version 2, whose bits for CSRCs, extension and padding, payload
/// type and timestamp are mostly such that the packet counts.
fn nearly(alloc: Global, draw: &mut Draw) -> Result<Bytes, NoMemory> {
    let frames = draw.next() % 9;
    let odd = if draw.next() % 8 == 0 {
        draw.next() % 9
    } else {
        0
    };
    let mut bytes = noise(alloc, draw, 12 + frames * 9 + odd)?;
    let bits = if draw.next() % 4 == 0 {
        draw.next() % 64
    } else {
        0
    };
    let payload_type = if draw.next() % 16 == 0 {
        draw.byte()
    } else {
        96
    };
    let first = (SHAPE
        .base
        .wrapping_mul(3)
        .wrapping_add(draw.next() % 48)
        .wrapping_sub(6))
        % (1 << 32);
    put(&mut bytes, 0, 128 + (bits % 64) as u8);
    put(&mut bytes, 1, payload_type);
    for (at, byte) in (first as u32).to_be_bytes().iter().enumerate() {
        put(&mut bytes, at + 4, *byte);
    }
    Ok(bytes)
}

fn put(bytes: &mut Bytes, at: usize, byte: u8) {
    if at < bytes.len() {
        bytes.set(at, byte);
    }
}

/// A few packets: noise of up to 2000 bytes, and nearly good ones.
fn arrivals(alloc: Global, draw: &mut Draw) -> Result<ListOf<Arrival>, NoMemory> {
    let mut made = ListOf::new(alloc);
    for _ in 0..12 {
        let bytes = if draw.next() % 6 == 0 {
            let len = draw.next() % 2001;
            noise(alloc, draw, len)?
        } else {
            nearly(alloc, draw)?
        };
        made.push(Arrival::Packet(bytes))?;
    }
    Ok(made)
}

/// Whether a builder hands out just what the rule gives.
fn compare(alloc: Global, device: &Device, arrivals: &[Arrival]) -> Result<Verdict, NoMemory> {
    let Some(mut builder) = build(alloc, device, TICKS)? else {
        return Ok(Verdict::NoDevice);
    };
    let mut handed = Handed::new(alloc);
    for arrival in arrivals {
        give(&mut builder, arrival, &mut handed)?;
    }
    builder.finish();
    hand_out(&mut builder, u64::MAX, &mut handed)?;
    for at in 0..TICKS {
        let tick = SHAPE.base + at;
        let block = rule(alloc, device, TICKS, arrivals, tick)?;
        if !is_handed(&handed, at, tick, &block) {
            return Ok(Verdict::Handed(at));
        }
    }
    Ok(Verdict::Same)
}

#[test]
fn random_packets(rt: HostRuntime) -> Result<(), Fail> {
    let alloc = rt.alloc();
    let device = device(alloc, SHAPE)?.ok_or("device")?;
    let mut draw = Draw(7);
    for run in 0..100 {
        let arrivals = arrivals(alloc, &mut draw)?;
        let verdict = compare(alloc, &device, arrivals.as_slice())?;
        assert_eq!(rt; verdict, Verdict::Same, "run {run}");
    }
    Ok(())
}

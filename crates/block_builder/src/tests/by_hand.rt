//! A builder by hand.

use super::ports::{Shape, device, packet};
use crate::{Builder, PacketFault, Taken, blocks_of_packets};
use io_caps::{Bytes, Device, NoMemory, Width};
use std::alloc::Global;
use std::test::Fail;

/// 2 frames a tick, base 0, hold 1; one input of 2 channels of 16 bits.
const SHAPE: Shape = Shape {
    frames: 2,
    channels: 2,
    width: Width::L16,
    base: 0,
    hold: 1,
};

/// A builder may go to another thread.
fn sent<T: Send>(value: T) -> T {
    value
}

/// A builder of the one input, and `None` for a session that is too long.
pub(crate) fn build(
    alloc: Global,
    device: &Device,
    ticks: u64,
) -> Result<Option<Builder>, NoMemory> {
    if device.inputs() == 0 || ticks > 4096 {
        return Ok(None);
    }
    Ok(Some(sent(Builder::new(alloc, device, 0, ticks)?)))
}

/// What became of bytes, in a word. Nothing is taken while closed ticks are left.
fn word(builder: &mut Builder, bytes: &[u8]) -> Result<&'static str, NoMemory> {
    if !builder.drained() {
        return Ok("not drained");
    }
    Ok(match builder.take(bytes)? {
        Taken::Used { frames: 2 } => "two",
        Taken::Used { .. } => "used",
        Taken::Spent => "spent",
        Taken::Beyond => "beyond",
        Taken::Foreign { payload_type: 5 } => "five",
        Taken::Foreign { .. } => "foreign",
        Taken::Misfit(PacketFault::PartFrame) => "part",
        Taken::Misfit(PacketFault::Rtp(_)) => "misfit",
    })
}

/// How many ticks are handed out, how many of them have a block, and the first sample of the last
/// block.
fn drain(builder: &mut Builder) -> (u64, u64, i32) {
    let mut ticks = 0u64;
    let mut blocks = 0u64;
    let mut sample = 0;
    for _ in 0..64 {
        let Some((_, block)) = builder.next_closed() else {
            return (ticks, blocks, sample);
        };
        ticks = ticks.saturating_add(1);
        if let Some(block) = block {
            blocks = blocks.saturating_add(1);
            sample = block.get(0).copied().unwrap_or(0);
        }
    }
    (ticks, blocks, sample)
}

/// A packet of 2 frames with a payload type, cut to a given number of bytes.
fn cut_packet(
    alloc: Global,
    timestamp: u64,
    mark: u64,
    payload_type: u8,
    len: usize,
) -> Result<Bytes, NoMemory> {
    let mut bytes = packet(alloc, SHAPE, timestamp, 2, mark)?;
    if bytes.len() > 1 {
        bytes.set(1, payload_type);
    }
    bytes.truncate(len);
    Ok(bytes)
}

/// Timestamp, mark of the samples, payload type and bytes of each packet; what becomes of it; and
/// how many ticks are handed out then, how many of them with a block, and the first sample of the
/// last.
const STEPS: [(u64, u64, u8, usize, &str, (u64, u64, i32)); 10] = [
    (0, 1, 96, 20, "two", (0, 0, 0)),
    (0, 2, 96, 20, "spent", (0, 0, 0)),
    (4, 3, 96, 20, "two", (1, 1, 256)),
    (0, 4, 96, 20, "spent", (0, 0, 0)),
    (2, 5, 96, 20, "two", (0, 0, 0)),
    (16, 6, 96, 20, "beyond", (0, 0, 0)),
    (6, 7, 5, 20, "five", (0, 0, 0)),
    (6, 8, 96, 15, "part", (0, 0, 0)),
    (6, 9, 96, 12, "spent", (0, 0, 0)),
    (6, 10, 96, 11, "misfit", (0, 0, 0)),
];

#[test]
fn builder_by_hand(rt: HostRuntime) -> Result<(), Fail> {
    let alloc = rt.alloc();
    let device = device(alloc, SHAPE)?.ok_or("device")?;
    let mut builder = build(alloc, &device, 8)?.ok_or("input")?;
    for (timestamp, mark, payload_type, len, answer, handed) in STEPS {
        let bytes = cut_packet(alloc, timestamp, mark, payload_type, len)?;
        assert_eq!(rt; word(&mut builder, bytes.as_slice())?, answer, "{mark}");
        assert_eq!(rt; drain(&mut builder), handed, "{mark}");
    }
    builder.mark(4);
    assert_eq!(rt; drain(&mut builder), (2, 2, 768));
    builder.finish();
    assert_eq!(rt; drain(&mut builder), (5, 0, 0));
    Ok(())
}

/// The blocks of a run, by how many ticks have one and the first sample of the last of them.
fn run(alloc: Global, device: &Device, packets: &[&[u8]]) -> Result<(u64, i32), NoMemory> {
    let mut blocks = 0u64;
    let mut sample = 0;
    if device.inputs() > 0 {
        for block in blocks_of_packets(alloc, device, 0, 8, packets)?.into_vec() {
            if let Some(block) = block {
                blocks = blocks.saturating_add(1);
                sample = block.get(0).copied().unwrap_or(0);
            }
        }
    }
    Ok((blocks, sample))
}

#[test]
fn blocks_of_a_run(rt: HostRuntime) -> Result<(), Fail> {
    let alloc = rt.alloc();
    let device = device(alloc, SHAPE)?.ok_or("device")?;
    let late = packet(alloc, SHAPE, 2, 5, 1)?;
    let early = packet(alloc, SHAPE, 0, 2, 9)?;
    let lost: [u8; 3] = [1, 2, 3];
    let packets = [late.as_slice(), &lost, early.as_slice()];
    assert_eq!(rt; run(alloc, &device, &packets)?, (3, 1280));
    Ok(())
}

//! Values from outside: samples and packets that are written, and flags.

ghost use Rattle.std.specs.Prelude.{◌↔◌, IsTrue};
ghost use Rattle.packet_writer.specs.Packet.{RowFits};

use super::*;
use io_caps::{
    Device, DeviceParts, Input, Inputs, Labels, NoMemory, Output, Outputs, Parent, Rate, Routable,
    Text, Width,
};
use map_entry::{Cell, Row, Rows, Setup, claim_output};
use rtp_pcm::get_sample;
use std::alloc::Global;
use std::test::Fail;

/// The frames of a tick.
const FRAMES: u16 = 2;

fn text(alloc: Global, byte: u8) -> Result<Text, NoMemory> {
    let mut made = Text::new(alloc);
    made.push(byte)?;
    Ok(made)
}

/// Labels of two channels.
fn labels(alloc: Global) -> Result<Labels, NoMemory> {
    let mut made = Labels::new(alloc);
    made.push(text(alloc, b'l')?)?;
    made.push(text(alloc, b'r')?)?;
    Ok(made)
}

fn inputs(alloc: Global) -> Result<Inputs, NoMemory> {
    let mut made = Inputs::new(alloc);
    for id in [b'a', b'b'] {
        made.push(Input {
            id: text(alloc, id)?,
            name: Text::new(alloc),
            description: Text::new(alloc),
            labels: labels(alloc)?,
            width: Width::L24,
            payload_type: 96,
            block_size: 1,
            reordering: true,
            parent: Parent::Nobody,
        })?;
    }
    Ok(made)
}

fn outputs(alloc: Global, width: Width) -> Result<Outputs, NoMemory> {
    let mut made = Outputs::new(alloc);
    made.push(Output {
        id: text(alloc, b'x')?,
        name: Text::new(alloc),
        description: Text::new(alloc),
        labels: labels(alloc)?,
        width,
        payload_type: 97,
        ssrc: 0x01020304,
        source_id: None,
        routable: Routable::All,
    })?;
    Ok(made)
}

fn rows(alloc: Global) -> Result<Rows, NoMemory> {
    let mut row = Row::new(alloc);
    row.push(Cell::Unrouted)?;
    row.push(Cell::Unrouted)?;
    let mut made = Rows::new(alloc);
    made.push(row)?;
    Ok(made)
}

/// Two inputs and an output of this width, with two channels each.
fn setup(alloc: Global, base: u64, width: Width) -> Result<Setup, Fail> {
    let parts = DeviceParts {
        rate: Rate {
            hz: 48000,
            frames: FRAMES,
        },
        base,
        hold: 0,
        inputs: inputs(alloc)?,
        outputs: outputs(alloc, width)?,
    };
    let Ok(device) = Device::build(alloc, parts) else {
        return Err("a device".into());
    };
    match Setup::build(alloc, device, rows(alloc)?) {
        Ok(setup) => Ok(setup),
        Err(_) => Err("a setup".into()),
    }
}

/// The block of a payload.
fn block(alloc: Global, payload: &[u8], width: Width) -> Result<Block, NoMemory> {
    let mut made = Block::new(alloc);
    for bytes in payload.chunks_exact(width.bytes()) {
        made.push(get_sample(bytes, width))?;
    }
    Ok(made)
}

/// Whether a row has a cell for each of a given number of channels, and these name channels that
/// are there.
fn fits(inputs: &[Input], channels: usize, row: &[Cell]) -> bool
    ensures { IsTrue result ↔ RowFits inputs.now channels row.now }
{
    row.len() == channels && row.iter().all(|cell| cell.is_channel_there(inputs))
}

/// Writes claim 0 by a row and by blocks; `None` where these do not fit.
fn write(setup: &Setup, row: &[Cell], blocks: &[Option<Block>], out: &mut [u8]) -> Option<()> {
    let device = &setup.device;
    let output = claim_output(device.outputs(), 0);
    let channels = device.output(output).channels();
    let mut source = HeldBlocks::new(blocks);
    if !fits(device.input_slice(), channels, row) || !source.fit(device) {
        return None;
    }
    if out.len() != packet_len(device, output) {
        return None;
    }
    write_claim(&mut source, setup, &OneRow::new(row), 0, out);
    Some(())
}

const NONE: Cell = Cell::Unrouted;

const fn from(input: u8, channel: u8) -> Cell {
    Cell::From { input, channel }
}

/// A payload of input 0 in its width, the row, and the payload of the output in its width.
#[test]
fn samples(rt: HostRuntime) -> Result<(), Fail> {
    let alloc = rt.alloc();
    let heard = [from(0, 0), from(0, 1)];
    let rows: [(Width, &[u8], [Cell; 2], Width, &[u8]); 7] = [
        // l16_to_l24
        (
            Width::L16,
            &[0x12, 0x34, 0xff, 0xfe, 0x80, 0, 0, 1],
            heard,
            Width::L24,
            &[0x12, 0x34, 0, 0xff, 0xfe, 0, 0x80, 0, 0, 0, 1, 0],
        ),
        // l24_to_l16
        (
            Width::L24,
            &[0xff, 0xff, 0xff, 0, 0, 0xff, 0, 0, 0, 0x7f, 0xff, 0xff],
            heard,
            Width::L16,
            &[0xff, 0xff, 0, 0, 0, 0, 0x7f, 0xff],
        ),
        // l24_lowest_to_l16
        (
            Width::L24,
            &[0x80, 0, 0, 0x80, 0, 0xff, 0, 0, 0, 0, 0, 0],
            heard,
            Width::L16,
            &[0x80, 0, 0x80, 0, 0, 0, 0, 0],
        ),
        (
            Width::L16,
            &[0x11, 0x11, 0x22, 0x22, 0x33, 0x33, 0x44, 0x44],
            [from(0, 0), NONE],
            Width::L16,
            &[0x11, 0x11, 0, 0, 0x33, 0x33, 0, 0],
        ),
        (
            Width::L16,
            &[0x11, 0x11, 0x22, 0x22, 0x33, 0x33, 0x44, 0x44],
            [from(0, 1), NONE],
            Width::L24,
            &[0x22, 0x22, 0, 0, 0, 0, 0x44, 0x44, 0, 0, 0, 0],
        ),
        (
            Width::L16,
            &[0x11, 0x11, 0x22, 0x22, 0x33, 0x33, 0x44, 0x44],
            [from(0, 1), from(0, 0)],
            Width::L16,
            &[0x22, 0x22, 0x11, 0x11, 0x44, 0x44, 0x33, 0x33],
        ),
        // input 1 has no block
        (
            Width::L16,
            &[0x11, 0x11, 0x22, 0x22, 0x33, 0x33, 0x44, 0x44],
            [from(1, 1), from(0, 0)],
            Width::L16,
            &[0, 0, 0x11, 0x11, 0, 0, 0x33, 0x33],
        ),
    ];
    for (from, payload, row, to, wanted) in rows {
        let setup = setup(alloc, 0, to)?;
        let blocks = [Some(block(alloc, payload, from)?), None];
        let mut out = [0xeeu8; 24];
        let len = 12 + wanted.len();
        assert!(rt; len <= 24);
        assert!(rt; write(&setup, &row, &blocks, &mut out[..len]).is_some());
        assert_eq!(rt; out[12..len], *wanted);
    }
    Ok(())
}

/// The first tick, and the head of claim 0's packet.
#[test]
fn heads(rt: HostRuntime) -> Result<(), Fail> {
    let alloc = rt.alloc();
    let rows: [(u64, [u8; 12]); 3] = [
        (0, [0x80, 97, 0, 0, 0, 0, 0, 0, 1, 2, 3, 4]),
        // timestamp_wraps
        (
            2147483647,
            [0x80, 97, 0xff, 0xff, 0xff, 0xff, 0xff, 0xfe, 1, 2, 3, 4],
        ),
        (2147483648, [0x80, 97, 0, 0, 0, 0, 0, 0, 1, 2, 3, 4]),
    ];
    for (base, wanted) in rows {
        let setup = setup(alloc, base, Width::L16)?;
        let mut out = [0xeeu8; 20];
        assert!(rt; write(&setup, &[NONE, NONE], &[], &mut out).is_some());
        assert_eq!(rt; &out[..12], wanted.as_slice());
        assert_eq!(rt; &out[12..], [0u8; 8].as_slice());
    }
    Ok(())
}

/// A row, whether inputs 0 and 1 have blocks, and the flags.
#[test]
fn flags(rt: HostRuntime) -> Result<(), Fail> {
    let alloc = rt.alloc();
    for (row, there, wanted) in [
        ([NONE, NONE], [true, true], [false, false]),
        ([from(1, 0), NONE], [true, true], [false, true]),
        ([from(0, 0), from(1, 0)], [true, false], [true, false]),
        ([from(0, 1), from(0, 0)], [false, true], [false, false]),
    ] {
        let mut blocks = [None, None];
        for (input, there) in there.into_iter().enumerate() {
            if there {
                blocks[input % 2] = Some(Block::new(alloc));
            }
        }
        let mut found = [true, false];
        mark_named(&OneRow::new(&row), FRAMES, &mut found);
        assert!(rt; look_at_marked(&mut HeldBlocks::new(&blocks), &mut found).is_none());
        assert_eq!(rt; found, wanted);
    }
    Ok(())
}

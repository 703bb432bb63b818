//! A device with one input, and packets for it.

use io_caps::{
    Bytes, Device, DeviceParts, Input, Inputs, Labels, NoMemory, Or, Output, Outputs, Parent, Rate,
    Routable, Text, Width,
};
use std::alloc::Global;

/// The payload type of the input.
const TYPE: u8 = 96;

/// What a device and its input are made of.
#[derive(Clone, Copy)]
pub(crate) struct Shape {
    pub(crate) frames: u16,
    pub(crate) channels: u8,
    pub(crate) width: Width,
    pub(crate) base: u64,
    pub(crate) hold: u8,
}

fn text(alloc: Global, text: &str) -> Result<Text, NoMemory> {
    let mut made = Text::new(alloc);
    for byte in text.as_bytes() {
        made.push(*byte)?;
    }
    Ok(made)
}

fn labels(alloc: Global, channels: u8) -> Result<Labels, NoMemory> {
    let mut made = Labels::new(alloc);
    for _ in 0..channels {
        made.push(Text::new(alloc))?;
    }
    Ok(made)
}

fn input(alloc: Global, shape: Shape) -> Result<Input, NoMemory> {
    Ok(Input {
        id: text(alloc, "a")?,
        name: Text::new(alloc),
        description: Text::new(alloc),
        labels: labels(alloc, shape.channels)?,
        width: shape.width,
        payload_type: TYPE,
        block_size: 1,
        reordering: true,
        parent: Parent::Nobody,
    })
}

fn output(alloc: Global) -> Result<Output, NoMemory> {
    Ok(Output {
        id: text(alloc, "x")?,
        name: Text::new(alloc),
        description: Text::new(alloc),
        labels: labels(alloc, 1)?,
        width: Width::L16,
        payload_type: TYPE,
        ssrc: 1,
        source_id: None,
        routable: Routable::All,
    })
}

/// A device of 48000 Hz with one input and one output, and `None` where its limits are broken.
pub(crate) fn device(alloc: Global, shape: Shape) -> Result<Option<Device>, NoMemory> {
    let mut inputs = Inputs::new(alloc);
    inputs.push(input(alloc, shape)?)?;
    let mut outputs = Outputs::new(alloc);
    outputs.push(output(alloc)?)?;
    let parts = DeviceParts {
        rate: Rate {
            hz: 48000,
            frames: shape.frames,
        },
        base: shape.base,
        hold: shape.hold,
        inputs,
        outputs,
    };
    match Device::build(alloc, parts) {
        Ok(device) => Ok(Some(device)),
        Err(Or::Fault(_)) => Ok(None),
        Err(Or::NoMemory) => Err(NoMemory),
    }
}

/// The upper 16 bits of a sample.
pub(crate) fn level(mark: u64, frame: u64, channel: u64) -> u16 {
    (mark
        .wrapping_add(frame)
        .wrapping_add(channel.wrapping_mul(512))
        % 65536) as u16
}

fn push_all(made: &mut Bytes, bytes: &[u8]) -> Result<(), NoMemory> {
    for byte in bytes {
        made.push(*byte)?;
    }
    Ok(())
}

fn push_frames(made: &mut Bytes, shape: Shape, mark: u64, frames: u64) -> Result<(), NoMemory> {
    for frame in 0..frames {
        push_frame(made, shape, mark, frame)?;
    }
    Ok(())
}

fn push_frame(made: &mut Bytes, shape: Shape, mark: u64, frame: u64) -> Result<(), NoMemory> {
    for channel in 0..shape.channels {
        push_all(made, &level(mark, frame, channel as u64).to_be_bytes())?;
        if shape.width == Width::L24 {
            made.push(0)?;
        }
    }
    Ok(())
}

/// A packet of a given number of frames of the input, whose samples tell the mark and the frame.
pub(crate) fn packet(
    alloc: Global,
    shape: Shape,
    timestamp: u64,
    frames: u64,
    mark: u64,
) -> Result<Bytes, NoMemory> {
    let mut made = Bytes::new(alloc);
    push_all(&mut made, &[0x80, TYPE, 0, 0])?;
    push_all(&mut made, &((timestamp % (1 << 32)) as u32).to_be_bytes())?;
    push_all(&mut made, &[0, 0, 0, 7])?;
    push_frames(&mut made, shape, mark, frames)?;
    Ok(made)
}

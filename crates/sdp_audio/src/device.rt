//! A device that takes the streams of a description, and sends the same.

ghost use Rattle.std.specs.Prelude.{◌≡◌, ◌≢◌, ◌≤◌, ◌+◌, ◌↔◌, ℕ, [], All, IsTrue, map, take, codes};
ghost use Rattle.std.specs.Prelude.{IfOk, IfErr, OnOk, length};
ghost use Rattle.std.specs.List.{enumerate_from};
ghost use Rattle.io_caps.specs.Device.{IsDevice};
ghost use Rattle.io_caps.specs.Fault.{IsFirstFault};
ghost use Rattle.io_caps.specs.declared.limits.TheConstants.{MOST_INPUTS};
ghost use Rattle.sdp_audio.specs.Fault.{IfFault};
ghost use Rattle.sdp_audio.specs.Made.{numbered_id, numbered_labels, stream_input};
ghost use Rattle.sdp_audio.specs.Made.{stream_output, parts_of, first_hz, device_of};
ghost use Rattle.sdp_audio.specs.Made.{HasOneRate, IsMakeFault};

use crate::{MakeFault, Stream, Streams};
use io_caps::limits::MOST_INPUTS;
use io_caps::{
    Device, DeviceFault, DeviceParts, Input, Inputs, Labels, NoMemory, Or, Output, Outputs, Parent,
    Rate, Routable, Text,
};
use std::alloc::Global;

/// Whether each stream has this rate.
fn have_rate(streams: &[Stream], hz: u32) -> bool
    ensures { IsTrue result ↔ All (λ stream. stream.hz ≡ hz) streams.now }
{
    streams.iter().all(|stream| stream.hz == hz)
}

/// `in` and a number.
fn input_id(alloc: Global, number: u32) -> Result<Text, NoMemory>
    ensures { IfOk result (λ id. id ≡ numbered_id (codes "in") number) }
{
    let id = format!(in alloc; "in{number}")?;
    Ok(Text::from_vec(id.into_bytes()))
}

/// `out` and a number.
fn output_id(alloc: Global, number: u32) -> Result<Text, NoMemory>
    ensures { IfOk result (λ id. id ≡ numbered_id (codes "out") number) }
{
    let id = format!(in alloc; "out{number}")?;
    Ok(Text::from_vec(id.into_bytes()))
}

/// A label for each channel: "1", "2", ..
fn labels_of(alloc: Global, channels: u8) -> Result<Labels, NoMemory>
    ensures { IfOk result (λ labels. labels ≡ numbered_labels channels) }
{
    let mut labels = Vec::new(alloc);
    for channel in 0..channels {
        let number = channel + 1;
        let label = format!(in alloc; "{number}")?;
        labels.push(Text::from_vec(label.into_bytes()))?;
    }
    Ok(Labels::from_vec(labels))
}

/// The input of a stream with its number.
fn input_of(alloc: Global, number: u32, stream: &Stream) -> Result<Input, NoMemory>
    ensures { IfOk result (λ input. input ≡ stream_input (number, stream.now)) }
{
    Ok(Input {
        id: input_id(alloc, number)?,
        name: input_id(alloc, number)?,
        description: Text::new(alloc),
        labels: labels_of(alloc, stream.channels)?,
        width: stream.width,
        payload_type: stream.payload_type,
        block_size: 1,
        reordering: true,
        parent: Parent::Nobody,
    })
}

/// The output of a stream with its number.
fn output_of(alloc: Global, number: u32, stream: &Stream) -> Result<Output, NoMemory>
    ensures { IfOk result (λ output. output ≡ stream_output (number, stream.now)) }
{
    Ok(Output {
        id: output_id(alloc, number)?,
        name: output_id(alloc, number)?,
        description: Text::new(alloc),
        labels: labels_of(alloc, stream.channels)?,
        width: stream.width,
        payload_type: stream.payload_type,
        ssrc: number,
        source_id: None,
        routable: Routable::All,
    })
}

/// The inputs of streams.
fn inputs_of(alloc: Global, streams: &[Stream]) -> Result<Inputs, NoMemory>
    requires { length streams.now ≤ MOST_INPUTS + 1 }
    ensures { IfOk result (λ inputs. inputs ≡ map stream_input (enumerate_from 1 streams.now)) }
{
    let mut inputs = Inputs::new(alloc);
    let mut number = 1;
    for stream in streams {
        inputs.push(input_of(alloc, number, stream)?)?;
        number += 1;
    }
    Ok(inputs)
}

/// The outputs of streams.
fn outputs_of(alloc: Global, streams: &[Stream]) -> Result<Outputs, NoMemory>
    requires { length streams.now ≤ MOST_INPUTS + 1 }
    ensures { IfOk result (λ outputs. outputs ≡ map stream_output (enumerate_from 1 streams.now)) }
{
    let mut outputs = Outputs::new(alloc);
    let mut number = 1;
    for stream in streams {
        outputs.push(output_of(alloc, number, stream)?)?;
        number += 1;
    }
    Ok(outputs)
}

/// The parts of the device of streams.
fn parts_of(
    alloc: Global,
    hz: u32,
    frames: u16,
    streams: &[Stream],
) -> Result<DeviceParts, NoMemory>
    requires few { length streams.now ≤ MOST_INPUTS + 1 }
    ensures { IfOk result (λ parts. parts ≡ parts_of streams.now hz frames) }
{
    Ok(DeviceParts {
        rate: Rate { hz, frames },
        base: 0,
        hold: 1,
        inputs: inputs_of(alloc, streams)?,
        outputs: outputs_of(alloc, streams)?,
    })
}

/// As many streams as decide the first fault of their device: one more than it may have inputs.
fn deciding(streams: &[Stream]) -> &[Stream]
    ensures { result.now ≡ take (MOST_INPUTS + 1) streams.now }
{
    if streams.len() > MOST_INPUTS {
        &streams[..MOST_INPUTS + 1]
    } else {
        streams
    }
}

/// The rate of all streams, or why there is none.
fn common_hz(streams: &[Stream]) -> Result<u32, MakeFault>
    ensures some { OnOk result (streams.now ≢ []) }
    ensures hz { IfOk result (λ hz. hz ≡ first_hz streams.now) }
    ensures one_rate { OnOk result (HasOneRate streams.now) }
    ensures fault { (frames : ℕ) → IfErr result (IsMakeFault streams.now frames) }
{
    match streams {
        [] => Err(MakeFault::Empty),
        [first, ..] => {
            if have_rate(streams, first.hz) {
                Ok(first.hz)
            } else {
                Err(MakeFault::Rates)
            }
        }
    }
}

/// The device of streams, or the first limit that it breaks.
fn build_device(
    alloc: Global,
    hz: u32,
    frames: u16,
    streams: &[Stream],
) -> Result<Device, Or<DeviceFault>>
    ensures device { IfOk result (λ device. device ≡ parts_of streams.now hz frames) }
    ensures within { OnOk result (IsDevice (parts_of streams.now hz frames)) }
    ensures fault { IfErr result (λ e. IfFault e (IsFirstFault (parts_of streams.now hz frames))) }
{
    let parts = parts_of(alloc, hz, frames, deciding(streams))?;
    match Device::build(alloc, parts) {
        Ok(device) => Ok(device),
        Err(error) => Err(error),
    }
}

/// A device with an input and an output for each stream, `in1` and `out1` for the first, and
/// `frames` frames a tick; or the first reason why there is none.
pub fn device_from(alloc: Global, streams: &Streams, frames: u16) -> Result<Device, Or<MakeFault>>
    ensures device { IfOk result (λ device. device ≡ device_of streams.now frames) }
    ensures some { OnOk result (streams.now ≢ []) }
    ensures one_rate { OnOk result (HasOneRate streams.now) }
    ensures within { OnOk result (IsDevice (device_of streams.now frames)) }
    ensures fault { IfErr result (λ e. IfFault e (IsMakeFault streams.now frames)) }
{
    let streams = streams.as_slice();
    match common_hz(streams) {
        Ok(hz) => match build_device(alloc, hz, frames, streams) {
            Ok(device) => Ok(device),
            Err(Or::Fault(fault)) => Err(Or::Fault(MakeFault::Device(fault))),
            Err(Or::NoMemory) => Err(Or::NoMemory),
        },
        Err(fault) => Err(Or::Fault(fault)),
    }
}

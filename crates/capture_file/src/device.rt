//! How the body of a plain device record is read.

ghost use Rattle.std.specs.Prelude.{Some};
ghost use Rattle.exact_text.specs.Readings.{Gives};
ghost use Rattle.capture_file.specs.Device.{width, flag, channels, input, numbered, member};
ghost use Rattle.capture_file.specs.Device.{routable, output, target, outputs_of, rows_of, ports};
ghost use Rattle.capture_file.specs.Device.{device};

use crate::form::CaptureForm;
use crate::tags::{ALL_ROUTABLE, BITS_16, BITS_24, UNROUTED_MEMBER};
use exact_text::{Misread, Reads, byte, many, number16, number32, number64, slice};
use io_caps::{
    Choices, DeviceParts, Input, Inputs, Labels, Output, Outputs, Parent, Rate, Routable, Text,
    Width,
};
use map_entry::{Cell, Row, Rows};
use std::alloc::Global;

/// An output with its base row.
#[derive(Drop)]
pub(crate) struct Target {
    output: Output,
    row: Row,
}

#[tactic(auto, unfolding(crate::specs::Device::width))]
fn read_width(bytes: &[u8]) -> Result<(Width, &[u8]), Misread>
    ensures { Gives (λ x. (x.0, x.1.now)) result (width.read bytes.now) }
{
    let (bits, rest) = byte(bytes)?;
    match bits {
        BITS_16 => Ok((Width::L16, rest)),
        BITS_24 => Ok((Width::L24, rest)),
        _ => Err(Misread::NoReading),
    }
}

#[tactic(auto, unfolding(crate::specs::Device::flag))]
pub(crate) fn read_flag(bytes: &[u8]) -> Result<(bool, &[u8]), Misread>
    ensures { Gives (λ x. (x.0, x.1.now)) result (flag.read bytes.now) }
{
    let (flag, rest) = byte(bytes)?;
    match flag {
        0 => Ok((false, rest)),
        1 => Ok((true, rest)),
        _ => Err(Misread::NoReading),
    }
}

fn copied(alloc: Global, bytes: &[u8]) -> Result<Text, Misread>
    ensures { Gives (λ x. x) result (Some bytes.now) }
{
    Ok(Text::from_vec(Vec::from_slice(alloc, bytes)?))
}

/// The labels of a given number of channels: "1", "2", ..
fn labels_of(alloc: Global, channels: u8) -> Result<Labels, Misread>
    ensures { Gives (λ x. x) result (Some (numbered channels)) }
{
    let mut labels = Vec::new(alloc);
    for channel in 0..channels {
        let number = channel + 1;
        let label = format!(in alloc; "{number}")?;
        labels.push(Text::from_vec(label.into_bytes()))?;
    }
    Ok(Labels::from_vec(labels))
}

impl Reads<Input> for CaptureForm {
    ghost reading = { input.read };

    #[tactic(auto, unfolding(crate::specs::Device::input, crate::specs::Device::channels))]
    fn read(alloc: Global, bytes: &[u8]) -> Result<(Input, &[u8]), Misread> {
        let (len, rest) = byte(bytes)?;
        let (id, rest) = slice(rest, len as usize)?;
        let (channels, rest) = byte(rest)?;
        let (width, rest) = read_width(rest)?;
        let (payload_type, rest) = byte(rest)?;
        let (block_size, rest) = byte(rest)?;
        let (reordering, rest) = read_flag(rest)?;
        let input = Input {
            id: copied(alloc, id)?,
            name: copied(alloc, id)?,
            description: Text::new(alloc),
            labels: labels_of(alloc, channels)?,
            width,
            payload_type,
            block_size,
            reordering,
            parent: Parent::Nobody,
        };
        Ok((input, rest))
    }
}

impl Reads<Option<u8>> for CaptureForm {
    ghost reading = { member.read };

    #[tactic(auto, unfolding(crate::specs::Device::member))]
    fn read(_alloc: Global, bytes: &[u8]) -> Result<(Option<u8>, &[u8]), Misread> {
        let (member, rest) = byte(bytes)?;
        if member == UNROUTED_MEMBER {
            Ok((None, rest))
        } else {
            Ok((Some(member), rest))
        }
    }
}

#[tactic(auto, unfolding(crate::specs::Device::routable))]
fn read_routable(alloc: Global, bytes: &[u8]) -> Result<(Routable, &[u8]), Misread>
    ensures { Gives (λ x. (x.0, x.1.now)) result (routable.read bytes.now) }
{
    let (count, rest) = byte(bytes)?;
    if count == ALL_ROUTABLE {
        return Ok((Routable::All, rest));
    }
    let (members, rest) = many::<CaptureForm, Option<u8>>(alloc, count as usize, rest)?;
    Ok((Routable::Only(Choices::from_vec(members)), rest))
}

impl Reads<Output> for CaptureForm {
    ghost reading = { output.read };

    #[tactic(auto, unfolding(crate::specs::Device::output, crate::specs::Device::channels))]
    fn read(alloc: Global, bytes: &[u8]) -> Result<(Output, &[u8]), Misread> {
        let (len, rest) = byte(bytes)?;
        let (id, rest) = slice(rest, len as usize)?;
        let (channels, rest) = byte(rest)?;
        let (width, rest) = read_width(rest)?;
        let (payload_type, rest) = byte(rest)?;
        let (ssrc, rest) = number32(rest)?;
        let (routable, rest) = read_routable(alloc, rest)?;
        let output = Output {
            id: copied(alloc, id)?,
            name: copied(alloc, id)?,
            description: Text::new(alloc),
            labels: labels_of(alloc, channels)?,
            width,
            payload_type,
            ssrc,
            source_id: None,
            routable,
        };
        Ok((output, rest))
    }
}

impl Reads<Target> for CaptureForm {
    ghost reading = { target.read };

    #[tactic(auto, unfolding(crate::specs::Device::target))]
    fn read(alloc: Global, bytes: &[u8]) -> Result<(Target, &[u8]), Misread> {
        let (output, rest): (Output, &[u8]) = CaptureForm::read(alloc, bytes)?;
        let (row, rest) = many::<CaptureForm, Cell>(alloc, output.channels(), rest)?;
        let row = Row::from_vec(row);
        Ok((Target { output, row }, rest))
    }
}

/// The outputs and their rows, each by itself.
fn split(alloc: Global, targets: Vec<Target>) -> Result<(Outputs, Rows), Misread>
    ensures { Gives (λ x. x) result (Some (outputs_of targets.items, rows_of targets.items)) }
{
    let mut outputs = Vec::new(alloc);
    let mut rows = Vec::new(alloc);
    for target in targets {
        outputs.push(target.output)?;
        rows.push(target.row)?;
    }
    Ok((Outputs::from_vec(outputs), Rows::from_vec(rows)))
}

/// The parts of a device and its base rows, which need not be in order, and the bytes after them.
#[tactic(auto, unfolding(crate::specs::Device::device, crate::specs::Device::ports))]
pub(crate) fn read_device(
    alloc: Global,
    bytes: &[u8],
) -> Result<((DeviceParts, Rows), &[u8]), Misread>
    ensures { Gives (λ x. (x.0, x.1.now)) result (device.read bytes.now) }
{
    let (hz, rest) = number32(bytes)?;
    let (frames, rest) = number16(rest)?;
    let (base, rest) = number64(rest)?;
    let (hold, rest) = byte(rest)?;
    let (input_count, rest) = byte(rest)?;
    let (output_count, rest) = byte(rest)?;
    let (inputs, rest) = many::<CaptureForm, Input>(alloc, input_count as usize, rest)?;
    let (targets, rest) = many::<CaptureForm, Target>(alloc, output_count as usize, rest)?;
    let (outputs, rows) = split(alloc, targets)?;
    let parts = DeviceParts {
        rate: Rate { hz, frames },
        base,
        hold,
        inputs: Inputs::from_vec(inputs),
        outputs,
    };
    Ok(((parts, rows), rest))
}

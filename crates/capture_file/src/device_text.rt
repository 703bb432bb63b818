//! How a plain device is written.

ghost use Rattle.std.specs.Prelude.{◌≡◌, ◌++◌, ◌<◌, ◌∷◌, IfOk, OnOk, length};
ghost use Rattle.std.specs.List.{AllByRecursion, AllZip, flat_map};
ghost use Rattle.map_entry.specs.Setup.{HasCells, setup_of};
ghost use Rattle.exact_text.specs.Forms.{counted_text};
ghost use Rattle.exact_text.specs.Spellings.{Grows};
ghost use Rattle.capture_file.specs.Capture.{IsDeviceRecord};
ghost use Rattle.capture_file.specs.Device.{width, member, routable, input, output, target, device};
ghost use Rattle.capture_file.specs.Device.{targets_of, HoldsRoutable, HoldsInput, HoldsOutput};
ghost use Rattle.capture_file.specs.Device.{IsPlainDevice, IsSsrc, device_text};
ghost use Rattle.capture_file.specs.Tags.{device_tag};

use crate::replies::push_row;
use crate::tags;
use crate::writing::{put16, put32, put64};
use exact_text::push_record;
use io_caps::{Input, NoMemory, Output, Routable, Width};
use map_entry::{Row, Setup};
use std::alloc::Global;

#[tactic(auto, using(crate::proofs::Steps::put), unfolding(crate::specs::Device::width))]
fn push_width(out: &mut Vec<u8>, value: Width) -> Result<(), NoMemory>
    ensures ok { OnOk result (out.new.items ≡ out.old.items ++ width.text value) }
    ensures grows { Grows out.old.items out.new.items }
{
    let bits = match value {
        Width::L16 => tags::BITS_16,
        Width::L24 => tags::BITS_24,
    };
    out.push(bits)?;
    Ok(())
}

/// Writes bytes after their number.
#[tactic(auto, using(crate::proofs::Steps::put))]
fn push_counted(out: &mut Vec<u8>, text: &[u8]) -> Result<(), NoMemory>
    requires { length text.now < 256 }
    ensures ok { OnOk result (out.new.items ≡ out.old.items ++ counted_text.text text.now) }
    ensures grows { Grows out.old.items out.new.items }
{
    out.push(text.len() as u8)?;
    out.extend_from_slice(text)?;
    Ok(())
}

#[tactic(auto, using(crate::proofs::Steps::put), unfolding(crate::specs::Device::input, crate::specs::Device::channels, crate::specs::Device::flag))]
fn push_input(out: &mut Vec<u8>, value: &Input) -> Result<(), NoMemory>
    requires { HoldsInput value.now }
    ensures ok { OnOk result (out.new.items ≡ out.old.items ++ input.text value.now) }
    ensures grows { Grows out.old.items out.new.items }
{
    push_counted(out, value.id.as_slice())?;
    out.push(value.channels() as u8)?;
    push_width(out, value.width)?;
    out.push(value.payload_type)?;
    out.push(value.block_size)?;
    out.push(u8::from(value.reordering))?;
    Ok(())
}

#[tactic(auto, using(exact_text::proofs::Growth::growth))]
fn push_inputs(out: &mut Vec<u8>, inputs: &[Input]) -> Result<(), NoMemory>
    requires { AllByRecursion HoldsInput inputs.now }
    ensures ok { OnOk result (out.new.items ≡ out.old.items ++ flat_map input.text inputs.now) }
    ensures grows { Grows out.old.items out.new.items }
{
    for one in inputs {
        push_input(out, one)?;
    }
    Ok(())
}

#[tactic(auto, using(exact_text::proofs::Growth::growth), unfolding(crate::specs::Device::member))]
fn push_members(out: &mut Vec<u8>, members: &[Option<u8>]) -> Result<(), NoMemory>
    ensures ok { OnOk result (out.new.items ≡ out.old.items ++ flat_map member.text members.now) }
    ensures grows { Grows out.old.items out.new.items }
{
    for one in members {
        match one {
            Some(input) => out.push(*input)?,
            None => out.push(tags::UNROUTED_MEMBER)?,
        }
    }
    Ok(())
}

#[tactic(auto, using(crate::proofs::Steps::put), unfolding(crate::specs::Device::routable))]
fn push_routable(out: &mut Vec<u8>, value: &Routable) -> Result<(), NoMemory>
    requires { HoldsRoutable value.now }
    ensures ok { OnOk result (out.new.items ≡ out.old.items ++ routable.text value.now) }
    ensures grows { Grows out.old.items out.new.items }
{
    match value {
        Routable::All => {
            out.push(tags::ALL_ROUTABLE)?;
            Ok(())
        }
        Routable::Only(members) => {
            out.push(members.len() as u8)?;
            push_members(out, members.as_slice())?;
            Ok(())
        }
    }
}

#[tactic(auto, using(crate::proofs::Steps::put), unfolding(crate::specs::Device::output, crate::specs::Device::channels))]
fn push_output(out: &mut Vec<u8>, value: &Output) -> Result<(), NoMemory>
    requires { HoldsOutput value.now }
    ensures ok { OnOk result (out.new.items ≡ out.old.items ++ output.text value.now) }
    ensures ssrc { OnOk result (IsSsrc value.now) }
    ensures grows { Grows out.old.items out.new.items }
{
    push_counted(out, value.id.as_slice())?;
    out.push(value.channels() as u8)?;
    push_width(out, value.width)?;
    out.push(value.payload_type)?;
    put32(out, value.ssrc)?;
    push_routable(out, &value.routable)?;
    Ok(())
}

/// Writes outputs, each with its row.
#[tactic(auto, using(crate::proofs::Steps::put), unfolding(crate::specs::Device::target))]
fn push_targets(out: &mut Vec<u8>, outputs: &[Output], rows: &[Row]) -> Result<(), NoMemory>
    requires outputs { AllByRecursion HoldsOutput outputs.now }
    requires rows { AllZip HasCells outputs.now rows.now }
    ensures ok { OnOk result (out.new.items
        ≡ out.old.items ++ flat_map target.text (targets_of outputs.now rows.now)) }
    ensures ssrcs { OnOk result (AllByRecursion IsSsrc outputs.now) }
    ensures grows { Grows out.old.items out.new.items }
{
    match outputs {
        [] => Ok(()),
        [output, outputs @ ..] => match rows {
            [] => Ok(()),
            [row, rows @ ..] => {
                push_output(out, output)?;
                push_row(out, row.as_slice())?;
                push_targets(out, outputs, rows)?;
                Ok(())
            }
        },
    }
}

/// The body of the record of a plain device and its base rows.
#[tactic(auto, using(crate::proofs::Steps::put), unfolding(crate::specs::Device::device, crate::specs::Device::ports))]
fn device_body(alloc: Global, setup: &Setup) -> Result<Vec<u8>, NoMemory>
    requires { IsPlainDevice setup.now.device }
    ensures body { IfOk result (λ body. body.items
        ≡ device.text (setup.now.device, setup.now.rows)) }
    ensures said { OnOk result (IsDeviceRecord (setup_of setup.now.device setup.now.rows)
        (device_tag, device.text (setup.now.device, setup.now.rows))) }
{
    let device = &setup.device;
    let rate = device.rate();
    let mut body = Vec::new(alloc);
    put32(&mut body, rate.hz)?;
    put16(&mut body, rate.frames)?;
    put64(&mut body, device.base())?;
    body.push(device.hold())?;
    body.push(device.inputs())?;
    body.push(device.outputs())?;
    push_inputs(&mut body, device.input_slice())?;
    push_targets(&mut body, device.output_slice(), setup.rows.as_slice())?;
    Ok(body)
}

/// Writes the record of a plain device and its base rows after what is there. If memory runs out,
/// what was there stays, and more may follow it.
#[tactic(auto, using(exact_text::proofs::Growth::growth))]
pub fn write_device(alloc: Global, setup: &Setup, out: &mut Vec<u8>) -> Result<(), NoMemory>
    requires { IsPlainDevice setup.now.device }
    ensures ok { OnOk result (out.new.items
        ≡ out.old.items ++ device_text (setup.now.device, setup.now.rows)) }
    // It is read as the device and the rows.
    ensures said { OnOk result (IsDeviceRecord (setup_of setup.now.device setup.now.rows)
        (device_tag, device.text (setup.now.device, setup.now.rows))) }
    ensures grows { Grows out.old.items out.new.items }
{
    let body = device_body(alloc, setup)?;
    push_record(out, tags::DEVICE, &body)?;
    Ok(())
}

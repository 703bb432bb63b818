//! Bodies of activations that are posted.

ghost use Rattle.std.specs.Prelude.{◌≡◌, ◌<◌, ◌-◌, ◌++◌, IfOk, IfSome, OnOk, length, slice_get};
ghost use Rattle.std.specs.Option.{option_to_list};
ghost use Rattle.serde_json.specs.View.{view, members_view};
ghost use Rattle.map_entry.specs.Action.{output_change};
ghost use Rattle.channel_json.specs.Requests.{Answers, action_fault, action_in, activate_in};
ghost use Rattle.channel_json.specs.Requests.{cell_fault, cell_in, cells_fault, change_at};
ghost use Rattle.channel_json.specs.Requests.{changes_in, channel_in, output_at, output_fault};
ghost use Rattle.channel_json.specs.Requests.{outputs_fault, request_by, request_in, routed_in};
ghost use Rattle.channel_json.specs.Requests.{scheduling_at, scheduling_in, time_at, time_in};
ghost use Rattle.channel_json.specs.Requests.{when_at, when_in};

use crate::fields::{document, is_null_at, object_at, text_at, whole_at};
use crate::ids::{input_number, output_number};
use crate::values::output_id;
use crate::{BodyFault, Place};
use book_words::{Request, When};
use exact_text::Misread;
use io_caps::{Device, NoMemory, Or};
use itoa::Buffer;
use map_entry::{Action, Cell, Change, Changes, OutputChange};
use serde_json::{Map, Value};
use std::alloc::Global;
use tai_time::Tai;

/// How an activation is scheduled.
#[derive(Clone, Copy)]
pub(crate) enum Scheduling {
    Immediate,
    Absolute,
    Relative,
}

fn scheduling_of(word: &str) -> Option<Scheduling>
    ensures { result ≡ scheduling_in word.now }
{
    if word == "activate_immediate" {
        Some(Scheduling::Immediate)
    } else if word == "activate_scheduled_absolute" {
        Some(Scheduling::Absolute)
    } else if word == "activate_scheduled_relative" {
        Some(Scheduling::Relative)
    } else {
        None
    }
}

fn scheduling_at(activation: &Value) -> Option<Scheduling>
    ensures { result ≡ scheduling_at (view activation.now) }
{
    scheduling_of(text_at(activation, "mode")?)
}

/// The time of a text, where it is one.
fn time(text: &[u8]) -> Option<Tai>
    ensures { result ≡ time_in text.now }
{
    match Tai::read(text) {
        Ok(time) => Some(time),
        Err(_) => None,
    }
}

fn time_at(activation: &Value) -> Option<Tai>
    ensures { result ≡ time_at (view activation.now) }
{
    time(text_at(activation, "requested_time")?.as_bytes())
}

fn when_at(scheduling: Scheduling, activation: &Value) -> Option<When>
    ensures { result ≡ when_at scheduling (view activation.now) }
{
    match scheduling {
        Scheduling::Immediate => Some(When::Now),
        Scheduling::Absolute => Some(When::At(time_at(activation)?)),
        Scheduling::Relative => Some(When::After(time_at(activation)?)),
    }
}

/// When the activation of a document is to count, or the first fault.
fn when_of(value: &Value) -> Result<When, BodyFault>
    ensures { result ≡ when_in (view value.now) }
{
    if !value.is_object() {
        return Err(BodyFault::Shape(Place::Top));
    }
    let Some(activation) = object_at(value, "activation") else {
        return Err(BodyFault::Shape(Place::Activation));
    };
    let Some(scheduling) = scheduling_at(activation) else {
        return Err(BodyFault::Shape(Place::Mode));
    };
    match when_at(scheduling, activation) {
        Some(when) => Ok(when),
        None => Err(BodyFault::Shape(Place::Time)),
    }
}

/// The number of a channel's key.
fn channel_of(key: &str) -> Option<u8>
    ensures { result ≡ channel_in key.now }
{
    let number = key.parse::<u8>().ok()?;
    let mut buffer = Buffer::new();
    if buffer.format(number) == key {
        Some(number)
    } else {
        None
    }
}

/// A channel of an input that is there.
fn routed(device: &Device, value: &Value) -> Result<Cell, BodyFault>
    ensures { result ≡ routed_in device.now (view value.now) }
{
    let Some(id) = text_at(value, "input") else {
        return Err(BodyFault::Shape(Place::Cell));
    };
    let Some(channel) = whole_at(value, "channel_index", 255) else {
        return Err(BodyFault::Shape(Place::Cell));
    };
    match input_number(device, id.as_bytes()) {
        Some(input) => Ok(Cell::From {
            input,
            channel: channel as u8,
        }),
        None => Err(BodyFault::UnknownInput),
    }
}

/// What a channel is routed from, or the first fault.
fn cell_of(device: &Device, value: &Value) -> Result<Cell, BodyFault>
    ensures { result ≡ cell_in device.now (view value.now) }
{
    if !value.is_object() {
        return Err(BodyFault::Shape(Place::Cell));
    }
    if is_null_at(value, "input") && is_null_at(value, "channel_index") {
        return Ok(Cell::Unrouted);
    }
    routed(device, value)
}

/// The first fault of a channel's key and its cell.
fn cell_fault(device: &Device, key: &str, value: &Value) -> Option<BodyFault>
    ensures { result ≡ cell_fault device.now key.now (view value.now) }
{
    if channel_of(key).is_none() {
        return Some(BodyFault::Shape(Place::Cell));
    }
    cell_of(device, value).err()
}

/// The first fault of the channels of an output.
fn cells_fault(device: &Device, cells: &Map<String, Value>) -> Option<BodyFault>
    ensures { result ≡ cells_fault device.now (members_view cells.now.entries) }
{
    for (key, value) in cells.iter() {
        let fault = cell_fault(device, key.as_str(), value);
        if fault.is_some() {
            return fault;
        }
    }
    None
}

/// The first fault of an output's id and what stands under it.
fn output_fault(device: &Device, id: &str, value: &Value) -> Option<BodyFault>
    ensures { result ≡ output_fault device.now id.now (view value.now) }
{
    if output_number(device, id.as_bytes()).is_none() {
        return Some(BodyFault::UnknownOutput);
    }
    match value.as_object() {
        Some(cells) => cells_fault(device, cells),
        None => Some(BodyFault::Shape(Place::Output)),
    }
}

/// The first fault of the outputs of an action.
fn outputs_fault(device: &Device, outputs: &Map<String, Value>) -> Option<BodyFault>
    ensures { result ≡ outputs_fault device.now (members_view outputs.now.entries) }
{
    for (id, value) in outputs.iter() {
        let fault = output_fault(device, id.as_str(), value);
        if fault.is_some() {
            return fault;
        }
    }
    None
}

fn action_fault(device: &Device, action: &Value) -> Option<BodyFault>
    ensures { result ≡ action_fault device.now (view action.now) }
{
    outputs_fault(device, action.as_object()?)
}

/// The change of a channel, where its number is a key.
fn change_at(device: &Device, cells: &Value, channel: u8) -> Option<Change>
    ensures { result ≡ change_at device.now (view cells.now) channel }
{
    let value = cells.get(Buffer::new().format(channel))?;
    let cell = cell_of(device, value).ok()?;
    Some(Change { channel, cell })
}

/// Adds a change, where there is one.
fn push_change(changes: &mut Changes, change: Option<Change>) -> Result<(), NoMemory>
    ensures { OnOk result (changes.new ≡ changes.old ++ option_to_list change) }
{
    match change {
        Some(change) => changes.push(change),
        None => Ok(()),
    }
}

/// What is changed of an output, in the order of its channels.
fn changes_of(alloc: Global, device: &Device, cells: &Value) -> Result<Changes, NoMemory>
    ensures { IfOk result (λ made. made ≡ changes_in device.now (view cells.now)) }
{
    let mut changes = Changes::new(alloc);
    for channel in 0..256u16 {
        let change = change_at(device, cells, channel as u8);
        push_change(&mut changes, change)?;
    }
    Ok(changes)
}

fn output_change(
    alloc: Global,
    device: &Device,
    output: u8,
    cells: &Value,
) -> Result<OutputChange, NoMemory>
    ensures { IfOk result (λ made. made ≡ output_change output
        (changes_in device.now (view cells.now))) }
{
    let changes = changes_of(alloc, device, cells)?;
    Ok(OutputChange { output, changes })
}

/// What is changed of the output of a number, where its id is a key.
fn output_at(
    alloc: Global,
    device: &Device,
    outputs: &Value,
    output: u8,
) -> Result<Option<OutputChange>, NoMemory>
    ensures value { IfOk result (λ made. made ≡ output_at device.now (view outputs.now) output) }
    ensures number { IfOk result (λ made. IfSome made (λ change. change.output ≡ output)) }
{
    match outputs.get(output_id(device, output)) {
        Some(cells) => Ok(Some(output_change(alloc, device, output, cells)?)),
        None => Ok(None),
    }
}

/// Adds what is changed of an output after those of lower numbers, where something is.
fn push_output(action: &mut Action, change: Option<OutputChange>) -> Result<(), NoMemory>
    requires { IfSome change (λ c. IfSome (slice_get action.old (length action.old - 1))
        (λ last. last.output < c.output)) }
    ensures { OnOk result (action.new ≡ action.old ++ option_to_list change) }
{
    match change {
        Some(change) => action.push(change),
        None => Ok(()),
    }
}

/// What is changed, in the order of the device's outputs.
fn action_of(alloc: Global, device: &Device, outputs: &Value) -> Result<Action, NoMemory>
    ensures { IfOk result (λ made. made ≡ action_in device.now (view outputs.now)) }
{
    let mut action = Action::new(alloc);
    for output in 0..device.outputs() {
        let change = output_at(alloc, device, outputs, output)?;
        push_output(&mut action, change)?;
    }
    Ok(action)
}

/// The action of a document as a request, or the first fault.
fn activate(
    alloc: Global,
    device: &Device,
    value: &Value,
    when: When,
) -> Result<Request, Or<BodyFault>>
    ensures { Answers (activate_in device.now (view value.now) when) result }
{
    let Some(outputs) = object_at(value, "action") else {
        return Err(Or::Fault(BodyFault::Shape(Place::Action)));
    };
    if let Some(fault) = action_fault(device, outputs) {
        return Err(Or::Fault(fault));
    }
    let action = action_of(alloc, device, outputs)?;
    Ok(Request::Activate { when, action })
}

/// The activation that the body of a POST asks for, or the first fault. The outputs are put in the
/// order of the device, and the channels of each in that of their numbers. Running out of memory
/// says nothing of the text.
pub fn request_of(alloc: Global, device: &Device, text: &[u8]) -> Result<Request, Or<BodyFault>>
    ensures { Answers (request_by device.now text.now) result }
{
    let value = match document(alloc, text) {
        Ok(value) => value,
        Err(Misread::NoReading) => return Err(Or::Fault(BodyFault::NotJson)),
        Err(Misread::NoMemory) => return Err(Or::NoMemory),
    };
    match when_of(&value) {
        Ok(when) => activate(alloc, device, &value, when),
        Err(fault) => Err(Or::Fault(fault)),
    }
}

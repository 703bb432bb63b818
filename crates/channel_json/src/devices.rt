//! Devices as JSON.

ghost use Rattle.std.specs.Prelude.{◌≡◌, List, Some, None, codes, replicate};
ghost use Rattle.exact_text.specs.Readings.{Gives};
ghost use Rattle.serde_json.specs.Find.{get};
ghost use Rattle.serde_json.specs.View.{view};
ghost use Rattle.channel_json.specs.Fields.{if_there};
ghost use Rattle.io_caps.specs.declared.port.Parent.TheVariants.{Nobody};
ghost use Rattle.io_caps.specs.declared.port.Routable.TheVariants.{All as Anything};
ghost use Rattle.map_entry.specs.declared.cell.Cell.TheVariants.{Unrouted};
ghost use Rattle.map_entry.specs.Setup.{setup_of};
ghost use Rattle.channel_json.specs.Devices.{BuildsSetup, ReadsDevice, cell_in, choice_in};
ghost use Rattle.channel_json.specs.Devices.{input_in, input_place, inputs_at, label_in, labels_at};
ghost use Rattle.channel_json.specs.Devices.{outputs_of, parent_in, rate_in, routable_in, row_in};
ghost use Rattle.channel_json.specs.Devices.{rows_of, setup_in, source_in, target_in, targets_at};
ghost use Rattle.channel_json.specs.Devices.{uuid_in, width_at};

use crate::DeviceJsonFault;
use crate::fields::{
    Form, copied, document, each, flag_or, list_at, named, named_or, text_at, whole_at, whole_or,
};
use crate::ids::input_place as place_in;
use crate::uuids::number_of;
use exact_text::Misread;
use io_caps::{
    Choices, Device, DeviceParts, Input, Inputs, Labels, ListOf, Or, Output, Outputs, Parent, Rate,
    Routable, Text, Width,
};
use map_entry::{Cell, Row, Rows, Setup};
use serde_json::Value;
use std::alloc::Global;

/// How channels and inputs are read.
#[derive(Clone, Copy)]
struct Plain;

/// How outputs are read, which name inputs by their ids.
#[derive(Clone, Copy)]
struct Wired<'a> {
    inputs: &'a Inputs,
}

/// An output with its base row.
#[derive(Drop)]
pub(crate) struct Target {
    pub(crate) output: Output,
    pub(crate) row: Row,
}

impl Form<Text> for Plain {
    ghost reading = { λ _ d. label_in d };

    fn read(&self, alloc: Global, value: &Value) -> Result<Text, Misread> {
        named(alloc, value, "label")
    }
}

fn labels(alloc: Global, value: &Value) -> Result<Labels, Misread>
    ensures { Gives (λ x. x) result (labels_at (view value.now)) }
{
    match list_at(value, "channels") {
        Some(list) => each(alloc, &Plain, list.as_slice()),
        None => Err(Misread::NoReading),
    }
}

fn width(value: &Value) -> Option<Width>
    ensures { result ≡ width_at (view value.now) }
{
    match whole_at(value, "width", 255)? {
        16 => Some(Width::L16),
        24 => Some(Width::L24),
        _ => None,
    }
}

fn uuid(value: &Value) -> Option<u128>
    ensures { result ≡ uuid_in (view value.now) }
{
    number_of(value.as_str()?)
}

fn parent(value: &Value) -> Option<Parent>
    ensures { result ≡ parent_in (view value.now) }
{
    if value.is_null() {
        return Some(Parent::Nobody);
    }
    let kind = text_at(value, "type")?;
    let id = uuid(value.get("id")?)?;
    if kind == "source" {
        Some(Parent::Source(id))
    } else if kind == "receiver" {
        Some(Parent::Receiver(id))
    } else {
        None
    }
}

fn parent_at(value: &Value) -> Option<Parent>
    ensures { result ≡ if_there Nobody parent_in (get (codes "parent") (view value.now)) }
{
    match value.get("parent") {
        None => Some(Parent::Nobody),
        Some(member) => parent(member),
    }
}

fn source(value: &Value) -> Option<Option<u128>>
    ensures { result ≡ source_in (view value.now) }
{
    if value.is_null() {
        Some(None)
    } else {
        Some(Some(uuid(value)?))
    }
}

fn source_at(value: &Value) -> Option<Option<u128>>
    ensures { result ≡ if_there None source_in (get (codes "source_id") (view value.now)) }
{
    match value.get("source_id") {
        None => Some(None),
        Some(member) => source(member),
    }
}

impl Form<Input> for Plain {
    ghost reading = { λ _ d. input_in d };

    #[tactic(auto, unfolding(crate::specs::Devices::input_in))]
    fn read(&self, alloc: Global, value: &Value) -> Result<Input, Misread> {
        let id = named(alloc, value, "id")?;
        let labels = labels(alloc, value)?;
        let width = width(value).ok_or(Misread::NoReading)?;
        let payload_type = whole_at(value, "payload_type", 255).ok_or(Misread::NoReading)?;
        let name = named_or(alloc, value, "name", id.as_slice())?;
        let description = named_or(alloc, value, "description", &[])?;
        let block_size = whole_or(value, "block_size", 255, 1).ok_or(Misread::NoReading)?;
        let reordering = flag_or(value, "reordering", true).ok_or(Misread::NoReading)?;
        let parent = parent_at(value).ok_or(Misread::NoReading)?;
        Ok(Input {
            id,
            name,
            description,
            labels,
            width,
            payload_type: payload_type as u8,
            block_size: block_size as u8,
            reordering,
            parent,
        })
    }
}

/// The number of the input of an id, which ends at 255.
fn input_place(inputs: &[Input], id: &str) -> Option<u8>
    ensures { result ≡ input_place inputs.now id.now }
{
    match place_in(inputs, id.as_bytes()) {
        Some(place) => Some(place.min(255) as u8),
        None => None,
    }
}

impl Form<Option<u8>> for Wired<'_> {
    ghost reading = { λ w d. choice_in w.inputs.now d };

    fn read(&self, _alloc: Global, value: &Value) -> Result<Option<u8>, Misread> {
        if value.is_null() {
            return Ok(None);
        }
        let id = value.as_str().ok_or(Misread::NoReading)?;
        let place = input_place(self.inputs.as_slice(), id).ok_or(Misread::NoReading)?;
        Ok(Some(place))
    }
}

impl Form<Routable> for Wired<'_> {
    ghost reading = { λ w d. routable_in w.inputs.now d };

    fn read(&self, alloc: Global, value: &Value) -> Result<Routable, Misread> {
        if value.is_null() {
            return Ok(Routable::All);
        }
        let list = value.as_array().ok_or(Misread::NoReading)?;
        let choices: Choices = each(alloc, self, list.as_slice())?;
        Ok(Routable::Only(choices))
    }
}

impl Form<Cell> for Wired<'_> {
    ghost reading = { λ w d. cell_in w.inputs.now d };

    fn read(&self, _alloc: Global, value: &Value) -> Result<Cell, Misread> {
        if value.is_null() {
            return Ok(Cell::Unrouted);
        }
        let id = text_at(value, "input").ok_or(Misread::NoReading)?;
        let input = input_place(self.inputs.as_slice(), id).ok_or(Misread::NoReading)?;
        let channel = whole_at(value, "channel_index", 255).ok_or(Misread::NoReading)?;
        Ok(Cell::From {
            input,
            channel: channel as u8,
        })
    }
}

fn routable_at(alloc: Global, wired: &Wired, value: &Value) -> Result<Routable, Misread>
    ensures { Gives (λ x. x) result (if_there Anything (routable_in wired.now.inputs.now)
        (get (codes "routable_inputs") (view value.now))) }
{
    match value.get("routable_inputs") {
        None => Ok(Routable::All),
        Some(member) => wired.read(alloc, member),
    }
}

fn unrouted(alloc: Global, channels: usize) -> Result<Row, Misread>
    ensures { Gives (λ x. x) result (Some (replicate channels Unrouted)) }
{
    let mut row = Vec::new(alloc);
    row.resize(channels, Cell::Unrouted)?;
    Ok(Row::from_vec(row))
}

fn row(alloc: Global, wired: &Wired, value: &Value) -> Result<Row, Misread>
    ensures { Gives (λ x. x) result (row_in wired.now.inputs.now (view value.now)) }
{
    let list = value.as_array().ok_or(Misread::NoReading)?;
    each(alloc, wired, list.as_slice())
}

fn row_at(alloc: Global, wired: &Wired, value: &Value, channels: usize) -> Result<Row, Misread>
    ensures { Gives (λ x. x) result (if_there (replicate channels Unrouted)
        (row_in wired.now.inputs.now) (get (codes "map") (view value.now))) }
{
    match value.get("map") {
        None => unrouted(alloc, channels),
        Some(member) => row(alloc, wired, member),
    }
}

impl Form<Target> for Wired<'_> {
    ghost reading = { λ w d. target_in w.inputs.now d };

    #[tactic(auto, unfolding(crate::specs::Devices::target_in))]
    fn read(&self, alloc: Global, value: &Value) -> Result<Target, Misread> {
        let id = named(alloc, value, "id")?;
        let labels = labels(alloc, value)?;
        let width = width(value).ok_or(Misread::NoReading)?;
        let payload_type = whole_at(value, "payload_type", 255).ok_or(Misread::NoReading)?;
        let ssrc = whole_at(value, "ssrc", u64::from(u32::MAX)).ok_or(Misread::NoReading)?;
        let name = named_or(alloc, value, "name", id.as_slice())?;
        let description = named_or(alloc, value, "description", &[])?;
        let source_id = source_at(value).ok_or(Misread::NoReading)?;
        let routable = routable_at(alloc, self, value)?;
        let row = row_at(alloc, self, value, labels.len())?;
        let output = Output {
            id,
            name,
            description,
            labels,
            width,
            payload_type: payload_type as u8,
            ssrc: ssrc as u32,
            source_id,
            routable,
        };
        Ok(Target { output, row })
    }
}

/// The outputs and their rows, each by itself.
fn split(alloc: Global, targets: Vec<Target>) -> Result<(Outputs, Rows), Misread>
    ensures { Gives (λ x. x) result (Some (outputs_of targets.items, rows_of targets.items)) }
{
    let mut outputs = Vec::new(alloc);
    let mut rows = Vec::new(alloc);
    for target in targets {
        outputs.push(target.output)?;
        rows.push(target.row)?;
    }
    Ok((Outputs::from_vec(outputs), Rows::from_vec(rows)))
}

#[tactic(auto, unfolding(crate::specs::Devices::rate_in))]
fn rate(value: &Value) -> Option<Rate>
    ensures { result ≡ rate_in (view value.now) }
{
    let hz = whole_at(value, "rate", u64::from(u32::MAX))?;
    let frames = whole_at(value, "frames", u64::from(u16::MAX))?;
    Some(Rate {
        hz: hz as u32,
        frames: frames as u16,
    })
}

fn inputs(alloc: Global, value: &Value) -> Result<Inputs, Misread>
    ensures { Gives (λ x. x) result (inputs_at (view value.now)) }
{
    match list_at(value, "inputs") {
        Some(list) => each(alloc, &Plain, list.as_slice()),
        None => Err(Misread::NoReading),
    }
}

/// The outputs with their base rows.
fn targets(alloc: Global, inputs: &Inputs, value: &Value) -> Result<ListOf<Target>, Misread>
    ensures { Gives (λ x. x) result (targets_at inputs.now (view value.now)) }
{
    let wired = Wired { inputs };
    match list_at(value, "outputs") {
        Some(list) => each(alloc, &wired, list.as_slice()),
        None => Err(Misread::NoReading),
    }
}

/// The parts of a device and its base rows, which need not be in order.
#[tactic(auto, unfolding(crate::specs::Devices::setup_in))]
fn setup_parts(alloc: Global, value: &Value) -> Result<(DeviceParts, Rows), Misread>
    ensures { Gives (λ x. setup_of x.0 x.1) result (setup_in (view value.now)) }
{
    let rate = rate(value).ok_or(Misread::NoReading)?;
    let base = whole_or(value, "base", u64::MAX, 0).ok_or(Misread::NoReading)?;
    let hold = whole_or(value, "hold", 255, 0).ok_or(Misread::NoReading)?;
    let inputs = inputs(alloc, value)?;
    let targets = targets(alloc, &inputs, value)?;
    let (outputs, rows) = split(alloc, targets.into_vec())?;
    let parts = DeviceParts {
        rate,
        base,
        hold: hold as u8,
        inputs,
        outputs,
    };
    Ok((parts, rows))
}

/// The setup of these parts.
fn build(alloc: Global, parts: DeviceParts, rows: Rows) -> Result<Setup, Or<DeviceJsonFault>>
    ensures { BuildsSetup (setup_of parts rows) result }
{
    let device = match Device::build(alloc, parts) {
        Ok(device) => device,
        Err(Or::Fault(fault)) => return Err(Or::Fault(DeviceJsonFault::Device(fault))),
        Err(Or::NoMemory) => return Err(Or::NoMemory),
    };
    match Setup::build(alloc, device, rows) {
        Ok(setup) => Ok(setup),
        Err(Or::Fault(fault)) => Err(Or::Fault(DeviceJsonFault::Rows(fault))),
        Err(Or::NoMemory) => Err(Or::NoMemory),
    }
}

/// The device with its base rows that a text says. Keys that are not named are not looked at. It is
/// refused with the first fault, in the order of [`DeviceJsonFault`]; running out of memory says
/// nothing of the text.
pub fn device_of(alloc: Global, text: &[u8]) -> Result<Setup, Or<DeviceJsonFault>>
    ensures { ReadsDevice text.now result }
{
    let value = match document(alloc, text) {
        Ok(value) => value,
        Err(Misread::NoReading) => return Err(Or::Fault(DeviceJsonFault::NotJson)),
        Err(Misread::NoMemory) => return Err(Or::NoMemory),
    };
    match setup_parts(alloc, &value) {
        Ok((parts, rows)) => build(alloc, parts, rows),
        Err(Misread::NoReading) => Err(Or::Fault(DeviceJsonFault::Shape)),
        Err(Misread::NoMemory) => Err(Or::NoMemory),
    }
}

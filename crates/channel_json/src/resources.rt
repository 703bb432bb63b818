//! Bodies of the fixed resources.

ghost use Rattle.std.specs.Prelude.{◌≡◌, ◌++◌, IfOk, OnOk, OnErr, map};
ghost use Rattle.serde_json.specs.Data.{null, string};
ghost use Rattle.serde_json.specs.View.{view};
ghost use Rattle.channel_json.specs.Resources.{properties_data, parent_data, fed_data};
ghost use Rattle.channel_json.specs.Resources.{channels_data, label_data, input_caps_data};
ghost use Rattle.channel_json.specs.Resources.{source_data, choice_data, routable_data};
ghost use Rattle.channel_json.specs.Resources.{output_caps_data, input_data, output_data, io_data};
ghost use Rattle.channel_json.specs.Resources.{name_data, IsThere, resource_data, resource_text};
ghost use Rattle.channel_json.specs.Uuids.{uuid_text};
ghost use Rattle.channel_json.specs.Values.{array_of, object_of};

use crate::Resource;
use crate::uuids::text_of;
use crate::values::{append, id_text, input_id, shown};
use io_caps::{Device, Input, NoMemory, Output, Parent, Routable, Text};
use serde_json::{Map, Value, json, put};
use std::alloc::{AllocError, Global};
use uuid::Uuid;

fn properties_value(alloc: Global, name: &Text, description: &Text) -> Result<Value, AllocError>
    ensures { IfOk result (λ v. view v ≡ properties_data name.now description.now) }
{
    let (name, description) = (shown(name.as_slice()), shown(description.as_slice()));
    json!(in alloc; {"description": description, "name": name})
}

fn fed_value(alloc: Global, id: u128, kind: &str) -> Result<Value, AllocError>
    ensures { IfOk result (λ v. view v ≡ fed_data (string (uuid_text id)) (string kind.now)) }
{
    let mut buffer = Uuid::encode_buffer();
    json!(in alloc; {"id": text_of(id, &mut buffer), "type": kind})
}

fn parent_value(alloc: Global, parent: Parent) -> Result<Value, AllocError>
    ensures { IfOk result (λ v. view v ≡ parent_data parent) }
{
    match parent {
        Parent::Nobody => json!(in alloc; {"id": null, "type": null}),
        Parent::Source(id) => fed_value(alloc, id, "source"),
        Parent::Receiver(id) => fed_value(alloc, id, "receiver"),
    }
}

fn label_value(alloc: Global, label: &Text) -> Result<Value, AllocError>
    ensures { IfOk result (λ v. view v ≡ label_data label.now) }
{
    json!(in alloc; {"label": shown(label.as_slice())})
}

fn channels_value(alloc: Global, labels: &[Text]) -> Result<Value, AllocError>
    ensures { IfOk result (λ v. view v ≡ channels_data labels.now) }
{
    let mut list = Vec::new(alloc);
    for label in labels {
        list.push(label_value(alloc, label)?)?;
    }
    Ok(Value::Array(list))
}

fn input_caps_value(alloc: Global, input: &Input) -> Result<Value, AllocError>
    ensures { IfOk result (λ v. view v ≡ input_caps_data input.now) }
{
    json!(in alloc; {"block_size": input.block_size, "reordering": input.reordering})
}

fn source_value(alloc: Global, source: Option<u128>) -> Result<Value, AllocError>
    ensures { IfOk result (λ v. view v ≡ source_data source) }
{
    match source {
        None => Ok(Value::Null),
        Some(id) => {
            let mut buffer = Uuid::encode_buffer();
            Value::try_from_str(alloc, text_of(id, &mut buffer))
        }
    }
}

fn choice_value(alloc: Global, device: &Device, choice: Option<u8>) -> Result<Value, AllocError>
    ensures { IfOk result (λ v. view v ≡ choice_data device.now choice) }
{
    match choice {
        None => Ok(Value::Null),
        Some(input) => Value::try_from_str(alloc, input_id(device, input)),
    }
}

fn choices_value(
    alloc: Global,
    device: &Device,
    choices: &[Option<u8>],
) -> Result<Vec<Value>, AllocError>
    ensures { IfOk result (λ list. map view list.items ≡ map (choice_data device.now) choices.now) }
{
    let mut list = Vec::new(alloc);
    for choice in choices {
        list.push(choice_value(alloc, device, *choice)?)?;
    }
    Ok(list)
}

fn output_caps_value(alloc: Global, device: &Device, output: &Output) -> Result<Value, AllocError>
    ensures { IfOk result (λ v. view v ≡ output_caps_data device.now output.now) }
{
    let routable = match &output.routable {
        Routable::All => Value::Null,
        Routable::Only(choices) => {
            Value::Array(choices_value(alloc, device, choices.as_slice())?)
        }
    };
    json!(in alloc; {"routable_inputs": routable})
}

fn input_value(alloc: Global, input: &Input) -> Result<Value, AllocError>
    ensures { IfOk result (λ v. view v ≡ input_data input.now) }
{
    let caps = input_caps_value(alloc, input)?;
    let channels = channels_value(alloc, input.labels.as_slice())?;
    let parent = parent_value(alloc, input.parent)?;
    let properties = properties_value(alloc, &input.name, &input.description)?;
    json!(in alloc; {
        "caps": caps, "channels": channels, "parent": parent, "properties": properties
    })
}

fn output_value(alloc: Global, device: &Device, output: &Output) -> Result<Value, AllocError>
    ensures { IfOk result (λ v. view v ≡ output_data device.now output.now) }
{
    let caps = output_caps_value(alloc, device, output)?;
    let channels = channels_value(alloc, output.labels.as_slice())?;
    let properties = properties_value(alloc, &output.name, &output.description)?;
    let source = source_value(alloc, output.source_id)?;
    json!(in alloc; {
        "caps": caps, "channels": channels, "properties": properties, "source_id": source
    })
}

/// The inputs, each under its id.
fn inputs_value(alloc: Global, device: &Device) -> Result<Value, AllocError>
    ensures { IfOk result (λ v. view v
        ≡ object_of (map (λ i. (i.id, input_data i)) device.now.inputs)) }
{
    let mut map = Map::new(alloc);
    for input in device.input_slice() {
        let value = input_value(alloc, input)?;
        put(&mut map, alloc, id_text(input.id.as_slice()), value)?;
    }
    Ok(Value::Object(map))
}

/// The outputs, each under its id.
fn outputs_value(alloc: Global, device: &Device) -> Result<Value, AllocError>
    ensures { IfOk result (λ v. view v
        ≡ object_of (map (λ o. (o.id, output_data device.now o)) device.now.outputs)) }
{
    let mut map = Map::new(alloc);
    for output in device.output_slice() {
        let value = output_value(alloc, device, output)?;
        put(&mut map, alloc, id_text(output.id.as_slice()), value)?;
    }
    Ok(Value::Object(map))
}

fn io_value(alloc: Global, device: &Device) -> Result<Value, AllocError>
    ensures { IfOk result (λ v. view v ≡ io_data device.now) }
{
    let inputs = inputs_value(alloc, device)?;
    let outputs = outputs_value(alloc, device)?;
    json!(in alloc; {"inputs": inputs, "outputs": outputs})
}

/// A name followed by a slash.
fn name_value(alloc: Global, name: &str) -> Result<Value, AllocError>
    ensures { IfOk result (λ v. view v ≡ name_data name.now) }
{
    let mut text = String::from_str(alloc, name)?;
    text.push_str("/")?;
    Ok(Value::String(text))
}

/// Names of resources, each followed by a slash.
fn names_value(alloc: Global, names: &[&str]) -> Result<Value, AllocError>
    ensures { IfOk result (λ v. view v ≡ array_of (map (λ name. name_data name.now) names.now)) }
{
    let mut list = Vec::new(alloc);
    for name in names {
        list.push(name_value(alloc, name)?)?;
    }
    Ok(Value::Array(list))
}

fn input_names(alloc: Global, device: &Device) -> Result<Value, AllocError>
    ensures { IfOk result (λ v. view v ≡ array_of (map (λ i. name_data i.id) device.now.inputs)) }
{
    let mut list = Vec::new(alloc);
    for input in device.input_slice() {
        list.push(name_value(alloc, id_text(input.id.as_slice()))?)?;
    }
    Ok(Value::Array(list))
}

fn output_names(alloc: Global, device: &Device) -> Result<Value, AllocError>
    ensures { IfOk result (λ v. view v ≡ array_of (map (λ o. name_data o.id) device.now.outputs)) }
{
    let mut list = Vec::new(alloc);
    for output in device.output_slice() {
        list.push(name_value(alloc, id_text(output.id.as_slice()))?)?;
    }
    Ok(Value::Array(list))
}

fn resource_value(alloc: Global, device: &Device, resource: Resource) -> Result<Value, AllocError>
    requires { IsThere device.now resource }
    ensures { IfOk result (λ v. view v ≡ resource_data device.now resource) }
{
    match resource {
        Resource::Slash => names_value(alloc, &["x-nmos"]),
        Resource::Nmos => names_value(alloc, &["channelmapping"]),
        Resource::Mapping => names_value(alloc, &["v1.0"]),
        Resource::Version => names_value(alloc, &["inputs", "outputs", "map", "io"]),
        Resource::Inputs => input_names(alloc, device),
        Resource::Outputs => output_names(alloc, device),
        Resource::Input => names_value(alloc, &["properties", "parent", "channels", "caps"]),
        Resource::Output => names_value(alloc, &["properties", "sourceid", "channels", "caps"]),
        Resource::InputProperties(n) => {
            let input = device.input(n);
            properties_value(alloc, &input.name, &input.description)
        }
        Resource::OutputProperties(n) => {
            let output = device.output(n);
            properties_value(alloc, &output.name, &output.description)
        }
        Resource::Parent(n) => parent_value(alloc, device.input(n).parent),
        Resource::InputChannels(n) => channels_value(alloc, device.input(n).labels.as_slice()),
        Resource::OutputChannels(n) => channels_value(alloc, device.output(n).labels.as_slice()),
        Resource::InputCaps(n) => input_caps_value(alloc, device.input(n)),
        Resource::SourceId(n) => source_value(alloc, device.output(n).source_id),
        Resource::OutputCaps(n) => output_caps_value(alloc, device, device.output(n)),
        Resource::Map => names_value(alloc, &["activations", "active"]),
        Resource::Io => io_value(alloc, device),
    }
}

/// Appends the value of a resource that is there. If memory runs out, `out` stays as it was.
pub fn resource_body(
    alloc: Global,
    device: &Device,
    resource: Resource,
    out: &mut Vec<u8>,
) -> Result<(), NoMemory>
    requires { IsThere device.now resource }
    ensures ok { OnOk result (out.new.items ≡ out.old.items ++ resource_text device.now resource) }
    ensures err { OnErr result (out.new.items ≡ out.old.items) }
{
    let value = resource_value(alloc, device, resource)?;
    append(alloc, &value, out)
}

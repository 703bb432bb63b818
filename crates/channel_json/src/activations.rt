//! Bodies of activations and of the active map.

ghost use Rattle.std.specs.Prelude.{◌≡◌, ◌++◌, IfOk, OnOk, OnErr};
ghost use Rattle.io_caps.specs.Rate.{IsRate};
ghost use Rattle.serde_json.specs.Data.{null, string};
ghost use Rattle.serde_json.specs.View.{view};
ghost use Rattle.channel_json.specs.Activations.{time_data, start_data, mode_text, requested_data};
ghost use Rattle.channel_json.specs.Activations.{activation_data, last_data, joined_data};
ghost use Rattle.channel_json.specs.Activations.{moment_data, item_data, accepted_data};
ghost use Rattle.channel_json.specs.Activations.{pending_data, active_data, accepted_text};
ghost use Rattle.channel_json.specs.Activations.{item_text, pending_text, active_text};

use crate::cells::{action_value, map_value};
use crate::values::{append, shown};
use book_words::{Activation, ActiveView, PendingItem, PendingItems, When};
use io_caps::{Device, NoMemory, Rate};
use itoa::Buffer;
use map_entry::{Action, OutputChange};
use serde_json::{Map, Value, json, put};
use std::alloc::{AllocError, Global};
use tai_time::{Tai, moment_start};

/// The text of a time.
fn time_value(alloc: Global, time: Tai) -> Result<Value, NoMemory>
    ensures { IfOk result (λ v. view v ≡ time_data time) }
{
    let mut text = Vec::new(alloc);
    time.write(&mut text)?;
    Ok(Value::try_from_str(alloc, shown(text.as_slice()))?)
}

/// The start of a frame of a tick, and null where that is past the end of time.
fn start_value(alloc: Global, rate: Rate, tick: u64, offset: u16) -> Result<Value, NoMemory>
    requires { IsRate rate }
    ensures { IfOk result (λ v. view v ≡ start_data rate tick offset) }
{
    match moment_start(tick, offset, rate) {
        Some(time) => time_value(alloc, time),
        None => Ok(Value::Null),
    }
}

fn mode_text(when: &When) -> &'static str
    ensures { result.now ≡ mode_text when.now }
{
    match when {
        When::Now => "activate_immediate",
        When::At(_) => "activate_scheduled_absolute",
        When::After(_) => "activate_scheduled_relative",
    }
}

/// The time that was asked for.
fn requested_value(alloc: Global, when: &When) -> Result<Value, NoMemory>
    ensures { IfOk result (λ v. view v ≡ requested_data when.now) }
{
    match when {
        When::Now => Ok(Value::Null),
        When::At(time) => time_value(alloc, *time),
        When::After(time) => time_value(alloc, *time),
    }
}

fn moment_value(
    alloc: Global,
    time: Value,
    mode: &str,
    requested: Value,
) -> Result<Value, AllocError>
    ensures { IfOk result (λ v. view v
        ≡ moment_data (view time) (string mode.now) (view requested)) }
{
    json!(in alloc; {"activation_time": time, "mode": mode, "requested_time": requested})
}

/// When an activation counts, and how that was asked for.
fn activation_value(
    alloc: Global,
    device: &Device,
    when: &When,
    tick: u64,
    offset: u16,
) -> Result<Value, NoMemory>
    ensures { IfOk result (λ v. view v ≡ activation_data device.now when.now tick offset) }
{
    let time = start_value(alloc, device.rate(), tick, offset)?;
    let requested = requested_value(alloc, when)?;
    Ok(moment_value(alloc, time, mode_text(when), requested)?)
}

fn no_activation(alloc: Global) -> Result<Value, AllocError>
    ensures { IfOk result (λ v. view v ≡ moment_data null null null) }
{
    json!(in alloc; {"activation_time": null, "mode": null, "requested_time": null})
}

/// The activation that the active map shows: nulls where there is none.
fn last_value(alloc: Global, device: &Device, last: &Option<Activation>) -> Result<Value, NoMemory>
    ensures { IfOk result (λ v. view v ≡ last_data device.now last.now) }
{
    match last {
        None => Ok(no_activation(alloc)?),
        Some(last) => activation_value(alloc, device, &last.when, last.tick, last.offset),
    }
}

fn joined_value(alloc: Global, action: Value, activation: Value) -> Result<Value, AllocError>
    ensures { IfOk result (λ v. view v ≡ joined_data (view action) (view activation)) }
{
    json!(in alloc; {"action": action, "activation": activation})
}

/// What is changed, and when.
fn item_value(
    alloc: Global,
    device: &Device,
    when: &When,
    tick: u64,
    offset: u16,
    action: &[OutputChange],
) -> Result<Value, NoMemory>
    ensures { IfOk result (λ v. view v ≡ item_data device.now when.now tick offset action.now) }
{
    let action = action_value(alloc, device, action)?;
    let activation = activation_value(alloc, device, when, tick, offset)?;
    Ok(joined_value(alloc, action, activation)?)
}

/// A pending activation.
fn pending_item_value(alloc: Global, device: &Device, item: &PendingItem) -> Result<Value, NoMemory>
    ensures { IfOk result (λ v. view v ≡ item_data device.now item.now.when item.now.tick
        item.now.offset item.now.action) }
{
    let action = item.action.as_slice();
    item_value(alloc, device, &item.when, item.tick, item.offset, action)
}

/// The pending activations, each under its id.
fn pending_value(alloc: Global, device: &Device, items: &[PendingItem]) -> Result<Value, NoMemory>
    ensures { IfOk result (λ v. view v ≡ pending_data device.now items.now) }
{
    let mut map = Map::new(alloc);
    for item in items {
        let value = pending_item_value(alloc, device, item)?;
        put(&mut map, alloc, Buffer::new().format(item.id), value)?;
    }
    Ok(Value::Object(map))
}

fn accepted_value(
    alloc: Global,
    device: &Device,
    id: u64,
    when: &When,
    tick: u64,
    offset: u16,
    action: &Action,
) -> Result<Value, NoMemory>
    ensures { IfOk result (λ v. view v
        ≡ accepted_data device.now id when.now tick offset action.now) }
{
    let value = item_value(alloc, device, when, tick, offset, action.as_slice())?;
    let mut map = Map::new(alloc);
    put(&mut map, alloc, Buffer::new().format(id), value)?;
    Ok(Value::Object(map))
}

fn active_value(
    alloc: Global,
    device: &Device,
    active: &ActiveView,
    only: Option<u8>,
) -> Result<Value, NoMemory>
    ensures { IfOk result (λ v. view v ≡ active_data device.now active.now only) }
{
    let last = last_value(alloc, device, &active.last)?;
    let rows = map_value(alloc, device, active.rows.as_slice(), only)?;
    Ok(json!(in alloc; {"activation": last, "map": rows})?)
}

/// Appends the reply to an accepted activation: an object from its id to what is changed and when.
/// If memory runs out, `out` stays as it was.
pub fn activation_body(
    alloc: Global,
    device: &Device,
    id: u64,
    when: &When,
    tick: u64,
    offset: u16,
    action: &Action,
    out: &mut Vec<u8>,
) -> Result<(), NoMemory>
    ensures ok { OnOk result (out.new.items ≡ out.old.items
        ++ accepted_text device.now id when.now tick offset action.now) }
    ensures err { OnErr result (out.new.items ≡ out.old.items) }
{
    let value = accepted_value(alloc, device, id, when, tick, offset, action)?;
    append(alloc, &value, out)
}

/// Appends a pending activation: what is changed and when. If memory runs out, `out` stays as it
/// was.
pub fn item_body(
    alloc: Global,
    device: &Device,
    item: &PendingItem,
    out: &mut Vec<u8>,
) -> Result<(), NoMemory>
    ensures ok { OnOk result (out.new.items ≡ out.old.items ++ item_text device.now item.now) }
    ensures err { OnErr result (out.new.items ≡ out.old.items) }
{
    let value = pending_item_value(alloc, device, item)?;
    append(alloc, &value, out)
}

/// Appends the pending activations: an object from id to item. If memory runs out, `out` stays as
/// it was.
pub fn pending_body(
    alloc: Global,
    device: &Device,
    items: &PendingItems,
    out: &mut Vec<u8>,
) -> Result<(), NoMemory>
    ensures ok { OnOk result (out.new.items ≡ out.old.items ++ pending_text device.now items.now) }
    ensures err { OnErr result (out.new.items ≡ out.old.items) }
{
    let value = pending_value(alloc, device, items.as_slice())?;
    append(alloc, &value, out)
}

/// Appends the active map, with the rows of all outputs or of one alone. If memory runs out, `out`
/// stays as it was.
pub fn active_body(
    alloc: Global,
    device: &Device,
    active: &ActiveView,
    only: Option<u8>,
    out: &mut Vec<u8>,
) -> Result<(), NoMemory>
    ensures ok { OnOk result (out.new.items ≡ out.old.items
        ++ active_text device.now active.now only) }
    ensures err { OnErr result (out.new.items ≡ out.old.items) }
{
    let value = active_value(alloc, device, active, only)?;
    append(alloc, &value, out)
}

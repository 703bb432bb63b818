//! What is routed, as JSON.

ghost use Rattle.std.specs.Prelude.{◌≡◌, IfOk, OnOk, map};
ghost use Rattle.serde_json.specs.Data.{no_members, put};
ghost use Rattle.serde_json.specs.View.{view, members_view};
ghost use Rattle.channel_json.specs.Cells.{action_data, cell_data, changes_data, map_data};
ghost use Rattle.channel_json.specs.Cells.{row_data, row_of, row_member};
ghost use Rattle.channel_json.specs.Values.{with_members};
ghost use Rattle.std.specs.List.{range_with_len};
ghost use Rattle.std.specs.Prelude.{length};

use crate::values::{input_id, output_id};
use io_caps::Device;
use itoa::Buffer;
use map_entry::{Cell, Change, OutputChange, Row};
use serde_json::{Map, Value, json, put};
use std::alloc::{AllocError, Global};

/// A cell: nulls where it is unrouted.
fn cell_value(alloc: Global, device: &Device, cell: Cell) -> Result<Value, AllocError>
    ensures { IfOk result (λ v. view v ≡ cell_data device.now cell) }
{
    match cell {
        Cell::Unrouted => json!(in alloc; {"channel_index": null, "input": null}),
        Cell::From { input, channel } => {
            let id = input_id(device, input);
            json!(in alloc; {"channel_index": channel, "input": id})
        }
    }
}

/// A row: an object from channel number to cell.
fn row_value(alloc: Global, device: &Device, cells: &[Cell]) -> Result<Value, AllocError>
    ensures { IfOk result (λ v. view v ≡ row_data device.now cells.now) }
{
    let mut map = Map::new(alloc);
    for (channel, cell) in cells.iter().enumerate() {
        let value = cell_value(alloc, device, *cell)?;
        put(&mut map, alloc, Buffer::new().format(channel), value)?;
    }
    Ok(Value::Object(map))
}

/// What is changed of an output: an object from channel number to cell.
fn changes_value(alloc: Global, device: &Device, changes: &[Change]) -> Result<Value, AllocError>
    ensures { IfOk result (λ v. view v ≡ changes_data device.now changes.now) }
{
    let mut map = Map::new(alloc);
    for change in changes {
        let value = cell_value(alloc, device, change.cell)?;
        put(&mut map, alloc, Buffer::new().format(change.channel), value)?;
    }
    Ok(Value::Object(map))
}

/// An action: an object from an output's id to what is changed of it.
pub(crate) fn action_value(
    alloc: Global,
    device: &Device,
    action: &[OutputChange],
) -> Result<Value, AllocError>
    ensures { IfOk result (λ v. view v ≡ action_data device.now action.now) }
{
    let mut map = Map::new(alloc);
    for change in action {
        let value = changes_value(alloc, device, change.changes())?;
        put(&mut map, alloc, output_id(device, change.output), value)?;
    }
    Ok(Value::Object(map))
}

/// Puts an output's row under its id.
fn put_row(
    alloc: Global,
    device: &Device,
    rows: &[Row],
    output: u8,
    map: &mut Map<String, Value>,
) -> Result<(), AllocError>
    ensures { OnOk result (members_view map.new.entries
        ≡ put (row_member device.now rows.now output).0 (row_member device.now rows.now output).1
        (members_view map.old.entries)) }
{
    let value = match rows.get(output as usize) {
        Some(row) => row_value(alloc, device, row.as_slice())?,
        None => row_value(alloc, device, &[])?,
    };
    put(map, alloc, output_id(device, output), value)
}

/// The rows of all outputs, each under its output's id.
fn all_rows(alloc: Global, device: &Device, rows: &[Row]) -> Result<Map<String, Value>, AllocError>
    ensures { IfOk result (λ m. members_view m.entries ≡ with_members
        (map (row_member device.now rows.now) (range_with_len 0 (length device.now.outputs)))
        no_members) }
{
    let mut map = Map::new(alloc);
    for output in 0..device.outputs() {
        put_row(alloc, device, rows, output, &mut map)?;
    }
    Ok(map)
}

/// A map: an object from an output's id to its row, of all outputs or of one alone.
pub(crate) fn map_value(
    alloc: Global,
    device: &Device,
    rows: &[Row],
    only: Option<u8>,
) -> Result<Value, AllocError>
    ensures { IfOk result (λ v. view v ≡ map_data device.now rows.now only) }
{
    match only {
        None => Ok(Value::Object(all_rows(alloc, device, rows)?)),
        Some(output) => {
            let mut map = Map::new(alloc);
            put_row(alloc, device, rows, output, &mut map)?;
            Ok(Value::Object(map))
        }
    }
}

//! Values and their texts.

ghost use Rattle.std.specs.Prelude.{◌≡◌, ◌++◌, false, OnOk, OnErr};
ghost use Rattle.io_caps.specs.Port.{IsId};
ghost use Rattle.serde_json.specs.View.{view};
ghost use Rattle.serde_json.specs.Written.{compact_text, has_float};
ghost use Rattle.channel_json.specs.Cells.{input_id, output_id};
ghost use Rattle.channel_json.specs.Values.{shown_text};

use io_caps::{Device, NoMemory};
use serde_json::Value;
use std::alloc::Global;

/// A text as JSON shows it: the empty text where it is not UTF-8.
pub(crate) fn shown(text: &[u8]) -> &str
    ensures { result.now ≡ shown_text text.now }
{
    match std::str::from_utf8(text) {
        Ok(text) => text,
        Err(_) => "",
    }
}

/// An id, whose bytes are ASCII.
pub(crate) fn id_text(id: &[u8]) -> &str
    requires { IsId id.now }
    ensures { result.now ≡ id.now }
{
    shown(id)
}

/// The id of an input, and the empty text where it is not there.
pub(crate) fn input_id(device: &Device, input: u8) -> &str
    ensures { result.now ≡ input_id device.now input }
{
    match device.input_slice().get(input as usize) {
        Some(input) => id_text(input.id.as_slice()),
        None => "",
    }
}

/// The id of an output, and the empty text where it is not there.
pub(crate) fn output_id(device: &Device, output: u8) -> &str
    ensures { result.now ≡ output_id device.now output }
{
    match device.output_slice().get(output as usize) {
        Some(output) => id_text(output.id.as_slice()),
        None => "",
    }
}

/// Appends the text of a value that has no fraction. If memory runs out, `out` stays as it was.
pub(crate) fn append(alloc: Global, value: &Value, out: &mut Vec<u8>) -> Result<(), NoMemory>
    requires { has_float (view value.now) ≡ false }
    ensures ok { OnOk result (out.new.items ≡ out.old.items ++ compact_text (view value.now)) }
    ensures err { OnErr result (out.new.items ≡ out.old.items) }
{
    let text = value.to_vec(alloc)?;
    out.extend_from_slice(text.as_slice())?;
    Ok(())
}

//! Inputs and outputs by their ids.

ghost use Rattle.std.specs.Prelude.{◌≡◌, ◌<◌, IfSome, length};
ghost use Rattle.std.specs.List.{position};
ghost use Rattle.std.specs.Str.{bytes_eq};
ghost use Rattle.channel_json.specs.Requests.{input_number, output_number};

use io_caps::{Device, Input, Output, Text};

fn is_id(id: &Text, text: &[u8]) -> bool
    ensures { result ≡ bytes_eq id.now text.now }
{
    id.as_slice() == text
}

/// The place of the input of an id.
pub(crate) fn input_place(inputs: &[Input], id: &[u8]) -> Option<usize>
    ensures value { result ≡ position (λ i. bytes_eq i.id id.now) inputs.now }
    ensures within { IfSome result (λ place. place < length inputs.now) }
{
    inputs.iter().position(|input| is_id(&input.id, id))
}

fn output_place(outputs: &[Output], id: &[u8]) -> Option<usize>
    ensures value { result ≡ position (λ o. bytes_eq o.id id.now) outputs.now }
    ensures within { IfSome result (λ place. place < length outputs.now) }
{
    outputs.iter().position(|output| is_id(&output.id, id))
}

/// The number of the input of an id, and `None` where it is not there.
pub fn input_number(device: &Device, id: &[u8]) -> Option<u8>
    ensures value { result ≡ input_number device.now id.now }
    ensures there { IfSome result (λ input. input < length device.now.inputs) }
{
    match input_place(device.input_slice(), id) {
        Some(place) => Some(place as u8),
        None => None,
    }
}

/// The number of the output of an id, and `None` where it is not there.
pub fn output_number(device: &Device, id: &[u8]) -> Option<u8>
    ensures value { result ≡ output_number device.now id.now }
    ensures there { IfSome result (λ output. output < length device.now.outputs) }
{
    match output_place(device.output_slice(), id) {
        Some(place) => Some(place as u8),
        None => None,
    }
}

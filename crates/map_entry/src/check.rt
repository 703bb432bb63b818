//! The check of a row, as five conditions over all its channels.

ghost use Rattle.std.specs.Prelude.{◌≡◌, ◌<◌, ◌≤◌, ℕ, length, Some, None, IfErr, OnOk, IfSome};
ghost use Rattle.std.specs.List.{list_any};
ghost use Rattle.io_caps.specs.declared.limits.TheConstants.{MOST_CHANNELS};
ghost use Rattle.map_entry.specs.Row.{cell_at, is_input_there, is_channel_there, IsChannelThere};
ghost use Rattle.map_entry.specs.Row.{is_allowed, same_choice, whole_from, ordered_from};
ghost use Rattle.map_entry.specs.Row.{lowest_out, fault_of, routable_of, row_fault};
ghost use Rattle.map_entry.specs.Row.{channels_of_output};

use crate::pieces::{cell_at, is_ordered_from, is_whole_from};
use crate::{Cell, Row, RowFault};
use io_caps::{Device, Routable};

/// Whether two choices are alike.
fn is_same_choice(a: Option<u8>, b: Option<u8>) -> bool
    ensures { result ≡ same_choice a b }
{
    match (a, b) {
        (None, None) => true,
        (None, Some(_)) => false,
        (Some(_), None) => false,
        (Some(a), Some(b)) => a == b,
    }
}

/// Whether a choice is on a list.
fn is_listed(choice: Option<u8>, choices: &[Option<u8>]) -> bool
    ensures { result ≡ list_any (same_choice choice) choices.now }
{
    choices.iter().any(|listed| is_same_choice(choice, *listed))
}

/// Whether the choice that a cell makes may be routed.
fn is_allowed(routable: &Routable, cell: Cell) -> bool
    ensures { result ≡ is_allowed routable.now cell }
{
    match routable {
        Routable::All => true,
        Routable::Only(choices) => is_listed(cell.choice(), choices.as_slice()),
    }
}

/// The lowest channel that names an input that is not there.
fn bad_input(device: &Device, row: &[Cell]) -> Option<usize>
    ensures value { result ≡ lowest_out (λ channel. is_input_there device.now.inputs) row.now }
    ensures within { IfSome result (λ k. k < length row.now) }
{
    let inputs = device.input_slice();
    (0..row.len()).find(|channel| !cell_at(row, *channel).is_input_there(inputs))
}

/// The lowest channel that names a channel that is not there.
fn bad_channel(device: &Device, row: &[Cell]) -> Option<usize>
    ensures value { result ≡ lowest_out (λ channel. is_channel_there device.now.inputs) row.now }
    ensures within { IfSome result (λ k. k < length row.now) }
{
    let inputs = device.input_slice();
    (0..row.len()).find(|channel| !cell_at(row, *channel).is_channel_there(inputs))
}

/// The lowest channel that may not be routed so.
fn bad_choice(routable: &Routable, row: &[Cell]) -> Option<usize>
    ensures value { result ≡ lowest_out (λ channel. is_allowed routable.now) row.now }
    ensures within { IfSome result (λ k. k < length row.now) }
{
    (0..row.len()).find(|channel| !is_allowed(routable, cell_at(row, *channel)))
}

/// The lowest channel at which a piece begins that is no whole channel block.
fn bad_block(device: &Device, row: &[Cell]) -> Option<usize>
    requires { (k : ℕ) → IsChannelThere device.now.inputs (cell_at row.now k) }
    ensures value { result ≡ lowest_out (whole_from device.now.inputs row.now) row.now }
    ensures within { IfSome result (λ k. k < length row.now) }
{
    (0..row.len()).find(|channel| !is_whole_from(device, row, *channel, cell_at(row, *channel)))
}

/// The lowest channel at which a piece begins whose channel block may not be reordered, but is.
fn bad_order(device: &Device, row: &[Cell]) -> Option<usize>
    requires { (k : ℕ) → IsChannelThere device.now.inputs (cell_at row.now k) }
    ensures value { result ≡ lowest_out (ordered_from device.now.inputs row.now) row.now }
    ensures within { IfSome result (λ k. k < length row.now) }
{
    (0..row.len()).find(|channel| !is_ordered_from(device, row, *channel, cell_at(row, *channel)))
}

/// The first condition that a row fails, in the order of the variants.
fn fault_of(device: &Device, routable: &Routable, row: &[Cell]) -> Option<RowFault>
    requires { length row.now ≤ MOST_CHANNELS }
    ensures { result ≡ fault_of device.now.inputs routable.now row.now }
{
    if let Some(channel) = bad_input(device, row) {
        return Some(RowFault::Input(channel as u8));
    }
    if let Some(channel) = bad_channel(device, row) {
        return Some(RowFault::Channel(channel as u8));
    }
    if let Some(channel) = bad_choice(routable, row) {
        return Some(RowFault::NotRoutable(channel as u8));
    }
    if let Some(channel) = bad_block(device, row) {
        return Some(RowFault::Block(channel as u8));
    }
    if let Some(channel) = bad_order(device, row) {
        return Some(RowFault::Order(channel as u8));
    }
    None
}

/// Whether a row passes the check at an output, or the first of five conditions that it fails, in
/// the order of the variants of [`RowFault`], each with the lowest channel that fails it. The row
/// has a cell for each channel of the output. No memory is taken; the steps are at most some
/// thousand for 64 channels.
#[tactic(auto, unfolding(crate::specs::Row::row_fault))]
pub fn check_row(device: &Device, output: u8, row: &Row) -> Result<(), RowFault>
    requires there { output < length device.now.outputs }
    requires long { length row.now ≡ channels_of_output device.now output }
    ensures ok { OnOk result (row_fault device.now output row.now ≡ None) }
    ensures fault { IfErr result (λ fault. row_fault device.now output row.now ≡ Some fault) }
{
    let routable = &device.output(output).routable;
    match fault_of(device, routable, row.as_slice()) {
        Some(fault) => Err(fault),
        None => Ok(()),
    }
}

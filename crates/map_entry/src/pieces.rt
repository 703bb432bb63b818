//! The pieces of a row: how the channels that name an input are cut, and whether a piece is a whole
//! channel block in order.

ghost use Rattle.std.specs.Prelude.{◌≡◌, ◌<◌, count_by, take};
ghost use Rattle.std.specs.List.{list_all, list_any, range_with_len};
ghost use Rattle.map_entry.specs.Row.{cell_at, IsChannelThere, names, is_from, names_part};
ghost use Rattle.map_entry.specs.Row.{named_below, begins_piece, piece_at, is_whole, ascends};
ghost use Rattle.map_entry.specs.Row.{block_from, whole_from, ordered_from};

use crate::Cell;
use io_caps::Device;

/// The cell of a channel, which is unrouted past the end.
pub(crate) fn cell_at(row: &[Cell], channel: usize) -> Cell
    ensures { result ≡ cell_at row.now channel }
{
    match row.get(channel) {
        Some(cell) => *cell,
        None => Cell::Unrouted,
    }
}

/// How many channels below this one name an input.
fn named_below(row: &[Cell], input: u8, channel: usize) -> usize
    ensures { result ≡ named_below row.now input channel }
{
    row.iter()
        .take(channel)
        .filter(|cell| cell.names(input))
        .count()
}

/// A given number of channels of the output from one on.
fn piece_at(size: u8, row: &[Cell], channel: usize) -> &[Cell]
    ensures { result.now ≡ piece_at size row.now channel }
{
    let rest = &row[channel.min(row.len())..];
    &rest[..rest.len().min(size as usize)]
}

/// Whether each channel of a piece names the input.
fn all_name(piece: &[Cell], input: u8) -> bool
    ensures { result ≡ list_all (names input) piece.now }
{
    piece.iter().all(|cell| cell.names(input))
}

/// Whether a channel of a piece names this channel of the input.
fn names_channel(piece: &[Cell], input: u8, channel: usize) -> bool
    ensures { result ≡ list_any (is_from input channel) piece.now }
{
    piece.iter().any(|cell| cell.is_from(input, channel))
}

/// Whether a piece names each channel of the channel block of an input whose first channel is
/// `from`.
fn names_block(size: u8, input: u8, from: u8, piece: &[Cell]) -> bool
    ensures { result ≡ list_all (names_part input from piece.now) (range_with_len 0 size) }
{
    (0..size as usize).all(|k| names_channel(piece, input, from as usize + k))
}

/// Whether a piece is whole: a given number of neighbouring channels, which all name the input and
/// name each channel of the channel block.
fn is_whole(size: u8, input: u8, from: u8, piece: &[Cell]) -> bool
    ensures { result ≡ is_whole size input from piece.now }
{
    piece.len() == size as usize
        && (all_name(piece, input) && names_block(size, input, from, piece))
}

/// Whether a piece names the channels of its channel block in ascending order.
fn ascends(size: u8, input: u8, from: u8, piece: &[Cell]) -> bool
    ensures { result ≡ ascends size input from piece.now }
{
    (0..size as usize).all(|k| cell_at(piece, k).is_from(input, from as usize + k))
}

/// The first channel of the channel block in which a channel lies.
fn block_from(size: u8, channel: u8) -> u8
    requires { 0 < size }
    ensures { result ≡ block_from size channel }
{
    channel / size * size
}

/// Whether the piece that begins at a channel is whole, where its cell is this one. Where none
/// begins, there is none to be whole.
pub(crate) fn is_whole_from(device: &Device, row: &[Cell], channel: usize, cell: Cell) -> bool
    requires { IsChannelThere device.now.inputs cell }
    ensures { result ≡ whole_from device.now.inputs row.now channel cell }
{
    match cell {
        Cell::Unrouted => true,
        Cell::From { input, channel: at } => {
            let size = device.input(input).block_size;
            named_below(row, input, channel) % size as usize != 0
                || is_whole(
                    size,
                    input,
                    block_from(size, at),
                    piece_at(size, row, channel),
                )
        }
    }
}

/// The same of the order of the piece, which counts where the input's channels may not be
/// reordered.
pub(crate) fn is_ordered_from(device: &Device, row: &[Cell], channel: usize, cell: Cell) -> bool
    requires { IsChannelThere device.now.inputs cell }
    ensures { result ≡ ordered_from device.now.inputs row.now channel cell }
{
    match cell {
        Cell::Unrouted => true,
        Cell::From { input, channel: at } => {
            let of = device.input(input);
            let size = of.block_size;
            of.reordering
                || (named_below(row, input, channel) % size as usize != 0
                    || ascends(
                        size,
                        input,
                        block_from(size, at),
                        piece_at(size, row, channel),
                    ))
        }
    }
}

//! Runs of frames that one row rules.

ghost use Rattle.std.specs.Prelude.{◌≡◌, ◌≤◌, ◌<◌, ◌+◌, ◌-◌, ◌*◌, All, List, Some};
ghost use Rattle.std.specs.Prelude.{ℕ, length, map, slice_get};
ghost use Rattle.std.specs.List.{range_with_len};
ghost use Rattle.io_caps.specs.declared.port.Input.{Input};
ghost use Rattle.io_caps.specs.Rate.{bytes_per_sample};
ghost use Rattle.io_caps.specs.declared.limits.TheConstants.{MOST_FRAMES};
ghost use Rattle.map_entry.specs.Row.{IsChannelThere};
ghost use Rattle.map_entry.specs.declared.cell.Cell.{Cell};
ghost use Rattle.rtp_pcm.specs.Pcm.{payload_of};
ghost use Rattle.packet_writer.specs.Heard.{HaveFrames, OfAgreed, SeesMore, TickBlocks, heard};
ghost use Rattle.packet_writer.specs.Packet.{RowFits, RowsFit};
ghost use Rattle.packet_writer.specs.Piece.{count_of, piece_samples};

use crate::column::put_column;
use crate::source::Samples;
use io_caps::limits::MOST_FRAMES;
use io_caps::{Input, Width};
use map_entry::Cell;

/// The frames from one up to another, which one row rules.
#[derive(Clone, Copy, Debug)]
pub struct Piece<'a> {
    pub row: &'a [Cell],
    pub frame: u16,
    pub upto: u16,
}

/// The rows of a tick, by frame.
pub trait FrameRows {
    ghost row_of: { Self → ℕ → List Cell };

    /// The piece that begins at one of a given number of frames.
    fn piece(&self, frame: u16, frames: u16) -> Piece<'_>
        requires { frame < frames }
        ensures begins { result.frame ≡ frame }
        ensures goes_on { frame < result.upto }
        ensures ends { result.upto ≤ frames }
        ensures row { (f : ℕ) → frame ≤ f → f < result.upto → row_of self.now f ≡ result.row.now };
}

/// One row at all frames.
#[derive(Clone, Copy, Debug)]
pub struct OneRow<'a> {
    row: &'a [Cell],
}

impl<'a> OneRow<'a> {
    /// This row at all frames.
    pub fn new(row: &'a [Cell]) -> OneRow<'a>
        ensures row { (frame : ℕ) → ⟦<OneRow<'static> as FrameRows>⟧.row_of result frame ≡ row.now }
        ensures fits { (inputs : List Input) (channels frames : ℕ) → RowFits inputs channels row.now
            → RowsFit inputs channels frames (⟦<OneRow<'static> as FrameRows>⟧.row_of result) }
    {
        OneRow { row }
    }
}

impl<'a> FrameRows for OneRow<'a> {
    ghost row_of = { λ s frame. s.row.now };

    fn piece(&self, frame: u16, frames: u16) -> Piece<'_> {
        Piece {
            row: self.row,
            frame,
            upto: frames,
        }
    }
}

fn input_at(inputs: &[Input], input: u8) -> &Input
    requires { input < length inputs.now }
    ensures { slice_get inputs.now input ≡ Some result.now }
{
    &inputs[input as usize]
}

/// What a cell selects, from a frame on.
fn read_cell<S: Samples>(source: &mut S, inputs: &[Input], cell: Cell, frame: u16, out: &mut [i32])
    requires cell { IsChannelThere inputs.now cell }
    requires blocks { OfAgreed (S.agrees source.old) (λ b.
        HaveFrames inputs.now b (frame + length out.old)) }
    ensures value { OfAgreed (S.agrees source.new) (λ b.
        out.new ≡ map (λ f. heard inputs.now b f cell) (range_with_len frame (length out.old))) }
    ensures len { length out.new ≡ length out.old }
    ensures kept { SeesMore (S.agrees source.old) (S.agrees source.new) }
    ensures stays { S.stays source.old source.new }
{
    match cell {
        Cell::Unrouted => out.fill(0),
        Cell::From { input, channel } => {
            let channels = input_at(inputs, input).channels();
            source.copy_channel(input, channels, channel, frame, out);
        }
    }
}

/// Writes the samples of a piece into the part of a payload that is theirs.
pub fn write_piece<S: Samples>(
    source: &mut S,
    inputs: &[Input],
    piece: &Piece<'_>,
    width: Width,
    out: &mut [u8],
)
    requires row { All (IsChannelThere inputs.now) piece.now.row.now }
    requires begins { piece.now.frame ≤ piece.now.upto }
    requires ends { piece.now.upto ≤ MOST_FRAMES }
    requires room { length out.old
        ≡ count_of piece.now * length piece.now.row.now * bytes_per_sample width }
    requires blocks { OfAgreed (S.agrees source.old) (λ b. HaveFrames inputs.now b piece.now.upto) }
    ensures text { OfAgreed (S.agrees source.new) (λ b.
        out.new ≡ payload_of width (piece_samples inputs.now b piece.now)) }
    ensures kept { SeesMore (S.agrees source.old) (S.agrees source.new) }
    ensures stays { S.stays source.old source.new }
{
    let mut store = [0i32; MOST_FRAMES as usize];
    let samples = &mut store[..(piece.upto - piece.frame) as usize];
    for cell in 0..piece.row.len() {
        read_cell(source, inputs, piece.row[cell], piece.frame, samples);
        put_column(out, width, piece.row.len(), cell, samples);
    }
}

//! The rows of a packet, read piece by piece.

ghost use Rattle.std.specs.Prelude.{◌≡◌, ◌≤◌, ◌<◌, ◌+◌, ◌*◌, [], ◌∷◌, ◌++◌, All, IfNone, IfSome};
ghost use Rattle.std.specs.Prelude.{drop, length, slice_index_or, take};
ghost use Rattle.io_caps.specs.declared.limits.TheConstants.{MOST_FRAMES};
ghost use Rattle.map_entry.specs.Row.{channels_of_output};
ghost use Rattle.claim_rule.specs.Claims.{IsSound};
ghost use Rattle.claim_word.specs.Claims.{IsLast};
ghost use Rattle.claim_word.specs.Faces.{IsPassOf};
ghost use Rattle.claim_word.specs.Lending.{IsPieced};
ghost use Rattle.packet_worker.specs.Gathering.{IsReadFor};
ghost use Rattle.packet_worker.specs.declared.rows.TheConstants.{MOST_CELLS};
ghost use Rattle.packet_worker.specs.Rows.{AreRowsOf, IsPieceAdded, row_in};

use claim_word::{Claim, ClaimTable, WorkerPass};
use io_caps::NoMemory;
use io_caps::limits::{MOST_FRAMES, MOST_PAYLOAD};
use map_entry::Cell;
use packet_writer::{FrameRows, Piece};
use std::alloc::Global;
use std::marker::Model;

/// The most cells that the rows of a packet have: a cell for each sample, of two bytes or more.
pub const MOST_CELLS: usize = MOST_PAYLOAD / 2;

const _: () = prove!(MOST_CELLS == 720);

/// The rows of a packet, in pieces. The room for those of any packet is taken once.
#[derive(Drop)]
pub(crate) struct PacketRows {
    /// How many cells a row has.
    channels: usize,
    /// For each piece the frame up to which its row rules.
    uptos: Vec<u16>,
    /// The row of each piece, one after the other.
    cells: Vec<Cell>,
}

impl Model for PacketRows {
    ghost use Rattle.std.specs.Prelude.{vec_capacity};
    ghost use Rattle.packet_worker.specs.Rows.{HasRoom, RowsFace, pieces_of};

    ghost Value = { RowsFace };

    ghost view = { λ r. record {
      channels = r.channels;
      pieces = pieces_of r.channels r.uptos.items r.cells.items;
    } };

    ghost invariant = { λ r. HasRoom r.channels r.uptos.items r.cells.items (vec_capacity r.uptos)
        (vec_capacity r.cells) };
}

impl PacketRows {
    /// No piece, and room for those of any packet.
    pub fn new(alloc: Global) -> Result<PacketRows, NoMemory> {
        Ok(PacketRows {
            channels: 0,
            uptos: Vec::with_capacity(alloc, MOST_FRAMES as usize)?,
            cells: Vec::with_capacity(alloc, MOST_CELLS)?,
        })
    }

    /// Begins anew, with rows of a given number of cells.
    fn begin(&mut self, channels: usize)
        ensures { self.new ≡ record { channels = channels; pieces = [] } }
    {
        self.channels = channels;
        self.uptos.clear();
        self.cells.clear();
    }

    /// Adds a piece, of a row and the frame up to which it rules.
    fn push(&mut self, row: &[Cell], upto: u16)
        requires row { length row.now ≡ self.old.channels }
        requires few { length self.old.pieces < MOST_FRAMES }
        requires room { (length self.old.pieces + 1) * self.old.channels ≤ MOST_CELLS }
        ensures { self.new ≡ record self.old {
          pieces = self.old.pieces ++ record { row = row.now; upto = upto } ∷ [];
        } }
    {
        self.uptos.push_reserved(upto);
        let added = self.cells.extend_from_slice(row);
        // There is room.
        prove!(added.is_ok());
    }
}

/// The place of the first of these frames that is past a frame.
fn first_past(uptos: &[u16], frame: u16) -> Option<usize>
    ensures there { IfSome result (λ at. at < length uptos.now) }
    ensures past { IfSome result (λ at. frame < slice_index_or uptos.now at 0) }
    ensures before { IfSome result (λ at. All (λ u. u ≤ frame) (take at uptos.now)) }
    ensures none { IfNone result (All (λ u. u ≤ frame) uptos.now) }
{
    uptos.iter().position(|upto| *upto > frame)
}

/// The row at a place, of rows of a given number of cells that stand one after the other.
fn row_at(cells: &[Cell], channels: usize, at: usize) -> &[Cell]
    requires { at * channels + channels ≤ length cells.now }
    ensures { result.now ≡ take channels (drop (at * channels) cells.now) }
{
    let from = at * channels;
    &cells[from..from + channels]
}

impl FrameRows for PacketRows {
    ghost row_of = { λ r. row_in r.pieces };

    fn piece(&self, frame: u16, frames: u16) -> Piece<'_> {
        match first_past(&self.uptos, frame) {
            Some(at) => Piece {
                row: row_at(&self.cells, self.channels, at),
                frame,
                upto: self.uptos[at].min(frames),
            },
            None => Piece {
                row: &[],
                frame,
                upto: frames,
            },
        }
    }
}

/// Reads the piece of the claim's packet that begins at a frame; answers the frame up to which it
/// goes.
fn read_piece(
    table: &ClaimTable,
    claim: &Claim,
    frame: u16,
    pass: &mut WorkerPass,
    rows: &mut PacketRows,
) -> u16
    requires pass { IsPassOf table.now pass.old }
    requires last { IsLast pass.old.view claim.now }
    requires frame { frame < pass.old.view.plan.setup.device.rate.frames }
    requires short { pass.old.view.plan.setup.device.rate.frames ≤ MOST_FRAMES }
    requires channels { rows.old.channels
        ≡ channels_of_output pass.old.view.plan.setup.device claim.now.output }
    requires few { length rows.old.pieces ≤ frame }
    requires room { pass.old.view.plan.setup.device.rate.frames * rows.old.channels ≤ MOST_CELLS }
    ensures pass { IsPieced pass.old pass.new claim.now.output }
    ensures sound { IsSound pass.old.view.plan }
    ensures rows { IsPieceAdded pass.old.view.plan.setup.device pass.old.view.entries claim.now
        frame result rows.old rows.new }
{
    let piece = pass.row_from(table, claim, frame);
    rows.push(piece.row.as_slice(), piece.upto);
    piece.upto
}

/// Reads the rows of the claim's packet, of a given number of frames and channels.
pub(crate) fn read_rows(
    table: &ClaimTable,
    claim: &Claim,
    frames: u16,
    channels: usize,
    pass: &mut WorkerPass,
    rows: &mut PacketRows,
)
    requires pass { IsPassOf table.now pass.old }
    requires last { IsLast pass.old.view claim.now }
    requires frames { frames ≡ pass.old.view.plan.setup.device.rate.frames }
    requires some { 0 < frames }
    requires short { frames ≤ MOST_FRAMES }
    requires channels { channels
        ≡ channels_of_output pass.old.view.plan.setup.device claim.now.output }
    requires room { frames * channels ≤ MOST_CELLS }
    ensures pass { IsReadFor pass.old pass.new claim.now }
    ensures sound { IsSound pass.old.view.plan }
    ensures rows { AreRowsOf pass.old.view.plan.setup.device pass.old.view.entries claim.now frames
        rows.new.pieces }
{
    rows.begin(channels);
    let mut frame = 0u16;
    while frame < frames {
        frame = read_piece(table, claim, frame, pass, rows);
    }
}

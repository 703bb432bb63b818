//! Which input blocks a packet found.

ghost use Rattle.std.specs.Prelude.{◌≡◌, ◌≤◌, ◌<◌, ◌||◌, Bool, true, false, refl};
ghost use Rattle.std.specs.Prelude.{IfSome, IfNone, is_some, ℕ, length};
ghost use Rattle.std.proofs.Common.{◌∙◌};
ghost use Rattle.io_caps.specs.declared.limits.TheConstants.{MOST_INPUTS};
ghost use Rattle.packet_writer.specs.Heard.{listed};
ghost use Rattle.packet_writer.specs.Flags.{is_named, row_names};
ghost use Rattle.packet_writer.specs.Packet.{flag_of};
ghost use Rattle.packet_writer.specs.Stays.{IsOnward};
ghost use Rattle.map_entry.specs.Row.{names};

use crate::piece::FrameRows;
use crate::source::{HeldBlocks, block_at};
use map_entry::Cell;

/// What can be seen of the input blocks of one tick. What no call changes, as which tick it is, is
/// what `stays`.
pub trait Looks {
    ghost sees: { Self → ℕ → Bool → Type 0 };

    ghost untold: { Self → ℕ → Type 0 };

    ghost stays: { Self → Self → Type 0 };

    /// Whether the block of an input is there, and `None` where that cannot be told yet.
    fn look(&mut self, input: u8) -> Option<bool>
        ensures seen { IfSome result (λ there. sees self.new input there) }
        ensures untold { IfNone result (untold self.new input) }
        ensures kept { (i : ℕ) (there : Bool) → sees self.old i there → sees self.new i there }
        ensures stays { stays self.old self.new };

    ghost onward: { IsOnward stays };
}

impl<'a> Looks for HeldBlocks<'a> {
    ghost sees = { λ s input there. there ≡ is_some (listed s.blocks.now input) };

    ghost untold = { λ s input. ⊥ };

    ghost stays = { λ before after. after.blocks.now ≡ before.blocks.now };

    ghost onward = { record { still = λ a. refl; on = λ a b c f g. g ∙ f } };

    fn look(&mut self, input: u8) -> Option<bool> {
        Some(block_at(self.blocks, input).is_some())
    }
}

/// Marks the input that a cell names.
#[tactic(auto, using(crate::proofs::Marks::one_marked, crate::proofs::Marks::none_marked))]
fn mark_cell(cell: Cell, flags: &mut [bool])
    ensures len { length flags.new ≡ length flags.old }
    ensures each { (i : ℕ) → i < length flags.old
        → flag_of flags.new i ≡ (flag_of flags.old i || names i cell) }
{
    if let Cell::From { input, .. } = cell {
        let input = input as usize;
        if input < flags.len() {
            flags[input] = true;
        }
    }
}

/// Marks the inputs that a row names.
fn mark_row(row: &[Cell], flags: &mut [bool])
    ensures len { length flags.new ≡ length flags.old }
    ensures each { (i : ℕ) → i < length flags.old
        → flag_of flags.new i ≡ (flag_of flags.old i || row_names i row.now) }
{
    for cell in row {
        mark_cell(*cell, flags);
    }
}

/// Sets the flag of each input that the rows of a given number of frames name, and no other.
pub fn mark_named<R: FrameRows>(rows: &R, frames: u16, flags: &mut [bool])
    ensures len { length flags.new ≡ length flags.old }
    ensures each { (i : ℕ) → i < length flags.old
        → flag_of flags.new i ≡ is_named frames (R.row_of rows.now) i }
{
    flags.fill(false);
    let mut frame = 0u16;
    while frame < frames {
        let piece = rows.piece(frame, frames);
        mark_row(piece.row, flags);
        frame = piece.upto;
    }
}

/// Looks once at each input whose flag is set, in order, and leaves it set where the block is
/// there. Answers the first input at which a look cannot tell, if any; then the flags of the inputs
/// before it are told, and the others have no meaning.
pub fn look_at_marked<L: Looks>(looks: &mut L, flags: &mut [bool]) -> Option<u8>
    requires few { length flags.old ≤ MOST_INPUTS }
    ensures len { length flags.new ≡ length flags.old }
    ensures marked { IfNone result ((i : ℕ) → i < length flags.old → flag_of flags.old i ≡ true
        → L.sees looks.new i (flag_of flags.new i)) }
    ensures other { IfNone result ((i : ℕ) → i < length flags.old → flag_of flags.old i ≡ false
        → flag_of flags.new i ≡ false) }
    ensures untold { IfSome result (λ input. L.untold looks.new input) }
    ensures within { IfSome result (λ input. input < length flags.old) }
    ensures named { IfSome result (λ input. flag_of flags.old input ≡ true) }
    ensures first { IfSome result (λ input. (i : ℕ) → i < input → flag_of flags.old i ≡ true
        → L.sees looks.new i (flag_of flags.new i)) }
    ensures kept { (i : ℕ) (there : Bool) → L.sees looks.old i there → L.sees looks.new i there }
    ensures stays { L.stays looks.old looks.new }
{
    for input in 0..flags.len() {
        if flags[input] {
            match looks.look(input as u8) {
                Some(there) => flags[input] = there,
                None => return Some(input as u8),
            }
        }
    }
    None
}

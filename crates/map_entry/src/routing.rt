//! The row that an output has at a frame, and the row that an action makes of it.

ghost use Rattle.std.specs.Prelude.{◌≡◌, ◌<◌, ◌≤◌, ℕ, Some, length, All, IfOk, IfSome, option_map};
ghost use Rattle.std.specs.Option.{option_copied};
ghost use Rattle.map_entry.specs.Entry.{HaveOffsets, IsFirstRuled, IsPiece, IsUnruled, position_of};
ghost use Rattle.map_entry.specs.Entry.{selected, selected_by};
ghost use Rattle.map_entry.specs.Tick.{frame_key, position_key};
ghost use Rattle.map_entry.specs.Action.{IsAction, applied, with_changes, FitsRow, HasNamedCells};
ghost use Rattle.map_entry.specs.Action.{KeepsOtherCells};

use crate::{Action, Change, Entries, Entry, Row};
use io_caps::{NoMemory, TryCopy};
use std::alloc::Global;

/// The row of the last entry that is of this output and has taken effect at a position, and `None`
/// where there is none. A position is a frame counted from TAI 0, where a tick has the given number
/// of frames.
pub fn select(entries: &Entries, frames: u16, output: u8, position: u64) -> Option<&Row>
    requires { 0 < frames }
    ensures value { option_copied result ≡ selected entries.now output (position_key frames position) }
    ensures by_position { HaveOffsets frames entries.now
        → option_copied result ≡ selected_by (position_of frames) entries.now output position }
{
    let (tick, frame) = frame_at(position, frames);
    select_in(entries.as_slice(), output, tick, frame)
}

/// The frame of a tick that is at a position.
pub fn frame_at(position: u64, frames: u16) -> (u64, u16)
    requires { 0 < frames }
    ensures key { frame_key result.0 result.1 ≡ position_key frames position }
    ensures within { result.1 < frames }
{
    let frames = u64::from(frames);
    (position / frames, (position % frames) as u16)
}

/// The row of the last entry that is of this output and has taken effect at a frame of a tick, and
/// `None` where there is none.
pub fn select_in(entries: &[Entry], output: u8, tick: u64, frame: u16) -> Option<&Row>
    ensures { option_copied result ≡ selected entries.now output (frame_key tick frame) }
{
    for at in (0..entries.len()).rev() {
        let entry = &entries[at];
        if entry.rules(output, tick, frame) {
            return Some(&entry.row);
        }
    }
    None
}

/// The first frame of a tick, of the given number, at which one of these entries rules; none of
/// them does at the frame given. The number of frames, if there is none.
fn first_ruled(later: &[Entry], output: u8, tick: u64, frame: u16, frames: u16) -> u16
    requires within { frame < frames }
    requires none { IsUnruled later.now output (frame_key tick frame) }
    ensures { IsFirstRuled later.now output tick frame frames result }
{
    let mut upto = frames;
    for entry in later {
        let offset = entry.offset;
        if entry.rules(output, tick, upto - 1) {
            upto = offset;
        }
    }
    upto
}

/// The row that rules an output at a frame of a tick of the given number of frames, and the frame
/// up to which it does; `None` if there is none.
pub fn select_piece(
    entries: &[Entry],
    output: u8,
    tick: u64,
    frame: u16,
    frames: u16,
) -> Option<(&Row, u16)>
    requires { frame < frames }
    ensures row { option_map (λ p. p.0.now) result
        ≡ selected entries.now output (frame_key tick frame) }
    ensures rows { IfSome result (λ p. (f : ℕ) → frame ≤ f → f < p.1
        → selected entries.now output (frame_key tick f) ≡ Some p.0.now) }
    ensures piece { IfSome result (λ p. IsPiece entries.now output tick frame frames p.1) }
{
    for at in (0..entries.len()).rev() {
        let found = &entries[at];
        if found.rules(output, tick, frame) {
            let upto = first_ruled(&entries[at + 1..], output, tick, frame, frames);
            return Some((&found.row, upto));
        }
    }
    None
}

/// The row with what an action changes of its output: each channel that the action names has its
/// cell, and any other keeps its own. An equal row where the action does not name the output.
pub fn apply(_alloc: Global, row: &Row, action: &Action, output: u8) -> Result<Row, NoMemory>
    requires { FitsRow action.now output (length row.now) }
    ensures value { IfOk result (λ made. made ≡ applied row.now action.now output) }
    ensures long { IfOk result (λ made. length made ≡ length row.now) }
    ensures named { IfOk result (HasNamedCells action.now output) }
    ensures kept { IfOk result (KeepsOtherCells action.now output row.now) }
{
    let mut made = row.copy()?;
    change_row(&mut made, action, output);
    Ok(made)
}

/// Makes what an action changes of an output.
#[tactic(auto, using(crate::proofs::Changes::lengths))]
fn change_row(row: &mut Row, action: &Action, output: u8)
    requires { FitsRow action.now output (length row.old) }
    ensures value { row.new ≡ applied row.old action.now output }
    ensures valid { IsAction action.now }
{
    if let Some(change) = action.change_of(output) {
        set_cells(row, change.changes());
    }
}

/// Gives the channels that are named their new cells.
fn set_cells(row: &mut Row, changes: &[Change])
    requires { All (λ change. change.channel < length row.old) changes.now }
    ensures { row.new ≡ with_changes changes.now row.old }
{
    for change in changes {
        row.set(change.channel as usize, change.cell);
    }
}

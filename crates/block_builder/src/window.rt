//! The slots of an input's ticks, which rise.

ghost use Rattle.std.specs.Prelude.{◌≡◌, ◌≤◌, ◌<◌, ◌+◌, ◌*◌, ◌^◌, ℕ, length, All, IfOk, IfSome};
ghost use Rattle.std.specs.Prelude.{OnOk, OnErr, true, false, slice_index_or};
ghost use Rattle.std.specs.VecDeque.{deque_len};
ghost use Rattle.io_caps.specs.declared.limits.TheConstants.{MOST_FRAMES, SESSION_TICKS};
ghost use Rattle.block_builder.specs.Blocks.{IsBlock, block_by, piece_at};
ghost use Rattle.block_builder.specs.Window.{HasTick, HasTicks, IsCut, IsFirst, IsOtherAt};
ghost use Rattle.block_builder.specs.Window.{IsTickAt, IsIntake, IsPast, IsPut, IsSlot};
ghost use Rattle.block_builder.specs.Window.{IsUntouched, IsWindow, Meaning, ShowsAdded};
ghost use Rattle.block_builder.specs.Window.{ShowsAlike, ShowsAlikeBefore, fresh_from, fresh_in};
ghost use Rattle.block_builder.specs.declared.intake.Intake.{Intake};
ghost use Rattle.block_builder.specs.declared.slot.Slot.{Slot};

use crate::Block;
use crate::intake::Intake;
use crate::slot::Slot;
use io_caps::NoMemory;
use std::alloc::Global;
use std::collections::VecDeque;

/// How many slots stand before the place of a tick. They are looked at from the back, where most
/// packets belong.
pub(crate) fn cut_at(slots: &VecDeque<Slot>, tick: u64) -> usize
    ensures within { result ≤ length slots.now.items }
    ensures cut { IsCut tick result slots.now.items }
{
    let mut at = slots.len();
    while at > 0 && slots[at - 1].tick >= tick {
        at -= 1;
    }
    at
}

/// Whether the slot at a place is that of a tick.
fn is_at(slots: &VecDeque<Slot>, at: usize, tick: u64) -> bool
    ensures yes { result ≡ true → IsTickAt tick at slots.now.items }
    ensures no { result ≡ false → IsOtherAt tick at slots.now.items }
{
    at < slots.len() && slots[at].tick == tick
}

/// Makes a slot for each tick of a range that has none. If memory runs out, some of them may be
/// left, which hold nothing.
pub(crate) fn add_blanks(
    alloc: Global,
    slots: &mut VecDeque<Slot>,
    intake: Intake,
    from: u64,
    to: u64,
) -> Result<(), NoMemory>
    requires slots { All (IsSlot intake) slots.old.items }
    ensures slots { All (IsSlot intake) slots.new.items }
    ensures window { ShowsAlikeBefore intake from to slots.old.items slots.new.items }
    ensures all { OnOk result (HasTicks from to slots.new.items) }
{
    for tick in from..to {
        add_blank(alloc, slots, intake, tick)?;
    }
    Ok(())
}

/// Makes a slot for a tick that has none.
fn add_blank(
    alloc: Global,
    slots: &mut VecDeque<Slot>,
    intake: Intake,
    tick: u64,
) -> Result<(), NoMemory>
    requires slots { All (IsSlot intake) slots.old.items }
    ensures slots { All (IsSlot intake) slots.new.items }
    ensures window { (first : ℕ) → first ≤ tick → tick < intake.ticks
        → ShowsAlike intake first slots.old.items slots.new.items }
    ensures there { OnOk result (HasTick tick slots.new.items) }
    ensures others { (other : ℕ) → HasTick other slots.old.items → HasTick other slots.new.items }
{
    let at = cut_at(slots, tick);
    if is_at(slots, at, tick) {
        return Ok(());
    }
    slots.insert(at, Slot::blank(alloc, intake, tick)?)?;
    Ok(())
}

/// Lets go the slots that hold nothing.
fn drop_blanks(slots: &mut VecDeque<Slot>)
    ensures slots { (n : Intake) → All (IsSlot n) slots.old.items → All (IsSlot n) slots.new.items }
    ensures window { (n : Intake) (first : ℕ) → ShowsAlike n first slots.old.items slots.new.items }
{
    slots.retain(|slot: &Slot| slot.is_held());
}

/// Makes a slot for each tick of a range that has none. Where memory runs out, no slot is left that
/// holds nothing.
fn make_room(
    alloc: Global,
    slots: &mut VecDeque<Slot>,
    intake: Intake,
    from: u64,
    to: u64,
) -> Result<(), NoMemory>
    requires slots { All (IsSlot intake) slots.old.items }
    ensures slots { All (IsSlot intake) slots.new.items }
    ensures window { ShowsAlikeBefore intake from to slots.old.items slots.new.items }
    ensures all { OnOk result (HasTicks from to slots.new.items) }
{
    let made = add_blanks(alloc, slots, intake, from, to);
    if made.is_err() {
        drop_blanks(slots);
    }
    made
}

/// Puts the frames of a packet into the slots of its ticks, where they hold none, and answers how
/// many. Those before a place are not its.
pub(crate) fn fill_all(
    slots: &mut VecDeque<Slot>,
    payload: &[u8],
    intake: Intake,
    first: u64,
    start: usize,
) -> usize
    requires numbers { IsIntake intake }
    requires slots { All (IsSlot intake) slots.old.items }
    requires near { All (λ s. s.tick ≤ SESSION_TICKS) slots.old.items }
    requires few { length slots.old.items ≤ SESSION_TICKS }
    requires place { first < 2 ^ 32 }
    requires start { start ≤ length slots.old.items }
    requires before { (k : ℕ) (d : Slot) → k < start → k < length slots.old.items
        → IsUntouched intake (piece_at intake first payload.now)
        (slice_index_or slots.old.items k d).tick }
    ensures len { length slots.new.items ≡ length slots.old.items }
    ensures put { (k : ℕ) (d : Slot) → k < length slots.old.items
        → IsPut intake (piece_at intake first payload.now) (slice_index_or slots.old.items k d)
        (slice_index_or slots.new.items k d) }
    ensures count { (m : Meaning) (from : ℕ) → IsWindow intake m from slots.old.items
        → result ≡ fresh_in intake (piece_at intake first payload.now) m slots.old.items }
    ensures bound { result ≤ length slots.old.items * MOST_FRAMES }
{
    let mut used = 0;
    for at in start..slots.len() {
        used += slots[at].fill(payload, intake, first);
    }
    used
}

/// Stores the frames of a packet in the ticks from one on, and answers how many. If memory runs
/// out, nothing changes that the slots show.
pub(crate) fn store(
    alloc: Global,
    slots: &mut VecDeque<Slot>,
    intake: Intake,
    given: u64,
    first: u64,
    payload: &[u8],
) -> Result<usize, NoMemory>
    requires numbers { IsIntake intake }
    requires place { first < 2 ^ 32 }
    requires given { given ≤ intake.ticks }
    requires slots { All (IsSlot intake) slots.old.items }
    requires window { (m : Meaning) × IsWindow intake m given slots.old.items }
    ensures slots { All (IsSlot intake) slots.new.items }
    ensures ok { OnOk result
        (ShowsAdded intake (piece_at intake first payload.now) given slots.old.items
        slots.new.items) }
    ensures count { IfOk result (λ used. (m : Meaning) → IsWindow intake m given slots.old.items
        → used ≡ fresh_from intake (piece_at intake first payload.now) m given) }
    ensures small { IfOk result (λ used. used < 2 ^ 32) }
    ensures err { OnErr result (ShowsAlike intake given slots.old.items slots.new.items) }
{
    let last = intake.last_tick(first, payload);
    let from = intake.tick_at(first as usize).max(given as usize);
    let to = (last + 1).min(intake.ticks as usize);
    make_room(alloc, slots, intake, from as u64, to as u64)?;
    let start = cut_at(slots, from as u64);
    Ok(fill_all(slots, payload, intake, first, start))
}

/// Whether the first slot is that of a tick.
fn is_first(slots: &VecDeque<Slot>, tick: u64) -> bool
    ensures yes { result ≡ true → IsFirst tick slots.now.items }
    ensures no { result ≡ false → IsPast tick slots.now.items }
{
    match slots.front() {
        None => false,
        Some(slot) => slot.tick == tick,
    }
}

/// Takes the first slot, where it is that of a tick.
pub(crate) fn take_first(slots: &mut VecDeque<Slot>, tick: u64) -> Option<Block>
    ensures window { (n : Intake) (m : Meaning) → tick < n.ticks → IsWindow n m tick slots.old.items
        → IsWindow n m (tick + 1) slots.new.items }
    ensures slots { (n : Intake) → All (IsSlot n) slots.old.items → All (IsSlot n) slots.new.items }
    ensures block { (n : Intake) (m : Meaning) → tick < n.ticks → IsWindow n m tick slots.old.items
        → result ≡ block_by n (m tick) }
    ensures shape { (n : Intake) → All (IsSlot n) slots.old.items → IfSome result (IsBlock n) }
{
    if !is_first(slots, tick) {
        return None;
    }
    match slots.pop_front() {
        None => None,
        Some(slot) => slot.into_block(),
    }
}

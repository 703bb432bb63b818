//! What becomes of one packet.

ghost use Rattle.std.specs.Prelude.{◌≡◌, ◌≤◌, ◌<◌, ◌^◌, [], ◌∷◌, List, All, true, false, IfOk};
ghost use Rattle.std.specs.Prelude.{IfErr, OnOk, OnErr};
ghost use Rattle.block_builder.specs.Blocks.{Piece, closed_by, counts, first_place, packet_pieces};
ghost use Rattle.block_builder.specs.Blocks.{piece_at, pieces_by};
ghost use Rattle.block_builder.specs.Building.{IsRight, ShowsMore};
ghost use Rattle.block_builder.specs.Taken.{IsTaken, new_frames, taken_by, used_or_spent};
ghost use Rattle.block_builder.specs.Window.{IsIntake, IsSlot, IsWindow, Meaning, ShowsAlike};
ghost use Rattle.block_builder.specs.declared.arrival.Arrival.TheVariants.{Packet};

use crate::intake::Intake;
use crate::slot::Slot;
use crate::window::store;
use crate::{PacketFault, Taken};
use io_caps::NoMemory;
use rtp_pcm::{Head, frames_in, read_packet};
use std::alloc::Global;
use std::collections::VecDeque;

/// Whether a packet that was read counts: the place of its first frame where it does, and else what
/// becomes of it.
pub(crate) fn judge(intake: Intake, head: Head, payload: &[u8]) -> Result<u64, Taken>
    requires numbers { IsIntake intake }
    ensures counts { OnOk result (counts intake head payload.now ≡ true) }
    ensures place { IfOk result (λ first. (first ≡ first_place intake head.timestamp)
        × (first < 2 ^ 32)) }
    ensures used { OnOk result ((ps : List Piece) → taken_by intake ps head payload.now
        ≡ used_or_spent
        (new_frames intake ps (piece_at intake (first_place intake head.timestamp) payload.now))) }
    ensures no { OnErr result (counts intake head payload.now ≡ false) }
    ensures other { IfErr result (λ taken. (ps : List Piece)
        → taken ≡ taken_by intake ps head payload.now) }
{
    if head.payload_type != intake.payload_type {
        return Err(Taken::Foreign {
            payload_type: head.payload_type,
        });
    }
    if frames_in(payload, intake.channels, intake.width).is_err() {
        return Err(Taken::Misfit(PacketFault::PartFrame));
    }
    let first = intake.first_place(head.timestamp);
    if first >= intake.tick_place(intake.ticks) {
        return Err(Taken::Beyond);
    }
    if payload.is_empty() {
        return Err(Taken::Spent);
    }
    Ok(first)
}

/// How many ticks a packet closes.
fn closed_by_packet(intake: Intake, first: u64, payload: &[u8]) -> u64
    requires numbers { IsIntake intake }
    requires place { first < 2 ^ 32 }
    ensures { result ≡ closed_by intake (piece_at intake first payload.now ∷ []) }
{
    let last = intake.last_tick(first, payload) as u64;
    last.saturating_sub(intake.hold as u64).min(intake.ticks)
}

fn used_or_spent(frames: u32) -> Taken
    ensures { result ≡ used_or_spent frames }
{
    if frames == 0 {
        Taken::Spent
    } else {
        Taken::Used { frames }
    }
}

/// Takes a packet that was read, while no closed tick is left: what becomes of it, and how many
/// ticks it closes.
fn take_read(
    alloc: Global,
    slots: &mut VecDeque<Slot>,
    intake: Intake,
    given: u64,
    head: Head,
    payload: &[u8],
) -> Result<(Taken, u64), NoMemory>
    requires numbers { IsIntake intake }
    requires given { given ≤ intake.ticks }
    requires slots { All (IsSlot intake) slots.old.items }
    requires window { (m : Meaning) × IsWindow intake m given slots.old.items }
    ensures slots { All (IsSlot intake) slots.new.items }
    ensures ok { OnOk result
        (ShowsMore intake given (packet_pieces intake head payload.now) slots.old.items
        slots.new.items) }
    ensures err { OnErr result (ShowsAlike intake given slots.old.items slots.new.items) }
    ensures closes { IfOk result
        (λ x. x.1 ≡ closed_by intake (packet_pieces intake head payload.now)) }
    ensures taken { IfOk result
        (λ x. IsRight intake given slots.old.items
        (λ ps. x.0 ≡ taken_by intake ps head payload.now)) }
{
    match judge(intake, head, payload) {
        Err(taken) => Ok((taken, 0)),
        Ok(first) => {
            let used = store(alloc, slots, intake, given, first, payload)?;
            Ok((
                used_or_spent(used as u32),
                closed_by_packet(intake, first, payload),
            ))
        }
    }
}

/// Takes a packet, while no closed tick is left: what becomes of it, and how many ticks it closes.
pub(crate) fn take_packet(
    alloc: Global,
    slots: &mut VecDeque<Slot>,
    intake: Intake,
    given: u64,
    packet: &[u8],
) -> Result<(Taken, u64), NoMemory>
    requires numbers { IsIntake intake }
    requires given { given ≤ intake.ticks }
    requires slots { All (IsSlot intake) slots.old.items }
    requires window { (m : Meaning) × IsWindow intake m given slots.old.items }
    ensures slots { All (IsSlot intake) slots.new.items }
    ensures ok { OnOk result
        (ShowsMore intake given (pieces_by intake (Packet packet.now)) slots.old.items
        slots.new.items) }
    ensures err { OnErr result (ShowsAlike intake given slots.old.items slots.new.items) }
    ensures closes { IfOk result
        (λ x. x.1 ≡ closed_by intake (pieces_by intake (Packet packet.now))) }
    ensures taken { IfOk result
        (λ x. IsRight intake given slots.old.items (λ ps. IsTaken intake ps packet.now x.0)) }
{
    match read_packet(packet) {
        Err(fault) => Ok((Taken::Misfit(PacketFault::Rtp(fault)), 0)),
        Ok(read) => take_read(alloc, slots, intake, given, read.head, read.payload),
    }
}

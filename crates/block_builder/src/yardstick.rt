//! The blocks of an input by the rule itself: for each frame, all arrivals are looked at. It is
//! slow, and keeps nothing; the builder is tested beside it.

ghost use Rattle.std.specs.Prelude.{◌≡◌, ◌≤◌, ◌<◌, ◌+◌, ◌^◌, [], IfOk, IfSome, length, pos};
ghost use Rattle.std.specs.Prelude.{replicate};
ghost use Rattle.std.specs.Option.{option_map, option_to_list};
ghost use Rattle.block_builder.specs.Blocks.{block_by, block_of, closes, covers, held_at, holder};
ghost use Rattle.block_builder.specs.Blocks.{piece_frame, pieces_by, pieces_of};
ghost use Rattle.block_builder.specs.Seen.{HasFrame, IsSeen, piece_seen};
ghost use Rattle.block_builder.specs.Window.{IsIntake};
ghost use Rattle.block_builder.specs.declared.arrival.Arrival.TheVariants.{Packet};
ghost use Rattle.io_caps.specs.declared.limits.TheConstants.{SESSION_TICKS};

use crate::intake::Intake;
use crate::packet::judge;
use crate::slot::put_samples;
use crate::{Arrival, Block};
use io_caps::{Device, NoMemory};
use rtp_pcm::read_packet;
use std::alloc::Global;

/// What a packet that counts brings, or a reading of the clock.
#[derive(Clone, Copy)]
struct Seen<'a> {
    /// The place of its first frame.
    first: usize,
    /// How many frames it has.
    count: usize,
    /// The tick of its last frame.
    last: usize,
    payload: &'a [u8],
}

impl Seen<'_> {
    /// Whether it has a frame at a place.
    fn covers(&self, place: usize) -> bool
        requires { self.now.first < 2 ^ 32 }
        ensures { result ≡ covers place (piece_seen self.now) }
    {
        self.first <= place && place - self.first < self.count
    }

    /// Whether it closes a tick.
    fn closes(&self, intake: Intake, tick: u64) -> bool
        requires { tick ≤ SESSION_TICKS }
        ensures { result ≡ closes intake tick (piece_seen self.now) }
    {
        tick as usize + (intake.hold as usize) < self.last
    }

    /// The samples at a place where it has a frame.
    fn samples_at(self, alloc: Global, intake: Intake, place: usize) -> Result<Block, NoMemory>
        requires whole { IsSeen intake self }
        requires frame { HasFrame place self }
        ensures { IfOk result (λ made. made ≡ piece_frame intake place (piece_seen self.entry)) }
    {
        let mut samples = vec![in alloc; 0; intake.channels as usize]?;
        let behind = (place - self.first) * intake.frame_len();
        put_samples(&mut samples, &self.payload[behind..], intake.width);
        Ok(Block::from_vec(samples))
    }
}

/// A reading of the clock in a tick.
fn see_clock<'a>(last: usize) -> Seen<'a>
    ensures first { result.first ≡ 0 }
    ensures count { result.count ≡ 0 }
    ensures last { result.last ≡ last }
    ensures payload { result.payload.now ≡ [] }
{
    Seen {
        first: 0,
        count: 0,
        last,
        payload: &[],
    }
}

/// What a packet brings, and `None` where it does not count.
fn see_packet(intake: Intake, bytes: &[u8]) -> Option<Seen<'_>>
    requires { IsIntake intake }
    ensures value { option_to_list (option_map piece_seen result)
        ≡ pieces_by intake (Packet bytes.now) }
    ensures whole { IfSome result (λ seen. IsSeen intake seen) }
{
    let Ok(read) = read_packet(bytes) else {
        return None;
    };
    let Ok(first) = judge(intake, read.head, read.payload) else {
        return None;
    };
    Some(Seen {
        first: first as usize,
        count: read.payload.len() / intake.frame_len(),
        last: intake.last_tick(first, read.payload),
        payload: read.payload,
    })
}

/// What an arrival brings, and `None` where it is a packet that does not count.
fn see(intake: Intake, arrival: &Arrival) -> Option<Seen<'_>>
    requires { IsIntake intake }
    ensures value { option_to_list (option_map piece_seen result) ≡ pieces_by intake arrival.now }
    ensures whole { IfSome result (λ seen. IsSeen intake seen) }
{
    match arrival {
        Arrival::Packet(bytes) => see_packet(intake, bytes.as_slice()),
        Arrival::Mark(tick) => Some(see_clock(tick.saturating_sub(intake.base) as usize)),
        Arrival::End => Some(see_clock(intake.ticks as usize + intake.hold as usize)),
    }
}

/// The packet whose samples a frame of a tick holds.
fn holder(intake: Intake, arrivals: &[Arrival], tick: u64, place: usize) -> Option<Seen<'_>>
    requires numbers { IsIntake intake }
    requires near { tick ≤ SESSION_TICKS }
    ensures value { option_map piece_seen result ≡ holder intake (pieces_of intake arrivals.now)
        tick place }
    ensures whole { IfSome result (λ seen. IsSeen intake seen) }
    ensures frame { IfSome result (λ seen. HasFrame place seen) }
{
    for arrival in arrivals {
        if let Some(seen) = see(intake, arrival) {
            if seen.covers(place) {
                return Some(seen);
            }
            if seen.closes(intake, tick) {
                return None;
            }
        }
    }
    None
}

/// Silence for each channel.
fn silence(alloc: Global, intake: Intake) -> Result<Block, NoMemory>
    ensures { IfOk result (λ made. made ≡ replicate intake.channels (pos 0)) }
{
    Ok(Block::from_vec(vec![in alloc; 0; intake.channels as usize]?))
}

/// What a frame of a tick holds: its samples, or nothing.
fn frame_at(
    alloc: Global,
    intake: Intake,
    arrivals: &[Arrival],
    tick: u64,
    frame: u16,
) -> Result<Option<Block>, NoMemory>
    requires numbers { IsIntake intake }
    requires near { tick ≤ SESSION_TICKS }
    requires within { frame < intake.frames }
    ensures { IfOk result
        (λ held. held ≡ held_at intake (pieces_of intake arrivals.now) tick frame) }
{
    let place = intake.tick_place(tick) as usize + frame as usize;
    let Some(seen) = holder(intake, arrivals, tick, place) else {
        return Ok(None);
    };
    Ok(Some(seen.samples_at(alloc, intake, place)?))
}

/// The block of a tick, which is counted from the session's first.
fn block_at(
    alloc: Global,
    intake: Intake,
    arrivals: &[Arrival],
    tick: u64,
) -> Result<Option<Block>, NoMemory>
    requires numbers { IsIntake intake }
    requires near { tick ≤ SESSION_TICKS }
    ensures { IfOk result
        (λ block. block ≡ block_by intake (held_at intake (pieces_of intake arrivals.now) tick)) }
{
    let mut samples = Block::new(alloc);
    let mut is_held = false;
    for frame in 0..intake.frames {
        match frame_at(alloc, intake, arrivals, tick, frame)? {
            Some(held) => {
                is_held = true;
                samples.append(held)?;
            }
            None => samples.append(silence(alloc, intake)?)?,
        }
    }
    Ok(if is_held { Some(samples) } else { None })
}

/// The block at a tick of an input that is there, after these arrivals, in a session of a given
/// number of ticks from the device's first one; and `None` where no frame of it holds a packet's
/// samples.
pub fn block_by_rule(
    alloc: Global,
    device: &Device,
    input: u8,
    ticks: u64,
    arrivals: &[Arrival],
    tick: u64,
) -> Result<Option<Block>, NoMemory>
    requires input { input < length device.now.inputs }
    requires ticks { ticks ≤ SESSION_TICKS }
    requires from { device.now.base ≤ tick }
    requires to { tick < device.now.base + ticks }
    ensures { IfOk result (λ block. block ≡ block_of device.now input ticks arrivals.now tick) }
{
    let intake = Intake::of(device, input, ticks);
    block_at(alloc, intake, arrivals, tick - device.base())
}

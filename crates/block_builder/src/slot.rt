//! A tick that waits: its samples so far, and which of its frames hold any.

ghost use Rattle.std.specs.Prelude.{◌≡◌, ◌≤◌, ◌<◌, ◌+◌, ◌*◌, ◌^◌, ◌++◌, List, take, drop, length};
ghost use Rattle.std.specs.Prelude.{All, IfOk, IfSome, replicate, true};
ghost use Rattle.io_caps.specs.Rate.{bytes_per_sample};
ghost use Rattle.std.specs.List.{list_any};
ghost use Rattle.rtp_pcm.specs.Pcm.{IsSample};
ghost use Rattle.block_builder.specs.Blocks.{Held, IsBlock, block_by, frame_bytes, piece_at};
ghost use Rattle.block_builder.specs.Blocks.{samples_in, samples_of};
ghost use Rattle.block_builder.specs.Window.{IsAdded, IsBlank, IsFreshCount, IsIntake, IsShown};
ghost use Rattle.block_builder.specs.Window.{IsSlot, IsTickPart};
ghost use Rattle.block_builder.specs.declared.intake.Intake.{Intake};
ghost use Rattle.io_caps.specs.declared.limits.TheConstants.{SESSION_TICKS};

use crate::Block;
use crate::intake::Intake;
use io_caps::{NoMemory, Width};
use rtp_pcm::get_sample;
use std::alloc::Global;

/// A tick that may still be given samples, or that was not handed out. It is counted from the
/// session's first.
#[derive(Debug, Drop)]
pub struct Slot {
    pub(crate) tick: u64,
    pub(crate) samples: Vec<i32>,
    pub(crate) held: Vec<bool>,
}

/// Reads a given number of samples, one after the other.
pub(crate) fn put_samples(out: &mut [i32], payload: &[u8], width: Width)
    requires range { All IsSample out.old }
    requires there { length out.old * bytes_per_sample width ≤ length payload.now }
    ensures value { out.new ≡ samples_in width (length out.old) payload.now }
    ensures range { All IsSample out.new }
{
    let bytes = width.bytes();
    for place in 0..out.len() {
        out[place] = get_sample(&payload[place * bytes..place * bytes + bytes], width);
    }
}

/// Reads the samples of one frame into its place among those of a tick.
pub(crate) fn put_frame(samples: &mut [i32], payload: &[u8], intake: Intake, frame: usize)
    requires numbers { IsIntake intake }
    requires block { IsBlock intake samples.old }
    requires within { frame < intake.frames }
    requires there { frame_bytes intake ≤ length payload.now }
    ensures value { samples.new ≡ take (frame * intake.channels) samples.old
        ++ (samples_of intake payload.now ++ drop (frame * intake.channels + intake.channels)
        samples.old) }
    ensures block { IsBlock intake samples.new }
{
    let channels = intake.channels as usize;
    let at = frame * channels;
    put_samples(&mut samples[at..at + channels], payload, intake.width);
}

/// Whether a flag is set.
fn is_any(held: &[bool]) -> bool
    ensures { result ≡ list_any (λ flag. flag) held.now }
{
    held.iter().any(|flag| *flag)
}

/// Puts the frames of a packet, one by one, into those of a tick that hold none, and answers how
/// many. Out of line, so that its loop keeps its registers.
#[inline(never)]
fn fill_each(
    samples: &mut [i32],
    held: &mut [bool],
    payload: &[u8],
    intake: Intake,
    tick: u64,
    first: u64,
) -> usize
    requires numbers { IsIntake intake }
    requires near { tick ≤ SESSION_TICKS }
    requires block { IsBlock intake samples.old }
    requires flags { length held.old ≡ intake.frames }
    requires place { first < 2 ^ 32 }
    ensures block { IsBlock intake samples.new }
    ensures flags { length held.new ≡ intake.frames }
    ensures shown { IsAdded intake (piece_at intake first payload.now) tick samples.old held.old
        samples.new held.new }
    ensures count { IsFreshCount intake (piece_at intake first payload.now) tick samples.old
        held.old result }
    ensures few { result ≤ intake.frames }
{
    let frame_len = intake.frame_len();
    let start = intake.tick_place(tick) as usize;
    let first = first as usize;
    let end = first + payload.len() / frame_len;
    let limit = start + intake.frames as usize;
    let from = first.max(start).min(limit);
    let to = end.min(limit);
    let mut used = 0;
    for place in from..to {
        let frame = place - start;
        let is_held = held[frame];
        if !is_held {
            held[frame] = true;
            put_frame(
                samples,
                &payload[(place - first) * frame_len..],
                intake,
                frame,
            );
            used += 1;
        }
    }
    used
}

/// What a payload has from the first frame of a tick on, where it covers all of them.
fn tick_part(payload: &[u8], intake: Intake, tick: u64, first: u64) -> Option<&[u8]>
    requires numbers { IsIntake intake }
    requires near { tick ≤ SESSION_TICKS }
    requires place { first < 2 ^ 32 }
    ensures { IfSome result (λ part.
        IsTickPart intake (piece_at intake first payload.now) tick part.now) }
{
    let start = intake.tick_place(tick);
    let frame_len = intake.frame_len();
    let count = (payload.len() / frame_len) as u64;
    if start < first || first + count < start + u64::from(intake.frames) {
        return None;
    }
    Some(&payload[(start - first) as usize * frame_len..])
}

/// Puts all frames of a tick that holds none.
fn fill_whole(samples: &mut [i32], held: &mut [bool], part: &[u8], intake: Intake)
    requires block { IsBlock intake samples.old }
    requires there { intake.frames * frame_bytes intake ≤ length part.now }
    ensures value { samples.new
        ≡ samples_in intake.width (intake.frames * intake.channels) part.now }
    ensures held { held.new ≡ replicate (length held.old) true }
    ensures block { IsBlock intake samples.new }
{
    held.fill(true);
    put_samples(samples, part, intake.width);
}

/// Puts the frames of a packet into those of a tick that hold none, and answers how many. `first`
/// is the place of the packet's first frame.
pub(crate) fn fill(
    samples: &mut [i32],
    held: &mut [bool],
    payload: &[u8],
    intake: Intake,
    tick: u64,
    first: u64,
) -> usize
    requires numbers { IsIntake intake }
    requires near { tick ≤ SESSION_TICKS }
    requires block { IsBlock intake samples.old }
    requires flags { length held.old ≡ intake.frames }
    requires place { first < 2 ^ 32 }
    ensures block { IsBlock intake samples.new }
    ensures flags { length held.new ≡ intake.frames }
    ensures shown { IsAdded intake (piece_at intake first payload.now) tick samples.old held.old
        samples.new held.new }
    ensures count { IsFreshCount intake (piece_at intake first payload.now) tick samples.old
        held.old result }
    ensures few { result ≤ intake.frames }
{
    if let Some(part) = tick_part(payload, intake, tick, first) {
        if !is_any(held) {
            fill_whole(samples, held, part, intake);
            return intake.frames as usize;
        }
    }
    fill_each(samples, held, payload, intake, tick, first)
}

impl Slot {
    /// A slot whose frames hold nothing.
    pub(crate) fn blank(alloc: Global, intake: Intake, tick: u64) -> Result<Slot, NoMemory>
        ensures tick { IfOk result (λ s. s.tick ≡ tick) }
        ensures slot { IfOk result (λ s. IsSlot intake s) }
        ensures shown { IfOk result (λ s. IsBlank intake s.samples.items s.held.items) }
    {
        let frames = intake.frames as usize;
        Ok(Slot {
            tick,
            samples: vec![in alloc; 0; frames * intake.channels as usize]?,
            held: vec![in alloc; false; frames]?,
        })
    }

    /// Puts the frames of a packet into those of the tick that hold none, and answers how many.
    pub(crate) fn fill(&mut self, payload: &[u8], intake: Intake, first: u64) -> usize
        requires numbers { IsIntake intake }
        requires near { self.old.tick ≤ SESSION_TICKS }
        requires slot { IsSlot intake self.old }
        requires place { first < 2 ^ 32 }
        ensures tick { self.new.tick ≡ self.old.tick }
        ensures slot { IsSlot intake self.new }
        ensures shown { IsAdded intake (piece_at intake first payload.now) self.old.tick
            self.old.samples.items self.old.held.items self.new.samples.items self.new.held.items }
        ensures count { IsFreshCount intake (piece_at intake first payload.now) self.old.tick
            self.old.samples.items self.old.held.items result }
        ensures few { result ≤ intake.frames }
    {
        fill(
            &mut self.samples,
            &mut self.held,
            payload,
            intake,
            self.tick,
            first,
        )
    }

    /// Whether a frame holds anything.
    pub(crate) fn is_held(&self) -> bool
        ensures { result ≡ list_any (λ flag. flag) self.now.held.items }
    {
        is_any(&self.held)
    }

    /// The tick's block, and `None` where no frame holds anything.
    pub(crate) fn into_block(self) -> Option<Block>
        ensures value { (n : Intake) (held : Held)
            → IsShown n held self.samples.items self.held.items → result ≡ block_by n held }
        ensures shape { (n : Intake) → IsSlot n self → IfSome result (IsBlock n) }
    {
        if self.is_held() {
            let Slot { samples, .. } = self;
            Some(Block::from_vec(samples))
        } else {
            None
        }
    }
}

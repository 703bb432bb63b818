//! Where samples come from.

ghost use Rattle.std.specs.Prelude.{◌≡◌, ◌↔◌, IfSome, IfNone, IsTrue, Some, None, ◌≤◌, ◌<◌};
ghost use Rattle.std.specs.Prelude.{◌+◌, ◌*◌, ℕ, length, refl};
ghost use Rattle.std.proofs.Common.{◌∙◌};
ghost use Rattle.io_caps.specs.declared.limits.TheConstants.{MOST_CHANNELS};
ghost use Rattle.packet_writer.specs.Heard.{AreListed, HasFrames, HaveFrames, OfAgreed, SeesMore};
ghost use Rattle.packet_writer.specs.Heard.{TickBlocks, channel_samples, listed};
ghost use Rattle.packet_writer.specs.Stays.{IsOnward};

use io_caps::{Device, Input, ListOf};

/// The input blocks of one tick, as they are seen. What is said of them is said of all blocks that
/// agree with what was seen: to see more leaves fewer of them. What no call changes, as which tick
/// it is, is what `stays`.
pub trait Samples {
    ghost agrees: { Self → TickBlocks → Type 0 };

    ghost stays: { Self → Self → Type 0 };

    /// The samples of a channel of an input, with its number of channels, from a frame on; silence
    /// where there is no block.
    fn copy_channel(&mut self, input: u8, channels: usize, channel: u8, frame: u16, out: &mut [i32])
        requires channel { channel < channels }
        requires room { OfAgreed (agrees self.old) (λ b.
            HasFrames (b input) channels (frame + length out.old)) }
        ensures value { OfAgreed (agrees self.new) (λ b.
            out.new ≡ channel_samples (b input) channels channel frame (length out.old)) }
        ensures len { length out.new ≡ length out.old }
        ensures kept { SeesMore (agrees self.old) (agrees self.new) }
        ensures stays { stays self.old self.new };

    ghost onward: { IsOnward stays };
}

/// The samples of a block, frame by frame, each frame in channel order.
pub type Block = ListOf<i32>;

/// Blocks in memory, by input.
#[derive(Debug, Drop)]
pub struct HeldBlocks<'a> {
    pub(crate) blocks: &'a [Option<Block>],
}

impl<'a> HeldBlocks<'a> {
    /// The blocks of these places.
    pub fn new(blocks: &'a [Option<Block>]) -> HeldBlocks<'a>
        ensures { OfAgreed (AreListed blocks.now)
            (⟦<HeldBlocks<'static> as Samples>⟧.agrees result) }
    {
        HeldBlocks { blocks }
    }

    /// Whether the block of each of the device's inputs, where there is one, has all frames of a
    /// tick.
    pub fn fit(&self, device: &Device) -> bool
        ensures { IsTrue result ↔ OfAgreed (⟦<HeldBlocks<'static> as Samples>⟧.agrees self.now)
            (λ b. HaveFrames device.now.inputs b device.now.rate.frames) }
    {
        let frames = device.rate().frames;
        for number in 0..device.inputs() {
            if !has_frames(self.blocks, number, device.input(number), frames) {
                return false;
            }
        }
        true
    }
}

/// Whether the block of an input, where there is one, has a given number of frames.
fn has_frames(blocks: &[Option<Block>], number: u8, input: &Input, frames: u16) -> bool
    requires { length input.now.labels ≤ MOST_CHANNELS }
    ensures { IsTrue result
        ↔ HasFrames (listed blocks.now number) (length input.now.labels) frames }
{
    match block_at(blocks, number) {
        Some(samples) => frames as usize * input.channels() <= samples.len(),
        None => true,
    }
}

impl<'a> Samples for HeldBlocks<'a> {
    ghost agrees = { λ s. AreListed s.blocks.now };

    ghost stays = { λ before after. after.blocks.now ≡ before.blocks.now };

    ghost onward = { record { still = λ a. refl; on = λ a b c f g. g ∙ f } };

    fn copy_channel(
        &mut self,
        input: u8,
        channels: usize,
        channel: u8,
        frame: u16,
        out: &mut [i32],
    ) {
        match block_at(self.blocks, input) {
            Some(samples) => {
                copy_from_block(samples, channels, channel as usize, frame as usize, out)
            }
            None => out.fill(0),
        }
    }
}

/// The block of an input, where there is one.
pub(crate) fn block_at(blocks: &[Option<Block>], input: u8) -> Option<&[i32]>
    ensures some { IfSome result (λ samples. listed blocks.now input ≡ Some samples.now) }
    ensures none { IfNone result (listed blocks.now input ≡ None) }
{
    match blocks.get(input as usize) {
        Some(Some(block)) => Some(block.as_slice()),
        _ => None,
    }
}

/// The samples of a channel of a block, which has a given number, from a frame on: the body of a
/// source in memory. Out of line, so that its loop keeps its registers.
#[inline(never)]
pub fn copy_from_block(
    samples: &[i32],
    channels: usize,
    channel: usize,
    frame: usize,
    out: &mut [i32],
)
    requires channel { channel < channels }
    requires room { (frame + length out.old) * channels ≤ length samples.now }
    ensures { out.new ≡ channel_samples (Some samples.now) channels channel frame (length out.old) }
{
    for n in 0..out.len() {
        out[n] = samples[(frame + n) * channels + channel];
    }
}

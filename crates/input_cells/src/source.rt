//! The samples of a tick as a reader's pass sees them, for the packet writer.

ghost use Rattle.std.specs.Prelude.{◌≡◌, ℕ, false, slice_index_or};
ghost use Rattle.io_caps.specs.declared.device.DeviceParts.{DeviceParts};
ghost use Rattle.packet_writer.specs.Heard.{HaveFrames, OfAgreed};
ghost use Rattle.packet_writer.specs.Packet.{Blocks, found_block};
ghost use Rattle.input_cells.specs.Agreement.{Agrees, AreSeen, AreSights};
ghost use Rattle.input_cells.specs.Faces.{IsReadOf, heard_of, looks_of};
ghost use Rattle.input_cells.specs.Shapes.{IsTableOf};

use crate::one::Part;
use crate::read::ReadPass;
use crate::table::InputTable;
use packet_writer::Samples;

/// The blocks of one tick as a pass sees them: where an input's flag is set a look of the pass saw
/// its block, and the others are taken as none. Each sample is read by one load, and kept in what
/// the pass knows.
#[derive(Drop)]
pub struct SeenSamples<'a> {
    pub table: &'a InputTable,
    pub pass: &'a mut ReadPass,
    pub tick: u64,
    /// A flag for each input.
    pub flags: &'a [bool],
    ghost of_table: { IsReadOf table.now pass.now },
    ghost seen: { AreSights table.now pass.now tick flags.now },
}

/// Whether an input's flag is set.
fn is_set(flags: &[bool], input: u8) -> bool
    ensures { result ≡ slice_index_or flags.now input false }
{
    match flags.get(input as usize) {
        Some(flag) => *flag,
        None => false,
    }
}

impl<'a> SeenSamples<'a> {
    /// The samples of a tick that a pass saw.
    pub fn new(
        table: &'a InputTable,
        pass: &'a mut ReadPass,
        tick: u64,
        flags: &'a [bool],
    ) -> SeenSamples<'a>
        requires pass { IsReadOf table.now pass.old }
        requires seen { AreSeen table.now pass.old tick flags.now }
        ensures lender { result.pass.ghost_name ≡ pass.entry.ghost_name }
        ensures pass { result.pass.now ≡ pass.old }
        ensures table { result.table.now ≡ table.now }
        ensures tick { result.tick ≡ tick }
        ensures flags { result.flags.now ≡ flags.now }
    {
        SeenSamples {
            table,
            pass,
            tick,
            flags,
        }
    }

    /// Blocks that agree with all that the pass has seen agree with these samples, and blocks that
    /// agree with these have all frames of a tick.
    pub fn agree(&self)
        ensures blocks { (d : DeviceParts) (from ticks : ℕ) (blocks : Blocks)
            → IsTableOf d from ticks self.now.table.now
            → Agrees d (looks_of self.now.pass.now) (heard_of self.now.pass.now) blocks
            → ⟦<SeenSamples<'static> as Samples>⟧.agrees self.now
            (found_block blocks self.now.flags.now self.now.tick) }
        ensures frames { (d : DeviceParts) (from ticks : ℕ)
            → IsTableOf d from ticks self.now.table.now
            → OfAgreed (⟦<SeenSamples<'static> as Samples>⟧.agrees self.now)
            (λ b. HaveFrames d.inputs b d.rate.frames) }
    {}
}

impl<'a> Samples for SeenSamples<'a> {
    ghost use Rattle.input_cells.specs.Agreement.{AreHeard};
    ghost use Rattle.input_cells.specs.Sources.{StaysLent, lent_face};
    ghost use Rattle.std.specs.Prelude.{refl};
    ghost use Rattle.std.proofs.Common.{◌∙◌};

    ghost agrees = { λ s b. AreHeard s.pass.now s.tick s.flags.now b };

    ghost stays = { λ before after. StaysLent
        (lent_face before.pass.ghost_name before.table.now before.tick before.flags.now
        before.pass.now)
        (lent_face after.pass.ghost_name after.table.now after.tick after.flags.now
        after.pass.now) };

    ghost onward = { record {
      still = λ a. record {
        lender = refl;
        table = refl;
        tick = refl;
        flags = refl;
        hears = λ p h. h;
      };
      on = λ a b c f g. record {
        lender = g.lender ∙ f.lender;
        table = g.table ∙ f.table;
        tick = g.tick ∙ f.tick;
        flags = g.flags ∙ f.flags;
        hears = λ p h. g.hears p (f.hears p h);
      };
    } };

    fn copy_channel(
        &mut self,
        input: u8,
        channels: usize,
        channel: u8,
        frame: u16,
        out: &mut [i32],
    ) {
        if is_set(self.flags, input) {
            let part = Part {
                channels,
                channel,
                frame,
            };
            self.pass
                .copy_channel(self.table, input, self.tick, part, out);
        } else {
            out.fill(0);
        }
    }
}

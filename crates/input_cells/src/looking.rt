//! Looks of a reader's pass at the inputs that a packet names, at its tick.

ghost use Rattle.std.specs.Prelude.{◌≡◌, ◌≢◌, ◌+◌, ◌≤◌, ℕ, IfErr, IfOk, OnOk, length};
ghost use Rattle.std.specs.List.{All};
ghost use Rattle.io_caps.specs.declared.limits.TheConstants.{MOST_INPUTS};
ghost use Rattle.input_rule.specs.Words.{HasTick};
ghost use Rattle.packet_writer.specs.Packet.{flag_of};
ghost use Rattle.input_cells.specs.Agreement.{AreSeen};
ghost use Rattle.input_cells.specs.Faces.{AreNumbered, Grows, HasInput, HasShape, IsReadOf};
ghost use Rattle.input_cells.specs.Faces.{looks_of};
ghost use Rattle.input_cells.specs.Looking.{HasTickEach, IsLate, IsOpenAt, IsOpenHere};
ghost use Rattle.input_cells.specs.Looking.{IsUntouched, LookedClosed, SeesClosed, SeesFree};

use crate::read::ReadPass;
use crate::table::InputTable;

/// The closing number of an input, or of the pace, is not above a tick.
#[derive(Clone, Copy, Debug, PartialEq, Eq)]
pub struct StillOpen {
    /// The input; the pace has the next number after the inputs.
    pub input: u8,
    pub closed: u64,
}

impl ReadPass {
    /// Looks once at each input whose flag is set, in order, whatever the tick's closing is, and
    /// leaves the flag set where the block is there. There is a flag for each input.
    pub fn look_free(&mut self, table: &InputTable, tick: u64, flags: &mut [bool])
        requires pass { IsReadOf table.now self.old }
        requires tick { HasTickEach table.now tick }
        requires flags { length table.now ≡ length flags.old + 1 }
        requires few { length flags.old ≤ MOST_INPUTS }
        ensures len { length flags.new ≡ length flags.old }
        ensures sees { SeesFree (length flags.old) tick (flag_of flags.old) self.old self.new
            flags.new }
        ensures seen { AreSeen table.now self.new tick flags.new }
        ensures pass { IsReadOf table.now self.new }
        ensures grows { Grows self.old self.new }
    {
        for input in 0..table.inputs() {
            if flags[input] {
                flags[input] = self.look(table, input as u8, tick);
            }
        }
    }

    /// Looks at an input after a load of its closing number, which has to be above the tick.
    fn look_behind(&mut self, table: &InputTable, input: u8, tick: u64) -> Result<bool, StillOpen>
        requires numbered { AreNumbered table.now }
        requires pass { IsReadOf table.now self.old }
        requires input { HasInput table.now input }
        requires tick { HasShape table.now input (λ s. HasTick s tick) }
        ensures ok { IfOk result (LookedClosed self.old self.new input tick) }
        ensures err { IfErr result (IsOpenHere self.old self.new input tick) }
        ensures apart { (i : ℕ) → i ≢ input → IsUntouched self.old self.new i }
        ensures pass { IsReadOf table.now self.new }
        ensures grows { Grows self.old self.new }
    {
        let closed = self.closed(table, input);
        if closed <= tick {
            return Err(StillOpen { input, closed });
        }
        Ok(self.look(table, input, tick))
    }

    /// Looks once at each input whose flag is set, in order, after a load of its closing number,
    /// and leaves the flag set where the block is there; and loads the pace's number last. Each of
    /// these numbers has to be above the tick: the first that is not is answered, and the flags
    /// then have no meaning. There is a flag for each input.
    pub fn look_closed(
        &mut self,
        table: &InputTable,
        tick: u64,
        flags: &mut [bool],
    ) -> Result<(), StillOpen>
        requires pass { IsReadOf table.now self.old }
        requires tick { HasTickEach table.now tick }
        requires flags { length table.now ≡ length flags.old + 1 }
        requires few { length flags.old ≤ MOST_INPUTS }
        ensures len { length flags.new ≡ length flags.old }
        ensures sees { OnOk result (SeesClosed (length flags.old) tick (flag_of flags.old) self.old
            self.new flags.new) }
        ensures seen { OnOk result (AreSeen table.now self.new tick flags.new) }
        ensures open { IfErr result (IsOpenAt (length flags.old) tick (flag_of flags.old) self.old
            self.new) }
        ensures late { All IsLate (looks_of self.old) → All IsLate (looks_of self.new) }
        ensures pass { IsReadOf table.now self.new }
        ensures grows { Grows self.old self.new }
    {
        for input in 0..table.inputs() {
            if flags[input] {
                match self.look_behind(table, input as u8, tick) {
                    Ok(there) => flags[input] = there,
                    Err(open) => return Err(open),
                }
            }
        }
        let pace = flags.len() as u8;
        let closed = self.closed(table, pace);
        if closed <= tick {
            return Err(StillOpen {
                input: pace,
                closed,
            });
        }
        Ok(())
    }
}

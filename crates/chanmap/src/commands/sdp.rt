//! The command `sdp`.

ghost use Rattle.std.specs.Prelude.{◌≡◌, IfErr, OnErr, OnOk, IsErrOf};
ghost use Rattle.chan_io.specs.Causes.{Rose};
ghost use Rattle.chanmap.specs.Top.{IsGiven, IsUnanswered};
ghost use Rattle.chanmap.specs.declared.command.Command.TheVariants.{Sdp};

use crate::end::End;
use crate::input::read_all;
use chan_io::{Failed, Sink, write_whole};
use io_caps::Or;
use sdp_audio::write_sdp;
use std::alloc::Global;

/// Gives the sink the session description of the device of the capture that these bytes are. Their
/// first fault is the end where they are none.
pub(crate) fn sdp<K: Sink>(alloc: Global, bytes: &[u8], out: &mut K) -> Result<(), End>
    ensures done { OnOk result (IsGiven Sdp bytes.now (K.taken out.old) (K.taken out.new)) }
    ensures ends { IfErr result (IsUnanswered Sdp bytes.now (K.taken out.old) (K.taken out.new)
        (Rose (K.faults out.old) (K.faults out.new))) }
    ensures nothing { OnErr result ((IsErrOf result End.WriteFault → ⊥) → out.new ≡ out.old) }
{
    let capture = match read_all(alloc, bytes) {
        Ok(capture) => capture,
        Err(Or::Fault(fault)) => return Err(End::Refused(fault)),
        Err(Or::NoMemory) => return Err(End::NoMemory),
    };
    let mut text = Vec::new(alloc);
    if write_sdp(&capture.setup.device, &mut text).is_err() {
        return Err(End::NoMemory);
    }
    match write_whole(out, &text) {
        Ok(()) => Ok(()),
        Err(Failed) => Err(End::WriteFault),
    }
}

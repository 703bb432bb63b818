//! The command `serial`.

ghost use Rattle.std.specs.Prelude.{◌≡◌, IfErr, OnErr, OnOk, IsErrOf};
ghost use Rattle.chan_io.specs.Causes.{Rose};
ghost use Rattle.chanmap.specs.Top.{IsGiven, IsUnanswered};
ghost use Rattle.chanmap.specs.declared.command.Command.TheVariants.{Serial};

use crate::end::End;
use crate::input::read_all;
use chan_io::Sink;
use io_caps::Or;
use serial_player::write_serial;
use std::alloc::Global;

/// Gives the sink the result of the capture that these bytes are: that of its serial history. Their
/// first fault is the end where they are none.
pub(crate) fn serial<K: Sink>(alloc: Global, bytes: &[u8], out: &mut K) -> Result<(), End>
    ensures done { OnOk result (IsGiven Serial bytes.now (K.taken out.old) (K.taken out.new)) }
    ensures ends { IfErr result (IsUnanswered Serial bytes.now (K.taken out.old) (K.taken out.new)
        (Rose (K.faults out.old) (K.faults out.new))) }
    ensures nothing { OnErr result ((IsErrOf result End.WriteFault → ⊥) → out.new ≡ out.old) }
{
    let capture = match read_all(alloc, bytes) {
        Ok(capture) => capture,
        Err(Or::Fault(fault)) => return Err(End::Refused(fault)),
        Err(Or::NoMemory) => return Err(End::NoMemory),
    };
    match write_serial(alloc, &capture, out) {
        Ok(()) => Ok(()),
        Err(Or::Fault(_)) => Err(End::WriteFault),
        Err(Or::NoMemory) => Err(End::NoMemory),
    }
}

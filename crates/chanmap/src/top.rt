//! The top call: what the program does with its words and the outside.

ghost use Rattle.std.specs.Prelude.{◌≡◌, ℕ, ◌+◌, ◌↔◌, List, Option, None};
ghost use Rattle.std.specs.Prelude.{IfErr, OnOk, OnErr, IsErrOf};
ghost use Rattle.chan_io.specs.Causes.{Rose};
ghost use Rattle.chan_io.specs.Streams.{BoundedRead};
ghost use Rattle.chanmap.specs.End.{IsToldEnd};
ghost use Rattle.chanmap.specs.Top.{IsCause, IsDone, IsRun};
ghost use Rattle.chanmap.specs.Words.{command_of};
ghost use Rattle.chanmap.specs.World.{world_of};
ghost use Rattle.chanmap.specs.declared.end.End.TheVariants.{NoMemory};
ghost use Rattle.chanmap.specs.declared.input.TheConstants.{MOST_BYTES};

use crate::command::Command;
use crate::commands::from_sdp::from_sdp;
use crate::commands::sdp::sdp;
use crate::commands::serial::serial;
use crate::end::{End, tell};
use crate::input::read_input;
use crate::words::command_of;
use chan_io::{Sink, Source};
use std::alloc::Global;

/// Does what a command says: reads what it needs, and hands that to it.
fn run<S: Source, K: Sink>(
    alloc: Global,
    command: Command,
    src: &mut S,
    out: &mut K,
) -> Result<(), End>
    // Whatever the sink of the lines tells, since it is not called.
    ensures done { OnOk result ((told : Option (List ℕ)) (faults : ℕ) → IsDone command
        (world_of (S.left src.old) (S.faults src.old) (K.taken out.old) (K.faults out.old)
        told faults)
        (world_of (S.left src.new) (S.faults src.new) (K.taken out.new) (K.faults out.new)
        told faults)) }
    ensures ends { IfErr result (λ end. (old new : Option (List ℕ)) (before after : ℕ)
        → IsCause command
        (world_of (S.left src.old) (S.faults src.old) (K.taken out.old) (K.faults out.old)
        old before)
        (world_of (S.left src.new) (S.faults src.new) (K.taken out.new) (K.faults out.new)
        new after)
        end) }
    ensures known { IsErrOf result End.Usage → ⊥ }
    ensures bounded { BoundedRead (S.left src.old) (S.left src.new) (MOST_BYTES + 1) }
    ensures nothing { OnErr result ((IsErrOf result End.WriteFault → ⊥) → out.new ≡ out.old) }
{
    match command {
        Command::Serial => {
            let bytes = read_input(alloc, src)?;
            serial(alloc, &bytes, out)
        }
        Command::Sdp => {
            let bytes = read_input(alloc, src)?;
            sdp(alloc, &bytes, out)
        }
        Command::FromSdp { frames } => {
            let bytes = read_input(alloc, src)?;
            from_sdp(alloc, frames, &bytes, out)
        }
    }
}

/// Ends a run whose words found no memory: gives `err` the line of that, and returns its status.
pub fn without_words<X: Sink>(err: &mut X) -> u8
    ensures { IsToldEnd result (X.taken err.old) (X.taken err.new)
        (Rose (X.faults err.old) (X.faults err.new)) NoMemory }
{
    tell(err, End::NoMemory)
}

/// Does what the words after the program's name say, and returns the exit status. The words are
/// looked at first. A command that reads reads the source to its end, and then its bytes as its
/// input; what it makes of them is given to `out`, piece by piece, and all memory is taken before
/// that. Each status but 0 gives `err` a line; where `err` fails, the status stays.
///
/// | status | comes | line |
/// |---|---|---|
/// | 0 | `out` took the whole answer | none |
/// | 2 | exactly where the words are those of no command | `usage: chanmap serial \| sdp \| from-sdp` |
/// | 3 | only where the source's count of faults rose | `read fault` |
/// | 4 | only where the count of `out` rose, which took a front of the answer | `write fault` |
/// | 5 | all was read, and the bytes are no input of the command | `refused at P: KIND` |
/// | 7 | `MOST_BYTES` + 1 bytes were read | `too long` |
/// | 10 | all was read, and no capture is made of the session description | `sdp refused: REASON` |
/// | 12 | memory ran out | `no memory` |
pub fn chanmap<S: Source, K: Sink, X: Sink>(
    alloc: Global,
    words: &[String],
    src: &mut S,
    out: &mut K,
    err: &mut X,
) -> u8
    // The words are those of no command.
    ensures usage { (result ≡ 2) ↔ (command_of words.now ≡ None) }
    // Then the source was not called.
    ensures untouched { result ≡ 2 → src.new ≡ src.old }
    // What each status says of the outside, and which status comes in which case.
    ensures run { IsRun (command_of words.now) result
        (world_of (S.left src.old) (S.faults src.old) (K.taken out.old) (K.faults out.old)
        (X.taken err.old) (X.faults err.old))
        (world_of (S.left src.new) (S.faults src.new) (K.taken out.new) (K.faults out.new)
        (X.taken err.new) (X.faults err.new)) }
    // With each other status than 0 and 4 `out` was not called.
    ensures nothing { (result ≡ 0 → ⊥) → (result ≡ 4 → ⊥) → out.new ≡ out.old }
    // With status 0 `err` was not called.
    ensures quiet { result ≡ 0 → err.new ≡ err.old }
{
    let Some(command) = command_of(words) else {
        return tell(err, End::Usage);
    };
    match run(alloc, command, src, out) {
        Ok(()) => 0,
        Err(end) => tell(err, end),
    }
}

//! What a command reads: its source to the end, and the bytes as a capture.

ghost use Rattle.std.specs.Prelude.{◌≡◌, ◌+◌, IfOk, IfErr};
ghost use Rattle.chan_io.specs.Causes.{Rose};
ghost use Rattle.chan_io.specs.Streams.{BoundedRead, WholeRead};
ghost use Rattle.capture_file.specs.Walk.{IfFault};
ghost use Rattle.capture_file.specs.declared.fault.CaptureFault.{CaptureFault};
ghost use Rattle.chanmap.specs.Captures.{IsNoCapture, IsWholeInput};
ghost use Rattle.chanmap.specs.Unread.{IsUnread};

use crate::end::End;
use capture_file::{Capture, CaptureFault, CaptureKind, read_capture};
use chan_io::{Source, SourceFault, read_whole};
use io_caps::Or;
use std::alloc::Global;

/// The most bytes of an input that is read: 64 MiB.
pub const MOST_BYTES: usize = 67_108_864;

const _: () = prove!(MOST_BYTES == 67_108_864);

/// Reads a source to its end, and returns its bytes, at most `MOST_BYTES` of them.
pub(crate) fn read_input<S: Source>(alloc: Global, src: &mut S) -> Result<Vec<u8>, End>
    ensures whole { IfOk result
        (λ bytes. WholeRead (S.left src.old) (S.left src.new) MOST_BYTES bytes.items) }
    ensures ends { IfErr result (IsUnread (S.left src.old) (S.left src.new)
        (Rose (S.faults src.old) (S.faults src.new))) }
    ensures bounded { BoundedRead (S.left src.old) (S.left src.new) (MOST_BYTES + 1) }
{
    match read_whole(alloc, src, MOST_BYTES) {
        Ok(bytes) => Ok(bytes),
        Err(SourceFault::Failed) => Err(End::ReadFault),
        Err(SourceFault::TooLong) => Err(End::TooLong),
        Err(SourceFault::NoMemory) => Err(End::NoMemory),
    }
}

/// Returns the capture that all of these bytes are, or their first fault.
pub(crate) fn read_all<'a>(alloc: Global, bytes: &'a [u8]) -> Result<Capture<'a>, Or<CaptureFault>>
    ensures found { IfOk result (IsWholeInput bytes.now) }
    ensures fault { IfErr result (λ e. IfFault e (IsNoCapture bytes.now)) }
{
    let (capture, place) = read_capture(alloc, bytes)?;
    if place == bytes.len() {
        Ok(capture)
    } else {
        Err(Or::Fault(CaptureFault {
            at: place as u64,
            kind: CaptureKind::Trailing,
        }))
    }
}

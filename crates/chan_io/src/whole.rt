//! A source read to its end, and a whole text given to a sink.

ghost use Rattle.std.specs.Prelude.{◌≤◌, ◌+◌, IfOk, OnOk, IsErrOf};
ghost use Rattle.std.specs.Io.KnownBytes.{Appends};
ghost use Rattle.chan_io.specs.Causes.{Rose, HasCause};
ghost use Rattle.chan_io.specs.Streams.{TakesPrefix, WholeRead, LongRead, BoundedRead};

use crate::{Failed, Sink, Source};
use std::alloc::Global;
use thiserror::Error;

/// The most bytes that one read asks a source for.
const PIECE: usize = 65_536;

/// Why a source was not read to its end.
#[derive(Clone, Copy, Debug, PartialEq, Eq, Error)]
pub enum SourceFault {
    /// The source failed.
    #[error("the source failed")]
    Failed,
    /// It has more bytes than the limit.
    #[error("the source has more bytes than the limit")]
    TooLong,
    /// There was no memory for the bytes.
    #[error("memory ran out")]
    NoMemory,
}

/// Reads a source to its end, and returns all of its bytes, at most `limit` of them.
///
/// In every case at most `limit` + 1 bytes are read: `TooLong` comes exactly where that many were,
/// and the bytes in hand are let go. `Failed` comes only where the source's count of faults rose in
/// this call, and like `NoMemory` where at most `limit` bytes were read.
#[tactic(auto, using(crate::proofs::Told::steps))]
pub fn read_whole<S: Source>(
    alloc: Global,
    source: &mut S,
    limit: usize,
) -> Result<Vec<u8>, SourceFault>
    ensures later { S.faults source.old ≤ S.faults source.new }
    ensures whole { IfOk result
        (λ bytes. WholeRead (S.left source.old) (S.left source.new) limit bytes.items) }
    ensures failed { IsErrOf result SourceFault.Failed
        → Rose (S.faults source.old) (S.faults source.new) }
    ensures short { IsErrOf result SourceFault.Failed
        → BoundedRead (S.left source.old) (S.left source.new) limit }
    ensures kept { IsErrOf result SourceFault.NoMemory
        → BoundedRead (S.left source.old) (S.left source.new) limit }
    ensures long { IsErrOf result SourceFault.TooLong
        → LongRead (S.left source.old) (S.left source.new) limit }
    ensures most { BoundedRead (S.left source.old) (S.left source.new) (limit + 1) }
{
    let mut bytes = Vec::new(alloc);
    let mut buffer = [0u8; PIECE];
    loop {
        let room = (limit - bytes.len()).min(PIECE - 1) + 1;
        let Ok(count) = source.read(&mut buffer[..room]) else {
            return Err(SourceFault::Failed);
        };
        if count == 0 {
            return Ok(bytes);
        }
        if count > limit - bytes.len() {
            return Err(SourceFault::TooLong);
        }
        if bytes.extend_from_slice(&buffer[..count]).is_err() {
            return Err(SourceFault::NoMemory);
        }
    }
}

/// Gives a sink the whole text, in as many writes as the sink makes of it.
///
/// After `Failed` the sink has taken a front of the text, and its count of faults rose in this
/// call.
#[tactic(auto, using(crate::proofs::Told::steps))]
pub fn write_whole<K: Sink>(sink: &mut K, text: &[u8]) -> Result<(), Failed>
    ensures cause { HasCause (K.faults sink.old) (K.faults sink.new) result }
    ensures ok { OnOk result (Appends (K.taken sink.old) (K.taken sink.new) text.now) }
    ensures prefix { TakesPrefix (K.taken sink.old) (K.taken sink.new) text.now }
{
    let mut at = 0;
    while at < text.len() {
        at += sink.write(&text[at..])?;
    }
    Ok(())
}

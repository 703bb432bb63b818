//! Adapters over std's readers and writers, as the standard streams. They tell nothing of their
//! bytes, and count their errors.

ghost use Rattle.std.specs.Prelude.{◌≡◌, None};

use crate::{Failed, Sink, Source};
use std::io::{Read, Write};

/// A source over a reader.
#[derive(Drop)]
pub struct StdSource<R> {
    inner: R,
    faults: u64,
}

impl<R: Read> StdSource<R> {
    ghost use Rattle.chan_io.specs.Standard.{inner_reader, reader_faults};

    /// A source over this reader, which has not failed.
    pub fn new(inner: R) -> StdSource<R>
        ensures inner { inner_reader result ≡ inner }
        ensures faults { reader_faults result ≡ 0 }
    {
        StdSource { inner, faults: 0 }
    }
}

impl<R: Read> Source for StdSource<R> {
    ghost use Rattle.std.specs.Io.KnownBytes.{ReadConsumes};
    ghost use Rattle.chan_io.specs.Causes.{HasCause, CountsFault};
    ghost use Rattle.chan_io.specs.Streams.{Reads};
    ghost use Rattle.chan_io.specs.Standard.{inner_reader, reader_faults};

    ghost left = { λ _. None };

    ghost faults = { reader_faults };

    /// One read of the reader. Each of its errors is a fault.
    fn read(&mut self, buf: &mut [u8]) -> Result<usize, Failed>
        ensures bytes { Reads None None result buf.new }
        ensures cause { HasCause (reader_faults self.old) (reader_faults self.new) result }
        ensures inner { ReadConsumes (R.remaining (inner_reader self.old))
            (R.remaining (inner_reader self.new)) result buf.new }
        ensures faults { CountsFault (reader_faults self.old) (reader_faults self.new) result }
    {
        match self.inner.read(buf) {
            Ok(count) => Ok(count),
            Err(_) => {
                self.faults = self.faults.saturating_add(1);
                Err(Failed)
            }
        }
    }
}

/// A sink over a writer.
#[derive(Drop)]
pub struct StdSink<W> {
    inner: W,
    faults: u64,
}

impl<W: Write> StdSink<W> {
    ghost use Rattle.chan_io.specs.Standard.{inner_writer, writer_faults};

    /// A sink over this writer, which has not failed.
    pub fn new(inner: W) -> StdSink<W>
        ensures inner { inner_writer result ≡ inner }
        ensures faults { writer_faults result ≡ 0 }
    {
        StdSink { inner, faults: 0 }
    }
}

impl<W: Write> Sink for StdSink<W> {
    ghost use Rattle.std.specs.Io.KnownBytes.{WriteAppends};
    ghost use Rattle.chan_io.specs.Causes.{HasCause, CountsFault};
    ghost use Rattle.chan_io.specs.Streams.{Writes};
    ghost use Rattle.chan_io.specs.Standard.{inner_writer, writer_faults};

    ghost taken = { λ _. None };

    ghost faults = { writer_faults };

    /// One write of the writer. Each of its errors is a fault, and so is a write that takes nothing
    /// of a piece that is not empty.
    fn write(&mut self, piece: &[u8]) -> Result<usize, Failed>
        ensures bytes { Writes None None result piece.now }
        ensures cause { HasCause (writer_faults self.old) (writer_faults self.new) result }
        ensures inner { WriteAppends (W.contents (inner_writer self.old))
            (W.contents (inner_writer self.new)) result piece.now }
        ensures faults { CountsFault (writer_faults self.old) (writer_faults self.new) result }
    {
        match self.inner.write(piece) {
            Ok(count) if count > 0 || piece.is_empty() => Ok(count),
            Ok(_) | Err(_) => {
                self.faults = self.faults.saturating_add(1);
                Err(Failed)
            }
        }
    }
}

//! A source and a sink in memory, which tell their bytes, and whose calls of given numbers fail.

ghost use Rattle.std.specs.Prelude.{◌≡◌, ◌≤◌, ◌<◌, [], Some, vec_len};

use crate::{Failed, Sink, Source};
use std::alloc::Global;

/// Bytes in memory, which are handed over in pieces.
#[derive(Drop)]
pub struct MemSource {
    bytes: Vec<u8>,
    at: usize,
    piece: usize,
    fails: Vec<u64>,
    calls: u64,
    faults: u64,
    ghost within: { at ≤ vec_len bytes },
    ghost moves: { 0 < piece },
}

impl MemSource {
    ghost use Rattle.chan_io.specs.Memory.{bytes_left, source_piece, source_fails};
    ghost use Rattle.chan_io.specs.Memory.{source_calls, source_faults};

    /// A source of these bytes, which hands over at most `piece` of them a read, and at least one
    /// of those that are left. The reads whose numbers, counted from 0, are in `fails` fail.
    pub fn new(bytes: Vec<u8>, piece: usize, fails: Vec<u64>) -> MemSource
        requires { 0 < piece }
        ensures left { bytes_left result ≡ bytes.items }
        ensures piece { source_piece result ≡ piece }
        ensures fails { source_fails result ≡ fails.items }
        ensures calls { source_calls result ≡ 0 }
        ensures faults { source_faults result ≡ 0 }
    {
        MemSource {
            bytes,
            at: 0,
            piece,
            fails,
            calls: 0,
            faults: 0,
        }
    }
}

impl Source for MemSource {
    ghost use Rattle.std.specs.Prelude.{Some, IsTrue, is_err, IfOk};
    ghost use Rattle.std.specs.Prelude.{Contains, ◌↔◌, min, length, ◌≡◌};
    ghost use Rattle.chan_io.specs.Causes.{HasCause, CountsFault, raised};
    ghost use Rattle.chan_io.specs.Streams.{Reads};
    ghost use Rattle.chan_io.specs.Memory.{bytes_left, source_piece, source_fails};
    ghost use Rattle.chan_io.specs.Memory.{source_calls, source_faults};

    ghost left = { λ s. Some (bytes_left s) };

    ghost faults = { source_faults };

    /// Fails exactly at the reads listed, and hands over as many bytes as are left, as a piece has
    /// and as the buffer takes, whichever is least.
    fn read(&mut self, buf: &mut [u8]) -> Result<usize, Failed>
        ensures bytes { Reads (Some (bytes_left self.old))
            (Some (bytes_left self.new)) result buf.new }
        ensures cause { HasCause (source_faults self.old) (source_faults self.new) result }
        ensures listed { IsTrue (is_err result)
            ↔ Contains (source_fails self.old) (source_calls self.old) }
        ensures count { IfOk result
            (λ n. n ≡ min (min (length (bytes_left self.old)) (source_piece self.old))
            (length buf.old)) }
        ensures calls { source_calls self.new ≡ raised (source_calls self.old) }
        ensures faults { CountsFault (source_faults self.old) (source_faults self.new) result }
        ensures fails { source_fails self.new ≡ source_fails self.old }
        ensures piece { source_piece self.new ≡ source_piece self.old }
    {
        let call = self.calls;
        self.calls = self.calls.saturating_add(1);
        if self.fails.contains(&call) {
            self.faults = self.faults.saturating_add(1);
            return Err(Failed);
        }
        let count = (self.bytes.len() - self.at).min(self.piece).min(buf.len());
        buf[..count].copy_from_slice(&self.bytes[self.at..self.at + count]);
        self.at += count;
        Ok(count)
    }
}

/// What was written, in memory.
#[derive(Drop)]
pub struct MemSink {
    taken: Vec<u8>,
    fails: Vec<u64>,
    calls: u64,
    faults: u64,
}

impl MemSink {
    ghost use Rattle.chan_io.specs.Memory.{bytes_taken, sink_fails, sink_calls, sink_faults};

    /// A sink that has taken nothing. The writes whose numbers, counted from 0, are in `fails`
    /// fail. So does one that finds no memory for its bytes.
    pub fn new(alloc: Global, fails: Vec<u64>) -> MemSink
        ensures taken { bytes_taken result ≡ [] }
        ensures fails { sink_fails result ≡ fails.items }
        ensures calls { sink_calls result ≡ 0 }
        ensures faults { sink_faults result ≡ 0 }
    {
        MemSink {
            taken: Vec::new(alloc),
            fails,
            calls: 0,
            faults: 0,
        }
    }

    /// The bytes that it took, in the order of the writes.
    pub fn taken(&self) -> &[u8]
        ensures { result.now ≡ bytes_taken self.now }
    {
        &self.taken
    }
}

impl Sink for MemSink {
    ghost use Rattle.std.specs.Prelude.{Some, IsTrue, is_err, IfOk, Contains, length, ◌≡◌};
    ghost use Rattle.chan_io.specs.Causes.{HasCause, CountsFault, raised};
    ghost use Rattle.chan_io.specs.Streams.{Writes};
    ghost use Rattle.chan_io.specs.Memory.{bytes_taken, sink_fails, sink_calls, sink_faults};

    ghost taken = { λ s. Some (bytes_taken s) };

    ghost faults = { sink_faults };

    /// Takes the whole piece. It fails at the writes listed, and elsewhere only if memory runs out.
    fn write(&mut self, piece: &[u8]) -> Result<usize, Failed>
        ensures bytes { Writes (Some (bytes_taken self.old))
            (Some (bytes_taken self.new)) result piece.now }
        ensures cause { HasCause (sink_faults self.old) (sink_faults self.new) result }
        ensures listed { Contains (sink_fails self.old) (sink_calls self.old)
            → IsTrue (is_err result) }
        ensures count { IfOk result (λ n. n ≡ length piece.now) }
        ensures calls { sink_calls self.new ≡ raised (sink_calls self.old) }
        ensures faults { CountsFault (sink_faults self.old) (sink_faults self.new) result }
        ensures fails { sink_fails self.new ≡ sink_fails self.old }
    {
        let call = self.calls;
        self.calls = self.calls.saturating_add(1);
        if self.fails.contains(&call) || self.taken.extend_from_slice(piece).is_err() {
            self.faults = self.faults.saturating_add(1);
            return Err(Failed);
        }
        Ok(piece.len())
    }
}

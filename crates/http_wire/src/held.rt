//! Bytes that come at the end and are taken from the front.

ghost use Rattle.std.specs.Prelude.{◌≡◌, ◌≤◌, ◌++◌, [], OnOk, OnErr, length, drop};

use io_caps::NoMemory;
use std::alloc::Global;
use std::marker::Model;

/// Bytes that came and were not taken yet.
#[derive(Drop)]
pub struct ByteQueue {
    buffer: Vec<u8>,
    /// How many bytes at the front of the buffer were taken.
    taken: usize,
}

impl Model for ByteQueue {
    ghost use Rattle.std.specs.Prelude.{List, ℕ, drop, length, ◌≤◌};

    ghost Value = { List ℕ };

    ghost view = { λ h. drop h.taken h.buffer.items };

    ghost invariant = { λ h. h.taken ≤ length h.buffer.items };
}

impl ByteQueue {
    /// No bytes.
    pub(crate) fn new(alloc: Global) -> ByteQueue
        ensures { result ≡ [] }
    {
        ByteQueue {
            buffer: Vec::new(alloc),
            taken: 0,
        }
    }

    /// The bytes.
    pub(crate) fn as_slice(&self) -> &[u8]
        ensures { result.now ≡ self.now }
    {
        &self.buffer[self.taken..]
    }

    /// More bytes after them.
    pub(crate) fn append(&mut self, piece: &[u8]) -> Result<(), NoMemory>
        ensures ok { OnOk result (self.new ≡ self.old ++ piece.now) }
        ensures err { OnErr result (self.new ≡ self.old) }
    {
        self.compact();
        self.buffer.extend_from_slice(piece)?;
        Ok(())
    }

    /// Takes bytes from the front.
    pub(crate) fn take(&mut self, count: usize)
        requires { count ≤ length self.old }
        ensures { self.new ≡ drop count self.old }
    {
        self.taken += count;
    }

    /// Lets all bytes go.
    pub(crate) fn clear(&mut self)
        ensures { self.new ≡ [] }
    {
        self.buffer.clear();
        self.taken = 0;
    }

    /// Lets what was taken go, once it is half of the buffer: so each byte is moved once at most.
    fn compact(&mut self)
        ensures { self.new ≡ self.old }
    {
        if self.taken > self.buffer.len() / 2 {
            drop(self.buffer.drain(..self.taken));
            self.taken = 0;
        }
    }
}

//! The traits of a source and of a sink.

ghost use Rattle.std.specs.Prelude.{ℕ, List, Option};
ghost use Rattle.chan_io.specs.Causes.{HasCause};
ghost use Rattle.chan_io.specs.Streams.{Reads, Writes};

use thiserror::Error;

/// A call of the outside failed, which raised its object's count of faults. What the object told of
/// its bytes before the call it tells unchanged.
#[derive(Clone, Copy, Debug, PartialEq, Eq, Error)]
#[error("a call of the outside failed")]
pub struct Failed;

/// Where bytes are read from.
pub trait Source {
    // The bytes that are left, where they are told.
    ghost left: { Self → Option (List ℕ) };

    // How often a call failed. It never falls.
    ghost faults: { Self → ℕ };

    /// Moves the next bytes to the front of the buffer, and answers how many. For a buffer that is
    /// not empty, 0 is the end of the source. What stands in the buffer after these bytes is not
    /// said, and nor is what a failed read leaves in it.
    fn read(&mut self, buf: &mut [u8]) -> Result<usize, Failed>
        ensures bytes { Reads (left self.old) (left self.new) result buf.new }
        ensures cause { HasCause (faults self.old) (faults self.new) result };
}

/// Where bytes are written to.
pub trait Sink {
    // The bytes that were taken, where they are told.
    ghost taken: { Self → Option (List ℕ) };

    // How often a call failed. It never falls.
    ghost faults: { Self → ℕ };

    /// Takes bytes from the front of the piece, and answers how many: at least 1, unless the piece
    /// is empty.
    fn write(&mut self, piece: &[u8]) -> Result<usize, Failed>
        ensures bytes { Writes (taken self.old) (taken self.new) result piece.now }
        ensures cause { HasCause (faults self.old) (faults self.new) result };
}

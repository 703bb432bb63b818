//! Why nothing was read.

ghost use Rattle.std.specs.Prelude.{◌≡◌};
ghost use Rattle.exact_text.specs.declared.misread.Misread.TheVariants.{NoMemory};

use std::alloc::{AllocError, AllocFailed};
use thiserror::Error;

/// Why nothing was read.
#[derive(Clone, Copy, Debug, PartialEq, Eq, Error)]
pub enum Misread {
    /// The bytes have no reading.
    #[error("the bytes have no reading")]
    NoReading,
    /// Memory ran out, which says nothing of the bytes.
    #[error("memory ran out")]
    NoMemory,
}

impl From<AllocError> for Misread {
    ghost from_gives = { λ _ e. e ≡ NoMemory };

    fn from(_error: AllocError) -> Misread {
        Misread::NoMemory
    }
}

impl<T: Drop> From<AllocFailed<T>> for Misread {
    ghost from_gives = { λ _ e. e ≡ NoMemory };

    fn from(_error: AllocFailed<T>) -> Misread {
        Misread::NoMemory
    }
}

//! Running out of memory, and values that can be copied.

ghost use Rattle.std.specs.Prelude.{◌≡◌, IfOk};

use std::alloc::{AllocError, AllocFailed};
use std::{error, fmt};
use thiserror::Error;

/// Memory ran out.
#[derive(Clone, Copy, Debug, PartialEq, Eq, Error)]
#[error("memory ran out")]
pub struct NoMemory;

/// A fault, or that memory ran out.
#[derive(Debug, Drop)]
pub enum Or<F> {
    Fault(F),
    NoMemory,
}

impl<F: fmt::Display> fmt::Display for Or<F> {
    fn fmt<W: fmt::Write>(&self, f: &mut fmt::Formatter<W>) -> fmt::Result {
        match self {
            Or::Fault(fault) => write!(f, "{fault}"),
            Or::NoMemory => write!(f, "{NoMemory}"),
        }
    }
}

impl<F: fmt::Debug + fmt::Display + Drop> error::Error for Or<F> {}

impl<F> From<NoMemory> for Or<F> {
    ghost use Rattle.io_caps.specs.declared.memory.Or.TheVariants.{NoMemory};

    ghost from_gives = { λ _ e. e ≡ NoMemory };

    fn from(_error: NoMemory) -> Or<F> {
        Or::NoMemory
    }
}

impl From<AllocError> for NoMemory {
    fn from(_error: AllocError) -> NoMemory {
        NoMemory
    }
}

impl<T: Drop> From<AllocFailed<T>> for NoMemory {
    fn from(_error: AllocFailed<T>) -> NoMemory {
        NoMemory
    }
}

/// Values of which an equal one can be made.
pub trait TryCopy: Drop {
    /// An equal value, or `NoMemory` if memory runs out.
    fn copy(&self) -> Result<Self, NoMemory>
        ensures { IfOk result (λ made. made ≡ self.now) };
}

impl TryCopy for u8 {
    fn copy(&self) -> Result<u8, NoMemory> {
        Ok(*self)
    }
}

impl TryCopy for u32 {
    fn copy(&self) -> Result<u32, NoMemory> {
        Ok(*self)
    }
}

impl TryCopy for i32 {
    fn copy(&self) -> Result<i32, NoMemory> {
        Ok(*self)
    }
}

impl TryCopy for u64 {
    fn copy(&self) -> Result<u64, NoMemory> {
        Ok(*self)
    }
}

impl TryCopy for u128 {
    fn copy(&self) -> Result<u128, NoMemory> {
        Ok(*self)
    }
}

impl TryCopy for bool {
    fn copy(&self) -> Result<bool, NoMemory> {
        Ok(*self)
    }
}

impl<T: TryCopy> TryCopy for Option<T> {
    fn copy(&self) -> Result<Option<T>, NoMemory> {
        match self {
            None => Ok(None),
            Some(value) => Ok(Some(value.copy()?)),
        }
    }
}

impl<A: TryCopy, B: TryCopy> TryCopy for (A, B) {
    fn copy(&self) -> Result<(A, B), NoMemory> {
        Ok((self.0.copy()?, self.1.copy()?))
    }
}

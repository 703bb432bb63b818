//! Ways to read values from bytes, and lists of them.

ghost use Rattle.std.specs.Prelude.{List, ℕ, Option};
ghost use Rattle.exact_text.specs.Readings.{Gives, byte_at, number_at, many_at};

use crate::{Misread, byte, number16, number32, number64};
use std::alloc::Global;

/// A way to read values of a type from bytes. It is a type of its own, so that a crate can say how
/// values of another crate's types are read.
pub trait Reads<T: Drop> {
    /// What bytes read as: the value at their front and the bytes after it, or none.
    ghost reading: { List ℕ → Option (T × List ℕ) };

    /// The value at the front of the bytes, and the bytes after it. `NoReading` exactly where they
    /// have no reading.
    fn read(alloc: Global, bytes: &[u8]) -> Result<(T, &[u8]), Misread>
        ensures { Gives (λ x. (x.0, x.1.now)) result (reading bytes.now) };
}

/// Numbers of 1, 2, 4 and 8 bytes in network byte order, the highest first.
pub struct NetworkOrder;

impl Reads<u8> for NetworkOrder {
    ghost reading = { byte_at };

    fn read(_alloc: Global, bytes: &[u8]) -> Result<(u8, &[u8]), Misread> {
        byte(bytes)
    }
}

impl Reads<u16> for NetworkOrder {
    ghost reading = { number_at 2 };

    fn read(_alloc: Global, bytes: &[u8]) -> Result<(u16, &[u8]), Misread> {
        number16(bytes)
    }
}

impl Reads<u32> for NetworkOrder {
    ghost reading = { number_at 4 };

    fn read(_alloc: Global, bytes: &[u8]) -> Result<(u32, &[u8]), Misread> {
        number32(bytes)
    }
}

impl Reads<u64> for NetworkOrder {
    ghost reading = { number_at 8 };

    fn read(_alloc: Global, bytes: &[u8]) -> Result<(u64, &[u8]), Misread> {
        number64(bytes)
    }
}

/// The next `count` values, one after the other, and the bytes after them. `NoReading` where one
/// has none.
pub fn many<R: Reads<T>, T: Drop>(
    alloc: Global,
    count: usize,
    bytes: &[u8],
) -> Result<(Vec<T>, &[u8]), Misread>
    ensures { Gives (λ x. (x.0.items, x.1.now)) result (many_at R.reading count bytes.now) }
{
    let mut values = Vec::new(alloc);
    let mut rest = bytes;
    for _ in 0..count {
        let (value, after) = R::read(alloc, rest)?;
        values.push(value)?;
        rest = after;
    }
    Ok((values, rest))
}

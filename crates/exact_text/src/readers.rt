//! Readers at the front of bytes. Only `text` takes memory: the clause `memory` of the others says
//! that they take none.

ghost use Rattle.std.specs.Prelude.{◌≡◌, IsErrOf};
ghost use Rattle.exact_text.specs.Readings.{Gives, byte_at, number_at, text_at};
ghost use Rattle.exact_text.specs.Readings.{expected_at, literal_at, nothing_at, record_at};

use crate::Misread;
use byteorder::{BigEndian, ByteOrder};
use std::alloc::Global;

/// The byte at the front, and the bytes after it. `NoReading` where there is none.
pub fn byte(bytes: &[u8]) -> Result<(u8, &[u8]), Misread>
    ensures gives { Gives (λ x. (x.0, x.1.now)) result (byte_at bytes.now) }
    ensures memory { IsErrOf result Misread.NoMemory → ⊥ }
{
    match bytes {
        [] => Err(Misread::NoReading),
        [first, rest @ ..] => Ok((*first, rest)),
    }
}

/// The bytes after this one byte. `NoReading` where another byte, or none, is at the front.
pub fn expected(bytes: &[u8], value: u8) -> Result<&[u8], Misread>
    ensures gives { Gives (λ x. x.now) result (expected_at value bytes.now) }
    ensures memory { IsErrOf result Misread.NoMemory → ⊥ }
{
    let (first, rest) = byte(bytes)?;
    if first == value {
        Ok(rest)
    } else {
        Err(Misread::NoReading)
    }
}

/// The bytes after these ones, as after a magic. `NoReading` where others are at the front.
pub fn literal<'a>(bytes: &'a [u8], front: &[u8]) -> Result<&'a [u8], Misread>
    ensures gives { Gives (λ x. x.now) result (literal_at front.now bytes.now) }
    ensures memory { IsErrOf result Misread.NoMemory → ⊥ }
{
    if bytes.starts_with(front) {
        Ok(&bytes[front.len()..])
    } else {
        Err(Misread::NoReading)
    }
}

/// The number in the next 2 bytes, the highest first, and the bytes after it. `NoReading` where
/// there are fewer.
pub fn number16(bytes: &[u8]) -> Result<(u16, &[u8]), Misread>
    ensures gives { Gives (λ x. (x.0, x.1.now)) result (number_at 2 bytes.now) }
    ensures memory { IsErrOf result Misread.NoMemory → ⊥ }
{
    if bytes.len() < 2 {
        return Err(Misread::NoReading);
    }
    Ok((BigEndian::read_u16(bytes), &bytes[2..]))
}

/// The number in the next 4 bytes, the highest first, and the bytes after it. `NoReading` where
/// there are fewer.
pub fn number32(bytes: &[u8]) -> Result<(u32, &[u8]), Misread>
    ensures gives { Gives (λ x. (x.0, x.1.now)) result (number_at 4 bytes.now) }
    ensures memory { IsErrOf result Misread.NoMemory → ⊥ }
{
    if bytes.len() < 4 {
        return Err(Misread::NoReading);
    }
    Ok((BigEndian::read_u32(bytes), &bytes[4..]))
}

/// The number in the next 8 bytes, the highest first, and the bytes after it. `NoReading` where
/// there are fewer.
pub fn number64(bytes: &[u8]) -> Result<(u64, &[u8]), Misread>
    ensures gives { Gives (λ x. (x.0, x.1.now)) result (number_at 8 bytes.now) }
    ensures memory { IsErrOf result Misread.NoMemory → ⊥ }
{
    if bytes.len() < 8 {
        return Err(Misread::NoReading);
    }
    Ok((BigEndian::read_u64(bytes), &bytes[8..]))
}

/// The next `len` bytes, and the bytes after them. `NoReading` where there are fewer.
pub fn slice(bytes: &[u8], len: usize) -> Result<(&[u8], &[u8]), Misread>
    ensures gives { Gives (λ x. (x.0.now, x.1.now)) result (text_at len bytes.now) }
    ensures memory { IsErrOf result Misread.NoMemory → ⊥ }
{
    if bytes.len() < len {
        return Err(Misread::NoReading);
    }
    Ok(bytes.split_at(len))
}

/// A copy of the next `len` bytes, and the bytes after them. `NoReading` where there are fewer.
pub fn text(alloc: Global, bytes: &[u8], len: usize) -> Result<(Vec<u8>, &[u8]), Misread>
    ensures { Gives (λ x. (x.0.items, x.1.now)) result (text_at len bytes.now) }
{
    let (front, rest) = slice(bytes, len)?;
    Ok((Vec::from_slice(alloc, front)?, rest))
}

/// The tag and the body of the next record, and the bytes after it: a byte, the body's length in 4
/// bytes with the highest first, and the body. `NoReading` where the bytes end before the record
/// does.
#[tactic(auto, unfolding(crate::specs::Readings::record_at))]
pub fn record(bytes: &[u8]) -> Result<(u8, &[u8], &[u8]), Misread>
    ensures gives { Gives (λ x. ((x.0, x.1.now), x.2.now)) result (record_at bytes.now) }
    ensures memory { IsErrOf result Misread.NoMemory → ⊥ }
{
    let (tag, rest) = byte(bytes)?;
    let (len, rest) = number32(rest)?;
    let (body, rest) = slice(rest, len as usize)?;
    Ok((tag, body, rest))
}

/// That no bytes are left. `NoReading` where there are some.
pub fn nothing_behind(rest: &[u8]) -> Result<(), Misread>
    ensures gives { Gives (λ x. x) result (nothing_at rest.now) }
    ensures memory { IsErrOf result Misread.NoMemory → ⊥ }
{
    if rest.is_empty() {
        Ok(())
    } else {
        Err(Misread::NoReading)
    }
}

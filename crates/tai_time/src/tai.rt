//! A TAI time and its text.

ghost use Rattle.std.specs.Prelude.{◌≡◌, ◌≢◌, ◌≤◌, ◌<◌, ◌+◌, ◌-◌, ◌*◌, ◌^◌, ◌++◌, ◌↔◌, min, IfOk};
ghost use Rattle.std.specs.Prelude.{IfSome, IfNone, OnOk, OnErr, IsOk, IsNone, Ok, drop, length};
ghost use Rattle.std.specs.List.{position};
ghost use Rattle.std.specs.Result.{IsErrOf};
ghost use Rattle.std.specs.Str.Parse.{IsNumeral, digits_value};
ghost use Rattle.tai_time.specs.Time.{TaiTime, is_colon, IsTai, IsTaiText, HasColon};
ghost use Rattle.tai_time.specs.Time.{HasNoColon, AreDigits, HasSecs, secs_part, nanos_part};
ghost use Rattle.tai_time.specs.Time.{HasNoDigits, IsSecsOver, IsNanosOver, secs_limit};
ghost use Rattle.tai_time.specs.Time.{second, nanos_of, nanos_limit, time_of, tai_text};
ghost use Rattle.tai_time.specs.declared.tai.TaiFault.TheVariants.{NoColon, NotDigits};
ghost use Rattle.tai_time.specs.declared.tai.TaiFault.TheVariants.{SecsRange, NanosRange};

use io_caps::{NoMemory, TryCopy};
use itoa::write_digits;
use std::marker::Model;
use thiserror::Error;

/// The nanoseconds of a second. The nanoseconds of a time are below it.
pub const NANOS_PER_SECOND: u32 = 1_000_000_000;

/// The seconds of a time are below this, 2^40.
pub const SECS_LIMIT: u64 = 1 << 40;

/// What stands between the seconds and the nanoseconds.
const COLON: u8 = b':';

/// The bytes of the longest text: 13 digits, a colon, 9 digits.
const MAX_TEXT_LEN: usize = 23;

/// A time since TAI 0, which is 1970-01-01 00:00:00 TAI (IEEE 1588-2008, section 7.2.2). The
/// seconds are below 2^40 and the nanoseconds below 10^9.
#[derive(Clone, Copy, Debug, PartialEq, Eq)]
pub struct Tai {
    pub secs: u64,
    pub nanos: u32,
}

impl Model for Tai {
    ghost use Rattle.tai_time.specs.Time.{TaiTime, secs_limit, second};

    ghost Value = { TaiTime };

    ghost view = { λ tai. record { secs = tai.secs; nanos = tai.nanos } };

    ghost inverse = { λ time. record { secs = time.secs; nanos = time.nanos } };

    ghost use Rattle.std.specs.Prelude.{◌<◌};

    ghost invariant = { λ tai. (tai.secs < secs_limit) × (tai.nanos < second) };
}

/// Why a text is no time.
#[derive(Clone, Copy, Debug, PartialEq, Eq, Error)]
pub enum TaiFault {
    /// There is no `:`.
    #[error("there is no colon")]
    NoColon,
    /// The part before or after the first `:` is empty or has a byte that is no digit.
    #[error("a part is empty or has a byte that is no digit")]
    NotDigits,
    /// There are 2^40 seconds or more.
    #[error("the seconds are 2^40 or more")]
    SecsRange,
    /// There are 10^9 nanoseconds or more.
    #[error("the nanoseconds are 10^9 or more")]
    NanosRange,
}

/// The number that digits write, cut off at the greatest `u64`; `None` where there is no digit or
/// another byte.
fn read_number(text: &[u8]) -> Option<u64>
    ensures some { IfSome result
        (λ number. IsNumeral 10 text.now × (number ≡ min (digits_value 10 text.now) (2 ^ 64 - 1))) }
    ensures none { IfNone result (IsNumeral 10 text.now → ⊥) }
{
    if text.is_empty() {
        return None;
    }
    let mut number = 0u64;
    for byte in text {
        if !byte.is_ascii_digit() {
            return None;
        }
        number = number
            .saturating_mul(10)
            .saturating_add(u64::from(*byte - b'0'));
    }
    Some(number)
}

/// The time of two numbers.
fn read_parts(before: &[u8], after: &[u8]) -> Result<Tai, TaiFault>
    ensures ok { IsOk result
        ↔ (HasSecs before.now after.now × (digits_value 10 after.now < second)) }
    ensures parts { IfOk result
        (λ time. (time.secs ≡ digits_value 10 before.now)
        × (time.nanos ≡ digits_value 10 after.now)) }
    ensures no_colon { IsErrOf result NoColon → ⊥ }
    ensures not_digits { IsErrOf result NotDigits ↔ (AreDigits before.now after.now → ⊥) }
    ensures secs_range { IsErrOf result SecsRange
        ↔ (AreDigits before.now after.now × (secs_limit ≤ digits_value 10 before.now)) }
    ensures nanos_range { IsErrOf result NanosRange
        ↔ (HasSecs before.now after.now × (second ≤ digits_value 10 after.now)) }
{
    let Some(secs) = read_number(before) else {
        return Err(TaiFault::NotDigits);
    };
    let Some(nanos) = read_number(after) else {
        return Err(TaiFault::NotDigits);
    };
    if secs >= SECS_LIMIT {
        return Err(TaiFault::SecsRange);
    }
    if nanos >= u64::from(NANOS_PER_SECOND) {
        return Err(TaiFault::NanosRange);
    }
    Ok(Tai {
        secs,
        nanos: nanos as u32,
    })
}

/// Where the first colon stands.
fn colon_at(text: &[u8]) -> Option<usize>
    ensures { result ≡ position is_colon text.now }
{
    text.iter().position(|byte| *byte == COLON)
}

/// What stands before and after the first colon.
fn cut_at_colon(text: &[u8]) -> Option<(&[u8], &[u8])>
    ensures some { IfSome result
        (λ parts. HasColon text.now × (parts.0.now ≡ secs_part text.now)
        × (parts.1.now ≡ nanos_part text.now)) }
    ensures none { IfNone result (HasNoColon text.now) }
{
    let at = colon_at(text)?;
    Some((&text[..at], &text[at + 1..]))
}

/// Puts the text of a time at the end of 23 bytes, and answers where it starts.
fn put_text(time: Tai, text: &mut [u8]) -> usize
    requires { length text.old ≡ 23 }
    ensures start { result ≤ 23 }
    ensures len { length text.new ≡ 23 }
    ensures text { drop result text.new ≡ tai_text time }
    ensures again { IsTaiText (tai_text time) time }
{
    let nanos_start = write_digits(u64::from(time.nanos), text, MAX_TEXT_LEN);
    let colon = nanos_start - 1;
    text[colon] = COLON;
    write_digits(time.secs, text, colon)
}

impl Tai {
    /// Reads `seconds:nanoseconds`, each of any number of digits, in the order of the faults. It
    /// takes no memory.
    pub fn read(text: &[u8]) -> Result<Tai, TaiFault>
        ensures found { IfOk result (λ time. IsTaiText text.now time) }
        ensures only { (time : TaiTime) → IsTaiText text.now time → result ≡ Ok time }
        ensures no_colon { IsErrOf result NoColon ↔ HasNoColon text.now }
        ensures not_digits { IsErrOf result NotDigits ↔ HasNoDigits text.now }
        ensures secs_range { IsErrOf result SecsRange ↔ IsSecsOver text.now }
        ensures nanos_range { IsErrOf result NanosRange ↔ IsNanosOver text.now }
    {
        match cut_at_colon(text) {
            None => Err(TaiFault::NoColon),
            Some((before, after)) => read_parts(before, after),
        }
    }

    /// Appends the text without leading zeros. If memory runs out, `out` stays as it was.
    pub fn write(&self, out: &mut Vec<u8>) -> Result<(), NoMemory>
        ensures ok { OnOk result (out.new.items ≡ out.old.items ++ tai_text self.now) }
        ensures err { OnErr result (out.new.items ≡ out.old.items) }
        ensures again { IsTaiText (tai_text self.now) self.now }
    {
        let mut text = [0u8; MAX_TEXT_LEN];
        let start = put_text(*self, &mut text);
        out.extend_from_slice(&text[start..])?;
        Ok(())
    }

    /// The nanoseconds since TAI 0.
    pub(crate) fn as_nanos(self) -> u128
        ensures value { result ≡ nanos_of self }
        ensures limit { result < nanos_limit }
    {
        u128::from(self.secs) * u128::from(NANOS_PER_SECOND) + u128::from(self.nanos)
    }

    /// The time of a given number of nanoseconds, and `None` exactly where that has 2^40 seconds or
    /// more.
    pub(crate) fn from_nanos(nanos: u128) -> Option<Tai>
        ensures time { IfSome result (λ time. (time ≡ time_of nanos) × IsTai time) }
        ensures none { IsNone result ↔ (nanos_limit ≤ nanos) }
    {
        let secs = nanos / u128::from(NANOS_PER_SECOND);
        if secs < u128::from(SECS_LIMIT) {
            Some(Tai {
                secs: secs as u64,
                nanos: (nanos % u128::from(NANOS_PER_SECOND)) as u32,
            })
        } else {
            None
        }
    }
}

impl TryCopy for Tai {
    fn copy(&self) -> Result<Tai, NoMemory> {
        Ok(*self)
    }
}

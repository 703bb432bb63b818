//! Lines and their parts.

ghost use Rattle.std.specs.Prelude.{◌≡◌, ◌∷◌, ◌<◌, ◌≤◌, ◌^◌, length, true, min};
ghost use Rattle.std.specs.Prelude.{◌==◌, [], IfSome, IfNone, option_map, option_copied, position};
ghost use Rattle.std.specs.Char.{is_ascii_digit};
ghost use Rattle.std.specs.List.{list_all, slice_split};
ghost use Rattle.std.specs.Str.Lines.{lines, strip_carriage_return};
ghost use Rattle.std.specs.Str.Parse.{digits_value};
ghost use Rattle.sdp_audio.specs.Line.{is_typed, after_prefix, cut_at, is_numeral, number_in};

use crate::limits::MOST_DIGITS;

/// One more than the greatest number that is asked for.
const NUMBER_LIMIT: u64 = 1 << 32;

/// What follows a text with which the line begins, and `None` where it does not.
pub(crate) fn after_prefix<'a>(line: &'a [u8], prefix: &[u8]) -> Option<&'a [u8]>
    ensures { option_copied result ≡ after_prefix prefix.now line.now }
{
    if line.starts_with(prefix) {
        Some(&line[prefix.len()..])
    } else {
        None
    }
}

/// The place of the first such byte.
fn position_of(text: &[u8], byte: u8) -> Option<usize>
    ensures { result ≡ position (λ b. b == byte) text.now }
{
    text.iter().position(|other| *other == byte)
}

/// What stands before and after the first such byte, and `None` where there is none.
pub(crate) fn cut_at(text: &[u8], byte: u8) -> Option<(&[u8], &[u8])>
    ensures cut { option_map (λ parts. (parts.0.now, parts.1.now)) result ≡ cut_at byte text.now }
    ensures parts { IfSome result (λ parts. slice_split (λ b. b == byte) text.now
        ≡ parts.0.now ∷ slice_split (λ b. b == byte) parts.1.now) }
    ensures shorter { IfSome result (λ parts. length parts.1.now < length text.now) }
    ensures none { IfNone result (slice_split (λ b. b == byte) text.now ≡ text.now ∷ []) }
{
    match position_of(text, byte) {
        Some(at) => Some((&text[..at], &text[at + 1..])),
        None => None,
    }
}

/// Whether the line begins with a lower-case letter and `=`.
pub(crate) fn is_typed(line: &[u8]) -> bool
    ensures { result ≡ is_typed line.now }
{
    match line {
        [letter, b'=', ..] => letter.is_ascii_lowercase(),
        _ => false,
    }
}

/// A line without the CR at its end, if it has one.
fn without_return(line: &[u8]) -> &[u8]
    ensures { result.now ≡ strip_carriage_return line.now }
{
    match line {
        [front @ .., b'\r'] => front,
        _ => line,
    }
}

/// The first line of a text that is not empty, and the lines below it.
pub(crate) fn next_line(text: &[u8]) -> (&[u8], &[u8])
    requires { 0 < length text.now }
    ensures first { lines text.now ≡ result.0.now ∷ lines result.1.now }
    ensures shorter { length result.1.now < length text.now }
{
    match cut_at(text, b'\n') {
        Some((line, below)) => (without_return(line), below),
        None => (text, &[]),
    }
}

/// Whether there are digits alone.
fn are_digits(text: &[u8]) -> bool
    ensures { result ≡ list_all is_ascii_digit text.now }
{
    text.iter().all(|byte| byte.is_ascii_digit())
}

/// Whether there are one to ten digits and nothing else.
fn is_numeral(text: &[u8]) -> bool
    ensures { result ≡ is_numeral text.now }
{
    !text.is_empty() && text.len() <= MOST_DIGITS && are_digits(text)
}

/// The number that digits write, cut off at the limit of the numbers that are asked for.
fn digits_value(digits: &[u8]) -> u64
    requires { list_all is_ascii_digit digits.now ≡ true }
    ensures { result ≡ min (digits_value 10 digits.now) (2 ^ 32) }
{
    let mut number = 0;
    for digit in digits {
        number = (number * 10 + u64::from(*digit - b'0')).min(NUMBER_LIMIT);
    }
    number
}

/// The number that the text is, where it lies between a least and a greatest one.
pub(crate) fn number_in(text: &[u8], least: u32, most: u32) -> Option<u32>
    ensures number { result ≡ number_in least most text.now }
    ensures most { IfSome result (λ number. number ≤ most) }
{
    if !is_numeral(text) {
        return None;
    }
    let number = digits_value(text);
    if u64::from(least) <= number && number <= u64::from(most) {
        Some(number as u32)
    } else {
        None
    }
}

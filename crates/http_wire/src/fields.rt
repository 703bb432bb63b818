//! What the header fields of a request say of its body and of its connection.

ghost use Rattle.std.specs.Prelude.{◌≡◌, ◌≤◌, ◌+◌, All, true, length, map, min};
ghost use Rattle.std.specs.List.{list_any, list_all};
ghost use Rattle.std.specs.Char.{is_ascii_digit};
ghost use Rattle.std.specs.Str.Parse.{digits_value};
ghost use Rattle.std.specs.Str.{str_eq_ignore_ascii_case};
ghost use Rattle.httparse.specs.Spans.{IsHeaderWithin, header_bytes};
ghost use Rattle.http_wire.specs.declared.limits.TheConstants.{MOST_BODY};
ghost use Rattle.http_wire.specs.Fields.{is_named, values_of, AreValues, says_close};
ghost use Rattle.http_wire.specs.Fields.{framing_by, framing_of};

use crate::limits::MOST_BODY;
use crate::{Method, status};
use httparse::spans::{HeaderSpan, Span};

/// How many bytes of body follow a head, or the status for which its fields are refused.
#[derive(Clone, Copy)]
pub enum Framing {
    Body(usize),
    Refused(u16),
}

/// The values of the fields of one name.
#[derive(Clone, Copy)]
enum Values {
    Missing,
    One(Span),
    Several,
}

/// Whether two names of fields are alike: case does not count.
fn is_same_name(name: &[u8], other: &[u8]) -> bool
    ensures { result ≡ str_eq_ignore_ascii_case name.now other.now }
{
    name.eq_ignore_ascii_case(other)
}

/// Whether there is a field of this name.
fn has_field(bytes: &[u8], spans: &[HeaderSpan], name: &[u8]) -> bool
    requires { All (IsHeaderWithin (length bytes.now)) spans.now }
    ensures { result ≡ list_any (is_named name.now) (map (header_bytes bytes.now) spans.now) }
{
    for span in spans {
        if is_same_name(span.name.of(bytes), name) {
            return true;
        }
    }
    false
}

/// The values of the fields of this name: none, the only one, or several.
fn find_values(bytes: &[u8], spans: &[HeaderSpan], name: &[u8]) -> Values
    requires { All (IsHeaderWithin (length bytes.now)) spans.now }
    ensures { AreValues bytes.now
        (values_of name.now (map (header_bytes bytes.now) spans.now)) result }
{
    let mut values = Values::Missing;
    for span in spans {
        if is_same_name(span.name.of(bytes), name) {
            match values {
                Values::Missing => values = Values::One(span.value),
                _ => return Values::Several,
            }
        }
    }
    values
}

/// Whether there are digits alone.
fn are_digits(value: &[u8]) -> bool
    ensures { result ≡ list_all is_ascii_digit value.now }
{
    value.iter().all(|byte| byte.is_ascii_digit())
}

/// The number that digits write, or one byte more than a body has at most, where it is greater.
fn read_number(digits: &[u8]) -> usize
    requires { list_all is_ascii_digit digits.now ≡ true }
    ensures { result ≡ min (digits_value 10 digits.now) (MOST_BODY + 1) }
{
    let mut number = 0;
    for digit in digits {
        number = (number * 10 + usize::from(*digit - b'0')).min(MOST_BODY + 1);
    }
    number
}

/// The body by the one value of `Content-Length`.
fn read_length(value: &[u8]) -> Framing
    ensures { result ≡ framing_by value.now }
{
    if value.is_empty() || !are_digits(value) {
        return Framing::Refused(status::BAD_REQUEST);
    }
    let length = read_number(value);
    if length > MOST_BODY {
        Framing::Refused(status::CONTENT_TOO_LARGE)
    } else {
        Framing::Body(length)
    }
}

/// How long the body of a request of this method and these fields is.
pub(crate) fn read_framing(bytes: &[u8], spans: &[HeaderSpan], method: Method) -> Framing
    requires { All (IsHeaderWithin (length bytes.now)) spans.now }
    ensures { result ≡ framing_of method (map (header_bytes bytes.now) spans.now) }
{
    if has_field(bytes, spans, b"transfer-encoding") {
        return Framing::Refused(status::LENGTH_REQUIRED);
    }
    match find_values(bytes, spans, b"content-length") {
        Values::Several => Framing::Refused(status::BAD_REQUEST),
        Values::One(value) => read_length(value.of(bytes)),
        Values::Missing => match method {
            Method::Post => Framing::Refused(status::LENGTH_REQUIRED),
            _ => Framing::Body(0),
        },
    }
}

/// Whether a `Connection` field asks for the end of the connection.
pub(crate) fn asks_close(bytes: &[u8], spans: &[HeaderSpan]) -> bool
    requires { All (IsHeaderWithin (length bytes.now)) spans.now }
    ensures { result ≡ list_any says_close (map (header_bytes bytes.now) spans.now) }
{
    for span in spans {
        if is_same_name(span.name.of(bytes), b"connection")
            && is_same_name(span.value.of(bytes), b"close")
        {
            return true;
        }
    }
    false
}

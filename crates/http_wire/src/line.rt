//! A field line that is not whole, read byte by byte.

ghost use Rattle.std.specs.Prelude.{◌∷◌, [], IfSome};
ghost use Rattle.http_wire.specs.Line.{Extends};

use httparse::{is_header_name_token, is_header_value_token};

/// What the last line holds, of which the end has not come.
#[derive(Clone, Copy)]
pub enum Part {
    /// Nothing.
    Start,
    /// A part of a name.
    Name,
    /// A name, a colon and a part of a value.
    Value,
    /// The same with the whole value, and a CR.
    Return,
}

impl Part {
    /// The part to which a byte comes, and `None` where that is to be found out by reading the
    /// head.
    fn with_byte(self, byte: u8) -> Option<Part>
        ensures { IfSome result (λ later. Extends self (byte ∷ []) later) }
    {
        match self {
            Part::Start if is_header_name_token(byte) => Some(Part::Name),
            Part::Name if byte == b':' => Some(Part::Value),
            Part::Name if is_header_name_token(byte) => Some(Part::Name),
            Part::Value if byte == b'\r' => Some(Part::Return),
            Part::Value if is_header_value_token(byte) => Some(Part::Value),
            _ => None,
        }
    }

    /// The part to which bytes come, and `None` where that is to be found out by reading the head.
    pub(crate) fn with_bytes(self, bytes: &[u8]) -> Option<Part>
        ensures { IfSome result (λ later. Extends self bytes.now later) }
    {
        let mut part = self;
        for byte in bytes {
            part = part.with_byte(*byte)?;
        }
        Some(part)
    }
}

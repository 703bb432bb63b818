//! UUIDs.

ghost use Rattle.std.specs.Prelude.{◌≡◌, ◌≤◌, length};
ghost use Rattle.channel_json.specs.Uuids.{uuid_of, uuid_text};

use uuid::Uuid;

/// The number of a UUID's text.
pub(crate) fn number_of(text: &str) -> Option<u128>
    ensures { result ≡ uuid_of text.now }
{
    match Uuid::parse_str(text) {
        Ok(id) => Some(id.as_u128()),
        Err(_) => None,
    }
}

/// The text of a number, in lower case with hyphens.
pub(crate) fn text_of(number: u128, buffer: &mut [u8]) -> &str
    requires { 36 ≤ length buffer.old }
    ensures { result.now ≡ uuid_text number }
{
    Uuid::from_u128(number).hyphenated().encode_lower(buffer)
}

//! Fields of JSON objects.

ghost use Rattle.std.specs.Prelude.{◌≡◌, Option, List, Some, option_map};
ghost use Rattle.exact_text.specs.Readings.{Gives};
ghost use Rattle.serde_json.specs.Data.{Data};
ghost use Rattle.serde_json.specs.Find.{as_str, as_bool, get};
ghost use Rattle.serde_json.specs.View.{view, items_view};
ghost use Rattle.channel_json.specs.Fields.{each_in, if_there, is_null, is_null_at, list_at};
ghost use Rattle.channel_json.specs.Fields.{object_at, text_at, whole_at, whole_in};
ghost use Rattle.channel_json.specs.Values.{document};

use exact_text::Misread;
use io_caps::{ListOf, Text};
use serde_json::Value;
use std::alloc::Global;

/// The value that a text says.
pub(crate) fn document(alloc: Global, text: &[u8]) -> Result<Value, Misread>
    ensures { Gives view result (document text.now) }
{
    match Value::from_slice(alloc, text) {
        Ok(value) => Ok(value),
        Err(error) => {
            if error.is_memory() {
                Err(Misread::NoMemory)
            } else {
                Err(Misread::NoReading)
            }
        }
    }
}

/// The text under a key.
pub(crate) fn text_at<'v>(value: &'v Value, key: &str) -> Option<&'v str>
    ensures { option_map (λ s. s.now) result ≡ text_at key.now (view value.now) }
{
    value.get(key).and_then(Value::as_str)
}

/// The whole number that a value is, up to the greatest of its field.
pub(crate) fn whole_of(value: &Value, most: u64) -> Option<u64>
    ensures { result ≡ whole_in most (view value.now) }
{
    let number = value.as_u64()?;
    if number <= most { Some(number) } else { None }
}

/// The whole number under a key, up to the greatest of its field.
pub(crate) fn whole_at(value: &Value, key: &str, most: u64) -> Option<u64>
    ensures { result ≡ whole_at most key.now (view value.now) }
{
    whole_of(value.get(key)?, most)
}

/// The same, where a missing key is as if this stood there.
pub(crate) fn whole_or(value: &Value, key: &str, most: u64, default: u64) -> Option<u64>
    ensures { result ≡ if_there default (whole_in most) (get key.now (view value.now)) }
{
    match value.get(key) {
        None => Some(default),
        Some(member) => whole_of(member, most),
    }
}

/// The flag under a key, where a missing key is as if this stood there.
pub(crate) fn flag_or(value: &Value, key: &str, default: bool) -> Option<bool>
    ensures { result ≡ if_there default as_bool (get key.now (view value.now)) }
{
    match value.get(key) {
        None => Some(default),
        Some(member) => member.as_bool(),
    }
}

/// The list under a key.
pub(crate) fn list_at<'v>(value: &'v Value, key: &str) -> Option<&'v Vec<Value>>
    ensures { option_map (λ list. items_view list.now.items) result
        ≡ list_at key.now (view value.now) }
{
    value.get(key).and_then(Value::as_array)
}

/// The object under a key.
pub(crate) fn object_at<'v>(value: &'v Value, key: &str) -> Option<&'v Value>
    ensures { option_map (λ member. view member.now) result ≡ object_at key.now (view value.now) }
{
    let member = value.get(key)?;
    if member.is_object() {
        Some(member)
    } else {
        None
    }
}

/// Whether null stands under a key, or nothing does.
pub(crate) fn is_null_at(value: &Value, key: &str) -> bool
    ensures { result ≡ is_null_at key.now (view value.now) }
{
    match value.get(key) {
        None => true,
        Some(member) => member.is_null(),
    }
}

/// A copy of a text.
pub(crate) fn copied(alloc: Global, text: &[u8]) -> Result<Text, Misread>
    ensures { Gives (λ x. x) result (Some text.now) }
{
    Ok(Text::from_vec(Vec::from_slice(alloc, text)?))
}

/// The text under a key.
pub(crate) fn named(alloc: Global, value: &Value, key: &str) -> Result<Text, Misread>
    ensures { Gives (λ x. x) result (text_at key.now (view value.now)) }
{
    match text_at(value, key) {
        Some(text) => copied(alloc, text.as_bytes()),
        None => Err(Misread::NoReading),
    }
}

/// The text under a key, where a missing key is as if this stood there.
pub(crate) fn named_or(
    alloc: Global,
    value: &Value,
    key: &str,
    default: &[u8],
) -> Result<Text, Misread>
    ensures { Gives (λ x. x) result (if_there default.now as_str (get key.now (view value.now))) }
{
    match value.get(key) {
        None => copied(alloc, default),
        Some(member) => match member.as_str() {
            Some(text) => copied(alloc, text.as_bytes()),
            None => Err(Misread::NoReading),
        },
    }
}

/// A way to read a JSON value.
pub(crate) trait Form<T: Drop> {
    /// What a value reads as, or none.
    ghost reading: { Self → Data → Option T };

    /// What the value reads as. `NoReading` exactly where it has no reading.
    fn read(&self, alloc: Global, value: &Value) -> Result<T, Misread>
        ensures { Gives (λ x. x) result (reading self.now (view value.now)) };
}

/// What each value of a list reads as.
pub(crate) fn each<F: Form<T>, T: Drop>(
    alloc: Global,
    form: &F,
    list: &[Value],
) -> Result<ListOf<T>, Misread>
    ensures { Gives (λ x. x) result (each_in (F.Form.reading form.now) (items_view list.now)) }
{
    let mut made = Vec::new(alloc);
    for value in list {
        made.push(form.read(alloc, value)?)?;
    }
    Ok(ListOf::from_vec(made))
}

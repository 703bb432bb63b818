//! Errors.

ghost use Rattle.std.specs.Prelude.{◌≡◌, ◌++◌, IfOk, OnOk, OnErr};
ghost use Rattle.serde_json.specs.View.{view};
ghost use Rattle.channel_json.specs.Errors.{error_data, error_text};

use crate::values::append;
use io_caps::NoMemory;
use serde_json::{Value, json};
use std::alloc::{AllocError, Global};

fn error_value(alloc: Global, code: u16, text: &str) -> Result<Value, AllocError>
    ensures { IfOk result (λ v. view v ≡ error_data code text.now) }
{
    json!(in alloc; {"code": code, "debug": null, "error": text})
}

/// Appends what is said of an error: `code` is the status. If memory runs out, `out` stays as it
/// was.
pub fn error_body(alloc: Global, code: u16, text: &str, out: &mut Vec<u8>) -> Result<(), NoMemory>
    ensures ok { OnOk result (out.new.items ≡ out.old.items ++ error_text code text.now) }
    ensures err { OnErr result (out.new.items ≡ out.old.items) }
{
    let value = error_value(alloc, code, text)?;
    append(alloc, &value, out)
}

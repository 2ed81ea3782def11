//! Texts as strings of JSON.

ghost use Rattle.std.specs.Prelude.{◌≡◌, ◌++◌, IfOk, OnOk, string_bytes};
ghost use Rattle.lus_diagnostics.specs.Quoting.{quoted};

use serde_json::Value;
use std::alloc::{AllocError, Global};

/// A text as a string of JSON.
fn quoted(alloc: Global, text: &str) -> Result<String, AllocError>
    ensures { IfOk result (λ string. string_bytes string ≡ quoted text.now) }
{
    Value::try_from_str(alloc, text)?.to_string(alloc)
}

/// Appends a text as a string of JSON.
pub fn push_string(alloc: Global, line: &mut String, text: &str) -> Result<(), AllocError>
    ensures { OnOk result (string_bytes line.new ≡ string_bytes line.old ++ quoted text.now) }
{
    let string = quoted(alloc, text)?;
    line.push_str(string.as_str())
}

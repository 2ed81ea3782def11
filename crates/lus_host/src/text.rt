//! The text of a source's bytes.

ghost use Rattle.std.specs.Prelude.{◌≡◌, ◌≤◌, IfOk, IfErr, length};
ghost use Rattle.lus_syntax.specs.Limits.{most_bytes};
ghost use Rattle.lus_host.specs.Sources.{IsNoText};

use lus_syntax::{MOST_BYTES, Refusal, RefusalNumber, place_behind};
use std::str;

/// The text that a program's bytes are. More bytes than a program may have are refused as a limit at the start, and bytes
/// that are no UTF-8 at the first that is wrong.
pub fn text_of(bytes: &[u8]) -> Result<&str, Refusal>
    ensures same { IfOk result (λ text. text.now ≡ bytes.now) }
    ensures short { IfOk result (λ text. length bytes.now ≤ most_bytes) }
    ensures refused { IfErr result (λ e. IsNoText bytes.now e) }
{
    if bytes.len() > MOST_BYTES {
        return Err(Refusal::new(RefusalNumber::Limit, 1, 1));
    }
    match str::from_utf8(bytes) {
        Ok(text) => Ok(text),
        Err(error) => {
            let place = place_behind(&bytes[..error.valid_up_to()]);
            Err(Refusal::new(RefusalNumber::Lexical, place.line, place.column))
        }
    }
}

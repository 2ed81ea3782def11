//! Why texts are refused, in the words of `lus_explain`.
ghost use Rattle.std.specs.Prelude.{◌≡◌, ◌⊎◌, IsUtf8};
ghost use Rattle.lus_c.specs.Held.{IsOkay};
ghost use Rattle.lus_c.specs.Queries.{IsText};
ghost use Rattle.lus_c.specs.Texts.{IsMemory};
ghost use Rattle.lus_c.specs.Explained.{ExplanationIsTold};

use crate::status::{MEMORY, NONE, TEXT};
use crate::texts::write_text;
use lus_reports::report;
use std::alloc::Global;
use std::str;

fn explain_file(alloc: Global, text: &[u8], name: &str, room: &mut [u8], bytes: &mut u64) -> u32
    ensures told { IsMemory result ⊎ ExplanationIsTold text.now result bytes.new room.old room.new }
    ensures missed { IsOkay result ⊎ (room.new ≡ room.old) }
{
    match report(alloc, name, text) {
        Ok(Some(said)) => write_text(room, bytes, said.as_bytes()),
        Ok(None) => NONE,
        Err(_) => MEMORY,
    }
}

/// What `lus_explain` says of a file of this name that has a text which is refused. `NONE`, where the text is accepted.
#[unsafe(no_mangle)]
pub extern "C" fn lus_raw_explain(
    alloc: Global,
    text: &[u8],
    name: &[u8],
    room: &mut [u8],
    bytes: &mut u64,
) -> u32
    ensures told { IsUtf8 name.now → IsMemory result ⊎ ExplanationIsTold text.now result bytes.new room.old room.new }
    ensures text { ¬ (IsUtf8 name.now) → IsText result }
    ensures missed { IsOkay result ⊎ (room.new ≡ room.old) }
{
    let Ok(name) = str::from_utf8(name) else {
        return TEXT;
    };
    explain_file(alloc, text, name, room, bytes)
}

//! The line of an entry, spelled, and what another line has of it.

ghost use Rattle.std.specs.Prelude.{◌≡◌, IfOk, OnOk, string_bytes};
ghost use Rattle.std.specs.Bool.{Decides};
ghost use Rattle.lus_replay.specs.Replays.{BeginsAs, BeginsAsked, line_of};

use lus_devices::push_line;
use lus_requests::{Entry, Reply};
use lus_values::{Memory, Names};
use std::alloc::Global;

/// Spells the line of an entry of a caller of this name. After `Memory` any text may stand.
pub(crate) fn spell(
    alloc: Global,
    names: &Names,
    caller: &str,
    number: u64,
    entry: &Entry,
    text: &mut String,
) -> Result<(), Memory>
    ensures { OnOk result (string_bytes text.new ≡ line_of names.now caller.now number entry.now) }
{
    let callers = [String::from_str(alloc, caller)?];
    text.clear();
    push_line(text, names, &callers, number, entry)
}

/// Whether a line begins as another does up to its `done`.
fn begins_as(line: &[u8], done: &[u8]) -> bool
    ensures { Decides result (BeginsAs line.now done.now) }
{
    match done.strip_suffix(b"done\n".as_slice()) {
        Some(front) => line.starts_with(front),
        None => false,
    }
}

/// Whether a line begins as one of an entry's request does.
pub(crate) fn asks(
    alloc: Global,
    names: &Names,
    caller: &str,
    number: u64,
    entry: Entry,
    line: &[u8],
) -> Result<bool, Memory>
    ensures { IfOk result (λ b. Decides b (BeginsAsked names.now caller.now number entry.request line.now)) }
{
    let mut asked = entry;
    asked.caller = 0;
    asked.reply = Reply::Done;
    let mut text = String::new(alloc);
    spell(alloc, names, caller, number, &asked, &mut text)?;
    Ok(begins_as(line, text.as_bytes()))
}

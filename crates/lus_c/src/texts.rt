//! Texts of rows, of entries and of journals.
ghost use Rattle.std.specs.Prelude.{◌≡◌, ◌⊎◌, IsUtf8, IfOk, map, string_bytes};
ghost use Rattle.std.specs.List.{list_all};
ghost use Rattle.lus_asked.specs.Asked.{is_unbroken};
ghost use Rattle.lus_c.specs.Held.{IsOkay};
ghost use Rattle.lus_shared.specs.CodeSpecs.Codes.{program_of};
ghost use Rattle.lus_c.specs.Queries.{IsText, OfHeldProgram};
ghost use Rattle.lus_c.specs.Served.{IsValue};
ghost use Rattle.lus_c.specs.Texts.{AreWords, FoundIsTold, IsMemory, OfHeldJournal, RowIsTold, TextIsTold};
ghost use Rattle.lus_c.specs.Texts.{closed_line, closed_text, names_behind};

use crate::status::{MEMORY, NONE, OK, SHORT, TEXT, VALUE};
use lus_devices::{Journal, push_line, push_row, write_journals};
use lus_foreign::{ClosedNode, Content, HANDLE, Handle};
use lus_leaves::{Leaf, row_of};
use lus_shared::lus_machine::Program;
use lus_values::Memory;
use std::alloc::{AllocError, Global};
use std::str;

/// Writes a text into an array that has room for it; says how long it is in any case.
pub(crate) fn write_text(room: &mut [u8], bytes: &mut u64, text: &[u8]) -> u32
    ensures told { TextIsTold text.now result bytes.new room.old room.new }
    ensures missed { IsOkay result ⊎ (room.new ≡ room.old) }
{
    *bytes = text.len() as u64;
    if text.len() > room.len() {
        return SHORT;
    }
    room[..text.len()].copy_from_slice(text);
    OK
}

/// Whether names are words, with which journals are read back.
pub(crate) fn are_words(names: &str) -> bool
    ensures { result ≡ list_all is_unbroken names.now }
{
    names
        .as_bytes()
        .iter()
        .all(|byte| *byte != b' ' && *byte != b'\n')
}

/// The parts of a text that has a 0 behind each.
fn parts(alloc: Global, text: &str) -> Result<Vec<&str>, AllocError>
    ensures { IfOk result (λ v. map (λ t. t.now) v.items ≡ names_behind text.now) }
{
    text.split('\0').collect(alloc)
}

/// The names in a text that has a 0 behind each.
fn names_in(alloc: Global, text: &str) -> Result<Vec<String>, Memory>
    ensures { IfOk result (λ names. map string_bytes names.items ≡ names_behind text.now) }
{
    let mut names = Vec::new(alloc);
    for name in &parts(alloc, text)? {
        names.push(String::from_str(alloc, name)?)?;
    }
    Ok(names)
}

fn tell_row(
    alloc: Global,
    program: &Program,
    leaves: &[Leaf],
    room: &mut [u8],
    bytes: &mut u64,
) -> u32
    ensures { IsMemory result ⊎ RowIsTold (program_of program.now) leaves.now result bytes.new room.old room.new }
{
    let row = match row_of(alloc, leaves) {
        Ok(Some(row)) => row,
        Ok(None) => return VALUE,
        Err(_) => return MEMORY,
    };
    let mut text = String::new(alloc);
    match push_row(&mut text, program.names(), &row) {
        Ok(()) => write_text(room, bytes, text.as_bytes()),
        Err(_) => MEMORY,
    }
}

/// The text of a row of values, as journals have it.
#[unsafe(no_mangle)]
pub extern "C" fn lus_raw_row_text(
    alloc: Global,
    handle: &mut Handle,
    leaves: &[Leaf],
    room: &mut [u8],
    bytes: &mut u64,
) -> u32
    ensures told { OfHeldProgram handle.old.kept.held result
        (λ p. IsMemory result ⊎ RowIsTold p leaves.now result bytes.new room.old room.new) }
    ensures same { handle.new.kept.held ≡ handle.old.kept.held }
{
    let mut ask = |content: &Content| match content {
        Content::Program(program) => tell_row(alloc, program, leaves, room, bytes),
        _ => HANDLE,
    };
    handle.with(alloc, &mut ask)
}

fn tell_journal(
    alloc: Global,
    closed: &ClosedNode,
    instance: &str,
    callers: &str,
    room: &mut [u8],
    bytes: &mut u64,
) -> u32
    ensures { IsMemory result ⊎ FoundIsTold (closed_text instance.now (names_behind callers.now) closed.now) result bytes.new room.old room.new }
{
    let Some(node) = closed.program.source().nodes.get(closed.kind.0 as usize) else {
        return NONE;
    };
    let Ok(callers) = names_in(alloc, callers) else {
        return MEMORY;
    };
    let journal = Journal {
        instance,
        node: node.name.as_str(),
        entries: &closed.entries,
    };
    let names = closed.program.names();
    let mut text = Vec::new(alloc);
    match write_journals(alloc, &mut text, names, &callers, &[journal]) {
        Ok(()) => write_text(room, bytes, &text),
        Err(_) => MEMORY,
    }
}

/// The text of a journal, with the names of its instance and of its callers: `VALUE`, where a name isn't one word.
#[unsafe(no_mangle)]
pub extern "C" fn lus_raw_journal_text(
    alloc: Global,
    journal: &mut Handle,
    instance: &[u8],
    callers: &[u8],
    room: &mut [u8],
    bytes: &mut u64,
) -> u32
    ensures told { IsUtf8 instance.now × IsUtf8 callers.now → AreWords instance.now × AreWords callers.now
        → OfHeldJournal journal.old.kept.held result (λ c. IsMemory result ⊎
        FoundIsTold (closed_text instance.now (names_behind callers.now) c) result bytes.new room.old room.new) }
    ensures text { ¬ (IsUtf8 instance.now × IsUtf8 callers.now) → IsText result }
    ensures value { IsUtf8 instance.now × IsUtf8 callers.now → ¬ (AreWords instance.now × AreWords callers.now) → IsValue result }
    ensures same { journal.new.kept.held ≡ journal.old.kept.held }
{
    let Ok(instance) = str::from_utf8(instance) else {
        return TEXT;
    };
    let Ok(callers) = str::from_utf8(callers) else {
        return TEXT;
    };
    if !are_words(instance) || !are_words(callers) {
        return VALUE;
    }
    let mut ask = |content: &Content| match content {
        Content::Journal(closed) => tell_journal(alloc, closed, instance, callers, room, bytes),
        _ => HANDLE,
    };
    journal.with(alloc, &mut ask)
}

fn tell_line(
    alloc: Global,
    closed: &ClosedNode,
    place: u64,
    callers: &str,
    room: &mut [u8],
    bytes: &mut u64,
) -> u32
    ensures { IsMemory result ⊎ FoundIsTold (closed_line (names_behind callers.now) closed.now place) result bytes.new room.old room.new }
{
    if place >= closed.entries.len() as u64 {
        return NONE;
    }
    let Ok(callers) = names_in(alloc, callers) else {
        return MEMORY;
    };
    let entry = &closed.entries[place as usize];
    let names = closed.program.names();
    let mut line = String::new(alloc);
    match push_line(&mut line, names, &callers, place + 1, entry) {
        Ok(()) => write_text(room, bytes, line.as_bytes()),
        Err(_) => MEMORY,
    }
}

/// The line of an entry in a journal's text, by its place from 0: `VALUE`, where a caller's name isn't one word.
#[unsafe(no_mangle)]
pub extern "C" fn lus_raw_entry_text(
    alloc: Global,
    journal: &mut Handle,
    place: u64,
    callers: &[u8],
    room: &mut [u8],
    bytes: &mut u64,
) -> u32
    ensures told { IsUtf8 callers.now → AreWords callers.now → OfHeldJournal journal.old.kept.held result (λ c. IsMemory result ⊎
        FoundIsTold (closed_line (names_behind callers.now) c place) result bytes.new room.old room.new) }
    ensures text { ¬ (IsUtf8 callers.now) → IsText result }
    ensures value { IsUtf8 callers.now → ¬ (AreWords callers.now) → IsValue result }
    ensures same { journal.new.kept.held ≡ journal.old.kept.held }
{
    let Ok(callers) = str::from_utf8(callers) else {
        return TEXT;
    };
    if !are_words(callers) {
        return VALUE;
    }
    let mut ask = |content: &Content| match content {
        Content::Journal(closed) => tell_line(alloc, closed, place, callers, room, bytes),
        _ => HANDLE,
    };
    journal.with(alloc, &mut ask)
}

//! What is wrong with a line of a journal at which a tool for people stopped, and what it should be: the file is read once more.

ghost use Rattle.std.specs.Prelude.{None};

use crate::files::{named_files, opens};
use crate::instance::names_instance;
use lus_devices::{Disk, Failure, Folder, Sink, write_all};
use lus_lines::{Buffered, read_whole_line};
use lus_many::is_many;
use std::alloc::{AllocError, Global};
use std::rt::Files;
use std::str::from_utf8;

/// More than the line of a fault of a journal has.
const LONGEST: usize = 64;

/// What faults are told to, with the line of the last one.
#[derive(Drop)]
pub struct Told<'o, O> {
    output: &'o mut O,
    line: Vec<u8>,
}

impl<'o, O: Sink> Told<'o, O> {
    pub fn new(alloc: Global, output: &'o mut O) -> Told<'o, O> {
        Told {
            output,
            line: Vec::new(alloc),
        }
    }

    /// The line of the last fault, without its line feed.
    pub fn fault(self) -> Vec<u8> {
        let mut line = self.line;
        if line.ends_with(b"\n") {
            let _ = line.pop();
        }
        line
    }
}

/// The number of the line of a journal that a fault is of, if it is of one.
pub fn journal_line(fault: &[u8]) -> Option<u64> {
    let number = from_utf8(fault).ok()?.strip_prefix("error journal line ")?;
    number.parse::<u64>().ok()
}

impl<O: Sink> Sink for Told<'_, O> {
    ghost written = { λ _. None };

    ghost failures = { λ _. None };

    fn write(&mut self, piece: &[u8]) -> Result<usize, Failure> {
        let taken = self.output.write(piece)?;
        if piece.starts_with(b"error ") {
            self.line.clear();
        }
        if self.line.len() < LONGEST && piece.len() < LONGEST {
            let _ = self.line.extend_from_slice(piece);
        }
        Ok(taken)
    }
}

/// Reads the line of this number in a file.
pub fn read_line<D: Folder>(folder: &D, name: &str, number: u64, line: &mut Vec<u8>) -> Option<()> {
    let mut source = Buffered::new(folder.open(name).ok()?);
    for _line in 0..number {
        read_whole_line(&mut source, line).ok()?;
    }
    Some(())
}

/// How many entries there are behind some and a line of a journal.
fn entries_with(entries: u64, line: &[u8]) -> u64 {
    if line.ends_with(b"# cut short\n") || line.starts_with(b"entries ") {
        return entries;
    }
    if line.starts_with(b"instance ") {
        0
    } else {
        entries.saturating_add(1)
    }
}

/// Whether a line of a log is an entry of an instance.
pub fn is_entry_of(instance: &str, line: &[u8]) -> bool {
    match line.strip_prefix(instance.as_bytes()) {
        Some([b' ', digit, ..]) => digit.is_ascii_digit(),
        _ => false,
    }
}

/// How many entries stand before the line of this number in a file: of its journal, or in a log of this instance.
fn entries_before<D: Folder>(
    alloc: Global,
    folder: &D,
    name: &str,
    instance: Option<&str>,
    number: u64,
) -> Option<u64> {
    let mut source = Buffered::new(folder.open(name).ok()?);
    let mut line = Vec::new(alloc);
    let mut entries = 0u64;
    for _line in 1..number {
        read_whole_line(&mut source, &mut line).ok()?;
        entries = match instance {
            Some(instance) if is_entry_of(instance, &line) => entries.saturating_add(1),
            Some(_) => entries,
            None => entries_with(entries, &line),
        };
    }
    Some(entries)
}

/// What is wrong with an entry that stands behind so many.
fn wrong_entry(alloc: Global, entry: &str, entries: u64) -> Result<String, AllocError> {
    let next = entries.saturating_add(1);
    let written = entry
        .split_once(' ')
        .and_then(|parts| parts.0.parse::<u64>().ok());
    match written {
        Some(written) if written != next => {
            format!(in alloc; "entry {written} where {next} is next")
        }
        Some(_) => format!(in alloc;
            "entry {next} has no request, or is spelled otherwise than `lus` spells it"
        ),
        None => format!(in alloc; "no entry where {next} is next"),
    }
}

/// What is wrong with a line of this number in a journal, behind so many entries.
fn wrong_line(alloc: Global, number: u64, line: &str, entries: u64) -> Result<String, AllocError> {
    if line.starts_with("instance ") {
        let head = line.trim_end();
        return format!(in alloc;
            "`{head}` names no node of the program, or begins a second journal of a run"
        );
    }
    if number == 1 {
        return String::from_str(
            alloc,
            "no `instance NAME NODE`, with which a journal begins",
        );
    }
    let Some(count) = line.strip_prefix("entries ") else {
        return wrong_entry(alloc, line, entries);
    };
    match count.strip_suffix('\n').unwrap_or(count).parse::<u64>() {
        Ok(count) => format!(in alloc; "`entries {count}` where there are {entries}"),
        Err(_) => format!(in alloc; "no number of entries, of which there are {entries}"),
    }
}

/// What is wrong with the line of this number in a file, which is a log or has journals.
fn reason<D: Folder>(
    alloc: Global,
    folder: &D,
    name: &str,
    is_log: bool,
    number: u64,
) -> Option<String> {
    let mut bytes = Vec::new(alloc);
    read_line(folder, name, number, &mut bytes)?;
    let line = from_utf8(&bytes).unwrap_or("");
    if is_log {
        let (instance, entry) = line.split_once(' ').unwrap_or((line, ""));
        let entries = entries_before(alloc, folder, name, Some(instance), number)?;
        wrong_entry(alloc, entry, entries).ok()
    } else {
        let entries = entries_before(alloc, folder, name, None, number)?;
        wrong_line(alloc, number, line, entries).ok()
    }
}

/// What an audit reports of a reply that isn't the right one: the line that is written and the right one.
pub fn replies<D: Folder>(alloc: Global, folder: &D, files: &[&str]) -> Option<String> {
    let mut words = Vec::new(alloc);
    for file in files {
        words.push(String::from_str(alloc, file).ok()?).ok()?;
    }
    let (mut report, mut faults) = (Vec::new(alloc), Vec::new(alloc));
    lus_audit::command(alloc, folder, &words, &mut report, &mut faults);
    let (_, lines) = from_utf8(&report).ok()?.split_once("\nwritten ")?;
    format!(in alloc; "written {lines}").ok()
}

/// What is to be said of the line of this number in the last of these files. A live run has said what a reply should be, and the first line.
fn said<D: Folder>(
    alloc: Global,
    folder: &D,
    tool: &str,
    files: &[&str],
    is_log: bool,
    number: u64,
) -> Option<String> {
    if tool != "lus_audit" {
        if let Some(lines) = replies(alloc, folder, files) {
            return (tool == "lus_draw").then_some(lines);
        }
    }
    let reason = reason(alloc, folder, files.last()?, is_log, number)?;
    format!(in alloc; "{tool}: {reason}\n").ok()
}

/// Says behind the line of a fault what is wrong with the line of this number in a journal or a log, and what it should be, where the file
/// can be read once more: a pipe can't.
pub fn explain_line<R: Files, F: Sink>(
    rt: &R,
    alloc: Global,
    tool: &str,
    words: &[String],
    number: u64,
    faults: &mut F,
) {
    let Ok(files) = named_files(alloc, tool, words) else {
        return;
    };
    let is_read = files.last().is_some_and(|journal| opens(rt, journal));
    let is_said = names_instance(words) || (tool == "lus_live" && (number == 1 || is_many(words)));
    if !is_read || is_said {
        return;
    }
    if let Some(text) = said(alloc, &Disk(rt), tool, &files, is_many(words), number) {
        let _ = write_all(faults, text.as_bytes());
    }
}

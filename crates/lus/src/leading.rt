//! The last entries of an instance before its first wrong one in a log of many, which is read once more: they stand apart among the others'.

ghost use Rattle.std.specs.Prelude.{None};

use crate::files::{named_files, opens};
use crate::wrong_line::{is_entry_of, read_line};
use lus_devices::{Disk, Failure, Folder, Sink, write_all};
use lus_lines::{Buffered, read_whole_line};
use lus_printable::printable;
use std::alloc::{AllocError, Global};
use std::rt::Files;
use std::str::from_utf8;

/// How many entries are shown.
const SHOWN: usize = 3;

/// More bytes than the first line of the report of a wrong entry has.
const LONGEST: usize = 32;

/// What a report is written to, with how it begins.
#[derive(Drop)]
pub struct Reported<'o, O> {
    output: &'o mut O,
    head: Vec<u8>,
}

impl<'o, O: Sink> Reported<'o, O> {
    pub fn new(alloc: Global, output: &'o mut O) -> Reported<'o, O> {
        Reported {
            output,
            head: Vec::new(alloc),
        }
    }

    /// The number of the line of the wrong entry that the report is of, if it is of one.
    pub fn wrong_line(&self) -> Option<u64> {
        let digits = self.head.strip_prefix(b"line ".as_slice())?;
        let mut number = 0u64;
        for byte in digits {
            if !byte.is_ascii_digit() {
                break;
            }
            let digit = u64::from(byte.saturating_sub(b'0'));
            number = number.saturating_mul(10).saturating_add(digit);
        }
        Some(number)
    }
}

impl<O: Sink> Sink for Reported<'_, O> {
    ghost written = { λ _. None };

    ghost failures = { λ _. None };

    fn write(&mut self, piece: &[u8]) -> Result<usize, Failure> {
        let taken = self.output.write(piece)?;
        if self.head.is_empty() {
            let head = piece.get(..LONGEST).unwrap_or(piece);
            let _ = self.head.extend_from_slice(head);
        }
        Ok(taken)
    }
}

/// Whether an audit is to say why.
pub fn asks_why(words: &[String]) -> bool {
    words.iter().any(|word| word.as_str() == "--why")
}

/// The lines of the last entries of an instance before the line of this number in a log, as they may be printed, each behind its number.
fn lines_before<D: Folder>(
    alloc: Global,
    folder: &D,
    log: &str,
    instance: &str,
    number: u64,
) -> Option<Vec<String>> {
    let mut source = Buffered::new(folder.open(log).ok()?);
    let mut line = Vec::new(alloc);
    let mut last = Vec::new(alloc);
    for before in 1..number {
        read_whole_line(&mut source, &mut line).ok()?;
        if is_entry_of(instance, &line) {
            if last.len() >= SHOWN {
                last.remove(0);
            }
            let shown = printable(alloc, &line).ok()?;
            let entry = format!(in alloc; "lus_audit:   line {before}: {shown}").ok()?;
            last.push(entry).ok()?;
        }
    }
    Some(last)
}

/// What is said of the entries of an instance before a wrong one.
fn text_before(alloc: Global, instance: &str, lines: &[String]) -> Result<String, AllocError> {
    let shown = printable(alloc, instance.as_bytes())?;
    if lines.is_empty() {
        return format!(in alloc; "lus_audit: it is the first entry of `{shown}`\n");
    }
    let mut text = format!(in alloc; "lus_audit: entries of `{shown}` before it:\n")?;
    for line in lines {
        text.push_str(line.as_str())?;
    }
    Ok(text)
}

/// What is to be said of the entries before the wrong one on the line of this number of a log.
fn said<D: Folder>(alloc: Global, folder: &D, log: &str, number: u64) -> Option<String> {
    let mut bytes = Vec::new(alloc);
    read_line(folder, log, number, &mut bytes)?;
    let (instance, _) = from_utf8(&bytes).ok()?.split_once(' ')?;
    let lines = lines_before(alloc, folder, log, instance, number)?;
    text_before(alloc, instance, &lines).ok()
}

/// Says behind the report of a wrong entry, on the line of this number of a log, which entries of its instance stand before it, where the file
/// can be read once more: a pipe can't.
pub fn tell_entries_before<R: Files, F: Sink>(
    rt: &R,
    alloc: Global,
    words: &[String],
    number: u64,
    faults: &mut F,
) {
    let Ok(files) = named_files(alloc, "lus_audit", words) else {
        return;
    };
    let Some(log) = files.last() else {
        return;
    };
    if !opens(rt, log) {
        return;
    }
    if let Some(text) = said(alloc, &Disk(rt), log, number) {
        let _ = write_all(faults, text.as_bytes());
    }
}

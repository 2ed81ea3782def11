//! What is said before the line of a fault. What can't be written changes nothing.

use itoa::Buffer;
use lus_devices::{Sink, write_all};
use lus_printable::printable;
use lus_sessions::Start;
use std::alloc::Global;

fn tell_all<F: Sink>(faults: &mut F, pieces: &[&[u8]]) {
    for piece in pieces {
        let _ = write_all(faults, piece);
    }
}

/// Shows a line as it may be printed. It may have no line feed, and then gets one.
fn tell_line<F: Sink>(alloc: Global, faults: &mut F, line: &[u8]) {
    if let Ok(shown) = printable(alloc, line) {
        let _ = write_all(faults, shown.as_bytes());
    }
    if !line.ends_with(b"\n") {
        let _ = write_all(faults, b"\n");
    }
}

/// Says what is written and what would be right.
pub(crate) fn tell_wrong<F: Sink>(alloc: Global, faults: &mut F, line: &[u8], right: &[u8]) {
    tell_all(faults, &[b"written "]);
    tell_line(alloc, faults, line);
    tell_all(faults, &[b"right   "]);
    tell_line(alloc, faults, right);
}

/// Says that the line of this number was cut short, where it was.
pub(crate) fn tell_start<F: Sink>(faults: &mut F, start: Start) {
    if let Start::Cut(_, number) = start {
        let mut digits = Buffer::new();
        let number = digits.format(number).as_bytes();
        let end = b" of the journal was cut short, and is no entry\n";
        tell_all(faults, &[b"note: line ", number, end]);
    }
}

/// Says what the line of this number isn't, in the journal of an instance that is named like its node, and shows it.
pub(crate) fn tell_no_entry<F: Sink>(
    alloc: Global,
    faults: &mut F,
    name: &str,
    number: u64,
    line: &[u8],
) {
    if number == 1 {
        let name = name.as_bytes();
        let head = b"note: the first line isn't `instance ";
        tell_all(faults, &[head, name, b" ", name, b"`: "]);
    } else if line.starts_with(b"entries ") {
        tell_all(faults, &[b"note: this isn't how many entries there are: "]);
    } else if line.first().is_some_and(|byte| byte.is_ascii_digit()) {
        tell_all(faults, &[b"note: this isn't the next entry: "]);
    } else {
        tell_all(faults, &[b"note: this is no entry: "]);
    }
    tell_line(alloc, faults, line);
}

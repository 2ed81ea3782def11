//! What is said before the line of a fault. What can't be written changes nothing.

use itoa::Buffer;
use lus_devices::{Sink, write_all};
use lus_hosting::HostError;
use lus_printable::printable;
use std::alloc::Global;

/// What is known of a line that isn't right: it, and the line that would be right.
#[derive(Drop)]
pub(crate) struct Wrong {
    pub(crate) line: Vec<u8>,
    pub(crate) right: String,
}

/// Says words, and what a line has as it may be printed.
fn tell_line<F: Sink>(alloc: Global, words: &[u8], line: &[u8], faults: &mut F) {
    let _ = write_all(faults, words);
    if let Ok(shown) = printable(alloc, line) {
        let _ = write_all(faults, shown.as_bytes());
    }
}

/// Says what is written among calls, and what would be right.
pub(crate) fn tell_wrong<F: Sink>(alloc: Global, error: HostError, wrong: &Wrong, faults: &mut F) {
    match error {
        HostError::Wrong(_) => {
            tell_line(alloc, b"written ", &wrong.line, faults);
            tell_line(alloc, b"\nright   ", wrong.right.as_bytes(), faults);
        }
        HostError::Line(_) => {
            let words = b"note: this isn't the next entry of its instance: ";
            tell_line(alloc, words, &wrong.line, faults);
            let _ = write_all(faults, b"\n");
        }
        _ => {}
    }
}

/// Says what a line of a log isn't.
fn words_about(line: &[u8]) -> &'static str {
    let is_numbered = match line.iter().position(|byte| *byte == b' ') {
        Some(blank) => line[blank + 1..]
            .first()
            .is_some_and(|byte| byte.is_ascii_digit()),
        None => false,
    };
    if is_numbered {
        "note: this isn't the next entry of its instance: "
    } else {
        "note: this is no line of a log: "
    }
}

/// Shows a line of a log that isn't right, and the one that would be. Both end with their line feeds.
pub(crate) fn tell_right<F: Sink>(alloc: Global, wrong: &Wrong, faults: &mut F) {
    tell_line(alloc, b"written ", &wrong.line, faults);
    tell_line(alloc, b"right   ", wrong.right.as_bytes(), faults);
}

/// Says what a line of a log isn't, and shows it. It ends with its line feed.
pub(crate) fn tell_no_line<F: Sink>(alloc: Global, wrong: &Wrong, faults: &mut F) {
    let words = words_about(&wrong.line);
    tell_line(alloc, words.as_bytes(), &wrong.line, faults);
}

/// Says that the line of this number was cut short.
pub(crate) fn tell_cut<F: Sink>(faults: &mut F, number: u64) {
    let mut digits = Buffer::new();
    let number = digits.format(number).as_bytes();
    let end = b" of the log was cut short, and is no entry: it is taken away\n".as_slice();
    for piece in [b"note: line ".as_slice(), number, end] {
        let _ = write_all(faults, piece);
    }
}

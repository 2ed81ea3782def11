//! Lines and places of a source.

use lus_syntax::{Place, Span, place_behind};
use std::alloc::{AllocError, Global};
use std::str;

/// How many bytes stand before a line and a column, which count from 1, columns in characters.
pub fn offset_of(text: &str, line: usize, column: usize) -> usize {
    let mut at_line = 1usize;
    let mut at_column = 1usize;
    for (place, byte) in text.as_bytes().iter().enumerate() {
        let begins = *byte < 128 || *byte >= 192;
        if at_line == line && at_column == column && begins {
            return place;
        }
        if *byte == b'\n' {
            at_line = at_line.saturating_add(1);
            at_column = 1;
        } else if begins {
            at_column = at_column.saturating_add(1);
        }
    }
    text.len()
}

/// The place of a byte of a text.
pub fn place_at(text: &str, byte: usize) -> Place {
    place_behind(text.as_bytes().get(..byte).unwrap_or(&[]))
}

/// The text between two bytes, if it is one.
pub fn bytes_at(text: &str, from: usize, to: usize) -> Option<&str> {
    let bytes = text.as_bytes().get(from..to)?;
    str::from_utf8(bytes).ok()
}

/// The text of a span.
pub fn slice_of(text: &str, span: Span) -> &str {
    let from = span.start.byte;
    let to = from.saturating_add(span.length);
    bytes_at(text, from, to).unwrap_or("")
}

/// The lines of a text, which are found by their numbers without a walk from its first one.
#[derive(Drop)]
pub struct Lines<'t> {
    text: &'t str,
    starts: Vec<usize>,
}

/// The lines of a text.
pub fn lines_of(alloc: Global, text: &str) -> Result<Lines<'_>, AllocError> {
    let mut starts = Vec::new(alloc);
    starts.push(0)?;
    for (place, byte) in text.as_bytes().iter().enumerate() {
        if *byte == b'\n' {
            starts.push(place.saturating_add(1))?;
        }
    }
    Ok(Lines { text, starts })
}

impl<'t> Lines<'t> {
    /// The line of this number, from 1, if the text has so many.
    pub fn line(&self, number: usize) -> Option<&'t str> {
        let place = number.saturating_sub(1);
        let from = self.starts.get(place).copied()?;
        let behind = match self.starts.get(place.saturating_add(1)) {
            Some(next) => next.saturating_sub(1),
            None => self.text.len(),
        };
        let line = bytes_at(self.text, from, behind)?;
        Some(line.strip_suffix('\r').unwrap_or(line))
    }
}

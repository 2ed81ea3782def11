//! Comments of a source.

use crate::lines::bytes_at;
use std::alloc::{AllocError, Global};

/// A comment: where it begins, its text with its signs, and whether it ends, as one behind `--` does with its line.
#[derive(Clone, Copy)]
pub struct Comment<'t> {
    pub start: usize,
    pub text: &'t str,
    pub is_closed: bool,
}

impl Comment<'_> {
    /// Whether it stands behind `--`, up to the end of its line.
    pub fn is_line(self) -> bool {
        self.text.starts_with("-")
    }
}

/// The comment of a source from a byte on, up to the one behind its end, if it has one.
fn comment_at(source: &str, start: usize, end: Option<usize>) -> Comment<'_> {
    Comment {
        start,
        text: bytes_at(source, start, end.unwrap_or(source.len())).unwrap_or(""),
        is_closed: end.is_some(),
    }
}

/// The byte behind a comment, if a byte at a place and the next one end it: those that end with such a byte.
fn end_at(close: u8, at: usize, one: u8, next: u8) -> Option<usize> {
    if close == b'\n' {
        (one == b'\n').then_some(at)
    } else {
        (one == b'*' && next == close).then_some(at.saturating_add(2))
    }
}

/// What ends the comment that two bytes begin, if they do.
fn close_of(one: u8, next: u8) -> Option<u8> {
    match (one, next) {
        (b'-', b'-') => Some(b'\n'),
        (b'/', b'*') => Some(b'/'),
        (b'(', b'*') => Some(b')'),
        _ => None,
    }
}

/// The comments of a source, in its order.
pub fn comments_in(alloc: Global, source: &str) -> Result<Vec<Comment<'_>>, AllocError> {
    let bytes = source.as_bytes();
    let mut found = Vec::new(alloc);
    let (mut open, mut passed) = (None, 0usize);
    for (at, one) in bytes.iter().enumerate() {
        if at < passed {
            continue;
        }
        let next = bytes.get(at.saturating_add(1)).copied().unwrap_or(b' ');
        if let Some((start, close)) = open {
            if let Some(end) = end_at(close, at, *one, next) {
                found.push(comment_at(source, start, Some(end)))?;
                open = None;
                passed = end;
            }
        } else if let Some(close) = close_of(*one, next) {
            open = Some((at, close));
            passed = at.saturating_add(2);
        }
    }
    if let Some((start, close)) = open {
        let end = (close == b'\n').then_some(source.len());
        found.push(comment_at(source, start, end))?;
    }
    Ok(found)
}

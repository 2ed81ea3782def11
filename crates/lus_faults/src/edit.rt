//! Changes of a text.

use crate::lines::bytes_at;
use std::alloc::{AllocError, Global};
use std::str;

/// A change of a text: the bytes from one place on, so many, become others.
#[derive(Drop)]
pub struct Edit {
    pub byte: usize,
    pub length: usize,
    pub text: String,
}

/// Changes in the order of their places, as one.
pub fn joined(alloc: Global, source: &str, edits: &[Edit]) -> Result<Option<Edit>, AllocError> {
    let Some(first) = edits.first() else {
        return Ok(None);
    };
    let mut text = String::new(alloc);
    let mut end = first.byte;
    for edit in edits {
        text.push_str(bytes_at(source, end, edit.byte).unwrap_or(""))?;
        text.push_str(edit.text.as_str())?;
        end = edit.byte.saturating_add(edit.length);
    }
    Ok(Some(Edit {
        byte: first.byte,
        length: end.saturating_sub(first.byte),
        text,
    }))
}

/// The bytes of a text after a change.
fn edited_bytes(alloc: Global, source: &str, edit: &Edit) -> Result<Vec<u8>, AllocError> {
    let bytes = source.as_bytes();
    let start = edit.byte;
    let end = start.saturating_add(edit.length);
    let mut changed = Vec::new(alloc);
    changed.extend_from_slice(bytes.get(..start).unwrap_or(bytes))?;
    changed.extend_from_slice(edit.text.as_bytes())?;
    changed.extend_from_slice(bytes.get(end..).unwrap_or(&[]))?;
    Ok(changed)
}

/// A text after a change, unless the change parts a character.
pub fn edited(alloc: Global, source: &str, edit: &Edit) -> Result<Option<String>, AllocError> {
    let changed = edited_bytes(alloc, source, edit)?;
    match str::from_utf8(&changed) {
        Ok(text) => Ok(Some(String::from_str(alloc, text)?)),
        Err(_) => Ok(None),
    }
}

/// Where the line begins that a byte stands on.
fn line_start(bytes: &[u8], byte: usize) -> usize {
    let mut start = 0;
    for (place, found) in bytes.iter().enumerate() {
        if place >= byte {
            return start;
        }
        if *found == b'\n' {
            start = place + 1;
        }
    }
    start
}

/// Where the line ends that a byte stands on.
fn line_end(bytes: &[u8], byte: usize) -> usize {
    for (place, found) in bytes.iter().enumerate() {
        if place >= byte && *found == b'\n' {
            return place;
        }
    }
    bytes.len()
}

/// The lines of a text that a change made, as they read after it.
pub fn edited_lines<'t>(changed: &'t str, edit: &Edit) -> Option<&'t str> {
    let bytes = changed.as_bytes();
    let start = edit.byte;
    let end = start.saturating_add(edit.text.len());
    let lines = bytes.get(line_start(bytes, start)..line_end(bytes, end))?;
    str::from_utf8(lines).ok()
}

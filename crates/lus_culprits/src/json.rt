//! Where bytes stop being JSON.

ghost use Rattle.std.specs.Prelude.{◌≤◌, IfSome, length};

use crate::names::push_name;
use lus_values::Memory;
use serde_json::Value;
use std::alloc::Global;
use std::str;

/// Whether JSON may begin with these bytes: they are JSON, or the front of one. Nothing when out of memory.
fn may_begin(alloc: Global, bytes: &[u8]) -> Option<bool> {
    match Value::from_slice(alloc, bytes) {
        Ok(_) => Some(true),
        Err(error) if error.is_memory() => None,
        Err(error) => Some(error.is_eof()),
    }
}

/// How many of these bytes JSON may begin with. Nothing when out of memory.
fn longest_front(alloc: Global, bytes: &[u8]) -> Option<usize>
    ensures { IfSome result (λ n. n ≤ length bytes.now) }
{
    let mut least = 0usize;
    let mut most = bytes.len();
    while least < most {
        let middle = most - (most - least) / 2;
        if may_begin(alloc, &bytes[..middle])? {
            least = middle;
        } else {
            most = middle - 1;
        }
    }
    Some(most)
}

/// How many of these bytes are a text.
fn text_length(bytes: &[u8]) -> usize
    ensures { result ≤ length bytes.now }
{
    match str::from_utf8(bytes) {
        Ok(text) => text.len(),
        Err(error) => error.valid_up_to(),
    }
}

/// How many bytes stand before the one at a line and a column, which count from 1, columns in bytes.
fn offset_of(bytes: &[u8], line: usize, column: usize) -> usize {
    let mut at = 1usize;
    let mut offset = column.saturating_sub(1);
    for byte in bytes {
        if at == line {
            return offset;
        }
        offset = offset.saturating_add(1);
        if *byte == b'\n' {
            at = at.saturating_add(1);
        }
    }
    offset
}

/// How many bytes stand before the first that no JSON goes on with, where their reader stopped at this line and column, or before
/// the string that is wrong as a whole, as half of a pair of codes is. Nothing when out of memory.
pub fn fault_at(alloc: Global, bytes: &[u8], line: usize, column: usize) -> Option<usize>
    ensures { IfSome result (λ n. n ≤ length bytes.now) }
{
    let stop = longest_front(alloc, &bytes[..text_length(bytes)])?;
    let told = offset_of(bytes, line, column);
    if told < stop && bytes[told] == b'"' && !may_begin(alloc, &bytes[told..stop])? {
        return Some(told);
    }
    Some(stop)
}

/// The last of some bytes that is no blank of JSON.
fn last_mark(bytes: &[u8]) -> Option<u8> {
    let mut last = None;
    for byte in bytes {
        if !matches!(*byte, b' ' | b'\t' | b'\r' | b'\n') {
            last = Some(*byte);
        }
    }
    last
}

/// The front of a text up to the end of its first word, or of its first character where that begins none.
fn first_word(alloc: Global, given: &str) -> Result<String, Memory> {
    let mut word = String::new(alloc);
    for letter in given.chars() {
        if !word.is_empty() && !letter.is_ascii_alphanumeric() {
            return Ok(word);
        }
        word.push(letter)?;
        if !letter.is_ascii_alphanumeric() {
            return Ok(word);
        }
    }
    Ok(word)
}

/// Appends what stands in bytes behind the front that JSON may begin with.
pub fn push_unexpected(
    text: &mut String,
    alloc: Global,
    front: &[u8],
    rest: &[u8],
) -> Result<(), Memory> {
    let Some(next) = rest.first() else {
        text.push_str("unexpected end")?;
        return Ok(());
    };
    if text_length(rest) == 0 {
        text.push_str("bytes that are not UTF-8")?;
        return Ok(());
    }
    let shown = String::from_utf8_lossy(alloc, rest)?;
    let word = first_word(alloc, &shown)?;
    if last_mark(front) == Some(b',') && (*next == b']' || *next == b'}') {
        text.push_str("nothing stands between `,` and ")?;
    } else {
        text.push_str("unexpected ")?;
    }
    push_name(text, &word)
}

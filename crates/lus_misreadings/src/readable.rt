//! Sources that have no tokens, made readable: what no token is made of is replaced by one of the same bytes.

use crate::trial::tokens_of;
use crate::words::is_of_word;
use lus_faults::{bytes_at, offset_of};
use lus_syntax::{Refusal, RefusalNumber, Span, Token, lex};
use std::alloc::{AllocError, Global};
use std::str;

/// How many texts that are no tokens are replaced.
const MOST_REPLACED: usize = 20;

/// What other languages write with several characters, none of which begins a token.
static LONG: [&str; 5] = ["!=", "&&", "||", "(*", "/*"];

/// How many bytes of a text are those of one word.
fn word_length(text: &str) -> usize {
    let mut count = 0usize;
    for byte in text.as_bytes() {
        if !is_of_word(*byte) {
            return count;
        }
        count = count.saturating_add(1);
    }
    count
}

/// How many bytes at a refusal's place are refused.
fn refused_length(text: &str, number: RefusalNumber) -> usize {
    if number != RefusalNumber::Lexical {
        return word_length(text);
    }
    for long in &LONG {
        if text.starts_with(*long) {
            return long.len();
        }
    }
    match text.chars().next() {
        Some(first) => first.len_utf8(),
        None => 0,
    }
}

/// What stands in the place of a refused byte: a sign, a name or a number.
fn byte_for(number: RefusalNumber, place: usize, length: usize) -> u8 {
    match (number, place) {
        (RefusalNumber::Lexical, 0) if length == 1 => b',',
        (RefusalNumber::Lexical, 0) => b'<',
        (RefusalNumber::Lexical, 1) => b'>',
        (RefusalNumber::Lexical, _) => b' ',
        (RefusalNumber::Unsupported, _) => b'_',
        _ => b'0',
    }
}

/// A text whose refused bytes are replaced.
fn replaced(alloc: Global, text: &str, refusal: &Refusal) -> Result<String, AllocError> {
    let start = offset_of(text, refusal.line, refusal.column);
    let rest = bytes_at(text, start, text.len()).unwrap_or("");
    let length = refused_length(rest, refusal.number);
    let mut bytes = Vec::new(alloc);
    bytes.extend_from_slice(text.as_bytes())?;
    for place in 0..length {
        if let Some(byte) = bytes.get_mut(start.saturating_add(place)) {
            *byte = byte_for(refusal.number, place, length);
        }
    }
    match str::from_utf8(&bytes) {
        Ok(text) => String::from_str(alloc, text),
        Err(_) => String::from_str(alloc, text),
    }
}

/// Why a text has no tokens.
fn unread(alloc: Global, text: &str) -> Option<Refusal> {
    match lex(alloc, text) {
        Ok(_) => None,
        Err(refusal) => Some(refusal),
    }
}

/// A source in which what no token is made of is replaced; where that is too much, the source before the rest.
pub fn readable(alloc: Global, source: &str) -> Result<String, AllocError> {
    let mut text = String::from_str(alloc, source)?;
    for _turn in 0..MOST_REPLACED {
        match unread(alloc, text.as_str()) {
            Some(refusal) => text = replaced(alloc, text.as_str(), &refusal)?,
            None => return Ok(text),
        }
    }
    let end = match unread(alloc, text.as_str()) {
        Some(refusal) => offset_of(text.as_str(), refusal.line, refusal.column),
        None => text.len(),
    };
    String::from_str(alloc, bytes_at(text.as_str(), 0, end).unwrap_or(""))
}

/// How many bytes of a source are refused at a byte: none where its tokens are.
fn length_at(source: &str, byte: usize, number: RefusalNumber) -> usize {
    if number == RefusalNumber::Syntax {
        return 0;
    }
    refused_length(bytes_at(source, byte, source.len()).unwrap_or(""), number)
}

/// The tokens of a source that was made readable. The one in the place of what is refused has that one's length.
pub fn tokens_in<'t>(
    alloc: Global,
    text: &'t str,
    source: &str,
    refusal: &Refusal,
) -> Result<Vec<Token<'t>>, AllocError> {
    let byte = offset_of(source, refusal.line, refusal.column);
    let refused = length_at(source, byte, refusal.number);
    let mut tokens = Vec::new(alloc);
    for token in &tokens_of(alloc, text) {
        let start = token.span.start;
        let length = if start.byte == byte && refused > 0 {
            refused
        } else {
            token.span.length
        };
        tokens.push(Token {
            kind: token.kind,
            span: Span { start, length },
        })?;
    }
    Ok(tokens)
}

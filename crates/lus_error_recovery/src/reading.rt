//! The tokens of a source that may have what is no token.

use crate::passes::in_memory;
use lus_faults::{bytes_at, offset_of};
use lus_syntax::{Place, Refusal, RefusalNumber, Span, Token, lex, place_behind};
use std::alloc::{AllocError, Global};

/// The most places of a source at which no token begins that are passed over.
const MOST_UNREAD: usize = 20;

/// What no token is made of: the number that refuses it, and where it stands.
#[derive(Clone, Copy)]
pub(crate) struct Unread {
    pub number: RefusalNumber,
    pub span: Span,
}

/// What a source has: its tokens, and what none is made of.
#[derive(Drop)]
pub(crate) struct Reading<'s> {
    pub tokens: Vec<Token<'s>>,
    pub unread: Vec<Unread>,
}

/// The place in a text of a place in its part from another place on.
pub(crate) fn moved(base: Place, at: Place) -> Place {
    let column = if at.line == 1 {
        base.column.saturating_add(at.column).saturating_sub(1)
    } else {
        at.column
    };
    Place {
        byte: base.byte.saturating_add(at.byte),
        line: base.line.saturating_add(at.line).saturating_sub(1),
        column,
    }
}

/// The tokens of a part of a text that begins at a place, or why it has none.
pub(crate) fn tokens_from<'s>(
    alloc: Global,
    part: &'s str,
    base: Place,
) -> Result<Vec<Token<'s>>, Refusal> {
    let mut tokens = lex(alloc, part)?;
    for token in &mut tokens {
        token.span.start = moved(base, token.span.start);
    }
    Ok(tokens)
}

/// How many bytes at the front of a text are no token: a comment that is left open, a word, or a character.
fn width_of(text: &str) -> usize {
    if text.starts_with("(*") || text.starts_with("/*") {
        return text.len();
    }
    let word = text
        .as_bytes()
        .iter()
        .take_while(|byte| byte.is_ascii_alphanumeric() || **byte == b'_')
        .count();
    match text.chars().next() {
        Some(first) if word == 0 => first.len_utf8(),
        _ => word,
    }
}

impl<'s> Reading<'s> {
    /// Reads a source on from a place, up to what is no token. Says where that is left behind, if there is more.
    fn read_on(
        &mut self,
        alloc: Global,
        source: &'s str,
        base: Place,
    ) -> Result<Option<Place>, AllocError> {
        let rest = bytes_at(source, base.byte, source.len()).unwrap_or("");
        let refusal = match in_memory(tokens_from(alloc, rest, base))? {
            Ok(tokens) => {
                self.tokens.extend_from_slice(&tokens)?;
                return Ok(None);
            }
            Err(refusal) => refusal,
        };
        let at = offset_of(rest, refusal.line, refusal.column);
        let before = bytes_at(rest, 0, at).unwrap_or("");
        if let Ok(tokens) = in_memory(tokens_from(alloc, before, base))? {
            self.tokens.extend_from_slice(&tokens)?;
        }
        let wrong = bytes_at(rest, at, rest.len()).unwrap_or("");
        let length = width_of(wrong);
        let start = moved(base, place_behind(before.as_bytes()));
        self.unread.push(Unread {
            number: refusal.number,
            span: Span { start, length },
        })?;
        let width = bytes_at(wrong, 0, length).unwrap_or(wrong);
        Ok(Some(moved(start, place_behind(width.as_bytes()))))
    }
}

/// Reads a source up to a comment that is left open, and passes over what else is no token.
pub(crate) fn reading_of<'s>(alloc: Global, source: &'s str) -> Result<Reading<'s>, AllocError> {
    let mut reading = Reading {
        tokens: Vec::new(alloc),
        unread: Vec::new(alloc),
    };
    let mut base = Place::START;
    for _turn in 0..MOST_UNREAD {
        match reading.read_on(alloc, source, base)? {
            Some(behind) => base = behind,
            None => return Ok(reading),
        }
    }
    Ok(reading)
}

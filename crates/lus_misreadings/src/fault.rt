//! A fault, and the tokens round it.

use crate::words::is_any;
use lus_faults::{bytes_at, slice_of};
use lus_syntax::{RefusalNumber, Token, TokenKind, Word};

/// How many tokens of a declaration are looked at before a fault, and behind it.
const MOST_BEFORE: usize = 4000;

const MOST_BEHIND: usize = 400;

/// Some tokens: the place of the first, and the one behind the last.
pub type Range = (usize, usize);

/// A fault of a source: all tokens, those of the declaration that it stands in, and the place among these of the token that isn't
/// read; their count where they end too early.
#[derive(Clone, Copy)]
pub struct Fault<'t> {
    pub source: &'t str,
    pub all: &'t [Token<'t>],
    pub tokens: &'t [Token<'t>],
    pub place: usize,
    pub number: RefusalNumber,
    pub line: usize,
    pub column: usize,
}

impl<'t> Fault<'t> {
    /// The text of the token at a place; none where there is no token.
    pub fn text(&self, place: usize) -> &'t str {
        match self.tokens.get(place) {
            Some(token) => slice_of(self.source, token.span),
            None => "",
        }
    }

    /// The text of the token that isn't read.
    pub fn found(&self) -> &'t str {
        self.text(self.place)
    }

    /// The text of the token so many before the one that isn't read.
    pub fn before(&self, count: usize) -> &'t str {
        match self.place.checked_sub(count) {
            Some(place) => self.text(place),
            None => "",
        }
    }

    /// The text of the token so many behind the one that isn't read.
    pub fn behind(&self, count: usize) -> &'t str {
        self.text(self.place.saturating_add(count))
    }

    /// The token that isn't read, where there is one.
    pub fn token(&self) -> Option<&'t Token<'t>> {
        self.tokens.get(self.place)
    }

    /// The token before the one that isn't read.
    pub fn last(&self) -> Option<&'t Token<'t>> {
        self.tokens.get(self.place.checked_sub(1)?)
    }

    /// The byte behind the token at a place.
    pub fn byte_behind(&self, place: usize) -> Option<usize> {
        match self.tokens.get(place) {
            Some(token) => Some(token.span.end().byte),
            None => None,
        }
    }

    /// The bytes of some tokens, from the first one's first byte up to the last one's last.
    pub fn bytes_of(&self, range: Range) -> Option<(usize, usize)> {
        let (from, to) = range;
        match (self.tokens.get(from), self.byte_behind(to.checked_sub(1)?)) {
            (Some(first), Some(end)) => Some((first.span.start.byte, end)),
            _ => None,
        }
    }

    /// The text of some tokens, with what stands between them.
    pub fn text_of(&self, range: Range) -> &'t str {
        match self.bytes_of(range) {
            Some((start, end)) => bytes_at(self.source, start, end).unwrap_or(""),
            None => "",
        }
    }

    /// The first place from one on at which one of some texts stands.
    pub fn find(&self, from: usize, texts: &[&str]) -> Option<usize> {
        for place in from..self.tokens.len() {
            if is_any(self.text(place), texts) {
                return Some(place);
            }
        }
        None
    }

    /// Whether a text stands in the declaration between a place and the fault.
    pub fn follows_from(&self, from: usize, text: &str) -> bool {
        match self.find(from, &[text]) {
            Some(place) => place < self.place,
            None => false,
        }
    }

    /// Whether a text stands in the declaration before the fault.
    pub fn follows(&self, text: &str) -> bool {
        self.follows_from(0, text)
    }
}

/// Whether a token is a name.
pub fn is_name(token: Option<&Token>) -> bool {
    match token {
        Some(token) => matches!(token.kind, TokenKind::Identifier(_)),
        None => false,
    }
}

/// Whether a token is a number.
pub fn is_number(token: Option<&Token>) -> bool {
    match token {
        Some(token) => matches!(token.kind, TokenKind::Number(_)),
        None => false,
    }
}

/// Whether a token is a sign.
pub fn is_sign(token: Option<&Token>) -> bool {
    match token {
        Some(token) => matches!(token.kind, TokenKind::Punctuation(_)),
        None => false,
    }
}

/// Whether a declaration begins with this token.
fn opens(token: &Token) -> bool {
    matches!(
        token.kind,
        TokenKind::Keyword(Word::Node | Word::Function | Word::Type | Word::Const)
    )
}

/// The place of the first token that doesn't stand before a line and a column, and that of the last token before it that opens a
/// declaration.
fn place_at(tokens: &[Token], line: usize, column: usize) -> (usize, usize) {
    let mut opening = 0;
    for (place, token) in tokens.iter().enumerate() {
        let start = token.span.start;
        if start.line > line || (start.line == line && start.column >= column) {
            return (place, opening);
        }
        if opens(token) {
            opening = place;
        }
    }
    (tokens.len(), opening)
}

/// The place of the first token behind the fault that opens a declaration, or that stands too far behind it.
fn end_behind(tokens: &[Token], fault: usize) -> usize {
    let most = fault.saturating_add(MOST_BEHIND);
    for (place, token) in tokens.iter().enumerate() {
        if place > fault && (place > most || opens(token)) {
            return place;
        }
    }
    tokens.len()
}

/// The fault of a source whose tokens aren't read at a line and a column, unless its declaration is too long to be tried.
pub fn fault_at<'t>(
    source: &'t str,
    all: &'t [Token<'t>],
    number: RefusalNumber,
    line: usize,
    column: usize,
) -> Option<Fault<'t>> {
    let (place, start) = place_at(all, line, column);
    let before = place.saturating_sub(start);
    match all.get(start..end_behind(all, place)) {
        Some(tokens) if before <= MOST_BEFORE => Some(Fault {
            source,
            all,
            tokens,
            place: before,
            number,
            line,
            column,
        }),
        _ => None,
    }
}

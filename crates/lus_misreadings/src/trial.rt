//! Tokens that are tried by the parser.

use crate::fault::Fault;
use lus_grammar::parse;
use lus_syntax::{Place, RefusalNumber, Span, Token, TokenKind, lex};
use std::alloc::{AllocError, Global};

/// How far tokens are read: the line and the column of the first that isn't, the greatest where all are.
#[derive(Clone, Copy)]
pub struct Reach {
    pub line: usize,
    pub column: usize,
}

impl Reach {
    /// Whether it is further than another.
    pub fn is_behind(self, other: Reach) -> bool {
        self.line > other.line || (self.line == other.line && self.column > other.column)
    }
}

/// How far the tokens of a declaration are read.
fn reach_of(alloc: Global, tokens: &[Token]) -> Reach {
    match parse(alloc, tokens) {
        Ok(_) => Reach {
            line: usize::MAX,
            column: usize::MAX,
        },
        Err(refusal) => {
            if refusal.number == RefusalNumber::Syntax {
                return Reach {
                    line: refusal.line,
                    column: refusal.column,
                };
            }
            Reach { line: 0, column: 0 }
        }
    }
}

/// Where a token begins.
pub fn start_of(token: &Token) -> Reach {
    Reach {
        line: token.span.start.line,
        column: token.span.start.column,
    }
}

/// A token that isn't in the source. A fault at it stands before all others.
pub fn token_of(kind: TokenKind<'_>) -> Token<'_> {
    Token {
        kind,
        span: Span {
            start: Place::START,
            length: 0,
        },
    }
}

/// The tokens that a text spells.
pub fn tokens_of(alloc: Global, text: &str) -> Vec<Token<'_>> {
    match lex(alloc, text) {
        Ok(tokens) => tokens,
        Err(_) => Vec::new(alloc),
    }
}

impl<'t> Fault<'t> {
    /// Where its tokens aren't read.
    pub fn reached(&self) -> Reach {
        Reach {
            line: self.line,
            column: self.column,
        }
    }

    /// Where the token behind the fault begins, or the tokens end.
    pub fn next(&self) -> Reach {
        let behind = self.place.saturating_add(1);
        match (self.tokens.get(behind), self.tokens.last()) {
            (Some(token), _) => start_of(token),
            (None, Some(last)) => Reach {
                line: last.span.end().line,
                column: last.span.end().column,
            },
            (None, None) => self.reached(),
        }
    }

    /// How far its tokens are read with others in the place of those from one up to another.
    pub fn reach_with(
        &self,
        alloc: Global,
        from: usize,
        to: usize,
        others: &[Token<'t>],
    ) -> Result<Reach, AllocError> {
        let mut tried = Vec::new(alloc);
        tried.extend_from_slice(self.tokens.get(..from).unwrap_or(self.tokens))?;
        tried.extend_from_slice(others)?;
        tried.extend_from_slice(self.tokens.get(to..).unwrap_or(&[]))?;
        Ok(reach_of(alloc, &tried))
    }
}

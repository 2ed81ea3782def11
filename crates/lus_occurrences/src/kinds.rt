//! Types and clocks of what is declared, as far as its declaration says them.

use crate::names::{Names, Occurrence};
use crate::role::Declared;
use lus_syntax::{Symbol, Token, TokenKind, Word};

/// A type. A declared one is a structure or an enumeration, by its declaration.
#[derive(Clone, Copy, Debug, PartialEq, Eq)]
pub enum Kind {
    Bool,
    Int,
    Declared(usize),
}

/// A clock by its newest test: the variable, and the constructor or the truth value that it has.
#[derive(Clone, Copy, Debug, PartialEq, Eq)]
pub struct Clock<'t> {
    pub label: &'t str,
    pub variable: &'t str,
}

/// A test, where these tokens begin with one: `c`, `not c`, `not (c)` or `A(c)`.
fn test_of<'t>(tokens: &[Token<'t>]) -> Option<Clock<'t>> {
    let mut label = "true";
    let mut name = None;
    for token in tokens {
        match token.kind {
            TokenKind::Identifier(text) => {
                if let Some(tested) = name {
                    label = tested;
                }
                name = Some(text);
            }
            TokenKind::Keyword(Word::Not | Word::False) => label = "false",
            TokenKind::Keyword(Word::True) => label = "true",
            TokenKind::Punctuation(Symbol::Open) => {}
            _ => break,
        }
    }
    match name {
        Some(variable) => Some(Clock { label, variable }),
        None => None,
    }
}

/// The type that a token names by a word, or that its literal has.
fn plain_kind(token: &Token<'_>) -> Option<Kind> {
    match token.kind {
        TokenKind::Keyword(Word::Bool | Word::True | Word::False) => Some(Kind::Bool),
        TokenKind::Keyword(Word::Int) | TokenKind::Number(_) => Some(Kind::Int),
        TokenKind::Punctuation(Symbol::Minus) => Some(Kind::Int),
        _ => None,
    }
}

impl<'t> Names<'t> {
    /// The name that a token is, if it is one that is declared.
    pub fn occurrence_of(&self, token: usize) -> Option<Occurrence> {
        let place = self.occurrences.partition_point(|of| of.token < token);
        let occurrence = self.occurrences.get(place)?;
        if occurrence.token == token {
            Some(*occurrence)
        } else {
            None
        }
    }

    /// The declaration that a token stands for, if it is a name that is declared.
    pub fn declaration_of(&self, token: usize) -> Option<usize> {
        Some(self.occurrence_of(token)?.declaration)
    }

    /// The type that a word or a literal in a declaration says.
    fn said_kind(&self, declaration: usize) -> Option<Kind> {
        let (first, end) = self.told(declaration);
        for token in self.tokens.get(first..end)?.iter().take(3) {
            match plain_kind(token) {
                Some(kind) => return Some(kind),
                None
                    if matches!(
                        token.kind,
                        TokenKind::Punctuation(Symbol::Colon | Symbol::Equal)
                    ) => {}
                None => return None,
            }
        }
        None
    }

    /// The first output of a node.
    fn first_output(&self, node: usize) -> Option<usize> {
        let mut place = node;
        for declaration in self.declarations.get(node..)? {
            if declaration.declared == Declared::Output && declaration.owner == Some(node) {
                return Some(place);
            }
            if declaration.declared == Declared::Node && place > node {
                return None;
            }
            place = place.saturating_add(1);
        }
        None
    }

    /// The type of what is declared: of a node that of its first output, of a type the one that it stands for.
    pub fn kind_of(&self, declaration: usize) -> Option<Kind> {
        let declared = self.declarations.get(declaration)?;
        let declaration = match declared.declared {
            Declared::Node => self.first_output(declaration)?,
            Declared::Constructor => declared.owner?,
            _ => declaration,
        };
        match self.types.get(declaration).copied().flatten() {
            Some(of) => Some(self.said_kind(of).unwrap_or(Kind::Declared(of))),
            None => self.said_kind(declaration),
        }
    }

    /// Whether a type is a structure, by its declaration.
    pub fn is_structure(&self, of: usize) -> bool {
        let (first, _) = self.told(of);
        match self.tokens.get(first) {
            Some(token) => matches!(
                token.kind,
                TokenKind::Keyword(Word::Struct) | TokenKind::Punctuation(Symbol::OpenBrace)
            ),
            None => false,
        }
    }

    /// The clock of a variable; the base clock has no test.
    pub fn clock_of(&self, declaration: usize) -> Option<Clock<'t>> {
        let (first, end) = self.told(declaration);
        let mut behind = first;
        for token in self.tokens.get(first..end)? {
            behind = behind.saturating_add(1);
            if let TokenKind::Keyword(Word::When) = token.kind {
                return test_of(self.tokens.get(behind..end)?);
            }
        }
        None
    }

    /// The tokens from the name of the node that begins last before a token to that of the next one.
    pub(crate) fn node_tokens(&self, token: usize) -> (usize, usize) {
        let mut from = 0;
        for declaration in &self.declarations {
            if declaration.declared == Declared::Node {
                if declaration.token > token {
                    return (from, declaration.token);
                }
                from = declaration.token;
            }
        }
        (from, usize::MAX)
    }
}

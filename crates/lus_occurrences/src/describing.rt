//! What a declaration says, for hover and completion.

use crate::names::{Declaration, Names};
use crate::role::Declared;
use crate::scopes::name_at;
use lus_faults::bytes_at;
use lus_syntax::{MOST_VARIABLES, Symbol, Token, TokenKind, Word};
use std::alloc::{AllocError, Global};

/// How many brackets are open behind a token, of which so many are open before it.
fn depth_behind(depth: usize, token: &Token<'_>) -> usize {
    match token.kind {
        TokenKind::Punctuation(Symbol::Open | Symbol::OpenBrace) => depth.saturating_add(1),
        TokenKind::Punctuation(Symbol::Close | Symbol::CloseBrace) => depth.saturating_sub(1),
        _ => depth,
    }
}

/// Whether a declaration ends before a token outside of brackets.
fn is_end(token: &Token<'_>) -> bool {
    match token.kind {
        TokenKind::Punctuation(Symbol::Semicolon | Symbol::Close | Symbol::CloseBrace) => true,
        TokenKind::Keyword(
            Word::Type
            | Word::Const
            | Word::Node
            | Word::Function
            | Word::Var
            | Word::Let
            | Word::Tel,
        ) => true,
        _ => false,
    }
}

/// How many tokens stand before the end of the declaration that they are in.
fn count_told(tokens: &[Token<'_>]) -> usize {
    let mut depth = 0usize;
    for (place, token) in tokens.iter().enumerate() {
        if depth == 0 && is_end(token) {
            return place;
        }
        depth = depth_behind(depth, token);
    }
    tokens.len()
}

/// The token behind those that are told from one on: the first at or behind the end of the declaration.
fn end_from(tokens: &[Token<'_>], first: usize) -> usize {
    let rest = tokens.get(first..).unwrap_or(&[]);
    first.saturating_add(count_told(rest))
}

/// The most tokens from a name to the colon behind its group: each name of as many as a node may have, and a comma behind it.
const MOST_BEFORE_COLON: usize = 2 * MOST_VARIABLES;

/// The token behind the first symbol of a kind that isn't before a token.
fn behind_symbol(tokens: &[Token<'_>], first: usize, symbol: Symbol) -> usize {
    let rest = tokens.get(first..).unwrap_or(&[]);
    for (place, token) in rest.iter().take(MOST_BEFORE_COLON).enumerate() {
        if let TokenKind::Punctuation(found) = token.kind
            && found == symbol
        {
            return first.saturating_add(place).saturating_add(1);
        }
    }
    tokens.len()
}

/// The text from a token to the last one before the end of the declaration.
fn text_of<'s>(source: &'s str, tokens: &[Token<'_>], first: usize) -> &'s str {
    let end = end_from(tokens, first);
    let told = tokens.get(first..end).unwrap_or(&[]);
    match (told.first(), told.last()) {
        (Some(first), Some(last)) => {
            bytes_at(source, first.span.start.byte, last.span.end().byte).unwrap_or("")
        }
        _ => "",
    }
}

/// The word before what is declared.
fn word_of(declared: Declared) -> &'static str {
    match declared {
        Declared::Type => "type",
        Declared::Constructor => "constructor",
        Declared::Field => "field",
        Declared::Constant => "const",
        Declared::Node => "node",
        Declared::Input => "input",
        Declared::Output => "output",
        Declared::Local => "local",
    }
}

impl<'t> Names<'t> {
    /// The name that a declaration declares.
    pub fn name(&self, declaration: usize) -> &'t str {
        match self.declarations.get(declaration) {
            Some(declared) => name_at(&self.tokens, declared.token).unwrap_or(""),
            None => "",
        }
    }

    /// The word that a node's declaration begins with, or that of what else is declared.
    fn word(&self, declaration: Declaration) -> &'static str {
        let before = self.tokens.get(declaration.token.saturating_sub(1));
        match before {
            Some(
                Token {
                    kind: TokenKind::Keyword(Word::Function),
                    ..
                },
            ) => "function",
            _ => word_of(declaration.declared),
        }
    }

    /// What a variable, a field or a constant has behind its colon: its type, and of a variable its clock. Nothing for what has none.
    pub fn type_text<'s>(&self, source: &'s str, declaration: usize) -> &'s str {
        match self.declarations.get(declaration) {
            Some(declared) => {
                let first = behind_symbol(&self.tokens, declared.token, Symbol::Colon);
                text_of(source, &self.tokens, first)
            }
            None => "",
        }
    }

    /// The tokens that tell what a declaration's name stands for, by the first one and the one behind the last: of a variable or a field
    /// its type, and of a variable its clock; of a node its inputs and outputs; of a type what it is; of a constant its type and its
    /// value. A constructor has none.
    pub fn told(&self, declaration: usize) -> (usize, usize) {
        let Some(declared) = self.declarations.get(declaration).copied() else {
            return (0, 0);
        };
        let first = match declared.declared {
            Declared::Constructor => return (0, 0),
            Declared::Node | Declared::Constant => declared.token.saturating_add(1),
            Declared::Type => behind_symbol(&self.tokens, declared.token, Symbol::Equal),
            _ => behind_symbol(&self.tokens, declared.token, Symbol::Colon),
        };
        (first, end_from(&self.tokens, first))
    }

    /// What a declaration says on one line or more: `input x: int when c`, `field x: int of p`, `type p = struct { x: int }`,
    /// `constructor A of e = enum { A, B }`, `const most = 10`, `node f(x: int) returns (y: int)`.
    pub fn description(
        &self,
        alloc: Global,
        source: &str,
        declaration: usize,
    ) -> Result<String, AllocError> {
        let mut text = String::new(alloc);
        let Some(declared) = self.declarations.get(declaration).copied() else {
            return Ok(text);
        };
        let name = self.name(declaration);
        let word = self.word(declared);
        let owner = declared
            .owner
            .and_then(|owner| self.declarations.get(owner).copied());
        match (declared.declared, owner) {
            (Declared::Type | Declared::Constant | Declared::Node, _) => {
                let said = text_of(source, &self.tokens, declared.token);
                write!(text, "{word} {said}")?;
            }
            (Declared::Constructor, Some(owner)) => {
                let said = text_of(source, &self.tokens, owner.token);
                write!(text, "{word} {name} of {said}")?;
            }
            (Declared::Field, Some(owner)) => {
                let type_text = self.type_text(source, declaration);
                let of = name_at(&self.tokens, owner.token).unwrap_or("");
                write!(text, "{word} {name}: {type_text} of {of}")?;
            }
            _ => {
                let type_text = self.type_text(source, declaration);
                write!(text, "{word} {name}: {type_text}")?;
            }
        }
        Ok(text)
    }

    /// The declarations whose names can stand at a byte of the source: those of types, nodes, constants and constructors, and of
    /// variables those of the node that begins last before it.
    pub fn in_scope(&self, alloc: Global, byte: usize) -> Result<Vec<usize>, AllocError> {
        let mut here = None;
        for (place, declaration) in self.declarations.iter().enumerate() {
            if declaration.declared == Declared::Node
                && let Some(span) = self.span_of(declaration.token)
                && span.start.byte <= byte
            {
                here = Some(place);
            }
        }
        let mut found = Vec::new(alloc);
        for (place, declaration) in self.declarations.iter().enumerate() {
            let is_seen = match declaration.declared {
                Declared::Type | Declared::Constructor | Declared::Constant | Declared::Node =>
                    true,
                Declared::Field => false,
                Declared::Input | Declared::Output | Declared::Local => declaration.owner == here,
            };
            if is_seen {
                found.push(place)?;
            }
        }
        Ok(found)
    }
}

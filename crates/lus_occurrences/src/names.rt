//! The names of a source with their declarations.

ghost use Rattle.std.specs.Prelude.{◌≡◌, ◌↔◌, Contains, List, IfNone, IfOk, IfSome, IsTrue, option_map, slice_get};
ghost use Rattle.std.specs.List.{All};
ghost use Rattle.lus_syntax.specs.Lexemes.{Lexeme};
ghost use Rattle.lus_syntax.specs.Tokens.{Tokens};
ghost use Rattle.lus_syntax.specs.View.{tokens_seen};
ghost use Rattle.lus_occurrences.specs.Occurrences.{StandsAt, StandsFor};

use crate::resolving::resolved;
use crate::role::Declared;
use crate::scanner::mentions_before;
use crate::scopes::{Scopes, scopes_of};
use lus_faults::{bytes_at, offset_of};
use lus_syntax::{RefusalNumber, Span, Token, lex};
use std::alloc::{AllocError, Global};

/// How a name is used.
#[derive(Clone, Copy, Debug, PartialEq, Eq)]
pub enum Use {
    /// It is declared here.
    Declaration,
    /// It stands on the left of an equation.
    Definition,
    Reference,
}

/// A declaration: the token of its name, what it declares, and the declaration that it is part of: of a constructor or a field the
/// type, of a variable the node. Tokens and declarations are counted from 0, in the order of the text.
#[derive(Clone, Copy)]
pub struct Declaration {
    pub token: usize,
    pub declared: Declared,
    pub owner: Option<usize>,
}

/// A name that stands for a declaration.
#[derive(Clone, Copy)]
pub struct Occurrence {
    pub token: usize,
    pub declaration: usize,
    pub usage: Use,
}

/// A source's tokens, its declarations, and the names that stand for them, in the order of the text. A declaration's own name is one of
/// them. Of each declaration the declared type that it has, as far as it has one: of a type itself, or what it stands for.
#[derive(Drop)]
pub struct Names<'t> {
    pub tokens: Vec<Token<'t>>,
    pub declarations: Vec<Declaration>,
    pub occurrences: Vec<Occurrence>,
    pub(crate) types: Vec<Option<usize>>,
}

impl<'t> Names<'t> {
    /// Where a token stands.
    pub fn span_of(&self, token: usize) -> Option<Span>
        ensures { result ≡ option_map (λ t. t.span) (slice_get self.now.tokens.items token) }
    {
        Some(self.tokens.get(token)?.span)
    }

    /// Whether a token stands at a byte of the source, or ends there.
    fn stands_at(&self, token: usize, byte: usize) -> bool
        ensures { IsTrue result ↔ StandsAt self.now.tokens.items token byte }
    {
        match self.tokens.get(token) {
            Some(token) => token.span.start.byte <= byte && byte <= token.span.end().byte,
            None => false,
        }
    }

    /// The first name that stands at a byte of the source, or ends there.
    pub fn occurrence_at(&self, byte: usize) -> Option<Occurrence>
        ensures some { IfSome result (λ o. Contains self.now.occurrences.items o × StandsAt self.now.tokens.items o.token byte) }
        ensures none { IfNone result (All (λ o. ¬ StandsAt self.now.tokens.items o.token byte) self.now.occurrences.items) }
    {
        for occurrence in &self.occurrences {
            if self.stands_at(occurrence.token, byte) {
                return Some(*occurrence);
            }
        }
        None
    }

    /// Where the names stand that stand for a declaration: first its own, and then the others in the order of the text.
    pub fn spans_of(
        &self,
        alloc: Global,
        declaration: usize,
    ) -> Result<Vec<(Span, Use)>, AllocError> {
        let mut spans = Vec::new(alloc);
        if let Some(declared) = self.declarations.get(declaration)
            && let Some(span) = self.span_of(declared.token)
        {
            spans.push((span, Use::Declaration))?;
        }
        for occurrence in &self.occurrences {
            if occurrence.declaration == declaration
                && occurrence.usage != Use::Declaration
                && let Some(span) = self.span_of(occurrence.token)
            {
                spans.push((span, occurrence.usage))?;
            }
        }
        Ok(spans)
    }
}

/// The tokens before a place of a source that holds no token.
fn tokens_before(
    alloc: Global,
    source: &str,
    line: usize,
    column: usize,
) -> Result<Vec<Token<'_>>, AllocError> {
    let behind = offset_of(source, line, column);
    match lex(alloc, bytes_at(source, 0, behind).unwrap_or("")) {
        Ok(tokens) => Ok(tokens),
        Err(refusal) if refusal.number == RefusalNumber::Memory => Err(AllocError),
        Err(_) => Ok(Vec::new(alloc)),
    }
}

/// The tokens of a source, or of what stands before the first text that is no token.
fn tokens_of(alloc: Global, source: &str) -> Result<Vec<Token<'_>>, AllocError>
    ensures { IfOk result (λ v. (ts : List Lexeme) → Tokens source.now ts → tokens_seen v.items ≡ ts) }
{
    match lex(alloc, source) {
        Ok(tokens) => Ok(tokens),
        Err(fault) => match fault.number {
            RefusalNumber::Memory => Err(AllocError),
            _ => Ok(tokens_before(alloc, source, fault.line, fault.column)?),
        },
    }
}

/// The names of a source. Behind the first text that is no token there are none. The only error is out of memory.
pub fn names_of(alloc: Global, source: &str) -> Result<Names<'_>, AllocError>
    // A text that is one of tokens has all of them.
    ensures tokens { IfOk result (λ names. (ts : List Lexeme) → Tokens source.now ts → tokens_seen names.tokens.items ≡ ts) }
    // Each name is that of its declaration.
    ensures names { IfOk result (λ names. All (StandsFor names.tokens.items names.declarations.items) names.occurrences.items) }
{
    let tokens = tokens_of(alloc, source)?;
    let (mentions, _) = mentions_before(alloc, &tokens, usize::MAX)?;
    let scopes = scopes_of(alloc, &tokens, &mentions)?;
    let occurrences = resolved(alloc, &scopes, &tokens, &mentions)?;
    let Scopes {
        declarations,
        kinds,
        ..
    } = scopes;
    Ok(Names {
        tokens,
        declarations,
        occurrences,
        types: kinds,
    })
}

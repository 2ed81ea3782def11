//! The name that stands at a place.

ghost use Rattle.std.specs.Prelude.{IfOk, IfSome, IsTrue};
ghost use Rattle.lus_syntax.specs.View.{token_seen};
ghost use Rattle.lus_rename.specs.Renaming.{HasNameAt, HaveNameAt, IsName};

use lus_syntax::{RefusalNumber, Token, TokenKind, lex};
use std::alloc::{AllocError, Global};

/// The name that a token is, if it is one and stands at a byte of the text or ends there.
fn name_at<'t>(token: Token<'t>, byte: usize) -> Option<&'t str>
    ensures { IfSome result (λ name. HasNameAt (token_seen token.entry) byte name.now) }
{
    let is_there = token.span.start.byte <= byte && byte <= token.span.end().byte;
    match token.kind {
        TokenKind::Identifier(name) if is_there => Some(name),
        _ => None,
    }
}

/// The name that the token at a place is, if it is one and stands at a byte of the text or ends there.
pub(crate) fn named_at<'t>(tokens: &[Token<'t>], place: usize, byte: usize) -> Option<&'t str>
    ensures { IfSome result (λ name. HaveNameAt tokens.now byte name.now) }
{
    name_at(*tokens.get(place)?, byte)
}

/// Whether the first of some tokens is this name, at the text's first byte.
fn begin_with(tokens: &[Token<'_>], name: &str) -> bool
    ensures { IsTrue result → HaveNameAt tokens.now 0 name.now }
{
    match named_at(tokens, 0, 0) {
        Some(found) => found == name,
        None => false,
    }
}

/// Whether a text is a name.
pub(crate) fn is_name(alloc: Global, text: &str) -> Result<bool, AllocError>
    ensures { IfOk result (λ is. IsTrue is → IsName text.now) }
{
    match lex(alloc, text) {
        Ok(tokens) => Ok(begin_with(&tokens, text)),
        Err(refusal) => match refusal.number {
            RefusalNumber::Memory => Err(AllocError),
            _ => Ok(false),
        },
    }
}

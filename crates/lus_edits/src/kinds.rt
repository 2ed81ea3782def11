//! Tokens compared, wherever they stand.

ghost use Rattle.std.specs.Prelude.{◌≡◌, IsTrue};
ghost use Rattle.lus_syntax.specs.Lexemes.{Identifier};
ghost use Rattle.lus_syntax.specs.View.{kind_seen, tokens_seen};
ghost use Rattle.lus_edits.specs.Kept.{AreRenamed, IsRenamed, kinds};

use lus_syntax::{Token, TokenKind};

/// Whether two tokens are one.
fn same_kind(left: TokenKind<'_>, right: TokenKind<'_>) -> bool
    ensures { IsTrue result → kind_seen left.entry ≡ kind_seen right.entry }
{
    match (left, right) {
        (TokenKind::Identifier(a), TokenKind::Identifier(b)) => a == b,
        (TokenKind::Number(a), TokenKind::Number(b)) => a == b,
        (TokenKind::Punctuation(a), TokenKind::Punctuation(b)) => a == b,
        (TokenKind::Keyword(a), TokenKind::Keyword(b)) => a == b,
        _ => false,
    }
}

/// Whether a token is a name.
fn is_name(kind: TokenKind<'_>, name: &str) -> bool
    ensures { IsTrue result → kind_seen kind.entry ≡ Identifier name.now }
{
    match kind {
        TokenKind::Identifier(text) => text == name,
        _ => false,
    }
}

/// Whether these tokens are the same, one by one.
pub fn same_kinds(left: &[Token<'_>], right: &[Token<'_>]) -> bool
    ensures { IsTrue result → kinds (tokens_seen left.now) ≡ kinds (tokens_seen right.now) }
{
    if left.len() != right.len() {
        return false;
    }
    for (token, other) in left.iter().zip(right) {
        if !same_kind(token.kind, other.kind) {
            return false;
        }
    }
    true
}

/// Whether a token is the same as another one, or has the new name where that has the old one.
fn is_renamed(old: &str, new: &str, left: TokenKind<'_>, right: TokenKind<'_>) -> bool
    ensures { IsTrue result → IsRenamed old.now new.now (kind_seen left.entry) (kind_seen right.entry) }
{
    same_kind(left, right) || (is_name(left, old) && is_name(right, new))
}

/// Whether these tokens are the same, one by one, but for the old name, which may be the new one.
pub fn differ_by_name(old: &str, new: &str, left: &[Token<'_>], right: &[Token<'_>]) -> bool
    ensures { IsTrue result → AreRenamed old.now new.now (kinds (tokens_seen left.now)) (kinds (tokens_seen right.now)) }
{
    if left.len() != right.len() {
        return false;
    }
    for (token, other) in left.iter().zip(right) {
        if !is_renamed(old, new, token.kind, other.kind) {
            return false;
        }
    }
    true
}

//! What stands before the tokens of two sources.

ghost use Rattle.std.specs.Prelude.{◌≡◌, ◌-◌, IfOk, IfSome, IsTrue, drop, take};
ghost use Rattle.lus_syntax.specs.Places.{end_of};
ghost use Rattle.lus_syntax.specs.View.{token_seen, tokens_seen};
ghost use Rattle.lus_edits.specs.Kept.{HaveSameComments, KeepComments};

use crate::comments::same_comments;
use lus_syntax::{Span, Token};
use std::alloc::{AllocError, Global};

/// The byte behind a token.
fn end_byte(span: Span) -> Option<usize>
    ensures { IfSome result (λ end. end ≡ (end_of span).byte) }
{
    span.start.byte.checked_add(span.length)
}

/// What stands from one byte of a text to another.
fn between(text: &[u8], from: usize, to: usize) -> Option<&[u8]>
    ensures { IfSome result (λ gap. gap.now ≡ take (to - from) (drop from text.now)) }
{
    if from > to || to > text.len() {
        return None;
    }
    Some(&text[from..to])
}

/// Whether the same comments stand in two texts from one byte to another.
fn same_between(
    alloc: Global,
    old: &[u8],
    from: usize,
    to: usize,
    new: &[u8],
    new_from: usize,
    new_to: usize,
) -> Result<bool, AllocError>
    ensures { IfOk result (λ same. IsTrue same
        → HaveSameComments (take (to - from) (drop from old.now)) (take (new_to - new_from) (drop new_from new.now))) }
{
    let Some(gap) = between(old, from, to) else {
        return Ok(false);
    };
    let Some(other) = between(new, new_from, new_to) else {
        return Ok(false);
    };
    same_comments(alloc, gap, other)
}

/// Whether the same comments stand behind two texts' tokens.
fn same_rest(
    alloc: Global,
    old: &[u8],
    from: usize,
    new: &[u8],
    new_from: usize,
) -> Result<bool, AllocError>
    ensures { IfOk result (λ same. IsTrue same → HaveSameComments (drop from old.now) (drop new_from new.now)) }
{
    let Some(gap) = old.get(from..) else {
        return Ok(false);
    };
    let Some(other) = new.get(new_from..) else {
        return Ok(false);
    };
    same_comments(alloc, gap, other)
}

/// Whether the same comments stand before each token of two texts and behind the last.
pub fn same_gaps(
    alloc: Global,
    old: &[u8],
    before: &[Token<'_>],
    new: &[u8],
    after: &[Token<'_>],
) -> Result<bool, AllocError>
    ensures { IfOk result (λ same. IsTrue same
        → KeepComments 0 (tokens_seen before.now) old.now 0 (tokens_seen after.now) new.now) }
{
    if before.len() != after.len() {
        return Ok(false);
    }
    let mut from = 0;
    let mut new_from = 0;
    for (token, other) in before.iter().zip(after) {
        let to = token.span.start.byte;
        let new_to = other.span.start.byte;
        if !same_between(alloc, old, from, to, new, new_from, new_to)? {
            return Ok(false);
        }
        let (Some(end), Some(new_end)) = (end_byte(token.span), end_byte(other.span)) else {
            return Ok(false);
        };
        from = end;
        new_from = new_end;
    }
    same_rest(alloc, old, from, new, new_from)
}

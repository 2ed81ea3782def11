//! The comments of what stands between two tokens.

ghost use Rattle.std.specs.Prelude.{◌≡◌, ◌++◌, [], ◌∷◌, IfOk, IfSome, IsTrue, OnOk, map};
ghost use Rattle.lus_edits.specs.Kept.{HasComments, HaveSameComments, said};

use crate::pieces::piece_len;
use std::alloc::{AllocError, Global};

/// Puts what a piece says behind other comments: a blank says nothing.
fn push_said<'s>(comments: &mut Vec<&'s [u8]>, piece: &'s [u8]) -> Result<(), AllocError>
    ensures { OnOk result (map (λ c. c.now) comments.new.items ≡ map (λ c. c.now) comments.old.items ++ said (piece.now ∷ [])) }
{
    let text = piece.trim_ascii_end();
    if text.is_empty() {
        return Ok(());
    }
    comments.push(text)?;
    Ok(())
}

/// The comments of what stands between two tokens, each without the blanks at its end. There are none where something else than
/// blanks and comments stands.
pub fn comments_of<'s>(alloc: Global, gap: &'s [u8]) -> Result<Option<Vec<&'s [u8]>>, AllocError>
    ensures { IfOk result (λ found. IfSome found (λ comments. HasComments gap.now (map (λ c. c.now) comments.items))) }
{
    let mut comments = Vec::new(alloc);
    let mut rest = gap;
    while !rest.is_empty() {
        let Some(n) = piece_len(rest) else {
            return Ok(None);
        };
        let (piece, after) = rest.split_at(n);
        push_said(&mut comments, piece)?;
        rest = after;
    }
    Ok(Some(comments))
}

fn same_text(left: &[u8], right: &[u8]) -> bool
    ensures { IsTrue result → left.now ≡ right.now }
{
    left == right
}

/// Whether these texts are the same, one by one.
fn same_texts(left: &[&[u8]], right: &[&[u8]]) -> bool
    ensures { IsTrue result → map (λ t. t.now) left.now ≡ map (λ t. t.now) right.now }
{
    if left.len() != right.len() {
        return false;
    }
    for (text, other) in left.iter().zip(right) {
        if !same_text(text, other) {
            return false;
        }
    }
    true
}

/// Whether the same comments stand between two tokens and between two others.
pub fn same_comments(alloc: Global, left: &[u8], right: &[u8]) -> Result<bool, AllocError>
    ensures { IfOk result (λ same. IsTrue same → HaveSameComments left.now right.now) }
{
    let Some(comments) = comments_of(alloc, left)? else {
        return Ok(false);
    };
    let Some(others) = comments_of(alloc, right)? else {
        return Ok(false);
    };
    Ok(same_texts(&comments, &others))
}

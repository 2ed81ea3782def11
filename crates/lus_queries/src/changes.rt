//! The changes that make one text of another.

ghost use Rattle.std.specs.Prelude.{◌≡◌, ◌++◌, ◌<◌, ℕ, IfOk, IsTrue, length};
ghost use Rattle.lus_queries.specs.Changes.{Make};

use crate::places::{START, Spot, spot_after};
use std::alloc::{AllocError, Global};

/// A change of a text: so many bytes from one on, between two spots, in whose place another text stands.
#[derive(Clone, Copy)]
pub struct Change<'t> {
    pub byte: usize,
    pub length: usize,
    pub from: Spot,
    pub to: Spot,
    pub text: &'t str,
}

/// Whether a byte belongs to a word: letters, digits and `_` do.
fn is_in_word(byte: u8) -> bool {
    byte.is_ascii_alphanumeric() || byte == b'_'
}

/// How many bytes the word takes that a text begins with; one where it begins with none.
fn word_len(text: &[u8]) -> usize
    ensures { 0 < result }
{
    let count = text.iter().take_while(|byte| is_in_word(**byte)).count();
    count.max(1)
}

/// The word or the character that a text begins with, and what stands behind it.
fn first_part(text: &str) -> (&str, &str)
    ensures parts { text.now ≡ result.0.now ++ result.1.now }
    ensures shorter { 0 < length text.now → length result.1.now < length text.now }
{
    text.split_at(text.ceil_char_boundary(word_len(text.as_bytes())))
}

fn are_same(left: &str, right: &str) -> bool
    ensures { IsTrue result → left.now ≡ right.now }
{
    left == right
}

/// The changes that make one text of another, word by word: where a word or another character isn't the same it is changed, and at
/// last what is left where one of both ends.
pub fn changes_between<'t>(
    alloc: Global,
    old: &str,
    new: &'t str,
) -> Result<Vec<Change<'t>>, AllocError>
    ensures { IfOk result (λ cs. Make cs.items old.now new.now) }
{
    let mut changes = Vec::new(alloc);
    let mut rest = old;
    let mut made = new;
    let mut byte = 0;
    let mut from = START;
    while !rest.is_empty() && !made.is_empty() {
        let (part, behind) = first_part(rest);
        let (text, after) = first_part(made);
        let length = part.len();
        let to = spot_after(from, rest.as_bytes(), length);
        if !are_same(part, text) {
            changes.push(Change {
                byte,
                length,
                from,
                to,
                text,
            })?;
        }
        byte += length;
        from = to;
        rest = behind;
        made = after;
    }
    if are_same(rest, made) {
        return Ok(changes);
    }
    let length = rest.len();
    let to = spot_after(from, rest.as_bytes(), length);
    changes.push(Change {
        byte,
        length,
        from,
        to,
        text: made,
    })?;
    Ok(changes)
}

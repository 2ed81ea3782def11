//! Which words a proposal keeps of its source.

ghost use Rattle.std.specs.Prelude.{◌≡◌, IfOk};
ghost use Rattle.lus_proposals.specs.Kept.{are_balanced, are_same, is_balanced, keeps, kept, rearranges};
ghost use Rattle.lus_proposals.specs.Words.{texts};

use crate::words::{count, is_among, is_mark};
use std::alloc::{AllocError, Global};

/// The words that mean something and that a rule isn't about.
fn kept<'w>(
    alloc: Global,
    words: &[&'w str],
    drops: &[&str],
    adds: &[&str],
) -> Result<Vec<&'w str>, AllocError>
    ensures { IfOk result (λ words'. texts words'.items
        ≡ kept (texts drops.now) (texts adds.now) (texts words.now)) }
{
    let mut kept = Vec::new(alloc);
    for word in words {
        if !is_mark(word) && !is_among(word, drops) && !is_among(word, adds) {
            kept.push(*word)?;
        }
    }
    Ok(kept)
}

/// Whether these words are the same, one by one.
fn are_same(left: &[&str], right: &[&str]) -> bool
    ensures { result ≡ are_same (texts left.now) (texts right.now) }
{
    if left.len() != right.len() {
        return false;
    }
    for (word, other) in left.iter().zip(right) {
        if *word != *other {
            return false;
        }
    }
    true
}

/// Whether a word stands as often in a proposal as in its source, with those that are put in and without those that are left out.
fn is_balanced(
    source: &[&str],
    proposal: &[&str],
    drops: &[&str],
    adds: &[&str],
    word: &str,
) -> bool
    ensures { result ≡ is_balanced (texts source.now) (texts proposal.now) (texts drops.now)
        (texts adds.now) word.now }
{
    let before = count(word, source) as u128 + count(word, adds) as u128;
    let behind = count(word, proposal) as u128 + count(word, drops) as u128;
    before == behind
}

/// Whether this is so of each of some words that means something.
fn are_balanced<'w>(
    source: &[&'w str],
    proposal: &[&'w str],
    drops: &[&'w str],
    adds: &[&'w str],
    words: &[&'w str],
) -> bool
    ensures { result ≡ are_balanced (texts source.now) (texts proposal.now) (texts drops.now)
        (texts adds.now) (texts words.now) }
{
    for word in words {
        if !is_mark(word) && !is_balanced(source, proposal, drops, adds, word) {
            return false;
        }
    }
    true
}

/// Whether a proposal has the words of its source in their order, but for those that a rule leaves out, and those that it puts in: of
/// each of these as many fewer or more as the rule says. Marks don't count.
pub fn keeps<'w>(
    alloc: Global,
    source: &[&'w str],
    proposal: &[&'w str],
    drops: &[&'w str],
    adds: &[&'w str],
) -> Result<bool, AllocError>
    ensures { IfOk result (λ holds. holds ≡ keeps (texts source.now) (texts proposal.now)
        (texts drops.now) (texts adds.now)) }
{
    let left = kept(alloc, source, drops, adds)?;
    let right = kept(alloc, proposal, drops, adds)?;
    Ok(
        are_same(&left, &right)
            && are_balanced(source, proposal, drops, adds, drops)
            && are_balanced(source, proposal, drops, adds, adds),
    )
}

/// Whether a proposal has the words of its source in any order, but for those that a rule leaves out and those that it puts in: each
/// as often as the rule says. Marks don't count.
pub fn rearranges<'w>(
    source: &[&'w str],
    proposal: &[&'w str],
    drops: &[&'w str],
    adds: &[&'w str],
) -> bool
    ensures { result ≡ rearranges (texts source.now) (texts proposal.now) (texts drops.now)
        (texts adds.now) }
{
    are_balanced(source, proposal, drops, adds, source)
        && are_balanced(source, proposal, drops, adds, proposal)
        && are_balanced(source, proposal, drops, adds, drops)
        && are_balanced(source, proposal, drops, adds, adds)
}

//! How strongly operators bind, and which parentheses group as they do.

ghost use Rattle.std.specs.Prelude.{◌≡◌, ◌++◌, ◌<◌, false, IfOk, IsTrue, OnOk};
ghost use Rattle.lus_proposals.specs.Words.{texts};
ghost use Rattle.lus_proposals.specs.Binding.{before_operand, between, depth_behind, ends_operand, groups, groups_left, groups_right};
ghost use Rattle.lus_proposals.specs.Binding.{holds_before, holds_behind, is_operator, operator_at, operators, rows, shown};
ghost use Rattle.lus_proposals.specs.Binding.{stands_free, strength_in};
ghost use Rattle.lus_proposals.specs.Readings.{KeepsReading};

use crate::words::is_among;
use std::alloc::{AllocError, Global};

/// An operator of an expression: how strongly it binds, and whether it stands before its operand.
#[derive(Clone, Copy, PartialEq, Eq)]
pub struct Operator {
    pub strength: u8,
    pub is_prefix: bool,
}

/// How strongly operators between operands bind: the more, the stronger.
static BETWEEN: &[(&str, u8)] = &[
    ("*", 9),
    ("/", 9),
    ("div", 9),
    ("mod", 9),
    ("+", 8),
    ("-", 8),
    ("<", 7),
    ("<=", 7),
    (">", 7),
    (">=", 7),
    ("=", 6),
    ("<>", 6),
    ("and", 4),
    ("or", 3),
    ("xor", 3),
    ("=>", 2),
    ("->", 1),
    ("fby", 1),
];

/// Likewise those before their operand: `else` stands before the last one of an `if`.
static BEFORE: &[(&str, u8)] = &[("pre", 10), ("-", 10), ("not", 5), ("if", 0), ("else", 0)];

/// What an operand may stand behind, besides operators: nothing, and what opens or separates.
static OPENINGS: &[&str] = &["", "(", "{", ",", ";", "then", "when"];

/// What takes a step into parentheses, and out of them: an `if` opens what its `else` closes.
static DEEPER: &[&str] = &["(", "{", "if"];

static HIGHER: &[&str] = &[")", "}", "else"];

/// What a clock stands behind.
static SAMPLING: &[&str] = &["when"];

/// What chooses and samples, and the point before a field.
static OTHERS: &[&str] = &["when", "merge", "then", "."];

/// The strength of a word in a table.
fn strength_in(word: &str, table: &[(&str, u8)]) -> Option<u8>
    ensures { result ≡ strength_in word.now (rows table.now) }
{
    for (other, strength) in table {
        if *other == word {
            return Some(*strength);
        }
    }
    None
}

/// How strongly a word binds the operands that it stands between, if it is such an operator: the more, the stronger.
pub fn strength_behind(word: &str) -> Option<u8>
    ensures { result ≡ strength_in word.now between }
{
    strength_in(word, BETWEEN)
}

/// How strongly a word binds the operand that it stands before, if it is such an operator.
fn strength_before(word: &str) -> Option<u8>
    ensures { result ≡ strength_in word.now before_operand }
{
    strength_in(word, BEFORE)
}

/// Whether a word computes, chooses or samples.
pub fn is_operator(word: &str) -> bool
    ensures { result ≡ is_operator word.now }
{
    strength_behind(word).is_some() || strength_before(word).is_some() || is_among(word, OTHERS)
}

/// Whether an operand may end with a word.
pub fn may_end(word: &str) -> bool
    ensures { result ≡ ends_operand word.now }
{
    strength_behind(word).is_none() && strength_before(word).is_none() && !is_among(word, OPENINGS)
}

/// The operator that a word is, if it is any: behind an operand one between operands, else one before its operand.
fn operator_at(is_behind: bool, word: &str) -> Option<Operator>
    ensures { result ≡ operator_at is_behind word.now }
{
    if is_behind {
        let strength = strength_behind(word)?;
        Some(Operator {
            strength,
            is_prefix: false,
        })
    } else {
        let strength = strength_before(word)?;
        Some(Operator {
            strength,
            is_prefix: true,
        })
    }
}

/// The operator that a word is behind another one, if it is any.
pub fn operator_before(before: &str, word: &str) -> Option<Operator>
    ensures { result ≡ operator_at (ends_operand before.now) word.now }
{
    operator_at(may_end(before), word)
}

/// Puts the operator that a word is behind others, if it is to be shown.
fn push_operator(
    found: &mut Vec<Operator>,
    is_shown: bool,
    is_behind: bool,
    word: &str,
) -> Result<(), AllocError>
    ensures { OnOk result (found.new.items ≡ found.old.items ++ shown is_shown is_behind word.now) }
{
    if !is_shown {
        return Ok(());
    }
    if let Some(operator) = operator_at(is_behind, word) {
        found.push(operator)?;
    }
    Ok(())
}

/// How deep a word leaves the parentheses that it stands in.
fn depth_behind(word: &str, depth: usize) -> usize
    requires { depth < usize.MAX }
    ensures { result ≡ depth_behind word.now depth }
{
    if is_among(word, DEEPER) {
        depth + 1
    } else if is_among(word, HIGHER) {
        depth.saturating_sub(1)
    } else {
        depth
    }
}

/// Whether a word stands in no parentheses and isn't behind a `when`.
fn stands_free(depth: usize, is_sampled: bool) -> bool
    ensures { result ≡ stands_free depth is_sampled }
{
    depth == 0 && !is_sampled
}

/// The operators of an expression's words that stand in no parentheses. The `not` of a clock is none.
pub fn operators_in(alloc: Global, words: &[&str]) -> Result<Vec<Operator>, AllocError>
    ensures { IfOk result (λ found. found.items ≡ operators 0 false false (texts words.now)) }
{
    let mut found = Vec::new(alloc);
    let mut depth = 0usize;
    let mut is_behind = false;
    let mut is_sampled = false;
    for word in words {
        push_operator(&mut found, stands_free(depth, is_sampled), is_behind, word)?;
        depth = depth_behind(word, depth);
        is_behind = may_end(word);
        is_sampled = is_among(word, SAMPLING);
    }
    Ok(found)
}

/// Whether of two operators of a strength the left one takes the operand between them.
fn groups_left(strength: u8) -> bool
    ensures { result ≡ groups_left strength }
{
    strength == 3 || strength == 4 || strength == 8 || strength == 9
}

/// Whether the right one does.
fn groups_right(strength: u8) -> bool
    ensures { result ≡ groups_right strength }
{
    strength < 3
}

/// Whether each operator of a group takes its last operand before the one behind the group does.
fn holds_behind(inside: &[Operator], behind: u8) -> bool
    ensures { result ≡ holds_behind behind inside.now }
{
    for operator in inside {
        let strength = operator.strength;
        if !(behind < strength || strength == behind && groups_left(strength)) {
            return false;
        }
    }
    true
}

/// Whether each operator between operands of a group takes its left one before the operator before the group does. One that stands in the
/// operand of an operator before its own operand does.
fn holds_before(inside: &[Operator], before: u8) -> bool
    ensures { result ≡ holds_before before 255 inside.now }
{
    let mut weakest = 255u8;
    for operator in inside {
        let strength = operator.strength;
        if operator.is_prefix {
            weakest = weakest.min(strength);
        } else if !(weakest < strength
            || before < strength
            || strength == before && groups_right(strength))
        {
            return false;
        }
    }
    true
}

/// Whether the operators of a group hold their operands against the one before it and the one behind it, if there are any.
fn are_held(before: Option<Operator>, inside: &[Operator], behind: Option<Operator>) -> bool
    ensures { result ≡ groups before inside.now behind }
{
    let is_held = match before {
        Some(operator) => holds_before(inside, operator.strength),
        None => true,
    };
    match behind {
        Some(operator) => is_held && holds_behind(inside, operator.strength),
        None => is_held,
    }
}

/// Whether parentheses round operators leave an expression as its operators group it, between those before and behind, if there are any.
pub fn groups(before: Option<Operator>, inside: &[Operator], behind: Option<Operator>) -> bool
    ensures same { result ≡ groups before inside.now behind }
    ensures reading { IsTrue result → KeepsReading before inside.now behind }
{
    are_held(before, inside, behind)
}

//! Kinds of texts.

use crate::fault::{Fault, is_name};
use lus_faults::slice_of;

/// The comparisons of order, and the other ones.
pub static ORDERS: [&str; 4] = ["<", "<=", ">", ">="];

pub static EQUALITIES: [&str; 2] = ["=", "<>"];

/// What reckons with integers.
pub static RECKONERS: [&str; 6] = ["+", "-", "*", "/", "div", "mod"];

/// What stands between operands besides, or behind one.
static OTHERS: [&str; 7] = ["->", "=>", "and", "or", "xor", "fby", "when"];

/// What stands before an operand, and behind none.
static OPENERS: [&str; 5] = ["not", "pre", "if", "then", "else"];

/// What stands in other languages before a condition that callers have to keep, or that a node keeps.
static CLAIMS: [&str; 10] = [
    "assume",
    "guarantee",
    "require",
    "requires",
    "ensure",
    "ensures",
    "check",
    "prove",
    "property",
    "invariant",
];

/// Whether a text is one of some.
pub fn is_any(text: &str, texts: &[&str]) -> bool {
    texts.contains(&text)
}

/// Whether a text stands before a condition in other languages.
pub fn is_claim(text: &str) -> bool {
    is_any(text, &CLAIMS)
}

/// Whether a text is a comparison.
pub fn compares(text: &str) -> bool {
    is_any(text, &ORDERS) || is_any(text, &EQUALITIES)
}

/// Whether a text stands between two operands, or behind one.
pub fn is_infix(text: &str) -> bool {
    compares(text) || is_any(text, &RECKONERS) || is_any(text, &OTHERS)
}

/// Whether an operand stands behind a text.
pub fn leads(text: &str) -> bool {
    is_infix(text) || is_any(text, &OPENERS)
}

/// Whether a name is declared behind one of some words.
fn is_declared(fault: &Fault<'_>, name: &str, words: &[&str]) -> bool {
    let mut is_behind = false;
    for token in fault.all {
        let text = slice_of(fault.source, token.span);
        if is_behind && text == name && is_name(Some(token)) {
            return true;
        }
        is_behind = is_any(text, words);
    }
    false
}

/// Whether a text is a type: one that needs no declaration, or one that is declared.
pub fn is_type(fault: &Fault<'_>, name: &str) -> bool {
    is_any(name, &["int", "bool"]) || is_declared(fault, name, &["type"])
}

/// Whether a text is the name of a node.
pub fn is_node(fault: &Fault<'_>, name: &str) -> bool {
    is_declared(fault, name, &["node", "function"])
}

/// Whether a text is the name of a constructor: it stands in the braces of an enumeration.
pub fn is_constructor(fault: &Fault<'_>, name: &str) -> bool {
    let mut is_listed = false;
    for token in fault.all {
        let text = slice_of(fault.source, token.span);
        if is_listed && text == name {
            return true;
        }
        is_listed = text.eq_ignore_ascii_case("enum") || is_listed && !is_any(text, &["}"]);
    }
    false
}

/// Whether a text behind a number makes no number of the language: a power, a base, or a sign between digits.
pub fn is_suffix(text: &str) -> bool {
    match text.as_bytes() {
        [b'e' | b'E', digit, ..] => digit.is_ascii_digit(),
        [b'x' | b'X' | b'b' | b'_', _, ..] => true,
        _ => false,
    }
}

/// Whether a byte is one of a word.
pub fn is_of_word(byte: u8) -> bool {
    byte.is_ascii_alphanumeric() || byte == b'_'
}

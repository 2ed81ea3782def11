//! Declarations of locals that have an equation.

use crate::given::Given;
use lus_faults::{Edit, Plain, bytes_at, extent_of};
use lus_plain_types::{output_type, plain_type};
use lus_syntax::{Equation, Expr, Name, Node, Token, TokenKind, Word, lex};
use std::alloc::{AllocError, Global};

/// The equation that a name stands on the left of, and its number there.
fn equation_of<'t>(node: &'t Node, left: &Name) -> Option<(&'t Equation, usize)> {
    for equation in &node.equations {
        for (number, name) in equation.left.iter().enumerate() {
            if name.span.start.byte == left.span.start.byte {
                return Some((equation, number));
            }
        }
    }
    None
}

/// The name of a type.
fn name_of(of: Plain<'_>) -> &str {
    match of {
        Plain::Bool => "bool",
        Plain::Int => "int",
        Plain::Declared(_, declaration) => declaration.name.text.as_str(),
    }
}

/// The clock that the right side of an equation is sampled by, as it is written there; nothing where it isn't.
fn clock_of<'t>(source: &'t str, right: &Expr) -> &'t str {
    match right {
        Expr::When(operand, _) => {
            let from = extent_of(source, operand).end().byte;
            let to = extent_of(source, right).end().byte;
            bytes_at(source, from, to).unwrap_or("")
        }
        _ => "",
    }
}

/// The type of what an equation gives a variable on its left, if that is plain.
fn type_of<'t>(
    given: Given<'t>,
    node: &'t Node,
    equation: &'t Equation,
    number: usize,
) -> Option<Plain<'t>> {
    match &equation.right {
        Expr::Call(name, _) => output_type(given.tree, name.text.as_str(), number),
        right if equation.left.len() == 1 => plain_type(given.tree, node, right),
        _ => None,
    }
}

/// A declaration as its equation says it, as `t: int` or `t: int when c`, if its type is plain.
pub fn declaration_of<'t>(
    given: Given<'t>,
    node: &'t Node,
    left: &Name,
) -> Result<Option<String>, AllocError> {
    let Some((equation, number)) = equation_of(node, left) else {
        return Ok(None);
    };
    let Some(of) = type_of(given, node, equation, number) else {
        return Ok(None);
    };
    let text = left.text.as_str();
    let clock = clock_of(given.source, &equation.right);
    let of = name_of(of);
    Ok(Some(format!(in given.alloc; "{text}: {of}{clock}")?))
}

/// The byte of the first `let` of some tokens.
fn let_in(tokens: &[Token<'_>]) -> Option<usize> {
    for token in tokens {
        if matches!(token.kind, TokenKind::Keyword(Word::Let)) {
            return Some(token.span.start.byte);
        }
    }
    None
}

/// The byte of a node's `let`, before a name on the left of one of its equations.
fn let_of(alloc: Global, source: &str, node: &Node, left: &Name) -> Option<usize> {
    let from = node.name.span.start.byte;
    let text = bytes_at(source, from, left.span.start.byte)?;
    match lex(alloc, text) {
        Ok(tokens) => Some(from.saturating_add(let_in(&tokens)?)),
        Err(_) => None,
    }
}

/// What stands on its line before a byte of a source, if that is blank.
fn indentation(source: &str, byte: usize) -> Option<&str> {
    let before = bytes_at(source, 0, byte)?;
    let line = match before.rsplit_once('\n') {
        Some((_, line)) => line,
        None => before,
    };
    line.trim().is_empty().then_some(line)
}

/// The change that declares a local before the `let` of its node, on a line of its own where that has one.
pub fn declaring(
    given: Given<'_>,
    node: &Node,
    left: &Name,
    declared: &str,
) -> Result<Option<Edit>, AllocError> {
    let Some(byte) = let_of(given.alloc, given.source, node, left) else {
        return Ok(None);
    };
    let text = match indentation(given.source, byte) {
        Some(blank) => format!(in given.alloc; "var {declared};\n{blank}")?,
        None => format!(in given.alloc; "var {declared}; ")?,
    };
    let length = 0;
    Ok(Some(Edit { byte, length, text }))
}

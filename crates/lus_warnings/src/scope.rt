//! The tokens of a node, and those of its equations.

use lus_faults::start_of;
use lus_syntax::{Equation, Name, Node, Token, TokenKind};
use std::alloc::{AllocError, Global};

/// The place of the first token, from one on, that doesn't stand before a byte.
fn first_from(tokens: &[Token<'_>], from: usize, byte: usize) -> usize {
    let mut at = from;
    for token in tokens.get(from..).unwrap_or(&[]) {
        if token.span.start.byte >= byte {
            return at;
        }
        at = at.saturating_add(1);
    }
    at
}

/// The place of the token, from one on, that a node's name is: behind the last one where there is no node.
pub(crate) fn node_from(tokens: &[Token<'_>], from: usize, node: Option<&Node>) -> usize {
    match node {
        Some(node) => first_from(tokens, from, node.name.span.start.byte),
        None => tokens.len(),
    }
}

/// Whether one of these names has this text.
fn has(names: &[Name], text: &str) -> bool {
    for name in names {
        if name.text.as_str() == text {
            return true;
        }
    }
    false
}

/// Whether a token is one of the variables on the left of an equation.
fn is_own(equation: &Equation, token: Token<'_>) -> bool {
    match token.kind {
        TokenKind::Identifier(text) => has(&equation.left, text),
        _ => false,
    }
}

/// Whether a token stands on the left of an equation.
fn is_left(equation: &Equation, token: Token<'_>) -> bool {
    token.span.start.byte < start_of(&equation.right).byte
}

/// Whether the next of some equations begins at a token or before it.
fn begins_by(next: Option<&Equation>, token: Token<'_>) -> bool {
    match next {
        Some(equation) => match equation.left.first() {
            Some(name) => name.span.start.byte <= token.span.start.byte,
            None => true,
        },
        None => false,
    }
}

/// Which tokens of equations are left out.
#[derive(Clone, Copy)]
pub(crate) enum Without {
    /// The variables of each equation in that equation.
    Own,
    /// Left sides.
    Left,
}

/// Whether a token of an equation is passed over.
fn is_out(without: Without, equation: &Equation, token: Token<'_>) -> bool {
    match without {
        Without::Own => is_own(equation, token),
        Without::Left => is_left(equation, token),
    }
}

/// The tokens of a node, without some in its equations.
pub(crate) fn tokens_without<'t>(
    alloc: Global,
    without: Without,
    tokens: &[Token<'t>],
    equations: &[Equation],
) -> Result<Vec<Token<'t>>, AllocError> {
    let mut kept = Vec::new(alloc);
    let mut here = None;
    let mut next = 0usize;
    for token in tokens {
        if begins_by(equations.get(next), *token) {
            here = equations.get(next);
            next = next.saturating_add(1);
        }
        match here {
            Some(equation) if is_out(without, equation, *token) => {}
            _ => kept.push(*token)?,
        }
    }
    Ok(kept)
}

//! `lus_syntax`, `lus_grammar`, `lus_types`, `lus_clocks`, `lus_order`, `lus_normal` and `lus_code`: from a text to code.

use lus_clocks::{Clocked, Initialised, check_clocks, check_nil};
use lus_eval::lus_code::{Code, translate};
use lus_eval::lus_normal::{Normal, normalise};
use lus_eval::lus_order::{Ordered, order};
use lus_grammar::parse;
use lus_syntax::{NodeId, Refusal, RefusalNumber, Span, Token, Tree, lex};
use lus_types::{Typed, check_types};
use std::alloc::Global;

/// The tokens of a text.
pub fn tokens_of(alloc: Global, text: &str) -> Result<Vec<Token<'_>>, Refusal> {
    lex(alloc, text)
}

/// Where a token begins and ends, with the line and the column of both.
pub fn places(token: &Token<'_>) -> [(usize, usize, usize); 2] {
    let span: Span = token.span;
    let (start, end) = (span.start, span.end());
    [
        (start.byte, start.line, start.column),
        (end.byte, end.line, end.column),
    ]
}

/// The tree that tokens spell.
pub fn tree_of(alloc: Global, tokens: &[Token]) -> Result<Tree, Refusal> {
    parse(alloc, tokens)
}

/// The number of a refusal, its place, and the variables of its cycle.
pub fn refused_at(refusal: &Refusal) -> (RefusalNumber, usize, usize, &[String]) {
    let Refusal {
        number,
        line,
        column,
        cycle,
    } = refusal;
    (*number, *line, *column, cycle.names())
}

/// The program of a tree, typed.
pub fn checked_types(alloc: Global, tree: Tree) -> Result<Typed, Refusal> {
    check_types(alloc, tree)
}

/// The program, on clocks.
pub fn checked_clocks(typed: Typed) -> Result<Clocked, Refusal> {
    check_clocks(typed)
}

/// The program, nil only where flags allow.
pub fn checked_nil(alloc: Global, clocked: Clocked) -> Result<Initialised, Refusal> {
    check_nil(alloc, clocked)
}

/// The program, in causal order.
pub fn ordered_of(alloc: Global, initialised: Initialised) -> Result<Ordered, Refusal> {
    order(alloc, initialised)
}

/// The program, in normal form.
pub fn normal_of(alloc: Global, ordered: Ordered) -> Result<Normal, Refusal> {
    normalise(alloc, ordered)
}

/// The code of a program.
pub fn translated(alloc: Global, normal: Normal) -> Result<Code, Refusal> {
    translate(alloc, normal)
}

/// How many memories and marks of a first instant stand in a node, where the program has it.
pub fn counts(normal: &Normal, node: NodeId) -> Option<(u32, u32)> {
    let nodes: u32 = normal.nodes();
    if node.0 < nodes {
        Some((normal.memories(node), normal.firsts(node)))
    } else {
        None
    }
}

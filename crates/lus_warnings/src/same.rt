//! Expressions that are written alike.

use lus_faults::{extent_of, slice_of};
use lus_syntax::{Expr, MOST_DEPTH};

/// An expression without parentheses round it.
pub(crate) fn bare(expr: &Expr) -> &Expr {
    let mut inner = expr;
    for _deep in 0..MOST_DEPTH {
        match inner {
            Expr::Parentheses(_, operand) => inner = operand,
            _ => return inner,
        }
    }
    inner
}

/// An expression as it is written.
pub(crate) fn text_of<'s>(source: &'s str, expr: &Expr) -> &'s str {
    slice_of(source, extent_of(source, expr))
}

/// Whether two expressions are written alike, but for parentheses round them, so that they have one value.
pub(crate) fn are_same(source: &str, left: &Expr, right: &Expr) -> bool {
    text_of(source, bare(left)) == text_of(source, bare(right))
}

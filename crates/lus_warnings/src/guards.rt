//! Tests that hold only where an expression isn't 0.

use crate::known::{Known, Scope};
use crate::numbers::is_other;
use lus_syntax::{Expr, Infix, Prefix};
use lus_values::Op;
use std::alloc::AllocError;

/// The most tests that are kept in mind at once.
const MOST_TESTS: usize = 64;

/// What chooses between two results by a test, of which it computes both.
#[derive(Clone, Copy)]
pub(crate) enum Chooser {
    If,
    And,
    Or,
    Implies,
}

/// A test that holds only where an expression isn't 0.
#[derive(Clone, Copy)]
pub(crate) struct Guard<'t> {
    pub divisor: &'t Expr,
    pub test: &'t Expr,
    pub by: Chooser,
}

/// The side of a comparison that isn't 0 where the comparison holds, or where it doesn't: with 0 it would come out the other way.
fn not_zero<'t>(
    scope: &Scope<'_, 't>,
    op: Op,
    holds: bool,
    left: &'t Expr,
    right: &'t Expr,
) -> Option<&'t Expr> {
    match (scope.value(left), scope.value(right)) {
        (None, Some(Known::Number(number))) if is_other(op, 0, number, holds) => Some(left),
        (Some(Known::Number(number)), None) if is_other(op, number, 0, holds) => Some(right),
        _ => None,
    }
}

/// What both sides of an operator are, where its result is known: where that tells both.
fn sides(op: Op, holds: bool) -> Option<(bool, bool)> {
    match (op, holds) {
        (Op::And, true) => Some((true, true)),
        (Op::Or, false) => Some((false, false)),
        (Op::Implies, false) => Some((true, false)),
        _ => None,
    }
}

/// Keeps in mind what a comparison excludes, where it holds, or where it doesn't.
fn keep_comparison<'t>(
    scope: &Scope<'_, 't>,
    guards: &mut Vec<Guard<'t>>,
    test: &'t Expr,
    holds: bool,
    by: Chooser,
) -> Result<(), AllocError> {
    let Expr::Binary(Infix::Compute(op), left, right) = test else {
        return Ok(());
    };
    match not_zero(scope, *op, holds, left, right) {
        Some(divisor) if guards.len() < MOST_TESTS => Ok(guards.push(Guard { divisor, test, by })?),
        _ => Ok(()),
    }
}

/// Keeps in mind what isn't 0 where a test holds, or where it doesn't.
#[cycle(guards)]
pub(crate) fn keep_in_mind<'t>(
    scope: &Scope<'_, 't>,
    guards: &mut Vec<Guard<'t>>,
    test: &'t Expr,
    holds: bool,
    by: Chooser,
) -> Result<(), AllocError> {
    match test {
        Expr::Parentheses(_, operand) => keep_in_mind(scope, guards, operand, holds, by),
        Expr::Unary(Prefix::Not, _, operand) => keep_in_mind(scope, guards, operand, !holds, by),
        Expr::Binary(Infix::Compute(op), left, right) => match sides(*op, holds) {
            Some((first, second)) => {
                keep_in_mind(scope, guards, left, first, by)?;
                keep_in_mind(scope, guards, right, second, by)
            }
            None => keep_comparison(scope, guards, test, holds, by),
        },
        _ => Ok(()),
    }
}

/// What the left side of an operator chooses by, and whether its right side matters where the left one holds, or where it doesn't.
pub(crate) fn chooser_of(infix: Infix) -> Option<(Chooser, bool)> {
    match infix {
        Infix::Compute(Op::And) => Some((Chooser::And, true)),
        Infix::Compute(Op::Or) => Some((Chooser::Or, false)),
        Infix::Compute(Op::Implies) => Some((Chooser::Implies, true)),
        _ => None,
    }
}

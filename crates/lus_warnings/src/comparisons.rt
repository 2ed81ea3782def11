//! Comparisons that are always so.

use crate::kind::Kind;
use crate::known::{Known, Scope};
use crate::numbers::of_numbers;
use crate::same::{are_same, text_of};
use crate::warning::warning;
use lus_diagnostics::Diagnostic;
use lus_faults::extent_of;
use lus_syntax::{Expr, Infix};
use lus_values::Op;
use std::alloc::{AllocError, Global};

/// What a comparison gives where both sides are one value, if the operator compares.
fn of_alike(op: Op) -> Option<bool> {
    match op {
        Op::Equal | Op::AtMost | Op::AtLeast => Some(true),
        Op::NotEqual | Op::Less | Op::Greater => Some(false),
        _ => None,
    }
}

/// What `=` or `<>` gives, by whether both sides are equal.
fn of_equality(op: Op, is_equal: bool) -> Option<bool> {
    match op {
        Op::Equal => Some(is_equal),
        Op::NotEqual => Some(!is_equal),
        _ => None,
    }
}

/// What a comparison of known values gives.
fn of_known(op: Op, left: Known<'_>, right: Known<'_>) -> Option<bool> {
    match (left, right) {
        (Known::Number(left), Known::Number(right)) => of_numbers(op, left, right),
        (Known::Truth(left), Known::Truth(right)) => of_equality(op, left == right),
        (Known::Constructor(left), Known::Constructor(right)) => of_equality(op, left == right),
        _ => None,
    }
}

/// Why a comparison is always so: its sides are written alike, or their values are known.
#[derive(Clone, Copy)]
enum Always {
    Alike(bool),
    Known(bool),
}

/// A comparison that is always so, and what it gives.
#[derive(Clone, Copy)]
pub(crate) struct Comparison<'t> {
    expr: &'t Expr,
    always: Always,
}

/// What a comparison always gives, if that is known.
fn result_of<'t>(
    source: &str,
    scope: &Scope<'_, 't>,
    op: Op,
    left: &'t Expr,
    right: &'t Expr,
) -> Option<Always> {
    if let Some(holds) = of_alike(op)
        && are_same(source, left, right)
    {
        return Some(Always::Alike(holds));
    }
    let holds = of_known(op, scope.value(left)?, scope.value(right)?)?;
    Some(Always::Known(holds))
}

/// What is said of a comparison that is always so: what it gives, and a note.
fn words_of(always: Always) -> (bool, &'static str) {
    match always {
        Always::Alike(holds) => (
            holds,
            "Both sides are the same: compare with what was meant, or leave the comparison out.",
        ),
        Always::Known(holds) => (
            holds,
            "Both sides are constants: compare with what was meant, or leave the comparison out.",
        ),
    }
}

/// The comparison that an expression is, if it is one that is always so.
pub(crate) fn comparison_in<'t>(
    source: &str,
    scope: &Scope<'_, 't>,
    expr: &'t Expr,
) -> Option<Comparison<'t>> {
    match expr {
        Expr::Binary(Infix::Compute(op), left, right) => {
            let always = result_of(source, scope, *op, left, right)?;
            Some(Comparison { expr, always })
        }
        _ => None,
    }
}

/// The warning of a comparison that is always so.
pub(crate) fn constant_comparison(
    alloc: Global,
    source: &str,
    found: Comparison<'_>,
) -> Result<Diagnostic, AllocError> {
    let (holds, note) = words_of(found.always);
    let text = text_of(source, found.expr);
    let sentence = format!(in alloc; "`{text}` is always {holds}")?;
    let span = extent_of(source, found.expr);
    warning(alloc, Kind::ConstantComparison, span, sentence, note)
}

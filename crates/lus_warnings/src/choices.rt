//! Choices between results that are the same.

use crate::kind::Kind;
use crate::same::are_same;
use crate::warning::warning;
use lus_diagnostics::Diagnostic;
use lus_faults::extent_of;
use lus_syntax::Expr;
use std::alloc::{AllocError, Global};

/// The expression, if it is an `if` whose branches are written alike.
pub(crate) fn choice_in<'t>(source: &str, expr: &'t Expr) -> Option<&'t Expr> {
    match expr {
        Expr::If(_, _, branch, other) if are_same(source, branch, other) => Some(expr),
        _ => None,
    }
}

/// The warning of a choice between results that are the same.
pub(crate) fn same_branches(
    alloc: Global,
    source: &str,
    choice: &Expr,
) -> Result<Diagnostic, AllocError> {
    let sentence = String::from_str(alloc, "both branches of this `if` are the same")?;
    let span = extent_of(source, choice);
    let note = "Write what was meant in one of them, or the branch alone.";
    warning(alloc, Kind::SameBranches, span, sentence, note)
}

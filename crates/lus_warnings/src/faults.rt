//! Operations that never have a value, by the constants among their operands.

ghost use Rattle.std.specs.Prelude.{◌≡◌, [], ◌∷◌, ℤ, IsTrue, None};
ghost use Rattle.lus_values.specs.Operators.{computed, rule};
ghost use Rattle.lus_values.specs.Values.{int};

use crate::kind::Kind;
use crate::known::{Known, Scope};
use crate::same::{bare, text_of};
use crate::warning::warning;
use lus_diagnostics::Diagnostic;
use lus_faults::extent_of;
use lus_syntax::{Expr, Infix, Prefix};
use lus_values::{Op, Value, try_apply};
use std::alloc::{AllocError, Global};

/// An operation that never has a value, and what to do.
#[derive(Clone, Copy)]
pub(crate) struct Fault<'t> {
    expr: &'t Expr,
    note: &'static str,
}

/// Whether an operator has no value by what is on its right, whatever is on its left.
fn divides_by_zero(op: Op, right: i64) -> bool
    ensures { IsTrue result → (left : ℤ) → computed (rule op) (int left ∷ int right ∷ []) ≡ None }
{
    match op {
        Op::Divide => right == 0,
        Op::Remainder => right == 0,
        _ => false,
    }
}

/// The number that a literal or a constant is, or its negation.
fn plain_number(scope: &Scope<'_, '_>, expr: &Expr) -> Option<i64> {
    let (of, is_negated) = match bare(expr) {
        Expr::Unary(Prefix::Negate, _, operand) => (bare(operand), true),
        inner => (inner, false),
    };
    match scope.value(of) {
        Some(Known::Number(number)) if is_negated => number.checked_neg(),
        Some(Known::Number(number)) => Some(number),
        _ => None,
    }
}

/// What an operator gives for two numbers, if that is a number.
fn given(op: Op, left: i64, right: i64) -> Option<i64> {
    match try_apply(op, &[Value::Int(left), Value::Int(right)]) {
        Some(Value::Int(number)) => Some(number),
        _ => None,
    }
}

/// The number that an operand is: a literal or a constant, its negation, or what an operator gives for two of these, as the least integer
/// is written.
fn number_of(scope: &Scope<'_, '_>, expr: &Expr) -> Option<i64> {
    match bare(expr) {
        Expr::Binary(Infix::Compute(op), left, right) => given(
            *op,
            plain_number(scope, left)?,
            plain_number(scope, right)?,
        ),
        inner => plain_number(scope, inner),
    }
}

/// Why an operator on these two operands never has a value, if that is known.
fn note_on(scope: &Scope<'_, '_>, op: Op, left: &Expr, right: &Expr) -> Option<&'static str> {
    let right = number_of(scope, right)?;
    if divides_by_zero(op, right) {
        return Some("The divisor is 0, and a division by 0 is a fault. Divide by what is never 0.");
    }
    let is_without = try_apply(
        op,
        &[Value::Int(number_of(scope, left)?), Value::Int(right)],
    )
    .is_none();
    is_without.then_some(OUT_OF_RANGE)
}

/// What is said of a result that is no integer.
const OUT_OF_RANGE: &str =
    "The result is out of the range of `int`, which is a fault. Write other numbers.";

/// The operation that an expression is, if it is one that never has a value.
pub(crate) fn fault_in<'t>(scope: &Scope<'_, 't>, expr: &'t Expr) -> Option<Fault<'t>> {
    let note = match expr {
        Expr::Binary(Infix::Compute(op), left, right) => note_on(scope, *op, left, right)?,
        Expr::Unary(Prefix::Negate, _, operand) => match number_of(scope, operand) {
            Some(i64::MIN) => OUT_OF_RANGE,
            _ => return None,
        },
        _ => return None,
    };
    Some(Fault { expr, note })
}

/// The warning of an operation that never has a value.
pub(crate) fn constant_fault(
    alloc: Global,
    source: &str,
    found: Fault<'_>,
) -> Result<Diagnostic, AllocError> {
    let text = text_of(source, found.expr);
    let sentence = format!(in alloc; "`{text}` never has a value")?;
    let span = extent_of(source, found.expr);
    warning(alloc, Kind::ConstantFault, span, sentence, found.note)
}

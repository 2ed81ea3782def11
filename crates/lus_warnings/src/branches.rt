//! Divisions that a test seems to guard. Both branches of an `if` and both sides of `and`, `or` and `=>` are computed at every instant,
//! so the test keeps no division from running.

use crate::guards::{Chooser, Guard, chooser_of, keep_in_mind};
use crate::kind::Kind;
use crate::known::Scope;
use crate::same::{are_same, bare, text_of};
use crate::warning::warning;
use indexmap::IndexMap;
use lus_diagnostics::Diagnostic;
use lus_faults::{Edit, Related, expressions_in, extent_of, start_of};
use lus_syntax::{Expr, Infix, Span};
use lus_values::Op;
use std::alloc::{AllocError, Global};

/// A division by what a test excludes from being 0.
#[derive(Clone, Copy)]
pub(crate) struct Division<'t> {
    whole: &'t Expr,
    divisor: &'t Expr,
    guard: Guard<'t>,
}

/// What an expression divides by, if it is a division.
fn divisor_of(expr: &Expr) -> Option<&Expr> {
    match expr {
        Expr::Binary(Infix::Compute(Op::Divide | Op::Remainder), _, right) => Some(right),
        _ => None,
    }
}

/// The last of the tests in mind that excludes a divisor from being 0.
fn guard_of<'t>(source: &str, guards: &[Guard<'t>], divisor: &Expr) -> Option<Guard<'t>> {
    let mut found = None;
    for guard in guards {
        if are_same(source, guard.divisor, divisor) {
            found = Some(*guard);
        }
    }
    found
}

/// The division that an expression is, if one of the tests in mind seems to guard it.
fn guarded<'t>(source: &str, guards: &[Guard<'t>], whole: &'t Expr) -> Option<Division<'t>> {
    let divisor = divisor_of(whole)?;
    let guard = guard_of(source, guards, divisor)?;
    Some(Division {
        whole,
        divisor,
        guard,
    })
}

/// What runs although a test that holds, or doesn't, would choose another result.
#[derive(Clone, Copy)]
struct Choice<'t> {
    test: &'t Expr,
    holds: bool,
    by: Chooser,
    branch: &'t Expr,
}

/// The divisions of a node that a test of their divisor seems to guard, each with the innermost such test, by where the divisor begins.
pub(crate) type Divisions<'t> = IndexMap<usize, Division<'t>>;

/// Puts the divisions in a branch that one of some tests seems to guard in the place of what was found of them.
fn put_in_branch<'t>(
    alloc: Global,
    source: &str,
    guards: &[Guard<'t>],
    branch: &'t Expr,
    found: &mut Divisions<'t>,
) -> Result<(), AllocError> {
    for inner in &expressions_in(alloc, branch)? {
        if let Some(division) = guarded(source, guards, inner) {
            let _outer = found.insert(start_of(division.divisor).byte, division)?;
        }
    }
    Ok(())
}

/// Puts the divisions in a branch that its test seems to guard in the place of what was found of them.
fn put_guarded<'t>(
    alloc: Global,
    source: &str,
    scope: &Scope<'_, 't>,
    choice: Choice<'t>,
    found: &mut Divisions<'t>,
) -> Result<(), AllocError> {
    let mut guards = Vec::new(alloc);
    keep_in_mind(scope, &mut guards, choice.test, choice.holds, choice.by)?;
    put_in_branch(alloc, source, &guards, choice.branch, found)
}

/// Puts the divisions that seem to be guarded by what an expression chooses by.
fn put_chosen<'t>(
    alloc: Global,
    source: &str,
    scope: &Scope<'_, 't>,
    expr: &'t Expr,
    found: &mut Divisions<'t>,
) -> Result<(), AllocError> {
    match expr {
        Expr::Binary(infix, test, branch) => match chooser_of(*infix) {
            Some((by, holds)) => {
                let choice = Choice {
                    test,
                    holds,
                    by,
                    branch,
                };
                put_guarded(alloc, source, scope, choice, found)
            }
            None => Ok(()),
        },
        Expr::If(_, test, left, right) => {
            let first = Choice {
                test,
                holds: true,
                by: Chooser::If,
                branch: left,
            };
            put_guarded(alloc, source, scope, first, found)?;
            let second = Choice {
                holds: false,
                branch: right,
                ..first
            };
            put_guarded(alloc, source, scope, second, found)
        }
        _ => Ok(()),
    }
}

/// Puts the divisions in an expression that a test seems to guard.
fn put_divisions<'t>(
    alloc: Global,
    source: &str,
    scope: &Scope<'_, 't>,
    expr: &'t Expr,
    found: &mut Divisions<'t>,
) -> Result<(), AllocError> {
    for inner in &expressions_in(alloc, expr)? {
        put_chosen(alloc, source, scope, inner, found)?;
    }
    Ok(())
}

/// The divisions in a node that a test of their divisors seems to guard.
pub(crate) fn divisions_in<'t>(
    alloc: Global,
    source: &str,
    scope: &Scope<'_, 't>,
) -> Result<Divisions<'t>, AllocError> {
    let mut found = IndexMap::new(alloc);
    for equation in &scope.node.equations {
        put_divisions(alloc, source, scope, &equation.right, &mut found)?;
    }
    Ok(found)
}

/// A divisor as it is written, but for parentheses round a name.
fn divisor_text<'s>(source: &'s str, divisor: &Expr) -> &'s str {
    let inner = bare(divisor);
    match inner {
        Expr::Name(_) => text_of(source, inner),
        _ => text_of(source, divisor),
    }
}

/// A divisor as it is never 0, in place of itself.
fn never_zero(alloc: Global, text: &str, place: Span) -> Result<Edit, AllocError> {
    Ok(Edit {
        byte: place.start.byte,
        length: place.length,
        text: format!(in alloc; "(if {text} <> 0 then {text} else 1)")?,
    })
}

/// What is said of both sides being computed.
fn note_on(by: Chooser) -> &'static str {
    match by {
        Chooser::If => {
            "An `if` computes both branches at every instant, and then chooses. Divide by what is never 0, or compute the branch on a clock, by `when` and `merge`."
        }
        Chooser::And => {
            "`and` computes both sides at every instant. Divide by what is never 0, or compute the division on a clock, by `when` and `merge`."
        }
        Chooser::Or => {
            "`or` computes both sides at every instant. Divide by what is never 0, or compute the division on a clock, by `when` and `merge`."
        }
        Chooser::Implies => {
            "`=>` computes both sides at every instant. Divide by what is never 0, or compute the division on a clock, by `when` and `merge`."
        }
    }
}

/// The warning of a division behind a test of its divisor, without what is related to it.
fn told_alone(
    alloc: Global,
    source: &str,
    division: Division<'_>,
) -> Result<Diagnostic, AllocError> {
    let text = text_of(source, division.whole);
    let by = divisor_text(source, division.divisor);
    let sentence = format!(in alloc;
        "`{text}` is computed also where `{by}` is 0, and fails there"
    )?;
    let span = extent_of(source, division.whole);
    let note = note_on(division.guard.by);
    warning(alloc, Kind::UnguardedDivision, span, sentence, note)
}

/// Adds the test that seems to guard a division.
fn relate_test(
    alloc: Global,
    source: &str,
    division: Division<'_>,
    told: &mut Diagnostic,
) -> Result<(), AllocError> {
    let label = String::from_str(
        alloc,
        "this test chooses a result, but keeps nothing from running",
    )?;
    let span = extent_of(source, division.guard.test);
    told.related.push(Related { span, label })?;
    Ok(())
}

/// The warning of a division behind a test of its divisor.
pub(crate) fn unguarded_division(
    alloc: Global,
    source: &str,
    division: Division<'_>,
) -> Result<Diagnostic, AllocError> {
    let mut told = told_alone(alloc, source, division)?;
    relate_test(alloc, source, division, &mut told)?;
    let by = divisor_text(source, division.divisor);
    let place = extent_of(source, division.divisor);
    told.edit = Some(never_zero(alloc, by, place)?);
    Ok(told)
}

//! Clocks that are always the same.

use crate::kind::Kind;
use crate::known::{Known, Scope};
use crate::warning::warning;
use indexmap::IndexMap;
use lus_diagnostics::Diagnostic;
use lus_faults::Related;
use lus_syntax::{Equation, Expr, Label, Name, Test};
use std::alloc::{AllocError, Global};

/// A variable that is always the same: where its equation defines it, and its value.
#[derive(Clone, Copy)]
pub(crate) struct Fixed<'t> {
    name: &'t Name,
    value: Known<'t>,
}

/// A test of a variable that is always the same.
#[derive(Clone, Copy)]
pub(crate) struct FixedTest<'t> {
    test: &'t Test,
    fixed: Fixed<'t>,
}

/// The variables of a node that are always the same, by their names.
pub(crate) type AllFixed<'t> = IndexMap<&'t str, Fixed<'t>>;

/// Adds the variable of an equation that gives it a constant.
fn add_fixed<'t>(
    all: &mut AllFixed<'t>,
    scope: &Scope<'_, 't>,
    equation: &'t Equation,
) -> Result<(), AllocError> {
    match (equation.left.as_slice(), scope.value(&equation.right)) {
        ([name], Some(value)) => {
            let _before = all.insert(name.text.as_str(), Fixed { name, value })?;
            Ok(())
        }
        _ => Ok(()),
    }
}

/// The variables of a node whose equations give them a constant.
pub(crate) fn fixed_in<'t>(
    alloc: Global,
    scope: &Scope<'_, 't>,
) -> Result<AllFixed<'t>, AllocError> {
    let mut all = IndexMap::new(alloc);
    for equation in &scope.node.equations {
        add_fixed(&mut all, scope, equation)?;
    }
    Ok(all)
}

/// The variable that a test tests.
fn clock_of(test: &Test) -> &Name {
    match test {
        Test::Holds(name) => name,
        Test::Fails(_, name) => name,
        Test::Is(_, name) => name,
    }
}

/// Whether a test holds of a value.
fn holds(test: &Test, value: Known<'_>) -> bool {
    match (test, value) {
        (Test::Holds(_), Known::Truth(truth)) => truth,
        (Test::Fails(_, _), Known::Truth(truth)) => !truth,
        (Test::Is(Label::Truth(wanted, _), _), Known::Truth(truth)) => *wanted == truth,
        (Test::Is(Label::Constructor(wanted), _), Known::Constructor(name)) => {
            wanted.text.as_str() == name
        }
        _ => false,
    }
}

/// What is said of a clock that is always there, or never: when, and a note.
fn words_of(holds: bool) -> (&'static str, &'static str) {
    if holds {
        (
            "at every instant",
            "Leave out the `when`, or test what changes.",
        )
    } else {
        (
            "at no instant",
            "Leave out what is on this clock, or test what changes.",
        )
    }
}

/// A test, where it tests a variable that is always the same.
pub(crate) fn fixed_by<'t>(all: &AllFixed<'t>, test: &'t Test) -> Option<FixedTest<'t>> {
    let fixed = all.get(&clock_of(test).text.as_str()).copied()?;
    Some(FixedTest { test, fixed })
}

/// The test of an expression, where it is a `when` on a clock that is always the same.
pub(crate) fn sampling<'t>(all: &AllFixed<'t>, expr: &'t Expr) -> Option<FixedTest<'t>> {
    match expr {
        Expr::When(_, test) => fixed_by(all, test),
        _ => None,
    }
}

/// The warning of a test of a variable that is always the same, without where that one is defined.
fn told_alone(alloc: Global, found: FixedTest<'_>) -> Result<Diagnostic, AllocError> {
    let name = clock_of(found.test);
    let text = name.text.as_str();
    let value = found.fixed.value;
    let (word, note) = words_of(holds(found.test, value));
    let sentence = format!(in alloc;
        "the clock `{text}` is always `{value}`, so this is there {word}"
    )?;
    warning(alloc, Kind::ConstantClock, name.span, sentence, note)
}

/// The warning of a test of a variable that is always the same.
pub(crate) fn constant_clock(
    alloc: Global,
    found: FixedTest<'_>,
) -> Result<Diagnostic, AllocError> {
    let mut told = told_alone(alloc, found)?;
    let text = clock_of(found.test).text.as_str();
    let value = found.fixed.value;
    let label = format!(in alloc; "`{text}` is `{value}` here")?;
    told.related.push(Related {
        span: found.fixed.name.span,
        label,
    })?;
    Ok(told)
}

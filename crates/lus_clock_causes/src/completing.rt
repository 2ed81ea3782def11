//! An expression that is on a slower clock than its place, and how a `merge` completes it.

use crate::called::formal_at;
use crate::clock::{Clocks, Tick};
use crate::placing::{Misplaced, bare};
use crate::sampling::is_whole;
use lus_faults::{Edit, Plain, extent_of, resolved, slice_of, value_of, variable_named};
use lus_syntax::{Definition, Equation, Expr, Infix, Name, Prefix};
use lus_values::Shape;
use std::alloc::{AllocError, Global};

/// How often a type's name may stand for another one, and how many branches a `merge` that is shown may have.
const MOST_ALIASES: usize = 19;

const MOST_BRANCHES: usize = 8;

/// The type of a variable.
fn type_of_variable<'t>(clocks: Clocks<'t>, name: &str) -> Option<Plain<'t>> {
    match variable_named(clocks.node, name) {
        Some(variable) => resolved(clocks.tree, &variable.group.type_name, MOST_ALIASES),
        None => None,
    }
}

/// The innermost operand of an expression that has its type, or the expression itself.
#[cycle(alike)]
fn of_its_type(expr: &Expr) -> &Expr {
    match expr {
        Expr::Parentheses(_, operand)
        | Expr::When(operand, _)
        | Expr::Unary(Prefix::Pre, _, operand)
        | Expr::Binary(Infix::Fby | Infix::Arrow, operand, _)
        | Expr::If(_, _, operand, _) => of_its_type(operand),
        _ => expr,
    }
}

/// The type of an expression, where its variables or its operators tell it.
fn type_of<'t>(clocks: Clocks<'t>, expr: &Expr) -> Option<Plain<'t>> {
    match of_its_type(expr) {
        Expr::Number(_, _) | Expr::Unary(Prefix::Negate, _, _) => Some(Plain::Int),
        Expr::Truth(_, _) | Expr::Variadic(_, _, _) | Expr::Unary(Prefix::Not, _, _) => {
            Some(Plain::Bool)
        }
        Expr::Name(name) => type_of_variable(clocks, name.text.as_str()),
        Expr::Call(name, _) => {
            let output = formal_at(&clocks.node_named(name)?.outputs, 0)?;
            resolved(clocks.tree, &output.group.type_name, MOST_ALIASES)
        }
        Expr::Binary(Infix::Compute(op), _, _) => match op.shape() {
            Shape::Int | Shape::Ints => Some(Plain::Int),
            _ => Some(Plain::Bool),
        },
        _ => None,
    }
}

/// A value of the type of a variable.
pub fn value_of_variable<'t>(clocks: Clocks<'t>, name: &str) -> Option<&'t str> {
    value_of(type_of_variable(clocks, name)?)
}

/// A value of the type of an expression, where its variables or its operators tell it: `0`, `false` or a constructor.
pub fn value_of_its_type<'t>(clocks: Clocks<'t>, expr: &Expr) -> Option<&'t str> {
    value_of(type_of(clocks, expr)?)
}

/// The name of the type of an expression, where its variables or its operators tell it.
pub fn type_name_of<'t>(clocks: Clocks<'t>, expr: &Expr) -> Option<&'t str> {
    match type_of(clocks, expr)? {
        Plain::Bool => Some("bool"),
        Plain::Int => Some("int"),
        Plain::Declared(_, declaration) => Some(declaration.name.text.as_str()),
    }
}

/// The branches of a `merge`: what it completes, and a value for the other instants, or for the first of them where a variable's last value
/// is held.
#[derive(Clone, Copy)]
pub struct Branches<'t> {
    pub inner: &'t str,
    pub value: &'t str,
    pub held: Option<&'t str>,
}

/// Appends a branch: what is completed where the label is the test's, else what there is at the other instants.
fn push_branch(
    alloc: Global,
    text: &mut String,
    tick: Tick<'_>,
    label: &str,
    branches: Branches<'_>,
) -> Result<(), AllocError> {
    let (inner, value) = (branches.inner, branches.value);
    if label == tick.label {
        return write!(text, " ({label} -> {inner})");
    }
    let Some(name) = branches.held else {
        return write!(text, " ({label} -> {value})");
    };
    let other = Tick {
        variable: tick.variable,
        label,
    };
    let test = other.test(alloc)?;
    write!(text, " ({label} -> ({value} -> pre {name}) when {test})")
}

/// A `merge` that completes what is on the clock of a test; nothing where it would have too many branches.
pub fn merged(
    alloc: Global,
    clocks: Clocks<'_>,
    tick: Tick<'_>,
    branches: Branches<'_>,
) -> Result<Option<String>, AllocError> {
    let Some(constructors) = constructors_of(clocks, tick) else {
        return Ok(None);
    };
    let variable = tick.variable.text.as_str();
    let mut text = format!(in alloc; "merge {variable}")?;
    for constructor in constructors {
        push_branch(alloc, &mut text, tick, constructor.text.as_str(), branches)?;
    }
    if constructors.is_empty() {
        push_branch(alloc, &mut text, tick, "true", branches)?;
        push_branch(alloc, &mut text, tick, "false", branches)?;
    }
    Ok(Some(text))
}

/// The constructors of the variable that a `merge` is over, none of a `bool`; nothing where it would have too many branches.
fn constructors_of<'t>(clocks: Clocks<'t>, tick: Tick<'_>) -> Option<&'t [Name]> {
    match type_of_variable(clocks, tick.variable.text.as_str()) {
        Some(Plain::Bool) => Some(&[]),
        Some(Plain::Declared(_, declaration)) => match &declaration.definition {
            Definition::Enumeration(names) if names.len() <= MOST_BRANCHES => Some(
                names.as_slice(),
            ),
            _ => None,
        },
        _ => None,
    }
}

/// The change of a source that completes an expression by a `merge`, where it isn't remembered and its type is known.
pub fn completed<'t>(
    alloc: Global,
    source: &'t str,
    clocks: Clocks<'t>,
    equation: &Equation,
    found: Misplaced<'_>,
    tick: Tick<'_>,
) -> Result<Option<Edit>, AllocError> {
    let (None, Some(value)) = (found.memory, value_of_its_type(clocks, found.expr)) else {
        return Ok(None);
    };
    let span = extent_of(source, found.expr);
    let branches = Branches {
        inner: slice_of(source, extent_of(source, bare(found.expr))),
        value,
        held: None,
    };
    let Some(merged) = merged(alloc, clocks, tick, branches)? else {
        return Ok(None);
    };
    let text = if is_whole(source, equation, span) {
        merged
    } else {
        format!(in alloc; "({merged})")?
    };
    Ok(Some(Edit {
        byte: span.start.byte,
        length: span.length,
        text,
    }))
}

//! Where an expression isn't on the clock of its place.

use crate::called::{Called, formal_at};
use crate::clock::{Clock, Clocks, Tick, text_of_label, variable_of};
use lus_faults::start_of;
use lus_syntax::{Equation, Expr, Infix, Lead, Name, Part, Prefix};
use std::alloc::{AllocError, Global};

/// An expression that is on another clock than its place: of a variable, of a call, or by `when`; the innermost `pre` or `fby` that it is
/// remembered by, with the `->` before a `pre`; and of a result of the call on the right the variable on the left, and the output.
#[derive(Clone, Copy)]
pub struct Misplaced<'t> {
    pub expr: &'t Expr,
    pub memory: Option<&'t Expr>,
    pub result: Option<(&'t Name, &'t Name)>,
    pub has: Clock<'t>,
    pub wanted: Clock<'t>,
}

/// Whether one expression is an operator before its operand, and another begins with it.
fn begins_with(memory: &Expr, right: &Expr) -> bool {
    match right {
        Expr::Unary(_, span, _) => start_of(memory).byte == span.start.byte,
        _ => false,
    }
}

/// What an expression is remembered by that stands in another one on a clock: the innermost `pre` or `fby`, where no other clock stands
/// between, with the `->` before a `pre`.
fn memory_by<'t>(found: Misplaced<'t>, expr: &'t Expr, clock: Clock<'t>) -> Option<&'t Expr> {
    match (expr, found.memory) {
        (Expr::Unary(Prefix::Pre, _, _), None) if found.wanted.is(clock) => Some(expr),
        (Expr::Binary(Infix::Fby, _, _), None) if found.wanted.is(clock) => Some(expr),
        (Expr::Binary(Infix::Arrow, _, right), Some(memory)) if begins_with(memory, right) => {
            Some(expr)
        }
        _ => found.memory,
    }
}

/// An expression without the parentheses round it.
#[cycle(bare)]
pub fn bare(expr: &Expr) -> &Expr {
    match expr {
        Expr::Parentheses(_, inner) => bare(inner),
        _ => expr,
    }
}

/// The clock that an expression has at a place of this clock: that of a variable, of a call, of a `when` or of a `merge`, in parentheses or
/// not.
fn own_clock<'t>(clocks: Clocks<'t>, expr: &'t Expr, wanted: Clock<'t>) -> Option<Clock<'t>> {
    match bare(expr) {
        Expr::Name(name) => clocks.clock(name.text.as_str()),
        Expr::Merge(_, variable, _) => clocks.clock(variable.text.as_str()),
        Expr::When(_, test) => Some(Clock::on(test)),
        Expr::Call(name, parts) => {
            let called = clocks.called(name, parts, &[])?;
            called.clock_of(
                formal_at(&called.node.outputs, 0)?,
                called.base(clocks, wanted),
            )
        }
        _ => None,
    }
}

/// The expressions of one equation that aren't on the clock of their place.
#[derive(Drop)]
struct Search<'t> {
    clocks: Clocks<'t>,
    found: Vec<Misplaced<'t>>,
}

/// Has those found in an operand, behind so many, be remembered by the expression, if it delays that operand.
fn remember<'t>(search: &mut Search<'t>, before: usize, expr: &'t Expr, clock: Clock<'t>) {
    for place in before..search.found.len() {
        if let Some(found) = search.found.get_mut(place) {
            found.memory = memory_by(*found, expr, clock);
        }
    }
}

/// Adds an expression, if it isn't on the clock that it should be on, and then those in it.
#[cycle(placing)]
fn add<'t>(search: &mut Search<'t>, expr: &'t Expr, wanted: Clock<'t>) -> Result<(), AllocError> {
    if let Some(has) = own_clock(search.clocks, expr, wanted)
        && !has.is(wanted)
    {
        search.found.push(Misplaced {
            expr,
            memory: None,
            result: None,
            has,
            wanted,
        })?;
    }
    add_operands(search, expr, wanted)
}

/// Adds those in an expression that should be on a clock.
#[cycle(placing)]
fn add_operands<'t>(
    search: &mut Search<'t>,
    expr: &'t Expr,
    wanted: Clock<'t>,
) -> Result<(), AllocError> {
    match expr {
        Expr::Number(_, _) | Expr::Truth(_, _) | Expr::Name(_) => Ok(()),
        Expr::Call(name, parts) => match search.clocks.called(name, parts, &[]) {
            Some(called) => {
                let base = called.base(search.clocks, wanted);
                add_arguments(search, called, parts, base)
            }
            None => Ok(()),
        },
        Expr::Structure(_, parts) | Expr::Variadic(_, _, parts) => add_parts(search, parts, wanted),
        Expr::Merge(_, variable, parts) => add_branches(search, variable, parts),
        Expr::Field(operand, _) | Expr::Parentheses(_, operand) => add(search, operand, wanted),
        Expr::When(operand, test) => {
            match search.clocks.clock(variable_of(test).text.as_str()) {
                Some(inside) => add(search, operand, inside),
                None => Ok(()),
            }
        }
        Expr::Unary(_, _, operand) => {
            let before = search.found.len();
            add(search, operand, wanted)?;
            remember(search, before, expr, wanted);
            Ok(())
        }
        Expr::Binary(_, left, right) => {
            add(search, left, wanted)?;
            let before = search.found.len();
            add(search, right, wanted)?;
            remember(search, before, expr, wanted);
            Ok(())
        }
        Expr::If(_, condition, left, right) => {
            add(search, condition, wanted)?;
            add(search, left, wanted)?;
            add(search, right, wanted)
        }
    }
}

#[cycle(placing)]
fn add_parts<'t>(
    search: &mut Search<'t>,
    parts: &'t [Part],
    wanted: Clock<'t>,
) -> Result<(), AllocError> {
    for part in parts {
        add(search, &part.value, wanted)?;
    }
    Ok(())
}

/// Each argument of a call is on the clock of its input.
#[cycle(placing)]
fn add_arguments<'t>(
    search: &mut Search<'t>,
    called: Called<'t>,
    parts: &'t [Part],
    base: Clock<'t>,
) -> Result<(), AllocError> {
    let mut number = 0usize;
    for part in parts {
        if let Some(input) = formal_at(&called.node.inputs, number)
            && let Some(wanted) = called.clock_of(input, base)
        {
            add(search, &part.value, wanted)?;
        }
        number = number.saturating_add(1);
    }
    Ok(())
}

/// Each branch is on the clock of the merged variable with its own label.
#[cycle(placing)]
fn add_branches<'t>(
    search: &mut Search<'t>,
    variable: &'t Name,
    parts: &'t [Part],
) -> Result<(), AllocError> {
    for part in parts {
        if let Lead::Branch(_, label) = &part.lead {
            let label = text_of_label(label);
            let newest = Some(Tick { variable, label });
            add(search, &part.value, Clock { newest })?;
        }
    }
    Ok(())
}

/// Adds the results of the call on the right of an equation that aren't on the clock of their variable on the left.
fn add_results<'t>(
    search: &mut Search<'t>,
    right: &'t Expr,
    called: Called<'t>,
    base: Clock<'t>,
) -> Result<(), AllocError> {
    for (number, left) in called.left.iter().enumerate() {
        if let Some(output) = formal_at(&called.node.outputs, number)
            && let Some(has) = called.clock_of(output, base)
            && let Some(wanted) = search.clocks.clock(left.text.as_str())
            && !has.is(wanted)
        {
            search.found.push(Misplaced {
                expr: right,
                memory: None,
                result: Some((left, output.name)),
                has,
                wanted,
            })?;
        }
    }
    Ok(())
}

/// The call of several results that is the right side of an equation, if that is one.
fn call_of<'t>(clocks: Clocks<'t>, equation: &'t Equation) -> Option<Called<'t>> {
    match bare(&equation.right) {
        Expr::Call(name, parts) if equation.left.len() > 1 => {
            clocks.called(name, parts, &equation.left)
        }
        _ => None,
    }
}

/// The expressions of an equation that aren't on the clock of their place, each before those in it.
pub fn misplaced_in<'t>(
    alloc: Global,
    clocks: Clocks<'t>,
    equation: &'t Equation,
) -> Result<Vec<Misplaced<'t>>, AllocError> {
    let mut search = Search {
        clocks,
        found: Vec::new(alloc),
    };
    let Some(first) = equation.left.first() else {
        return Ok(search.found);
    };
    let Some(wanted) = clocks.clock(first.text.as_str()) else {
        return Ok(search.found);
    };
    match call_of(clocks, equation) {
        Some(called) => {
            let base = called.base(clocks, wanted);
            add_results(&mut search, &equation.right, called, base)?;
            add_arguments(&mut search, called, called.arguments, base)?;
        }
        None => add(&mut search, &equation.right, wanted)?,
    }
    Ok(search.found)
}

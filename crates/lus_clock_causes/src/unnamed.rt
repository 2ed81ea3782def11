//! An argument that is no variable, for an input that a clock of the called node tests.

use crate::called::{Called, Formal, formal_at};
use crate::clock::{Clocks, variable_of};
use crate::placing::bare;
use lus_declarations::type_span;
use lus_faults::{Finding, Sought, expressions_in, extent_of, slice_of};
use lus_syntax::{Expr, Group, Name, Node, Tree};
use std::alloc::{AllocError, Global};

/// The first variable of groups whose clock tests a variable.
fn tested_by<'t>(groups: &'t [Group], text: &str) -> Option<&'t Name> {
    for group in groups {
        if let Some(test) = &group.test
            && variable_of(test).text.as_str() == text
        {
            return group.names.first();
        }
    }
    None
}

/// The number of the first argument that is no variable where a clock tests its input, with that input, and the variable with the clock.
fn unnamed_in<'t>(called: Called<'t>) -> Option<(usize, Formal<'t>, &'t Name)> {
    for (number, part) in called.arguments.iter().enumerate() {
        let input = formal_at(&called.node.inputs, number)?;
        let text = input.name.text.as_str();
        let tested = tested_by(&called.node.inputs, text).or(tested_by(&called.node.outputs, text));
        if let Some(tested) = tested
            && !matches!(bare(&part.value), Expr::Name(_))
        {
            return Some((number, input, tested));
        }
    }
    None
}

/// What is said of a call with such an argument.
fn told(
    alloc: Global,
    source: &str,
    name: &Name,
    called: Called<'_>,
) -> Result<Option<Finding>, AllocError> {
    let Some((number, input, tested)) = unnamed_in(called) else {
        return Ok(None);
    };
    let Some(part) = called.arguments.get(number) else {
        return Ok(None);
    };
    let place = number.saturating_add(1);
    let span = extent_of(source, &part.value);
    let (owner, member) = (name.text.as_str(), input.name.text.as_str());
    let sentence = format!(in alloc;
        "argument {place} of `{owner}`, `{member}`, is a clock and has to be a variable"
    )?;
    let mut finding = Finding::new(alloc, sentence, span.length);
    finding.place = Some(span.start);
    let other = tested.text.as_str();
    finding.relate(
        tested.span,
        format!(in alloc; "`{other}` is on the clock `{member}`")?,
    )?;
    let of = slice_of(source, type_span(&input.group.type_name));
    let text = slice_of(source, span);
    finding.note = Some(format!(in alloc;
        "Declare a local of type `{of}` with the value of `{text}`, and pass it."
    )?);
    Ok(Some(finding))
}

/// What is said of a call at a place of a node that has an expression for an input which a clock tests.
pub fn unnamed_clock<'t>(
    alloc: Global,
    source: &str,
    sought: Sought,
    tree: &'t Tree,
    node: &'t Node,
) -> Result<Option<Finding>, AllocError> {
    let clocks = Clocks {
        tree,
        node,
        assumed: None,
    };
    for equation in &node.equations {
        for expr in &expressions_in(alloc, &equation.right)? {
            if let Expr::Call(name, parts) = expr
                && sought.is_at(name.span.start)
                && let Some(called) = clocks.called(name, parts, &[])
            {
                return told(alloc, source, name, called);
            }
        }
    }
    Ok(None)
}

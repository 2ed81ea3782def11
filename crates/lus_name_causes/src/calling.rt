//! Calls of structures, and arguments with names.

use crate::given::Given;
use crate::repair::Repair;
use crate::said::{Said, told_of};
use crate::unknown::{Purpose, Use};
use lus_faults::{Edit, declared_type, expressions_in, extent_of, slice_of};
use lus_syntax::{Definition, Equation, Expr, Fields, Group, Infix, Name, Node, Part, Span, Tree};
use std::alloc::{AllocError, Global};

/// A call, its arguments, and the equation that it stands in.
#[derive(Clone, Copy)]
pub struct Call<'t> {
    pub equation: &'t Equation,
    pub name: &'t Name,
    pub expr: &'t Expr,
    pub parts: &'t [Part],
}

/// The calls of a node, each before those in it.
pub fn calls_in(alloc: Global, node: &Node) -> Result<Vec<Call<'_>>, AllocError> {
    let mut calls = Vec::new(alloc);
    for equation in &node.equations {
        for expr in &expressions_in(alloc, &equation.right)? {
            if let Expr::Call(name, parts) = *expr {
                calls.push(Call {
                    equation,
                    name,
                    expr: *expr,
                    parts,
                })?;
            }
        }
    }
    Ok(calls)
}

/// The call of a name at its place in a node.
pub fn call_of<'t>(
    alloc: Global,
    node: &'t Node,
    name: &Name,
) -> Result<Option<Call<'t>>, AllocError> {
    for call in &calls_in(alloc, node)? {
        if call.name.span.start.byte == name.span.start.byte {
            return Ok(Some(*call));
        }
    }
    Ok(None)
}

/// What is said of a call that names a structure.
pub fn called_structure<'t>(
    tree: &'t Tree,
    node: Option<&'t Node>,
    found: Use<'t>,
) -> Option<Said<'t>> {
    if found.purpose != Purpose::Node {
        return None;
    }
    let (_, declaration) = declared_type(tree, found.name.text.as_str())?;
    let Definition::Structure(groups) = &declaration.definition else {
        return None;
    };
    Some(Said {
        repair: Some(Repair::Structure(node?, groups)),
        ..told_of(
            found.name,
            "`{}` is a structure and cannot be called",
            "The fields of a structure are in braces, as in `p { x = 1; y = 2 }`.",
        )
    })
}

/// The name before the equals sign of an argument, and what is behind it, if it is written so.
fn named_in(part: &Part) -> Option<(&Name, &Expr)> {
    match &part.value {
        Expr::Binary(Infix::Compute(op), left, right) if op.sign() == "=" => match &**left {
            Expr::Name(name) => Some((name, right)),
            _ => None,
        },
        _ => None,
    }
}

/// The argument with a name before it.
fn argument_named<'t>(parts: &'t [Part], text: &str) -> Option<&'t Expr> {
    for part in parts {
        if let Some((name, value)) = named_in(part)
            && name.text.as_str() == text
        {
            return Some(value);
        }
    }
    None
}

/// The text of an argument: that with a name before it, or else the one of its number, which then has none.
fn argument_text<'t>(
    given: Given<'t>,
    parts: &'t [Part],
    text: &str,
    number: usize,
) -> Option<&'t str> {
    let value = match argument_named(parts, text) {
        Some(value) => value,
        None => {
            let part = parts.get(number)?;
            if named_in(part).is_some() {
                return None;
            }
            &part.value
        }
    };
    Some(slice_of(given.source, extent_of(given.source, value)))
}

/// The change of a source that writes a text for a call.
fn written(given: Given<'_>, call: Call<'_>, text: String) -> Edit {
    let Span { start, length } = extent_of(given.source, call.expr);
    Edit {
        byte: start.byte,
        length,
        text,
    }
}

/// The change of the call of a structure into the structure, whose fields have the arguments with their names, or else in their order.
pub fn structure_edit(
    given: Given<'_>,
    node: &Node,
    name: &Name,
    groups: &[Fields],
) -> Result<Option<Edit>, AllocError> {
    let Some(call) = call_of(given.alloc, node, name)? else {
        return Ok(None);
    };
    let owner = name.text.as_str();
    let mut text = format!(in given.alloc; "{owner} {{")?;
    let mut number = 0usize;
    for group in groups {
        for field in &group.names {
            let field = field.text.as_str();
            let Some(value) = argument_text(given, call.parts, field, number) else {
                return Ok(None);
            };
            let comma = if number > 0 { ";" } else { "" };
            write!(text, "{comma} {field} = {value}")?;
            number = number.saturating_add(1);
        }
    }
    text.push_str(" }")?;
    Ok((number == call.parts.len()).then_some(written(given, call, text)))
}

/// Whether one of some groups has a name.
fn have_name(groups: &[Group], text: &str) -> bool {
    groups.iter().any(|group| group.names.iter().any(|name| name.text.as_str() == text))
}

/// The node that is called by this name.
fn node_named<'t>(tree: &'t Tree, text: &str) -> Option<&'t Node> {
    tree.nodes
        .iter()
        .find(|node| node.name.text.as_str() == text)
}

/// The call in which a name stands before the equals sign of an argument, where the node that is called has an input of this name.
fn naming_call<'t>(
    given: Given<'t>,
    node: &'t Node,
    name: &Name,
) -> Result<Option<(Call<'t>, &'t Node)>, AllocError> {
    for call in &calls_in(given.alloc, node)? {
        let is_there = call.parts.iter().any(|part| match named_in(part) {
            Some((other, _)) => other.span.start.byte == name.span.start.byte,
            None => false,
        });
        if is_there
            && let Some(called) = node_named(given.tree, call.name.text.as_str())
            && have_name(&called.inputs, name.text.as_str())
        {
            return Ok(Some((*call, called)));
        }
    }
    Ok(None)
}

/// What is said of a name that nothing declares before the equals sign of an argument.
pub fn named_argument<'t>(
    alloc: Global,
    tree: &'t Tree,
    node: Option<&'t Node>,
    found: Use<'t>,
) -> Result<Option<Said<'t>>, AllocError> {
    let Some(node) = node else {
        return Ok(None);
    };
    let given = Given {
        alloc,
        source: "",
        tree,
    };
    if found.purpose != Purpose::Value || naming_call(given, node, found.name)?.is_none() {
        return Ok(None);
    }
    Ok(Some(Said {
        repair: Some(Repair::Arguments(node)),
        ..told_of(
            found.name,
            "named arguments are not supported",
            "Arguments are in the order of the inputs.",
        )
    }))
}

/// The change of a call whose arguments have names into one in which they are in the order of the inputs.
pub fn arguments_edit(
    given: Given<'_>,
    node: &Node,
    name: &Name,
) -> Result<Option<Edit>, AllocError> {
    let Some((call, called)) = naming_call(given, node, name)? else {
        return Ok(None);
    };
    let owner = call.name.text.as_str();
    let mut text = format!(in given.alloc; "{owner}(")?;
    let mut number = 0usize;
    for group in &called.inputs {
        for input in &group.names {
            let Some(value) = argument_text(given, call.parts, input.text.as_str(), number) else {
                return Ok(None);
            };
            let comma = if number > 0 { ", " } else { "" };
            write!(text, "{comma}{value}")?;
            number = number.saturating_add(1);
        }
    }
    text.push(')')?;
    Ok((number == call.parts.len()).then_some(written(given, call, text)))
}

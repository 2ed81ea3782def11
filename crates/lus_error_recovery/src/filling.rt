//! Trees in which variables without equations have values of their types.

use indexmap::IndexMap;
use lus_faults::{Plain, resolved};
use lus_syntax::{
    Definition, Equation, Expr, Fields, Group, Lead, MOST_NESTING, Name, Node, Part, Span, Tree,
    TypeName,
};
use std::alloc::{AllocError, Global};

/// A name with another's text, at a span.
fn renamed(name: &Name, span: Span) -> Result<Name, AllocError> {
    Ok(Name {
        text: name.text.clone()?,
        span,
    })
}

/// A value of a type, at a span; nothing of a type that isn't declared, and where there is no room for so many parts.
#[cycle(values)]
fn value_of(
    alloc: Global,
    tree: &Tree,
    levels: usize,
    type_name: &TypeName,
    span: Span,
    room: &mut usize,
) -> Result<Option<Expr>, AllocError> {
    *room = room.saturating_sub(tree.types.len() / 16).saturating_sub(1);
    if *room == 0 || levels == 0 {
        return Ok(None);
    }
    let declaration = match resolved(tree, type_name, MOST_NESTING) {
        Some(Plain::Bool) => return Ok(Some(Expr::Truth(false, span))),
        Some(Plain::Int) => return Ok(Some(Expr::Number(0, span))),
        Some(Plain::Declared(_, declaration)) => declaration,
        None => return Ok(None),
    };
    match &declaration.definition {
        Definition::Enumeration(names) => match names.first() {
            Some(first) => Ok(Some(Expr::Name(renamed(first, span)?))),
            None => Ok(None),
        },
        Definition::Structure(fields) => {
            match fields_of(alloc, tree, levels - 1, fields, span, room)? {
                Some(parts) => {
                    let owner = Box::new(alloc, renamed(&declaration.name, span)?)?;
                    Ok(Some(Expr::Structure(owner, parts)))
                }
                None => Ok(None),
            }
        }
        Definition::Alias(_) => Ok(None),
    }
}

/// A value of each field.
#[cycle(values)]
fn fields_of(
    alloc: Global,
    tree: &Tree,
    levels: usize,
    groups: &[Fields],
    span: Span,
    room: &mut usize,
) -> Result<Option<Vec<Part>>, AllocError> {
    let mut parts = Vec::new(alloc);
    for group in groups {
        for field in &group.names {
            let Some(value) = value_of(alloc, tree, levels, &group.type_name, span, room)? else {
                return Ok(None);
            };
            let lead = Lead::Field(renamed(field, span)?);
            parts.push(Part { lead, value })?;
        }
    }
    Ok(Some(parts))
}

/// The variables that equations of a node define.
fn defined_in(alloc: Global, node: &Node) -> Result<IndexMap<String, bool>, AllocError> {
    let mut defined = IndexMap::new(alloc);
    for equation in &node.equations {
        for left in &equation.left {
            let _before = defined.insert(left.text.clone()?, true)?;
        }
    }
    Ok(defined)
}

/// Adds an equation that gives a value of its type to each variable of groups that isn't defined.
fn push_values(
    alloc: Global,
    tree: &Tree,
    groups: &[Group],
    defined: &IndexMap<String, bool>,
    room: &mut usize,
    added: &mut Vec<Equation>,
) -> Result<(), AllocError> {
    for group in groups {
        for name in &group.names {
            if defined.get(name.text.as_str()).is_none()
                && let Some(right) = value_of(
                    alloc,
                    tree,
                    MOST_NESTING,
                    &group.type_name,
                    name.span,
                    room,
                )?
            {
                let mut left = Vec::new(alloc);
                left.push(renamed(name, name.span)?)?;
                added.push(Equation { left, right })?;
            }
        }
    }
    Ok(())
}

/// Gives values of their types to the variables without equations, in the nodes with a flag; as long as there is room for so many parts.
pub(crate) fn fill(
    alloc: Global,
    tree: &mut Tree,
    flags: &[bool],
    room: &mut usize,
) -> Result<(), AllocError> {
    let mut all = Vec::new(alloc);
    for (node, is_filled) in tree.nodes.iter().zip(flags.iter()) {
        let mut added = Vec::new(alloc);
        if *is_filled {
            let defined = defined_in(alloc, node)?;
            push_values(alloc, tree, &node.outputs, &defined, room, &mut added)?;
            push_values(alloc, tree, &node.locals, &defined, room, &mut added)?;
        }
        all.push(added)?;
    }
    for (node, added) in tree.nodes.iter_mut().zip(all) {
        for equation in added {
            node.equations.push(equation)?;
        }
    }
    Ok(())
}

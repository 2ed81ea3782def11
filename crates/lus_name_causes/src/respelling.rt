//! The misspelt names of an equation, which are written anew all at once.

use crate::given::Given;
use crate::unknown::{Purpose, meant_by};
use lus_faults::{Edit, expressions_in, joined, variable_named};
use lus_plain_types::enumeration_of;
use lus_syntax::{Equation, Expr, Label, Lead, Name, Node, Part, Tree};
use std::alloc::AllocError;

/// A misspelt name, and the one that is meant.
#[derive(Clone, Copy)]
pub struct Slip<'t> {
    pub name: &'t Name,
    pub meant: &'t str,
}

/// Whether a name stands on the left of an equation of a node.
fn is_left(node: &Node, text: &str) -> bool {
    for equation in &node.equations {
        for name in &equation.left {
            if name.text.as_str() == text {
                return true;
            }
        }
    }
    false
}

/// Whether a constant has a name.
fn is_constant(tree: &Tree, text: &str) -> bool {
    tree.constants
        .iter()
        .any(|constant| constant.name.text.as_str() == text)
}

/// Whether a name is declared as what it is used as, or has an equation.
fn is_known(tree: &Tree, node: &Node, text: &str, purpose: Purpose) -> bool {
    match purpose {
        Purpose::Node => tree
            .nodes
            .iter()
            .any(|other| other.name.text.as_str() == text),
        Purpose::Left => variable_named(node, text).is_some(),
        _ => {
            variable_named(node, text).is_some()
                || is_constant(tree, text)
                || enumeration_of(tree, text).is_some()
                || is_left(node, text)
        }
    }
}

/// Adds a name, if it is misspelt.
fn push_slip<'t>(
    given: Given<'t>,
    node: &'t Node,
    slips: &mut Vec<Slip<'t>>,
    name: &'t Name,
    purpose: Purpose,
) -> Result<(), AllocError> {
    let text = name.text.as_str();
    if is_known(given.tree, node, text, purpose) {
        return Ok(());
    }
    match meant_by(given.alloc, given.tree, Some(node), text, purpose)? {
        Some(meant) => Ok(slips.push(Slip { name, meant })?),
        None => Ok(()),
    }
}

/// Adds the misspelt labels of branches.
fn push_labels<'t>(
    given: Given<'t>,
    node: &'t Node,
    slips: &mut Vec<Slip<'t>>,
    parts: &'t [Part],
) -> Result<(), AllocError> {
    for part in parts {
        if let Lead::Branch(_, label) = &part.lead
            && let Label::Constructor(name) = &**label
        {
            push_slip(given, node, slips, name, Purpose::Constructor)?;
        }
    }
    Ok(())
}

/// The misspelt names of an equation, in the order of the text: variables, values, nodes, and labels.
fn slips_in<'t>(
    given: Given<'t>,
    node: &'t Node,
    equation: &'t Equation,
) -> Result<Vec<Slip<'t>>, AllocError> {
    let mut slips = Vec::new(given.alloc);
    for name in &equation.left {
        push_slip(given, node, &mut slips, name, Purpose::Left)?;
    }
    for expr in &expressions_in(given.alloc, &equation.right)? {
        match expr {
            Expr::Name(name) => push_slip(given, node, &mut slips, name, Purpose::Value)?,
            Expr::Call(name, _) => push_slip(given, node, &mut slips, name, Purpose::Node)?,
            Expr::Merge(_, _, parts) => push_labels(given, node, &mut slips, parts)?,
            _ => {}
        }
    }
    slips.sort_by_key(|slip| slip.name.span.start.byte)?;
    Ok(slips)
}

/// The misspelt names of the equation of a node that a name stands in; none where it stands elsewhere.
pub fn slips_beside<'t>(
    given: Given<'t>,
    node: &'t Node,
    name: &Name,
) -> Result<Vec<Slip<'t>>, AllocError> {
    for equation in &node.equations {
        let slips = slips_in(given, node, equation)?;
        let is_there = slips
            .iter()
            .any(|slip| slip.name.span.start.byte == name.span.start.byte);
        if is_there {
            return Ok(slips);
        }
    }
    Ok(Vec::new(given.alloc))
}

/// The change that writes each of some misspelt names as the one that is meant.
pub fn respelt(given: Given<'_>, slips: &[Slip<'_>]) -> Result<Option<Edit>, AllocError> {
    let mut edits = Vec::new(given.alloc);
    for slip in slips {
        edits.push(Edit {
            byte: slip.name.span.start.byte,
            length: slip.name.span.length,
            text: String::from_str(given.alloc, slip.meant)?,
        })?;
    }
    joined(given.alloc, given.source, &edits)
}

/// The change that writes constructors alone that stand behind the name of their type, all of the equation in which one does.
pub fn unqualified(given: Given<'_>, node: &Node, name: &Name) -> Result<Option<Edit>, AllocError> {
    for equation in &node.equations {
        let mut is_there = false;
        let mut edits = Vec::new(given.alloc);
        for expr in &expressions_in(given.alloc, &equation.right)? {
            if let Expr::Field(operand, constructor) = *expr
                && let Expr::Name(of) = &**operand
                && of.text.as_str() == name.text.as_str()
            {
                let byte = of.span.start.byte;
                is_there = is_there || byte == name.span.start.byte;
                edits.push(Edit {
                    byte,
                    length: constructor.span.end().byte.saturating_sub(byte),
                    text: constructor.text.clone()?,
                })?;
            }
        }
        if is_there {
            return joined(given.alloc, given.source, &edits);
        }
    }
    Ok(None)
}

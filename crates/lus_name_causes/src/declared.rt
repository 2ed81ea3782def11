//! What a source declares, by names.

use crate::clocks::is_clock;
use crate::unknown::Purpose;
use lus_syntax::{Definition, Group, Name, Node, Tree};
use std::alloc::{AllocError, Global};

static TRUTHS: [&str; 2] = ["true", "false"];

static TYPES: [&str; 2] = ["bool", "int"];

/// Appends names that stand together.
pub fn push_all<'t>(names: &mut Vec<&'t Name>, others: &'t [Name]) -> Result<(), AllocError> {
    for name in others {
        names.push(name)?;
    }
    Ok(())
}

fn push_groups<'t>(names: &mut Vec<&'t Name>, groups: &'t [Group]) -> Result<(), AllocError> {
    for group in groups {
        push_all(names, &group.names)?;
    }
    Ok(())
}

/// Appends the names of the inputs of a node, then of its outputs, then of its locals.
pub fn push_variables<'t>(names: &mut Vec<&'t Name>, node: &'t Node) -> Result<(), AllocError> {
    push_groups(names, &node.inputs)?;
    push_groups(names, &node.outputs)?;
    push_groups(names, &node.locals)
}

fn push_constructors<'t>(names: &mut Vec<&'t Name>, tree: &'t Tree) -> Result<(), AllocError> {
    for declaration in &tree.types {
        if let Definition::Enumeration(constructors) = &declaration.definition {
            push_all(names, constructors)?;
        }
    }
    Ok(())
}

/// Appends the names outside of nodes that could be meant where one is used: constants before constructors.
pub fn push_outside<'t>(
    names: &mut Vec<&'t Name>,
    tree: &'t Tree,
    purpose: Purpose,
) -> Result<(), AllocError> {
    match purpose {
        Purpose::Value => {
            for constant in &tree.constants {
                names.push(&constant.name)?;
            }
            push_constructors(names, tree)
        }
        Purpose::Constructor => push_constructors(names, tree),
        Purpose::Type => {
            for declaration in &tree.types {
                names.push(&declaration.name)?;
            }
            Ok(())
        }
        Purpose::Node => {
            for node in &tree.nodes {
                names.push(&node.name)?;
            }
            Ok(())
        }
        Purpose::Clock | Purpose::Variable | Purpose::Left => Ok(()),
    }
}

/// The words of the language that could be meant where a name is used.
fn words_of(purpose: Purpose) -> &'static [&'static str] {
    match purpose {
        Purpose::Value | Purpose::Constructor => &TRUTHS,
        Purpose::Type => &TYPES,
        _ => &[],
    }
}

/// The names that could be meant where one is used, in a node or outside, and then the words of the language. A clock is a variable
/// that one can test.
pub fn candidates<'t>(
    alloc: Global,
    tree: &'t Tree,
    node: Option<&'t Node>,
    purpose: Purpose,
) -> Result<Vec<&'t str>, AllocError> {
    let mut names = Vec::new(alloc);
    if let Some(node) = node
        && !matches!(
            purpose,
            Purpose::Constructor | Purpose::Type | Purpose::Node
        )
    {
        push_variables(&mut names, node)?;
    }
    push_outside(&mut names, tree, purpose)?;
    let mut texts = Vec::new(alloc);
    for name in &names {
        let text = name.text.as_str();
        if is_clock(tree, node, text, purpose) {
            texts.push(text)?;
        }
    }
    for word in words_of(purpose) {
        texts.push(*word)?;
    }
    Ok(texts)
}

//! What is at the place of a fault of names.

use crate::commented::with_swallowed;
use crate::doubled::{declared_twice, variable_twice};
use crate::equations::{left_at, undeclared, undefined, wrong_left};
use crate::given::Given;
use crate::looking::{in_declarations, in_node};
use crate::said::{Said, finding_of};
use crate::unknown::unknown;
use lus_faults::{Finding, Sought};
use lus_syntax::{Node, Refusal, Tree};
use std::alloc::{AllocError, Global};

/// What is said of a node at a place.
fn node_cause<'t>(
    alloc: Global,
    sought: Sought,
    tree: &'t Tree,
    node: &'t Node,
) -> Result<Option<Said<'t>>, AllocError> {
    let found = variable_twice(alloc, sought, node)?.or(undefined(sought, node));
    if found.is_some() {
        return Ok(found);
    }
    if let Some(left) = left_at(sought, node) {
        return wrong_left(alloc, tree, node, left);
    }
    let Some(used) = in_node(alloc, sought, node)? else {
        return Ok(None);
    };
    match undeclared(node, used) {
        Some(found) => Ok(Some(found)),
        None => unknown(alloc, tree, Some(node), used),
    }
}

/// What is said of a source at a place.
fn cause_of(alloc: Global, sought: Sought, tree: &Tree) -> Result<Option<Said<'_>>, AllocError> {
    let found = declared_twice(alloc, sought, tree)?;
    if found.is_some() {
        return Ok(found);
    }
    if let Some(used) = in_declarations(sought, tree) {
        return unknown(alloc, tree, None, used);
    }
    for node in &tree.nodes {
        let found = node_cause(alloc, sought, tree, node)?;
        if found.is_some() {
            return Ok(found);
        }
    }
    Ok(None)
}

/// What is said of a fault of names, by what stands at its place.
pub fn name_cause(
    alloc: Global,
    source: &str,
    tree: &Tree,
    refusal: &Refusal,
) -> Result<Option<Finding>, AllocError> {
    let given = Given {
        alloc,
        source,
        tree,
    };
    match cause_of(alloc, Sought::of(refusal), tree)? {
        Some(said) => {
            let finding = finding_of(given, &said)?;
            Ok(Some(with_swallowed(given, finding, Sought::of(refusal))?))
        }
        None => Ok(None),
    }
}

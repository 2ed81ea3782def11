//! Which limit is passed, by what stands at the place of the refusal.

use crate::counts::{Excess, excess_at};
use crate::depths::depth_of;
use lus_faults::{Finding, Sought};
use lus_grammar::parse;
use lus_syntax::{
    MOST_CALLS_DEEP, MOST_CELLS, MOST_DEPTH, MOST_LEAVES, MOST_NESTING, Name, Node, Refusal,
    RefusalNumber, Tree, lex,
};
use std::alloc::{AllocError, Global};

/// What is said of too many of something.
fn too_many(alloc: Global, excess: Excess<'_>) -> Result<Option<Finding>, AllocError> {
    let (count, what, most) = (excess.count, excess.what, excess.most);
    let sentence = format!(in alloc; "{count} {what}, at most {most} are allowed")?;
    Ok(Some(Finding::new(alloc, sentence, excess.name.span.length)))
}

/// What is said of a type that is too large.
fn large_type(alloc: Global, name: &Name) -> Result<Option<Finding>, AllocError> {
    let text = name.text.as_str();
    let sentence = format!(in alloc;
        "`{text}` has more than {MOST_LEAVES} leaves, or nests structures more than {MOST_NESTING} deep"
    )?;
    Ok(Some(Finding::new(alloc, sentence, name.span.length)))
}

/// What is said of a node that has too much in it: calls in calls, or state cells.
fn large_node(
    alloc: Global,
    tree: &Tree,
    place: usize,
    node: &Node,
) -> Result<Option<Finding>, AllocError> {
    let text = node.name.text.as_str();
    let most = MOST_CALLS_DEEP.saturating_add(1);
    let is_deep = depth_of(alloc, tree, place, most)? >= most;
    let note = if is_deep {
        "A node without calls has depth 1, any other node one more than the deepest node that it calls."
    } else {
        "Each call has a state of its own: use fewer calls, or remember less in the called node."
    };
    let sentence = if is_deep {
        format!(in alloc; "`{text}` nests calls more than {MOST_CALLS_DEEP} deep")?
    } else {
        format!(in alloc; "`{text}` has more than {MOST_CELLS} state cells")?
    };
    let finding = Finding::new(alloc, sentence, node.name.span.length);
    Ok(Some(finding.with_note(alloc, note)?))
}

/// What is said of a limit that a tree passes; nothing where it is none of declarations, or of types and nodes.
pub fn limit_cause(
    alloc: Global,
    tree: &Tree,
    refusal: &Refusal,
) -> Result<Option<Finding>, AllocError> {
    let sought = Sought::of(refusal);
    if let Some(excess) = excess_at(sought, tree) {
        return too_many(alloc, excess);
    }
    for declaration in &tree.types {
        if sought.is_at(declaration.name.span.start) {
            return large_type(alloc, &declaration.name);
        }
    }
    for (place, node) in tree.nodes.iter().enumerate() {
        if sought.is_at(node.name.span.start) {
            return large_node(alloc, tree, place, node);
        }
    }
    Ok(None)
}

/// Whether a text spells no tree that is within the limit of depth.
fn is_too_deep(alloc: Global, source: &str) -> bool {
    let Ok(tokens) = lex(alloc, source) else {
        return false;
    };
    match parse(alloc, &tokens) {
        Ok(_) => false,
        Err(found) => found.number == RefusalNumber::Limit,
    }
}

/// What is said of a text with an expression that is too deep; nothing of others.
pub fn depth_cause(alloc: Global, source: &str) -> Result<Option<Finding>, AllocError> {
    if !is_too_deep(alloc, source) {
        return Ok(None);
    }
    let sentence = format!(in alloc; "this expression is nested more than {MOST_DEPTH} deep")?;
    let finding = Finding::new(alloc, sentence, 1);
    let note = "Move parts of it to locals with equations of their own. Parentheses count too.";
    Ok(Some(finding.with_note(alloc, note)?))
}

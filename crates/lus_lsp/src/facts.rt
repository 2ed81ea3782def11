//! What declarations don't say of their names.

use lus_cells::cells_of_nodes;
use lus_clocks::{check_clocks, check_nil};
use lus_editing::Fact;
use lus_faults::{Role, Sought, Variable};
use lus_grammar::parse;
use lus_nil_causes::may_be_nil;
use lus_syntax::{Node, Place, Refusal, Tree, lex};
use lus_types::check_types;
use std::alloc::{AllocError, Global};

/// Whether a variable of a node may be nil: no input or output may.
fn is_nil(alloc: Global, node: &Node, variable: Variable<'_>) -> Result<bool, AllocError> {
    match variable.role {
        Role::Input | Role::Output => Ok(false),
        Role::Local => may_be_nil(alloc, node, variable.name.text.as_str()),
    }
}

/// Whether the variable that is declared at a place may be nil, if one is.
fn variable_fact(alloc: Global, tree: &Tree, place: Sought) -> Result<Option<Fact>, AllocError> {
    let Some(node) = place.node(tree) else {
        return Ok(None);
    };
    match place.variable(node) {
        Some(variable) => Ok(Some(Fact::MayBeNil(is_nil(alloc, node, variable)?))),
        None => Ok(None),
    }
}

/// The number of the node that is declared at a place.
fn node_at(tree: &Tree, place: Sought) -> Option<usize> {
    for (number, node) in tree.nodes.iter().enumerate() {
        if place.is_at(node.name.span.start) {
            return Some(number);
        }
    }
    None
}

/// The state size of a node of a source.
fn node_fact(alloc: Global, tree: Tree, node: usize) -> Result<Option<Fact>, Refusal> {
    let typed = check_types(alloc, tree)?;
    let cells = cells_of_nodes(alloc, typed.sound())?;
    Ok(cells.get(node).copied().map(|cells| Fact::Cells(cells)))
}

/// A fact of a source in which nil stands only where flags allow.
fn checked(alloc: Global, tree: Tree, fact: Fact) -> Result<Option<Fact>, Refusal> {
    let typed = check_types(alloc, tree)?;
    let clocked = check_clocks(typed)?;
    check_nil(alloc, clocked)?;
    Ok(Some(fact))
}

/// What the declaration of the name at a place of a source doesn't say of it. A source may be refused before that is known.
pub(crate) fn fact_of(
    alloc: Global,
    source: &str,
    declared: Place,
) -> Result<Option<Fact>, Refusal> {
    let tokens = lex(alloc, source)?;
    let tree = parse(alloc, &tokens)?;
    let place = Sought {
        line: declared.line,
        column: declared.column,
    };
    if let Some(node) = node_at(&tree, place) {
        return node_fact(alloc, tree, node);
    }
    match variable_fact(alloc, &tree, place)? {
        Some(fact) => checked(alloc, tree, fact),
        None => Ok(None),
    }
}

//! Counts of what a source declares.

use lus_faults::Sought;
use lus_syntax::{
    Definition, Fields, Group, MOST_CONSTRUCTORS, MOST_DECLARATIONS, MOST_FIELDS, MOST_VARIABLES,
    Name, Node, Tree,
};

/// Too many of something: where that is refused, what, how many there are, and the limit.
#[derive(Clone, Copy)]
pub struct Excess<'t> {
    pub name: &'t Name,
    pub what: &'static str,
    pub count: usize,
    pub most: usize,
}

impl<'t> Excess<'t> {
    /// Too many declarations of a kind.
    fn of(name: &'t Name, what: &'static str, count: usize) -> Option<Excess<'t>> {
        let most = MOST_DECLARATIONS;
        Some(Excess {
            name,
            what,
            count,
            most,
        })
    }
}

/// How many variables groups declare.
fn count_in(groups: &[Group]) -> usize {
    let mut count = 0usize;
    for group in groups {
        count = count.saturating_add(group.names.len());
    }
    count
}

/// How many variables a node has.
fn variables_of(node: &Node) -> usize {
    count_in(&node.inputs)
        .saturating_add(count_in(&node.outputs))
        .saturating_add(count_in(&node.locals))
}

/// How many fields a structure has.
fn fields_in(groups: &[Fields]) -> usize {
    let mut count = 0usize;
    for group in groups {
        count = count.saturating_add(group.names.len());
    }
    count
}

/// Too many parts of a type: constructors, or fields.
fn in_definition<'t>(name: &'t Name, definition: &Definition) -> Option<Excess<'t>> {
    let (what, count, most) = match definition {
        Definition::Alias(_) => return None,
        Definition::Enumeration(names) => ("constructors", names.len(), MOST_CONSTRUCTORS),
        Definition::Structure(groups) => ("fields", fields_in(groups), MOST_FIELDS),
    };
    if count <= most {
        return None;
    }
    Some(Excess {
        name,
        what,
        count,
        most,
    })
}

/// Too many types, or parts of one, at a place.
fn in_types(sought: Sought, tree: &Tree) -> Option<Excess<'_>> {
    for (place, declaration) in tree.types.iter().enumerate() {
        let name = &declaration.name;
        if sought.is_at(name.span.start) {
            if place >= MOST_DECLARATIONS {
                return Excess::of(name, "types", tree.types.len());
            }
            return in_definition(name, &declaration.definition);
        }
    }
    None
}

/// Too many variables of a node.
fn in_node<'t>(name: &'t Name, node: &Node) -> Option<Excess<'t>> {
    Some(Excess {
        name,
        what: "variables",
        count: variables_of(node),
        most: MOST_VARIABLES,
    })
}

/// Too many nodes, or variables of one, at a place.
fn in_nodes(sought: Sought, tree: &Tree) -> Option<Excess<'_>> {
    for (place, node) in tree.nodes.iter().enumerate() {
        if sought.is_at(node.name.span.start) {
            if place >= MOST_DECLARATIONS {
                return Excess::of(&node.name, "nodes", tree.nodes.len());
            }
            if variables_of(node) > MOST_VARIABLES {
                return in_node(&node.name, node);
            }
            return None;
        }
        if let Some(variable) = sought.variable(node) {
            return in_node(variable.name, node);
        }
    }
    None
}

/// Too many constants, at a place.
fn in_constants(sought: Sought, tree: &Tree) -> Option<Excess<'_>> {
    for (place, constant) in tree.constants.iter().enumerate() {
        if place >= MOST_DECLARATIONS && sought.is_at(constant.name.span.start) {
            return Excess::of(&constant.name, "constants", tree.constants.len());
        }
    }
    None
}

/// What there is too much of, at a place.
pub fn excess_at(sought: Sought, tree: &Tree) -> Option<Excess<'_>> {
    in_constants(sought, tree)
        .or(in_types(sought, tree))
        .or(in_nodes(sought, tree))
}

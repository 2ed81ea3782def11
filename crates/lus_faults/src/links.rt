//! Which declarations are used where.

use crate::within::expressions_in;
use indexmap::IndexMap;
use lus_syntax::{Definition, Expr, Name, Node, Tree, TypeName};
use std::alloc::{AllocError, Global};

/// A use of one declaration in another, by their places among the nodes or the types.
#[derive(Clone, Copy)]
pub struct Link<'t> {
    pub from: usize,
    pub to: usize,
    pub name: &'t Name,
}

/// The place of each node, by its name.
fn places_of_nodes(alloc: Global, tree: &Tree) -> Result<IndexMap<&str, usize>, AllocError> {
    let mut places = IndexMap::new(alloc);
    for (place, node) in tree.nodes.iter().enumerate() {
        let _before = places.insert(node.name.text.as_str(), place)?;
    }
    Ok(places)
}

/// The place of each type, by its name.
fn places_of_types(alloc: Global, tree: &Tree) -> Result<IndexMap<&str, usize>, AllocError> {
    let mut places = IndexMap::new(alloc);
    for (place, declaration) in tree.types.iter().enumerate() {
        let _before = places.insert(declaration.name.text.as_str(), place)?;
    }
    Ok(places)
}

/// Adds the use of a name, if it stands for a declaration.
fn push_use<'t>(
    links: &mut Vec<Link<'t>>,
    places: &IndexMap<&str, usize>,
    from: usize,
    name: &'t Name,
) -> Result<(), AllocError> {
    match places.get(&name.text.as_str()).copied() {
        Some(to) => Ok(links.push(Link { from, to, name })?),
        None => Ok(()),
    }
}

/// Adds the calls in a node.
fn push_calls<'t>(
    alloc: Global,
    links: &mut Vec<Link<'t>>,
    places: &IndexMap<&str, usize>,
    from: usize,
    node: &'t Node,
) -> Result<(), AllocError> {
    for equation in &node.equations {
        for expr in &expressions_in(alloc, &equation.right)? {
            if let Expr::Call(name, _) = expr {
                push_use(links, places, from, name)?;
            }
        }
    }
    Ok(())
}

/// The calls of nodes that a source has.
pub fn calls_of(alloc: Global, tree: &Tree) -> Result<Vec<Link<'_>>, AllocError> {
    let places = places_of_nodes(alloc, tree)?;
    let mut links = Vec::new(alloc);
    for (from, node) in tree.nodes.iter().enumerate() {
        push_calls(alloc, &mut links, &places, from, node)?;
    }
    Ok(links)
}

/// Adds the use of a type by its name.
fn push_type<'t>(
    links: &mut Vec<Link<'t>>,
    places: &IndexMap<&str, usize>,
    from: usize,
    used: &'t TypeName,
) -> Result<(), AllocError> {
    match used {
        TypeName::Declared(name) => push_use(links, places, from, name),
        TypeName::Bool(_) | TypeName::Int(_) => Ok(()),
    }
}

/// The uses of types in types that a source has.
pub fn uses_of(alloc: Global, tree: &Tree) -> Result<Vec<Link<'_>>, AllocError> {
    let places = places_of_types(alloc, tree)?;
    let mut links = Vec::new(alloc);
    for (from, declaration) in tree.types.iter().enumerate() {
        match &declaration.definition {
            Definition::Alias(used) => push_type(&mut links, &places, from, used)?,
            Definition::Enumeration(_) => {}
            Definition::Structure(groups) => {
                for group in groups {
                    push_type(&mut links, &places, from, &group.type_name)?;
                }
            }
        }
    }
    Ok(links)
}

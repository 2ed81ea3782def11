//! Which declarations nothing uses.
//!
//! A declaration is one that nothing uses if its name stands once among the tokens in which it could be used: of a type, a constant or
//! a node those of the source, of a variable those from its node's name to the next node's. So none is told that has a use; what has
//! the name of something else in the same tokens may not be told, nor is a local variable whose equation defines one with a use beside
//! it, as that of a call with several results may.

ghost use Rattle.std.specs.Prelude.{◌≡◌, All, IfOk, IsTrue};
ghost use Rattle.std.specs.List.{filter};
ghost use Rattle.lus_warnings.specs.Uses.{is_idle_by, is_unused};

use crate::kind::Kind;
use crate::scope::{Without, node_from, tokens_without};
use crate::table::{Names, has_repeated, is_idle, is_repeated, names_among};
use indexmap::IndexSet;
use lus_syntax::{Constant, Definition, Group, Name, Node, Token, Tree, TypeDeclaration};
use std::alloc::{AllocError, Global};

/// A declaration, and what is warned of if nothing uses it.
#[derive(Clone, Copy)]
pub(crate) struct Declaration<'t> {
    pub kind: Kind,
    pub name: &'t Name,
}

/// Whether a type declares a constructor that has a use.
fn has_use(names: &Names<'_>, definition: &Definition) -> bool {
    match definition {
        Definition::Enumeration(constructors) => has_repeated(names, constructors),
        Definition::Alias(_) => false,
        Definition::Structure(_) => false,
    }
}

/// Appends the types of which no constructor has a use.
fn push_types<'t>(
    names: &Names<'_>,
    types: &'t [TypeDeclaration],
    declared: &mut Vec<Declaration<'t>>,
) -> Result<(), AllocError> {
    for declaration in types {
        if !has_use(names, &declaration.definition) {
            declared.push(Declaration {
                kind: Kind::UnusedType,
                name: &declaration.name,
            })?;
        }
    }
    Ok(())
}

/// Appends the constants.
fn push_constants<'t>(
    constants: &'t [Constant],
    declared: &mut Vec<Declaration<'t>>,
) -> Result<(), AllocError> {
    for constant in constants {
        declared.push(Declaration {
            kind: Kind::UnusedConstant,
            name: &constant.name,
        })?;
    }
    Ok(())
}

/// Whether a name is one of some.
fn is_among(names: &[&str], name: &str) -> bool {
    for other in names {
        if *other == name {
            return true;
        }
    }
    false
}

/// Appends the nodes that aren't among those which instances run.
fn push_nodes<'t>(
    run: &[&str],
    nodes: &'t [Node],
    declared: &mut Vec<Declaration<'t>>,
) -> Result<(), AllocError> {
    for node in nodes {
        if !is_among(run, node.name.text.as_str()) {
            declared.push(Declaration {
                kind: Kind::UnusedNode,
                name: &node.name,
            })?;
        }
    }
    Ok(())
}

/// What is declared outside of nodes, but for types of which a constructor has a use and nodes that are run. Where it isn't known which
/// are, it is none of the nodes.
fn declared_outside<'t>(
    alloc: Global,
    names: &Names<'_>,
    tree: &'t Tree,
    run: Option<&[&str]>,
) -> Result<Vec<Declaration<'t>>, AllocError> {
    let mut declared = Vec::new(alloc);
    push_types(names, &tree.types, &mut declared)?;
    push_constants(&tree.constants, &mut declared)?;
    if let Some(run) = run {
        push_nodes(run, &tree.nodes, &mut declared)?;
    }
    Ok(declared)
}

/// The variables of some groups.
fn variables_in<'t>(
    alloc: Global,
    kind: Kind,
    groups: &'t [Group],
) -> Result<Vec<Declaration<'t>>, AllocError> {
    let mut declared = Vec::new(alloc);
    for group in groups {
        for name in &group.names {
            declared.push(Declaration { kind, name })?;
        }
    }
    Ok(declared)
}

/// Those of some declarations that need a use and have none, in their order.
fn idle_of<'t>(
    alloc: Global,
    names: &Names<'_>,
    declared: &[Declaration<'t>],
) -> Result<Vec<Declaration<'t>>, AllocError>
    ensures { IfOk result (λ found. found.items ≡ filter (is_idle_by names.now) declared.now) }
{
    let mut found = Vec::new(alloc);
    for declaration in declared {
        if is_idle(names, declaration.name) {
            found.push(*declaration)?;
        }
    }
    Ok(found)
}

/// Those of some declarations that nothing among some tokens uses, in their order.
fn unused_among<'t>(
    alloc: Global,
    tokens: &[Token<'_>],
    declared: &[Declaration<'t>],
) -> Result<Vec<Declaration<'t>>, AllocError>
    ensures { IfOk result (λ found. found.items ≡ filter (is_unused tokens.now) declared.now) }
{
    let names = names_among(alloc, tokens)?;
    idle_of(alloc, &names, declared)
}

/// The types and the constants that nothing in the source uses, and the nodes that no node calls and that aren't run.
fn unused_outside<'t>(
    alloc: Global,
    tokens: &[Token<'_>],
    tree: &'t Tree,
    run: Option<&[&str]>,
) -> Result<Vec<Declaration<'t>>, AllocError>
    ensures { IfOk result (λ found. All (λ d. IsTrue (is_unused tokens.now d)) found.items) }
{
    let names = names_among(alloc, tokens)?;
    let declared = declared_outside(alloc, &names, tree, run)?;
    idle_of(alloc, &names, &declared)
}

/// A local variable that only its own equation uses, as a memory, if its name stands twice among what is read.
fn as_memory<'t>(read: &Names<'_>, found: Declaration<'t>) -> Declaration<'t> {
    if is_repeated(read, found.name.text.as_str()) {
        return Declaration {
            kind: Kind::UnreadMemory,
            name: found.name,
        };
    }
    found
}

/// The names of the variables that stand on the left of an equation beside others than these.
fn names_beside<'t>(
    alloc: Global,
    node: &'t Node,
    unused: &[Declaration<'t>],
) -> Result<IndexSet<&'t str>, AllocError> {
    let mut names = IndexSet::new(alloc);
    for local in unused {
        names.insert(local.name.text.as_str())?;
    }
    let mut beside = IndexSet::new(alloc);
    for equation in &node.equations {
        if !equation
            .left
            .iter()
            .all(|left| names.contains(&left.text.as_str()))
        {
            for left in &equation.left {
                beside.insert(left.text.as_str())?;
            }
        }
    }
    Ok(beside)
}

/// The local variables of a node that can be left out with their equations: nothing but these uses them, nor another variable that they
/// define.
fn unused_locals<'t>(
    alloc: Global,
    tokens: &[Token<'_>],
    node: &'t Node,
) -> Result<Vec<Declaration<'t>>, AllocError> {
    let locals = variables_in(alloc, Kind::UnusedLocal, &node.locals)?;
    let others = tokens_without(alloc, Without::Own, tokens, &node.equations)?;
    let mut unused = unused_among(alloc, &others, &locals)?;
    let beside = names_beside(alloc, node, &unused)?;
    unused.retain(|local| !beside.contains(&local.name.text.as_str()));
    Ok(unused)
}

/// How often names stand among the tokens of a node, but for left sides.
fn names_read<'t>(
    alloc: Global,
    tokens: &[Token<'t>],
    node: &Node,
) -> Result<Names<'t>, AllocError> {
    let read = tokens_without(alloc, Without::Left, tokens, &node.equations)?;
    names_among(alloc, &read)
}

/// Appends local variables that only their own equations use, by the names that are read.
fn push_unread<'t>(
    read: &Names<'_>,
    unused: &[Declaration<'t>],
    found: &mut Vec<Declaration<'t>>,
) -> Result<(), AllocError> {
    for local in unused {
        found.push(as_memory(read, *local))?;
    }
    Ok(())
}

/// Appends the local variables of a node that nothing but their own equations uses.
fn push_locals<'t>(
    alloc: Global,
    tokens: &[Token<'_>],
    node: &'t Node,
    found: &mut Vec<Declaration<'t>>,
) -> Result<(), AllocError> {
    let unused = unused_locals(alloc, tokens, node)?;
    let read = names_read(alloc, tokens, node)?;
    push_unread(&read, &unused, found)
}

/// Appends the variables of a node that nothing uses.
fn push_variables<'t>(
    alloc: Global,
    tokens: &[Token<'_>],
    node: &'t Node,
    found: &mut Vec<Declaration<'t>>,
) -> Result<(), AllocError> {
    let inputs = variables_in(alloc, Kind::UnusedInput, &node.inputs)?;
    found.extend_from_slice(&unused_among(alloc, tokens, &inputs)?)?;
    push_locals(alloc, tokens, node, found)
}

/// The declarations of a source that nothing uses: types, constants and nodes, and then inputs and locals.
pub(crate) fn unused_in<'t>(
    alloc: Global,
    tokens: &[Token<'_>],
    tree: &'t Tree,
    run: Option<&[&str]>,
) -> Result<Vec<Declaration<'t>>, AllocError> {
    let mut found = unused_outside(alloc, tokens, tree, run)?;
    let mut from = node_from(tokens, 0, tree.nodes.first());
    for (place, node) in tree.nodes.iter().enumerate() {
        let to = node_from(tokens, from, tree.nodes.get(place.saturating_add(1)));
        let own = tokens.get(from..to).unwrap_or(&[]);
        push_variables(alloc, own, node, &mut found)?;
        from = to;
    }
    Ok(found)
}

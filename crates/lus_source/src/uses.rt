//! What the types and the nodes of a source use.

ghost use Rattle.std.specs.Prelude.{◌≡◌, ◌++◌, IfOk, OnOk, map};
ghost use Rattle.std.specs.Option.{option_to_list};
ghost use Rattle.lus_graph.specs.Walks.{uses_of};
ghost use Rattle.lus_syntax.specs.Trees.{parts_of};
ghost use Rattle.lus_syntax.specs.View.{definition_seen, expression_seen, node_seen, tree_seen, type_name_seen, part_seen};
ghost use Rattle.lus_source.specs.Loopless.{called, called_in, calls_of, definition_uses as uses_of_definition, named_type, node_uses as calls_of_nodes, place_in, type_uses as uses_of_types};

use crate::named::Named;
use crate::places::Places;
use lus_syntax::{Definition, Expr, Node, Part, TypeName};
use lus_values::Memory;
use std::alloc::Global;

/// Appends the place of a name among these, where it is one of them.
fn push_place(names: &Places, name: &str, found: &mut Vec<u32>) -> Result<(), Memory>
    ensures { OnOk result (found.new.items ≡ found.old.items ++ option_to_list (place_in names.now name.now)) }
{
    if let Some(place) = names.place(name) {
        found.push(place)?;
    }
    Ok(())
}

/// Appends the declared type that a type's name names.
fn push_named(types: &Places, name: &TypeName, found: &mut Vec<u32>) -> Result<(), Memory>
    ensures { OnOk result (found.new.items ≡ found.old.items ++ named_type types.now (type_name_seen name.now)) }
{
    match name {
        TypeName::Bool(_) => Ok(()),
        TypeName::Int(_) => Ok(()),
        TypeName::Declared(declared) => push_place(types, declared.text.as_str(), found),
    }
}

/// The types that a definition names.
fn definition_uses(
    alloc: Global,
    types: &Places,
    definition: &Definition,
) -> Result<Vec<u32>, Memory>
    ensures { IfOk result (λ found. found.items ≡ uses_of_definition types.now (definition_seen definition.now)) }
{
    let mut found = Vec::new(alloc);
    match definition {
        Definition::Alias(name) => {
            push_named(types, name, &mut found)?;
            Ok(found)
        }
        Definition::Enumeration(_) => Ok(found),
        Definition::Structure(groups) => {
            for group in groups {
                push_named(types, &group.type_name, &mut found)?;
            }
            Ok(found)
        }
    }
}

/// The types that each type's declaration names.
pub fn type_uses(alloc: Global, named: &Named) -> Result<Vec<Vec<u32>>, Memory>
    ensures { IfOk result (λ uses. uses_of uses.items ≡ uses_of_types (tree_seen named.now)) }
{
    let types = named.types();
    let tree = named.tree();
    let mut uses = Vec::new(alloc);
    for declaration in &tree.types {
        uses.push(definition_uses(alloc, types, &declaration.definition)?)?;
    }
    Ok(uses)
}

/// Appends the nodes that an expression calls.
#[cycle(calls)]
fn push_called(nodes: &Places, expr: &Expr, found: &mut Vec<u32>) -> Result<(), Memory>
    ensures { OnOk result (found.new.items ≡ found.old.items ++ called nodes.now (expression_seen expr.now)) }
{
    match expr {
        Expr::Number(_, _) | Expr::Truth(_, _) | Expr::Name(_) => Ok(()),
        Expr::Call(name, arguments) => {
            push_place(nodes, name.text.as_str(), found)?;
            push_called_in(nodes, arguments, found)
        }
        Expr::Structure(_, parts) => push_called_in(nodes, parts, found),
        Expr::Merge(_, _, parts) => push_called_in(nodes, parts, found),
        Expr::Variadic(_, _, parts) => push_called_in(nodes, parts, found),
        Expr::Field(operand, _)
        | Expr::Parentheses(_, operand)
        | Expr::When(operand, _)
        | Expr::Unary(_, _, operand) => push_called(nodes, operand, found),
        Expr::Binary(_, left, right) => {
            push_called(nodes, left, found)?;
            push_called(nodes, right, found)
        }
        Expr::If(_, condition, first, other) => {
            push_called(nodes, condition, found)?;
            push_called(nodes, first, found)?;
            push_called(nodes, other, found)
        }
    }
}

/// Appends the nodes that parts call.
#[cycle(calls)]
fn push_called_in(nodes: &Places, parts: &[Part], found: &mut Vec<u32>) -> Result<(), Memory>
    ensures { let more = called_in nodes.now (parts_of (map part_seen parts.now)) in
        OnOk result (found.new.items ≡ found.old.items ++ more) }
{
    for part in parts {
        push_called(nodes, &part.value, found)?;
    }
    Ok(())
}

/// The nodes that each node calls.
pub fn node_uses(alloc: Global, named: &Named) -> Result<Vec<Vec<u32>>, Memory>
    ensures { IfOk result (λ uses. uses_of uses.items ≡ calls_of_nodes (tree_seen named.now)) }
{
    let nodes = named.nodes();
    let tree = named.tree();
    let mut uses = Vec::new(alloc);
    for node in &tree.nodes {
        uses.push(node_calls(alloc, nodes, node)?)?;
    }
    Ok(uses)
}

/// The nodes that a node calls.
fn node_calls(alloc: Global, nodes: &Places, node: &Node) -> Result<Vec<u32>, Memory>
    ensures { IfOk result (λ found. found.items ≡ calls_of nodes.now (node_seen node.now)) }
{
    let mut found = Vec::new(alloc);
    for equation in &node.equations {
        push_called(nodes, &equation.right, &mut found)?;
    }
    Ok(found)
}

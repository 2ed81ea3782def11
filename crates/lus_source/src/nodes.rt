//! The names of a node.

ghost use Rattle.std.specs.Prelude.{◌≡◌, ◌≤◌, ◌++◌, [], map, is_none, IfOk, OnOk};
ghost use Rattle.lus_values.specs.Lists.{Each};
ghost use Rattle.lus_syntax.specs.Limits.{most_variables};
ghost use Rattle.lus_syntax.specs.View.{node_seen};
ghost use Rattle.lus_source.specs.Tables.{groups};
ghost use Rattle.lus_source.specs.Named.{NodeNamed, all_new, defined_names, names_in};
ghost use Rattle.lus_source.specs.ScopeView.{Judged, Tested};
ghost use Rattle.lus_source.specs.Sized.{variable_count};
ghost use Rattle.lus_source.specs.NameView.{known_seen, texts};
ghost use Rattle.lus_source.specs.Parts.{in_node, node_known};

use crate::fault::{Cause, Fault, refuse};
use crate::left::check_lefts;
use crate::names::Names;
use crate::naming::declare_all;
use crate::places::Places;
use crate::using::first_unknown;
use indexmap::IndexSet;
use lus_syntax::{Node, Place};
use std::alloc::Global;
use std::mem;

/// Checks the names of nodes, one by one, and gives those of each node's variables.
pub fn check_nodes(alloc: Global, names: &mut Names, nodes: &[Node]) -> Result<Vec<Places>, Fault>
    requires empty { (known_seen names.old).variables ≡ [] }
    requires few { Each (λ f. variable_count (groups f) ≤ most_variables) (map node_seen nodes.now) }
    ensures kept { OnOk result (known_seen names.new ≡ known_seen names.old) }
    ensures named { Judged result (Each (λ f. NodeNamed (in_node (known_seen names.old) f) f) (map node_seen nodes.now)) }
    ensures variables { IfOk result (λ all. all.items ≡ map (λ f. names_in (groups f)) (map node_seen nodes.now)) }
{
    let mut variables = Vec::new(alloc);
    for node in nodes {
        variables.push(check_node(alloc, names, node)?)?;
    }
    Ok(variables)
}

/// Checks the names of a node, and gives those of its variables.
fn check_node(alloc: Global, names: &mut Names, node: &Node) -> Result<Places, Fault>
    requires empty { (known_seen names.old).variables ≡ [] }
    requires few { variable_count (groups (node_seen node.now)) ≤ most_variables }
    ensures kept { OnOk result (known_seen names.new ≡ known_seen names.old) }
    ensures named { Judged result (NodeNamed (in_node (known_seen names.old) (node_seen node.now)) (node_seen node.now)) }
    ensures variables { IfOk result (λ own. own ≡ names_in (groups (node_seen node.now))) }
{
    declare_variables(&mut names.variables, node)?;
    refuse(unknown_in_node(names, node), Cause::Unknown)?;
    let variables = Places::new(mem::replace(&mut names.variables, IndexSet::new(alloc)));
    check_lefts(&mut names.variables, node)?;
    names.variables.clear();
    Ok(variables)
}

/// Declares the variables of a node.
pub fn declare_variables(table: &mut IndexSet<String>, node: &Node) -> Result<(), Fault>
    ensures kept { OnOk result (texts table.new.keys ≡ texts table.old.keys ++ names_in (groups (node_seen node.now))) }
    ensures new { Tested result (all_new (texts table.old.keys) (names_in (groups (node_seen node.now)))) }
{
    declare_all(table, &node.inputs)?;
    declare_defined(table, node)
}

/// Declares what the equations of a node define: its outputs and its locals.
pub fn declare_defined(table: &mut IndexSet<String>, node: &Node) -> Result<(), Fault>
    ensures kept { OnOk result (texts table.new.keys ≡ texts table.old.keys ++ defined_names (node_seen node.now)) }
    ensures new { Tested result (all_new (texts table.old.keys) (defined_names (node_seen node.now))) }
{
    declare_all(table, &node.outputs)?;
    declare_all(table, &node.locals)
}

/// The first unknown name in the declarations and on the right sides of a node.
fn unknown_in_node(names: &Names, node: &Node) -> Option<Place>
    ensures { is_none result ≡ node_known (known_seen names.now) (node_seen node.now) }
{
    first_unknown(names, &node.inputs)
        .or(first_unknown(names, &node.outputs))
        .or(first_unknown(names, &node.locals))
        .or(first_unknown(names, &node.equations))
}

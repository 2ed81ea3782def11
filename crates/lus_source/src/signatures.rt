//! The nodes of a source, as calls see them.

ghost use Rattle.std.specs.Prelude.{◌≡◌, ◌++◌, IfOk, OnOk, map};
ghost use Rattle.lus_syntax.specs.View.{group_seen, names_seen, node_seen, tree_seen};
ghost use Rattle.lus_source.specs.ScopeView.{kinds_seen, signature_of};
ghost use Rattle.lus_source.specs.Tables.{each_of, groups, kinds_by, signature_by, signatures_by};
ghost use Rattle.lus_source.specs.ByTable.{kind_told};

use crate::entries::Signature;
use crate::named::Named;
use crate::places::Places;
use crate::types::kind_of_name;
use lus_program::Kind;
use lus_syntax::{Group, Name, Node};
use lus_values::Memory;
use std::alloc::Global;

/// The heads of nodes, one by one.
pub fn nodes(
    alloc: Global,
    types: &Places,
    kinds: &[Kind],
    named: &Named,
) -> Result<Vec<Signature>, Memory>
    ensures { let table = signatures_by (kind_told types.now kinds.now) (tree_seen named.now).nodes in
        IfOk result (λ all. map signature_of all.items ≡ map (λ e. e.1) table) }
{
    let nodes = named.tree().nodes.as_slice();
    let mut all = Vec::new(alloc);
    for (place, node) in nodes.iter().enumerate() {
        all.push(signature(alloc, types, kinds, node, place as u32)?)?;
    }
    Ok(all)
}

fn signature(
    alloc: Global,
    types: &Places,
    kinds: &[Kind],
    node: &Node,
    place: u32,
) -> Result<Signature, Memory>
    ensures { IfOk result (λ g. signature_of g ≡ signature_by (kind_told types.now kinds.now) (node_seen node.now) place) }
{
    let mut inputs = Vec::new(alloc);
    push_kinds(&mut inputs, types, kinds, &node.inputs)?;
    let mut outputs = Vec::new(alloc);
    push_kinds(&mut outputs, types, kinds, &node.outputs)?;
    Ok(Signature {
        place,
        kind: node.kind,
        inputs,
        outputs,
    })
}

/// The types of each node's variables.
pub fn variables(
    alloc: Global,
    types: &Places,
    kinds: &[Kind],
    nodes: &[Node],
) -> Result<Vec<Vec<Kind>>, Memory>
    ensures { let found = map (λ f. map (λ e. e.1) (kinds_by (kind_told types.now kinds.now) (groups f))) (map node_seen nodes.now) in
        IfOk result (λ all. kinds_seen all.items ≡ found) }
{
    let mut all = Vec::new(alloc);
    for node in nodes {
        all.push(variable_kinds(alloc, types, kinds, node)?)?;
    }
    Ok(all)
}

/// The types of a node's variables.
fn variable_kinds(
    alloc: Global,
    types: &Places,
    kinds: &[Kind],
    node: &Node,
) -> Result<Vec<Kind>, Memory>
    ensures { let found = map (λ e. e.1) (kinds_by (kind_told types.now kinds.now) (groups (node_seen node.now))) in
        IfOk result (λ all. all.items ≡ found) }
{
    let mut all = Vec::new(alloc);
    push_kinds(&mut all, types, kinds, &node.inputs)?;
    push_kinds(&mut all, types, kinds, &node.outputs)?;
    push_kinds(&mut all, types, kinds, &node.locals)?;
    Ok(all)
}

/// Appends the types of variables, one by one.
fn push_kinds(
    found: &mut Vec<Kind>,
    types: &Places,
    kinds: &[Kind],
    groups: &[Group],
) -> Result<(), Memory>
    ensures { let more = map (λ e. e.1) (kinds_by (kind_told types.now kinds.now) (map group_seen groups.now)) in
        OnOk result (found.new.items ≡ found.old.items ++ more) }
{
    for group in groups {
        let kind = kind_of_name(types, kinds, &group.type_name);
        push_for_each(found, &group.names, kind)?;
    }
    Ok(())
}

fn push_for_each(kinds: &mut Vec<Kind>, names: &[Name], kind: Kind) -> Result<(), Memory>
    ensures { OnOk result (kinds.new.items ≡ kinds.old.items ++ map (λ e. e.1) (each_of (names_seen names.now) kind)) }
{
    for _name in names {
        kinds.push(kind)?;
    }
    Ok(())
}

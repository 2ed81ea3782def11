//! The passes over a source without recursion, each with the number that it refuses by.

ghost use Rattle.std.specs.Prelude.{◌≡◌, IfErr, IfOk, OnOk, map};
ghost use Rattle.lus_syntax.specs.declared.refusal.RefusalNumber.TheVariants as numbers;
ghost use Rattle.lus_syntax.specs.View.{tree_seen};
ghost use Rattle.lus_program.specs.View.{node_of, program_seen};
ghost use Rattle.lus_values.specs.Lists.{Each};
ghost use Rattle.lus_source.specs.Meaning.{node_meant, program_of};
ghost use Rattle.lus_program.specs.Refusals.{RefusesFor};
ghost use Rattle.lus_source.specs.WellTyped.{IsTyped, NodeTyped};
ghost use Rattle.lus_source.specs.ScopeView.{Judged};

use crate::constants::check_constants;
use crate::nodes::node;
use lus_program::{Node, Program};
use lus_source::{Fault, Rejected, Tabled};
use lus_syntax::RefusalNumber;
use std::alloc::Global;

/// Checks types, and gives the program that the source means.
pub fn types(alloc: Global, tabled: Tabled<'_>) -> Result<Program, Rejected>
    ensures ok { OnOk result (IsTyped (tree_seen tabled.entry)) }
    ensures means { IfOk result (λ q. program_seen q ≡ program_of (tree_seen tabled.entry)) }
    ensures refused { IfErr result (λ e. RefusesFor numbers.Type (IsTyped (tree_seen tabled.entry)) e.refusal) }
{
    match program(alloc, tabled) {
        Ok(program) => Ok(program),
        Err(fault) => Err(fault.rejected(RefusalNumber::Type)),
    }
}

/// The program that a source means, where it is well typed.
pub fn program(alloc: Global, tabled: Tabled<'_>) -> Result<Program, Fault>
    ensures typed { Judged result (IsTyped (tree_seen tabled.entry)) }
    ensures means { IfOk result (λ q. program_seen q ≡ program_of (tree_seen tabled.entry)) }
{
    check_constants(&tabled.tables, &tabled.loopless.tree().constants)?;
    let nodes = nodes(alloc, &tabled)?;
    Ok(Program {
        types: tabled.tables.into_declared(),
        nodes,
    })
}

/// Nodes, each by its own variables.
fn nodes(alloc: Global, tabled: &Tabled) -> Result<Vec<Node>, Fault>
    ensures typed { let p = tree_seen tabled.now in Judged result (Each (NodeTyped p) p.nodes) }
    ensures meant { let p = tree_seen tabled.now in IfOk result (λ ns. map node_of ns.items ≡ map (node_meant p) p.nodes) }
{
    let count = tabled.loopless.tree().nodes.len();
    let mut nodes = Vec::with_capacity(alloc, count)?;
    for place in 0..count {
        nodes.push(node(alloc, tabled, place)?)?;
    }
    Ok(nodes)
}

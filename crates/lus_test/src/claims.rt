//! Claims of a program's nodes: outputs that are truth values.

ghost use Rattle.std.specs.Prelude.{◌≡◌, ◌<◌, IfOk, Some, length, option_map};
ghost use Rattle.std.specs.Arc.{arc_value};
ghost use Rattle.lus_cli.specs.CodeSpecs.Codes.{program_of};
ghost use Rattle.lus_scripts.specs.Scripts.{place_of};
ghost use Rattle.std.specs.List.{All};
ghost use Rattle.lus_test.specs.Named.{IsClaim, IsNodeNamed};
ghost use Rattle.lus_test.specs.Tables.{output_columns};

use crate::columns::column_kind;
use crate::finding::column_of;
use crate::problem::Problem;
use crate::trying::find_node;
use lus_live_instance::lus_machine::{Kind, NodeId, Program};
use lus_records::all_columns;
use lus_refusals::lus_culprits::{names_of, push_name, push_names, push_unknown};
use lus_values::Memory;
use std::alloc::Global;
use std::sync::Arc;

/// The place of an output's column that has this name.
fn claim_of(
    alloc: Global,
    program: &Arc<Program>,
    node: NodeId,
    name: &str,
) -> Result<Option<usize>, Memory>
    requires { node.0 < length (program_of (arc_value program.now)).nodes }
    ensures { IfOk result (λ o. o ≡ place_of (output_columns (program_of (arc_value program.now)) node.0) name.now) }
{
    let columns = all_columns(alloc, program.source(), program.outputs(node))?;
    Ok(column_of(&columns, name.as_bytes()))
}

/// The type of an output's column of a name.
fn output_kind(program: &Arc<Program>, node: NodeId, name: &str) -> Option<Kind>
    requires { node.0 < length (program_of (arc_value program.now)).nodes }
{
    for output in program.outputs(node) {
        let variable = output.name.as_str();
        if name == variable || name.split('.').next() == Some(variable) {
            return Some(column_kind(program, output.kind, name));
        }
    }
    None
}

/// A claim of a node: the place of an output's column.
#[derive(Clone, Copy)]
pub(crate) struct Claim {
    pub node: NodeId,
    pub place: usize,
}

/// The claims of this name of all nodes.
fn claims_named(alloc: Global, program: &Arc<Program>, name: &str) -> Result<Vec<Claim>, Memory>
    ensures { IfOk result (λ v. All (IsClaim (program_of (arc_value program.now)) name.now) v.items) }
{
    let mut found = Vec::new(alloc);
    for number in 0..program.nodes() {
        let node = NodeId(number);
        if let Some(place) = claim_of(alloc, program, node, name)? {
            found.push(Claim { node, place })?;
        }
    }
    Ok(found)
}

/// That no output of these names has another name.
fn no_output(
    alloc: Global,
    unknown: &str,
    name: &str,
    known: &str,
    columns: &[String],
) -> Result<String, Memory> {
    let names = names_of(alloc, columns)?;
    let mut text = String::new(alloc);
    push_unknown(&mut text, alloc, unknown, name, known, &names)?;
    Ok(text)
}

/// Why no node is found by an output: none has it, or several do.
fn no_claim(
    alloc: Global,
    program: &Arc<Program>,
    name: &str,
    claims: &[Claim],
) -> Result<String, Memory> {
    if claims.is_empty() {
        let mut columns = Vec::new(alloc);
        for number in 0..program.nodes() {
            let outputs = program.outputs(NodeId(number));
            let mut own = all_columns(alloc, program.source(), outputs)?;
            columns.append(&mut own)?;
        }
        let known = "; outputs are ";
        return no_output(alloc, "no node has an output ", name, known, &columns);
    }
    let mut nodes = Vec::new(alloc);
    for claim in claims {
        if let Some(node) = program.source().nodes.get(claim.node.0 as usize) {
            nodes.push(node.name.as_str())?;
        }
    }
    let mut text = String::from_str(alloc, "several nodes have an output ")?;
    push_name(&mut text, name)?;
    text.push_str("; `--node` names one of ")?;
    push_names(&mut text, &nodes)?;
    Ok(text)
}

/// That an output is no truth value.
fn no_bool(alloc: Global, name: &str) -> Result<String, Memory> {
    let mut text = String::from_str(alloc, "output ")?;
    push_name(&mut text, name)?;
    text.push_str(" is no bool, and a claim is one")?;
    Ok(text)
}

/// The claim of this name of a node.
fn claim_of_node(
    alloc: Global,
    program: &Arc<Program>,
    node: NodeId,
    name: &str,
) -> Result<Claim, Problem>
    requires { node.0 < length (program_of (arc_value program.now)).nodes }
    ensures claim { IfOk result (IsClaim (program_of (arc_value program.now)) name.now) }
    ensures node { IfOk result (λ c. c.node ≡ node) }
{
    match claim_of(alloc, program, node, name)? {
        Some(place) => Ok(Claim { node, place }),
        None => {
            let columns = all_columns(alloc, program.source(), program.outputs(node))?;
            let known = "; its outputs are ";
            let reason = no_output(alloc, "the node has no output ", name, known, &columns)?;
            Err(Problem::Lacks(reason))
        }
    }
}

/// The claim of this name: that of the node which is named, or of the one that has such an output.
fn claim_named(
    alloc: Global,
    program: &Arc<Program>,
    node: Option<&str>,
    name: &str,
) -> Result<Claim, Problem>
    ensures claim { IfOk result (IsClaim (program_of (arc_value program.now)) name.now) }
    ensures node { IfOk result (λ c. IsNodeNamed (program_of (arc_value program.now)) (option_map (λ t. t.now) node.entry) c.node.0) }
{
    if let Some(node) = node {
        return claim_of_node(alloc, program, find_node(alloc, program, node)?, name);
    }
    let claims = claims_named(alloc, program, name)?;
    match claims.as_slice() {
        [claim] => Ok(*claim),
        _ => Err(Problem::Lacks(no_claim(alloc, program, name, &claims)?)),
    }
}

/// The same, where it is a truth value.
pub(crate) fn find_claim(
    alloc: Global,
    program: &Arc<Program>,
    node: Option<&str>,
    name: &str,
) -> Result<Claim, Problem>
    ensures claim { IfOk result (IsClaim (program_of (arc_value program.now)) name.now) }
    ensures node { IfOk result (λ c. IsNodeNamed (program_of (arc_value program.now)) (option_map (λ t. t.now) node.entry) c.node.0) }
{
    let claim = claim_named(alloc, program, node, name)?;
    if output_kind(program, claim.node, name) != Some(Kind::Bool) {
        return Err(Problem::Lacks(no_bool(alloc, name)?));
    }
    Ok(claim)
}

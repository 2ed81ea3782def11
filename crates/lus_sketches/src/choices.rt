//! The variables that names choose.

ghost use Rattle.std.specs.Prelude.{◌≡◌, ◌++◌, [], IfErr, IfOk, OnOk, map, option_map, position, string_bytes};
ghost use Rattle.std.specs.Str.{bytes_eq};
ghost use Rattle.lus_program.specs.Programs.{node_at};
ghost use Rattle.lus_program.specs.View.{program_seen, variable_of};
ghost use Rattle.lus_sketches.specs.Paths.{all_from, chosen_by, chosen_named, chosen_seen, one_of, said_by, under};
ghost use Rattle.lus_sketches.specs.Signals.{Choose, IsFirstUnknown, names_in};

use crate::numbers::number_of;
use crate::paths::{call_by, variables_of};
use lus_program::{Program, Variable};
use lus_traces::parts_between;
use lus_values::Memory;
use lus_windows::Pick;
use std::alloc::{AllocError, Global};

/// A variable that is chosen: its path, the node in which it stands, and how it is picked.
#[derive(Drop)]
pub(crate) struct Chosen {
    pub(crate) path: String,
    pub(crate) node: u32,
    pub(crate) pick: Pick,
}

/// A variable of the node itself.
fn own(alloc: Global, node: u32, variable: u32, name: &str) -> Result<Chosen, AllocError>
    ensures { IfOk result (λ c. chosen_seen c ≡ (name.now, ([], variable))) }
{
    let way = Vec::new(alloc);
    Ok(Chosen {
        path: String::from_str(alloc, name)?,
        node,
        pick: Pick { way, variable },
    })
}

/// All variables of a node, in declared order.
pub(crate) fn all(alloc: Global, node: u32, variables: &[Variable]) -> Result<Vec<Chosen>, Memory>
    ensures { IfOk result (λ v. map chosen_seen v.items ≡ all_from 0 (map variable_of variables.now)) }
{
    let mut all = Vec::new(alloc);
    for (place, variable) in variables.iter().enumerate() {
        all.push(own(alloc, node, number_of(place)?, variable.name.as_str())?)?;
    }
    Ok(all)
}

/// The place of the first variable of this name.
fn place_among(variables: &[Variable], name: &str) -> Option<usize>
    ensures { result ≡ position (λ v. bytes_eq (string_bytes v.name) name.now) variables.now }
{
    variables
        .iter()
        .position(|variable| variable.name.as_str() == name)
}

/// The place of a node's variable of this name.
fn place_named(variables: &[Variable], name: &str) -> Option<usize>
    ensures { result ≡ position (λ v. bytes_eq v.name name.now) (map variable_of variables.now) }
{
    place_among(variables, name)
}

/// The variable of this name, if a node has it.
fn one(
    alloc: Global,
    node: u32,
    variables: &[Variable],
    name: &str,
) -> Result<Option<Vec<Chosen>>, Memory>
    ensures { IfOk result (λ o. option_map (λ v. map chosen_seen v.items) o ≡ one_of name.now (map variable_of variables.now)) }
{
    let Some(place) = place_named(variables, name) else {
        return Ok(None);
    };
    let mut found = Vec::new(alloc);
    found.push(own(alloc, node, number_of(place)?, name)?)?;
    Ok(Some(found))
}

/// The variables of a node that a word says: `*` all, a name that of this name.
fn said(
    alloc: Global,
    program: &Program,
    node: u32,
    word: &str,
) -> Result<Option<Vec<Chosen>>, Memory>
    ensures { IfOk result (λ o. option_map (λ v. map chosen_seen v.items) o ≡ said_by word.now (node_at (program_seen program.now) node).variables) }
{
    let variables = variables_of(program, node);
    if word == "*" {
        Ok(Some(all(alloc, node, variables)?))
    } else {
        one(alloc, node, variables, word)
    }
}

/// A variable behind a step and its call.
fn behind(alloc: Global, step: &str, call: u32, chosen: Chosen) -> Result<Chosen, AllocError>
    ensures { IfOk result (λ c. chosen_seen c ≡ under step.now call (chosen_seen chosen)) }
{
    let mut way = Vec::new(alloc);
    way.push(call)?;
    way.extend_from_slice(&chosen.pick.way)?;
    let variable = chosen.pick.variable;
    Ok(Chosen {
        path: format!(in alloc; "{step}.{}", chosen.path)?,
        node: chosen.node,
        pick: Pick { way, variable },
    })
}

/// Variables behind a step and its call.
fn all_behind(
    alloc: Global,
    step: &str,
    call: u32,
    chosen: Vec<Chosen>,
) -> Result<Vec<Chosen>, AllocError>
    ensures { IfOk result (λ v. map chosen_seen v.items ≡ map (under step.now call) (map chosen_seen chosen.items)) }
{
    let mut all = Vec::new(alloc);
    for one in chosen {
        all.push(behind(alloc, step, call, one)?)?;
    }
    Ok(all)
}

/// The variables that words choose from a node: the last one says them, each before it leads to the node of those behind it.
#[tactic(auto, using(crate::proofs::Chosen::behind_call, crate::proofs::Chosen::behind_none, crate::proofs::Chosen::no_call))]
fn chosen_by(
    alloc: Global,
    program: &Program,
    node: u32,
    word: &str,
    others: &[&str],
) -> Result<Option<Vec<Chosen>>, Memory>
    ensures { IfOk result (λ o. option_map (λ v. map chosen_seen v.items) o ≡ chosen_by (program_seen program.now) node word.now (map (λ t. t.now) others.now)) }
{
    match others {
        [] => said(alloc, program, node, word),
        [next, rest @ ..] => {
            let Some(call) = call_by(alloc, program, node, word)? else {
                return Ok(None);
            };
            match chosen_by(alloc, program, call.node, next, rest)? {
                Some(found) => Ok(Some(all_behind(alloc, word, call.number, found)?)),
                None => Ok(None),
            }
        }
    }
}

/// The variables that a name chooses from a node, if it leads to any.
fn chosen_named(
    alloc: Global,
    program: &Program,
    node: u32,
    name: &str,
) -> Result<Option<Vec<Chosen>>, Memory>
    ensures { IfOk result (λ o. option_map (λ v. map chosen_seen v.items) o ≡ chosen_named (program_seen program.now) node name.now) }
{
    let words = parts_between(alloc, name, '.')?;
    match words.as_slice() {
        [word, others @ ..] => chosen_by(alloc, program, node, word, others),
        [] => Ok(None),
    }
}

/// The variables that names choose from a node, in their order; or the place of the first that leads nowhere, from 1.
pub(crate) fn chosen_all(
    alloc: Global,
    program: &Program,
    node: u32,
    list: &str,
) -> Result<Result<Vec<Chosen>, u64>, Memory>
    ensures { let p = program_seen program.now in let names = names_in list.now in
        IfOk result (λ r. IfOk r (λ v. Choose p node names (map chosen_seen v.items)) × IfErr r (IsFirstUnknown p node names)) }
{
    let mut all = Vec::new(alloc);
    let names = parts_between(alloc, list, ',')?;
    for (place, name) in names.iter().enumerate() {
        let Some(mut found) = chosen_named(alloc, program, node, name)? else {
            return Ok(Err(place as u64 + 1));
        };
        all.append(&mut found)?;
    }
    Ok(Ok(all))
}

//! Calls by the steps of paths: the names of called nodes.

ghost use Rattle.std.specs.Prelude.{◌≡◌, ◌<◌, ◌==◌, ◌++◌, ◌^◌, IfOk, MatchOption, OnOk, flat_map, map, option_map};
ghost use Rattle.std.specs.List.{slice_split};
ghost use Rattle.std.specs.Str.{bytes_eq};
ghost use Rattle.lus_program.specs.Programs.{empty_node, node_at};
ghost use Rattle.lus_program.specs.View.{node_of, program_seen, variable_of};
ghost use Rattle.lus_parts.specs.Parts.{part_of};
ghost use Rattle.lus_asked.specs.Reading.{number_below};
ghost use Rattle.lus_sketches.specs.Paths.{call_of, called_seen, calls_at, calls_of, place_of, step_of, step_seen};

use crate::numbers::{number, number_of};
use lus_parts::{Part, parts_of};
use lus_program::{Form, Node, Program, Variable};
use lus_traces::parts_between;
use lus_values::Memory;
use std::alloc::{AllocError, Global};

/// A call in the text of a node: the node that it calls, and its number.
#[derive(Clone, Copy)]
pub(crate) struct Called {
    pub(crate) node: u32,
    pub(crate) number: u32,
}

/// A step of a path: the name of a called node, and the place of the call among those of nodes of this name, from 0.
#[derive(Clone, Copy)]
struct Step<'a> {
    name: &'a str,
    place: usize,
}

/// The variables of a node.
pub(crate) fn variables_of(program: &Program, node: u32) -> &[Variable]
    ensures { map variable_of result.now ≡ (node_at (program_seen program.now) node).variables }
{
    match program.nodes.get(node as usize) {
        Some(found) => &found.variables,
        None => &[],
    }
}

/// A node of the program.
pub(crate) fn node_in(program: &Program, number: u32) -> Option<&Node>
    ensures { MatchOption result (node_at (program_seen program.now) number ≡ empty_node) (λ f. node_of f.now ≡ node_at (program_seen program.now) number) }
{
    program.nodes.get(number as usize)
}

/// Whether this is the name of a node.
fn is_name_of(program: &Program, node: u32, name: &str) -> bool
    ensures { let p = program_seen program.now in result ≡ bytes_eq (node_at p node).name name.now }
{
    match program.nodes.get(node as usize) {
        Some(found) => found.name.as_str() == name,
        None => name.is_empty(),
    }
}

/// Appends the call that a part is, if it is one of a node of this name.
fn push_call(
    program: &Program,
    name: &str,
    part: &Part<'_>,
    calls: &mut Vec<Called>,
) -> Result<(), Memory>
    ensures { OnOk result (map called_seen calls.new.items
        ≡ map called_seen calls.old.items ++ calls_at (program_seen program.now) name.now (part_of part.now)) }
{
    if let Form::Call(node, _) = &part.expr.form
        && is_name_of(program, *node, name)
    {
        let number = number_of(part.number)?;
        calls.push(Called {
            node: *node,
            number,
        })?;
    }
    Ok(())
}

/// The calls among parts that are of nodes of this name.
fn calls_in(
    alloc: Global,
    program: &Program,
    name: &str,
    parts: &[Part<'_>],
) -> Result<Vec<Called>, Memory>
    ensures { IfOk result (λ v. map called_seen v.items ≡ flat_map (calls_at (program_seen program.now) name.now) (map part_of parts.now)) }
{
    let mut calls = Vec::new(alloc);
    for part in parts {
        push_call(program, name, part, &mut calls)?;
    }
    Ok(calls)
}

/// The calls in the text of a node that are of nodes of this name.
fn calls_of(alloc: Global, program: &Program, node: u32, name: &str) -> Result<Vec<Called>, Memory>
    ensures { IfOk result (λ v. map called_seen v.items ≡ calls_of (program_seen program.now) node name.now) }
{
    match node_in(program, node) {
        Some(found) => {
            let parts = parts_of(alloc, program, found)?;
            calls_in(alloc, program, name, &parts)
        }
        None => Ok(Vec::new(alloc)),
    }
}

/// The place, from 0, of what is counted from 1 by a text.
fn place_by(digits: &str) -> Option<usize>
    ensures { result ≡ place_of (number_below (2 ^ 64) digits.now) }
{
    match number(digits) {
        Some(count) if count > 0 => Some((count - 1) as usize),
        _ => None,
    }
}

/// What a step says: the name of a node, and behind a `#` which of the calls, counted from 1.
fn step_in<'a>(alloc: Global, text: &'a str) -> Result<Option<Step<'a>>, AllocError>
    ensures { IfOk result (λ o. option_map step_seen o ≡ step_of (slice_split (λ b. b == 35) text.now)) }
{
    let words = parts_between(alloc, text, '#')?;
    match words.as_slice() {
        [name] => Ok(Some(Step {
            name: *name,
            place: 0,
        })),
        [name, digits] => match place_by(digits) {
            Some(place) => Ok(Some(Step { name: *name, place })),
            None => Ok(None),
        },
        _ => Ok(None),
    }
}

/// The call of a node to which a step leads, if there is one.
pub(crate) fn call_by(
    alloc: Global,
    program: &Program,
    node: u32,
    step: &str,
) -> Result<Option<Called>, Memory>
    ensures { IfOk result (λ o. option_map called_seen o ≡ call_of (program_seen program.now) node step.now) }
{
    let Some(step) = step_in(alloc, step)? else {
        return Ok(None);
    };
    let calls = calls_of(alloc, program, node, step.name)?;
    match calls.get(step.place) {
        Some(call) => Ok(Some(*call)),
        None => Ok(None),
    }
}

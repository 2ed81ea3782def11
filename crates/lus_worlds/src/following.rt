//! What the equations of a node give its variables, and whether its inputs are given.

ghost use Rattle.std.specs.Prelude.{◌≡◌, ◌<◌, ◌↔◌, ℕ, IfOk, IsTrue, length, map, true};
ghost use Rattle.lus_values.specs.Lists.{item};
ghost use Rattle.lus_program.specs.Programs.{node_at};
ghost use Rattle.lus_program.specs.View.{node_of, program_seen};
ghost use Rattle.lus_values.specs.View.{entry_of};
ghost use Rattle.lus_streams.specs.Equations.{node_parts};
ghost use Rattle.lus_parts.specs.Parts.{part_of};
ghost use Rattle.lus_reference.specs.Placed.{place_of};
ghost use Rattle.lus_worlds.specs.Existing.{AreGiven};
ghost use Rattle.lus_worlds.specs.Following.{IsGiven, IsMeant};

use lus_parts::{Part, clock_of};
use lus_program::{Node, Program};
use lus_reference::{Place, define, has_entry, is_on};
use lus_values::{Memory, Row, Value};
use std::alloc::Global;

/// What a variable with this place has where its clock is present or not.
pub fn meant(
    alloc: Global,
    program: &Program,
    row: &[Option<Value>],
    node: &Node,
    parts: &[Part<'_>],
    place: Option<Place>,
    on: bool,
    kept: &[Option<Value>],
    rows: &[Row],
) -> Result<Option<Value>, Memory>
    requires { map part_of parts.now ≡ node_parts (program_seen program.now) (node_of node.now) }
    ensures { IfOk result (λ v. (x : ℕ) → place ≡ place_of node.now x → IsMeant (program_seen program.now) (map entry_of row.now) (node_of node.now) x on (map entry_of kept.now) rows.now (entry_of v)) }
{
    if on {
        define(alloc, program, row, node, parts, place, kept, rows)
    } else {
        Ok(None)
    }
}

/// The place at a variable's number; past the last there is none.
pub fn place_at(places: &[Option<Place>], variable: u32) -> Option<Place>
    ensures { result ≡ item None places.now variable }
{
    match places.get(variable as usize) {
        Some(place) => *place,
        None => None,
    }
}

/// Whether an input has an entry where its clock is present, and only there, while the base is.
fn is_given(
    alloc: Global,
    node: &Node,
    inputs: &[Option<Value>],
    variable: u32,
) -> Result<bool, Memory>
    ensures { IfOk result (λ b. IsTrue b ↔ IsGiven true (map entry_of inputs.now) (node_of node.now) variable) }
{
    let clock = clock_of(alloc, &node.variables, variable)?;
    let on = is_on(&clock, true, inputs);
    Ok(on == has_entry(inputs, variable as usize))
}

/// Whether these are inputs of a node: as many as it has, and each is given.
fn all_given(alloc: Global, node: &Node, inputs: &[Option<Value>]) -> Result<bool, Memory>
    ensures { IfOk result (λ b. IsTrue b ↔ AreGiven (node_of node.now) (map entry_of inputs.now)) }
{
    if inputs.len() != node.inputs as usize {
        return Ok(false);
    }
    for variable in 0..node.inputs {
        let given = is_given(alloc, node, inputs, variable)?;
        if !given {
            return Ok(false);
        }
    }
    Ok(true)
}

/// Whether these are inputs of the node with a number.
pub fn are_given(
    alloc: Global,
    program: &Program,
    number: u32,
    inputs: &[Option<Value>],
) -> Result<bool, Memory>
    ensures { let p = program_seen program.now in
        IfOk result (λ b. number < length p.nodes → IsTrue b ↔ AreGiven (node_at p number) (map entry_of inputs.now)) }
{
    match program.nodes.get(number as usize) {
        Some(node) => all_given(alloc, node, inputs),
        None => Ok(false),
    }
}

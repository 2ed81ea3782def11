//! What a call sees of the node that it calls, and what stands there for its formals.

ghost use Rattle.std.specs.Prelude.{◌≡◌, map, slice_get};
ghost use Rattle.lus_program.specs.Programs.{node_at};
ghost use Rattle.lus_program.specs.View.{expression_of, variable_of, operands_of, program_seen};
ghost use Rattle.lus_streams.specs.OnClock.{actuals};
ghost use Rattle.lus_clocks.specs.Fitting.{name_of as name_in, names_in, formals_of};

use lus_program::{Expr, Form, Program, Variable};

/// The variables of a node; past the last node there are none.
pub fn variables_at(program: &Program, node: u32) -> &[Variable]
    ensures { map variable_of result.now ≡ (node_at (program_seen program.now) node).variables }
{
    match program.nodes.get(node as usize) {
        Some(called) => called.variables.as_slice(),
        None => &[],
    }
}

/// How many inputs a node has.
pub fn inputs_at(program: &Program, node: u32) -> u32
    ensures { result ≡ (node_at (program_seen program.now) node).inputs }
{
    match program.nodes.get(node as usize) {
        Some(called) => called.inputs,
        None => 0,
    }
}

/// How many outputs a node has.
pub fn outputs_at(program: &Program, node: u32) -> u32
    ensures { result ≡ (node_at (program_seen program.now) node).outputs }
{
    match program.nodes.get(node as usize) {
        Some(called) => called.outputs,
        None => 0,
    }
}

/// The inputs and the outputs of a node.
pub fn formals_at(program: &Program, node: u32) -> &[Variable]
    ensures { map variable_of result.now ≡ formals_of (node_at (program_seen program.now) node) }
{
    let variables = variables_at(program, node);
    let count = inputs_at(program, node) as usize + outputs_at(program, node) as usize;
    if count < variables.len() {
        &variables[..count]
    } else {
        variables
    }
}

/// The name that an expression is, if it is one.
fn name_of(expr: &Expr) -> Option<u32>
    ensures { result ≡ name_in (expression_of expr.now) }
{
    match &expr.form {
        Form::Variable(name) => Some(*name),
        _ => None,
    }
}

/// The variable at a place on the left, none past the last.
fn target_at(targets: &[u32], place: usize) -> Option<u32>
    ensures { result ≡ slice_get targets.now place }
{
    targets.get(place).copied()
}

/// The variable that stands for a formal: an argument that is a name, or past the arguments a variable on the left.
pub fn name_for(arguments: &[Expr], targets: &[u32], formal: usize) -> Option<u32>
    ensures { result ≡ names_in (actuals (operands_of arguments.now) targets.now) formal }
{
    match arguments.get(formal) {
        Some(argument) => name_of(argument),
        None => target_at(targets, formal - arguments.len()),
    }
}

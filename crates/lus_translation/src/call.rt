//! Calls of nodes.

ghost use Rattle.std.specs.Prelude.{◌≡◌, ◌++◌, IfOk, OnOk, map};
ghost use Rattle.lus_program.specs.Programs.{node_at};
ghost use Rattle.lus_program.specs.View.{expression_of, operands_of, program_seen};
ghost use Rattle.lus_streams.specs.Clocks.{base_of as base_in, operand, renamed_clock};
ghost use Rattle.lus_translation.specs.Forms.{call_form, renamed_one};
ghost use Rattle.lus_translation.specs.Newest.{argument_seen, call_seen, tested_argument, tested_call};
ghost use Rattle.lus_translation.specs.Building.{clock_among, arguments_from};

use crate::atom::atom_of;
use crate::clock::{clock_at, newest, without_tests};
use crate::numbers::number_of;
use lus_clocks::{inputs_at, variables_at};
use lus_instructions::{Argument, Call};
use lus_program::{Expr, Form, Program, Test, Variable};
use lus_values::Memory;
use std::alloc::Global;

/// A test on the variable that an expression is, with this constructor; none where it is no variable.
fn test_on(expr: &Expr, constructor: u32) -> Option<Test>
    ensures { result ≡ renamed_one (expression_of expr.now) constructor }
{
    match &expr.form {
        Form::Variable(variable) => Some(Test {
            variable: *variable,
            constructor,
        }),
        _ => None,
    }
}

/// A test on a formal, as one on the variable that is its argument; none where that is no variable.
fn renamed(arguments: &[Expr], test: Test) -> Option<Test>
    ensures { result ≡ renamed_one (operand (operands_of arguments.now) test.variable) test.constructor }
{
    match arguments.get(test.variable as usize) {
        Some(argument) => test_on(argument, test.constructor),
        None => None,
    }
}

/// Appends tests on formals, as tests on the arguments.
fn add_renamed(arguments: &[Expr], tests: &[Test], clock: &mut Vec<Test>) -> Result<(), Memory>
    ensures { OnOk result (clock.new.items ≡ clock.old.items ++ renamed_clock (operands_of arguments.now) tests.now) }
{
    for test in tests {
        if let Some(test) = renamed(arguments, *test) {
            clock.push(test)?;
        }
    }
    Ok(())
}

/// The clock of an argument: the base with the tests of its formal, as tests on the arguments.
fn formal_clock(
    alloc: Global,
    formals: &[Variable],
    formal: u32,
    arguments: &[Expr],
    base: &[Test],
) -> Result<Vec<Test>, Memory>
    ensures { IfOk result (λ k. k.items ≡ renamed_clock (operands_of arguments.now) (clock_among formals.now formal) ++ base.now) }
{
    let tests = clock_at(alloc, formals, formal)?;
    let mut clock = Vec::new(alloc);
    add_renamed(arguments, &tests, &mut clock)?;
    clock.extend_from_slice(base)?;
    Ok(clock)
}

/// The arguments of a call with a base, each on the clock of its formal.
fn arguments_of(
    alloc: Global,
    program: &Program,
    called: u32,
    arguments: &[Expr],
    base: &[Test],
) -> Result<Vec<Argument>, Memory>
    ensures { let formed = arguments_from program.now called arguments.now base.now in
        IfOk result (λ found. map argument_seen found.items ≡ map tested_argument formed) }
{
    let mut found = Vec::with_capacity(alloc, arguments.len())?;
    for (formal, argument) in arguments.iter().enumerate() {
        let formal = number_of(formal)?;
        let clock = formal_clock(
            alloc,
            variables_at(program, called),
            formal,
            arguments,
            base,
        )?;
        let atom = atom_of(alloc, argument)?;
        let test = newest(&clock);
        found.push(Argument { test, atom })?;
    }
    Ok(found)
}

/// The base of a call on a clock: the clock without the tests of the called node's first output.
fn base_of(
    alloc: Global,
    program: &Program,
    called: u32,
    clock: &[Test],
) -> Result<Vec<Test>, Memory>
    ensures { IfOk result (λ k. k.items ≡ base_in (node_at (program_seen program.now) called) clock.now) }
{
    let output = clock_at(
        alloc,
        variables_at(program, called),
        inputs_at(program, called),
    )?;
    without_tests(alloc, output.len(), clock)
}

/// The call of a node on the right side of an equation on a clock.
pub fn call_of(
    alloc: Global,
    program: &Program,
    called: u32,
    arguments: &[Expr],
    clock: &[Test],
) -> Result<Call, Memory>
    ensures { let formed = call_form (program_seen program.now) called (operands_of arguments.now) clock.now in
        IfOk result (λ q. call_seen q ≡ tested_call formed) }
{
    let base = base_of(alloc, program, called, clock)?;
    let arguments = arguments_of(alloc, program, called, arguments, &base)?;
    Ok(Call {
        node: called,
        base: newest(&base),
        arguments,
    })
}

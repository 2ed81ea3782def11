//! Whole clocks, the newest test first.

ghost use Rattle.std.specs.Prelude.{◌≡◌, ◌++◌, ◌∷◌, IfOk, OnOk, drop, length, map};
ghost use Rattle.lus_values.specs.Lists.{item};
ghost use Rattle.lus_program.specs.Programs.{no_variable, node_at};
ghost use Rattle.lus_program.specs.View.{expression_of, operands_of, program_seen, variable_of};
ghost use Rattle.lus_streams.specs.Clocks.{base_of, chain, formal_clock, operand, renamed_clock};
ghost use Rattle.lus_parts.specs.Renaming.{renamed_one};

use lus_clocks::{inputs_at, variables_at};
use lus_program::{Expr, Form, Program, Test, Variable};
use lus_values::Memory;
use std::alloc::Global;

/// The test with which a variable is declared; past the last variable there is none.
fn test_at(variables: &[Variable], variable: u32) -> Option<Test>
    ensures { result ≡ (item no_variable (map variable_of variables.now) variable).test }
{
    match variables.get(variable as usize) {
        Some(declared) => declared.test,
        None => None,
    }
}

/// The clock of a variable.
pub fn clock_of(alloc: Global, variables: &[Variable], variable: u32) -> Result<Vec<Test>, Memory>
    ensures { IfOk result (λ k. k.items ≡ chain (length (map variable_of variables.now)) (map variable_of variables.now) variable) }
{
    let mut clock = Vec::new(alloc);
    let mut current = variable;
    for _step in 0..variables.len() {
        match test_at(variables, current) {
            Some(test) => {
                clock.push(test)?;
                current = test.variable;
            }
            None => return Ok(clock),
        }
    }
    Ok(clock)
}

/// The clock without its newest tests.
pub fn without_tests(clock: &[Test], count: usize) -> &[Test]
    ensures { result.now ≡ drop count clock.now }
{
    if count < clock.len() {
        &clock[count..]
    } else {
        &[]
    }
}

/// A test on the variable that an expression is, with this constructor; none where it is no variable.
fn test_on(expr: &Expr, constructor: u32) -> Option<Test>
    ensures { result ≡ renamed_one (expression_of expr.now) constructor }
{
    match &expr.form {
        Form::Variable(variable) => Some(Test {
            variable: *variable,
            constructor,
        }),
        _ => None,
    }
}

/// A test on a formal, as one on the variable that is its argument; none where that is no variable.
fn renamed(arguments: &[Expr], test: Test) -> Option<Test>
    ensures { result ≡ renamed_one (operand (operands_of arguments.now) test.variable) test.constructor }
{
    match arguments.get(test.variable as usize) {
        Some(argument) => test_on(argument, test.constructor),
        None => None,
    }
}

/// Appends tests on formals, as tests on the arguments.
fn add_renamed(arguments: &[Expr], tests: &[Test], clock: &mut Vec<Test>) -> Result<(), Memory>
    ensures { OnOk result (clock.new.items ≡ clock.old.items ++ renamed_clock (operands_of arguments.now) tests.now) }
{
    for test in tests {
        if let Some(test) = renamed(arguments, *test) {
            clock.push(test)?;
        }
    }
    Ok(())
}

/// The base of a call of a node whose first output is on this clock.
pub fn base_of(
    alloc: Global,
    program: &Program,
    called: u32,
    clock: &[Test],
) -> Result<Vec<Test>, Memory>
    ensures { IfOk result (λ k. k.items ≡ base_of (node_at (program_seen program.now) called) clock.now) }
{
    let output = clock_of(
        alloc,
        variables_at(program, called),
        inputs_at(program, called),
    )?;
    copy_clock(alloc, without_tests(clock, output.len()))
}

/// The clock of an argument of a call with this base.
pub fn formal_clock(
    alloc: Global,
    program: &Program,
    called: u32,
    arguments: &[Expr],
    base: &[Test],
    formal: u32,
) -> Result<Vec<Test>, Memory>
    ensures { IfOk result (λ k. k.items ≡ formal_clock (node_at (program_seen program.now) called) (operands_of arguments.now) base.now formal) }
{
    let tests = clock_of(alloc, variables_at(program, called), formal)?;
    let mut clock = Vec::new(alloc);
    add_renamed(arguments, &tests, &mut clock)?;
    clock.extend_from_slice(base)?;
    Ok(clock)
}

/// The clock with a test added.
pub fn with_test(alloc: Global, test: Test, clock: &[Test]) -> Result<Vec<Test>, Memory>
    ensures { IfOk result (λ k. k.items ≡ test ∷ clock.now) }
{
    let mut longer = Vec::new(alloc);
    longer.push(test)?;
    longer.extend_from_slice(clock)?;
    Ok(longer)
}

/// An equal clock.
pub fn copy_clock(alloc: Global, clock: &[Test]) -> Result<Vec<Test>, Memory>
    ensures { IfOk result (λ k. k.items ≡ clock.now) }
{
    let mut copy = Vec::new(alloc);
    copy.extend_from_slice(clock)?;
    Ok(copy)
}

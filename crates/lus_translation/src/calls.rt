//! The calls of a node, in the order of its text.

ghost use Rattle.std.specs.Prelude.{◌≡◌, IfOk, OnOk, length, map};
ghost use Rattle.lus_values.specs.Lists.{item};
ghost use Rattle.lus_program.specs.View.{expression_of, node_of};
ghost use Rattle.lus_streams.specs.Clocks.{clock_of as clock_in};
ghost use Rattle.lus_translation.specs.Forms.{next_number, numbers_form};
ghost use Rattle.lus_translation.specs.Newest.{call_seen, tested_call};
ghost use Rattle.lus_translation.specs.Building.{calls_from, AddsCall};

use crate::call::call_of;
use crate::clock::clock_at;
use crate::numbers::next;
use lus_instructions::Call;
use lus_program::{Equation, Expr, Form, Node, Program, Test};
use lus_values::Memory;
use std::alloc::Global;

/// The clock of an equation: that of its first variable, and of variable 0 where there is none.
pub fn clock_of_equation(
    alloc: Global,
    node: &Node,
    equation: &Equation,
) -> Result<Vec<Test>, Memory>
    ensures { IfOk result (λ k. k.items ≡ clock_in (node_of node.now) (item 0 equation.now.targets.items 0)) }
{
    match equation.targets.first() {
        Some(target) => clock_at(alloc, &node.variables, *target),
        None => clock_at(alloc, &node.variables, 0),
    }
}

/// Appends the call of an equation whose right side is one.
fn add_call(
    alloc: Global,
    program: &Program,
    node: &Node,
    equation: &Equation,
    calls: &mut Vec<Call>,
) -> Result<(), Memory>
    ensures { OnOk result (AddsCall program.now node.now equation.now calls.old.items calls.new.items) }
{
    match &equation.right.form {
        Form::Call(called, arguments) => {
            let clock = clock_of_equation(alloc, node, equation)?;
            let call = call_of(alloc, program, *called, arguments, &clock)?;
            calls.push(call)?;
            Ok(())
        }
        _ => Ok(()),
    }
}

/// The calls that are right sides of a node, in the order of its equations.
pub fn calls_of(alloc: Global, program: &Program, node: &Node) -> Result<Vec<Call>, Memory>
    ensures { IfOk result (λ qs. map call_seen qs.items ≡ map tested_call (calls_from program.now node.now)) }
{
    let mut calls = Vec::new(alloc);
    for equation in &node.equations {
        add_call(alloc, program, node, equation, &mut calls)?;
    }
    Ok(calls)
}

/// The number of the next call behind a right side: that of its own call is counted, where it is one.
fn number_behind(number: u32, right: &Expr) -> Result<u32, Memory>
    ensures { IfOk result (λ n. n ≡ next_number number (expression_of right.now)) }
{
    match &right.form {
        Form::Call(_, _) => next(number),
        _ => Ok(number),
    }
}

/// For each equation the number of its call: how many calls are right sides before it.
pub fn numbers_of(alloc: Global, node: &Node) -> Result<Vec<u32>, Memory>
    ensures numbers { IfOk result (λ ns. ns.items ≡ numbers_form 0 node.now.equations.items) }
    ensures size { IfOk result (λ ns. length ns.items ≡ length node.now.equations.items) }
{
    let mut numbers = Vec::with_capacity(alloc, node.equations.len())?;
    let mut calls = 0;
    for equation in &node.equations {
        numbers.push(calls)?;
        calls = number_behind(calls, &equation.right)?;
    }
    Ok(numbers)
}

/// The newest test of each variable of a node.
pub fn tests_of(alloc: Global, node: &Node) -> Result<Vec<Option<Test>>, Memory>
    ensures { IfOk result (λ ts. ts.items ≡ map (λ v. v.test) node.now.variables.items) }
{
    let mut tests = Vec::with_capacity(alloc, node.variables.len())?;
    for variable in &node.variables {
        tests.push(variable.test)?;
    }
    Ok(tests)
}

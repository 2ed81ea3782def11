//! The parts of a text, in its order.

ghost use Rattle.std.specs.Prelude.{◌≡◌, ◌≤◌, ◌<◌, ◌+◌, ◌++◌, ◌∷◌, [], IfOk, OnOk, drop, length, map};
ghost use Rattle.lus_values.specs.Lists.{item};
ghost use Rattle.lus_program.specs.Programs.{all_calls, all_numbered, calls, numbered};
ghost use Rattle.lus_program.specs.View.{expression_of, node_of, operands_of, program_seen};
ghost use Rattle.lus_streams.specs.Clocks.{all_parts, at, clock_of, parts};
ghost use Rattle.lus_streams.specs.Equations.{node_parts};
ghost use Rattle.lus_parts.specs.Nested.{AreNested};
ghost use Rattle.lus_parts.specs.Parts.{operand_clock, part_of};

use crate::clocks::{clock_of, copy_clock, without_tests};
use crate::part::Part;
use crate::under::{Under, operand_clock};
use lus_program::{Equation, Expr, Form, Node, Program, Test};
use lus_values::Memory;
use std::alloc::Global;

/// Appends an expression on this clock and the parts in it, its calls numbered from a number on. Returns the next call's number.
#[cycle(parts)]
fn push_parts<'p>(
    alloc: Global,
    program: &Program,
    expr: &'p Expr,
    clock: &[Test],
    number: usize,
    found: &mut Vec<Part<'p>>,
) -> Result<usize, Memory>
    requires { number ≤ length found.old.items }
    ensures next { IfOk result (λ n. n ≡ number + calls (expression_of expr.now)) }
    ensures room { IfOk result (λ n. n ≤ length found.new.items) }
    ensures found { OnOk result (map part_of found.new.items ≡ map part_of found.old.items ++ parts (program_seen program.now) (numbered number (expression_of expr.now)) clock.now) }
{
    push_part(alloc, expr, clock, number, found)?;
    push_below(alloc, program, expr, clock, number, found)
}

/// Appends the parts below an expression on this clock. Returns the next call's number.
#[cycle(parts)]
fn push_below<'p>(
    alloc: Global,
    program: &Program,
    expr: &'p Expr,
    clock: &[Test],
    number: usize,
    found: &mut Vec<Part<'p>>,
) -> Result<usize, Memory>
    requires { number < length found.old.items }
    ensures next { IfOk result (λ n. n ≡ number + calls (expression_of expr.now)) }
    ensures room { IfOk result (λ n. n ≤ length found.new.items) }
    ensures found { OnOk result (map part_of found.new.items ≡ map part_of found.old.items ++ drop 1 (parts (program_seen program.now) (numbered number (expression_of expr.now)) clock.now)) }
{
    match &expr.form {
        Form::Literal(_) => Ok(number),
        Form::Variable(_) => Ok(number),
        Form::Operate(_, operands) => push_operands(
            alloc,
            program,
            Under::Operator,
            operands,
            clock,
            number,
            found,
        ),
        Form::Pre(operand) => push_parts(alloc, program, operand, clock, number, found),
        Form::Arrow(first, later) => {
            let next = push_parts(alloc, program, first, clock, number, found)?;
            push_parts(alloc, program, later, clock, next, found)
        }
        Form::When(_, operand) => {
            let outer = without_tests(clock, 1);
            push_parts(alloc, program, operand, outer, number, found)
        }
        Form::Merge(variable, branches) => push_operands(
            alloc,
            program,
            Under::Merge(*variable),
            branches,
            clock,
            number,
            found,
        ),
        Form::Call(called, arguments) => push_operands(
            alloc,
            program,
            Under::Call(*called),
            arguments,
            clock,
            number + 1,
            found,
        ),
    }
}

/// Appends the operands of an expression on this clock and the parts in them. Returns the next call's number.
#[cycle(parts)]
fn push_operands<'p>(
    alloc: Global,
    program: &Program,
    under: Under,
    operands: &'p [Expr],
    clock: &[Test],
    number: usize,
    found: &mut Vec<Part<'p>>,
) -> Result<usize, Memory>
    requires { number ≤ length found.old.items }
    ensures next { IfOk result (λ n. n ≡ number + all_calls (operands_of operands.now)) }
    ensures room { IfOk result (λ n. n ≤ length found.new.items) }
    ensures found { let p = program_seen program.now in
        let es = operands_of operands.now in
        OnOk result (map part_of found.new.items ≡ map part_of found.old.items ++ all_parts p (all_numbered number es) (operand_clock p under es clock.now) 0) }
{
    let mut next = number;
    for (index, operand) in operands.iter().enumerate() {
        let place = number_of(index)?;
        let own = operand_clock(alloc, program, under, operands, clock, place)?;
        let after = push_parts(alloc, program, operand, &own, next, found)?;
        next = after;
    }
    Ok(next)
}

/// Appends an expression on this clock.
fn push_part<'p>(
    alloc: Global,
    expr: &'p Expr,
    clock: &[Test],
    number: usize,
    found: &mut Vec<Part<'p>>,
) -> Result<(), Memory>
    ensures more { OnOk result (length found.new.items ≡ length found.old.items + 1) }
    ensures found { OnOk result (map part_of found.new.items ≡ map part_of found.old.items ++ at clock.now (numbered number (expression_of expr.now)) ∷ []) }
{
    let own = copy_clock(alloc, clock)?;
    found.push(Part {
        expr,
        clock: own,
        number,
    })?;
    Ok(())
}

/// A count as a number, if it is one.
fn number_of(count: usize) -> Result<u32, Memory>
    ensures { IfOk result (λ n. n ≡ count) }
{
    match u32::try_from(count) {
        Ok(number) => Ok(number),
        Err(_) => Err(Memory),
    }
}

/// The clock of an equation.
fn equation_clock(alloc: Global, node: &Node, equation: &Equation) -> Result<Vec<Test>, Memory>
    ensures { IfOk result (λ k. k.items ≡ clock_of (node_of node.now) (item 0 equation.now.targets.items 0)) }
{
    let first = match equation.targets.first() {
        Some(target) => *target,
        None => 0,
    };
    clock_of(alloc, &node.variables, first)
}

/// The expressions in the text of a node, each with its own clock, in the order of the text: so each is followed by those in it.
/// Memory is taken for their clocks, and where a merge or a call has more than 2^32 operands it is out.
pub fn parts_of<'p>(
    alloc: Global,
    program: &Program,
    node: &'p Node,
) -> Result<Vec<Part<'p>>, Memory>
    ensures parts { IfOk result (λ es. map part_of es.items ≡ node_parts (program_seen program.now) (node_of node.now)) }
    ensures nested { IfOk result (λ es. AreNested (program_seen program.now) (map part_of es.items)) }
{
    let mut found = Vec::new(alloc);
    let mut next = 0;
    for equation in &node.equations {
        let clock = equation_clock(alloc, node, equation)?;
        let after = push_parts(alloc, program, &equation.right, &clock, next, &mut found)?;
        next = after;
    }
    Ok(found)
}

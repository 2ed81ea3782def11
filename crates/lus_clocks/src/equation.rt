//! Whether an equation is on clocks.

ghost use Rattle.std.specs.Prelude.{◌≡◌, is_ok};
ghost use Rattle.lus_values.specs.Lists.{item};
ghost use Rattle.lus_program.specs.Programs.{node_at};
ghost use Rattle.lus_program.specs.View.{expression_of, node_of, operands_of, program_seen};
ghost use Rattle.lus_streams.specs.OnClock.{actuals, test_of};
ghost use Rattle.lus_clocks.specs.Fitting.{names_in, outputs_fit, lefts_fit, equation_fits, equations_fit};
ghost use Rattle.lus_clocks.specs.View.{clock_in};

use crate::call::{base_of, follows_base, names_tested};
use crate::clock::{NewestTest, clock_at, same_clock};
use crate::expression::{check_arguments, check_expression};
use crate::fault::{Misplaced, OffClock, require};
use crate::formals::{formals_at, inputs_at, variables_at};
use lus_program::{Equation, Expr, Form, Node, Program};

/// The variables on the left are on the clock of the right side, which is no call.
fn lefts_are_on(node: &Node, targets: &[u32], clock: Option<NewestTest>) -> bool
    ensures { result ≡ lefts_fit (node_of node.now) (clock_in clock) targets.now }
{
    for target in targets {
        if !same_clock(clock_at(&node.variables, *target as usize), clock) {
            return false;
        }
    }
    true
}

/// The variables on the left are on the clocks of a call's outputs.
fn outputs_are_on(
    program: &Program,
    node: &Node,
    called: u32,
    arguments: &[Expr],
    targets: &[u32],
    base: Option<NewestTest>,
) -> bool
    ensures { let g = node_at (program_seen program.now) called in
        let names = names_in (actuals (operands_of arguments.now) targets.now) in
        result ≡ outputs_fit (node_of node.now) g names (clock_in base) 0 targets.now }
{
    let named = names_tested(formals_at(program, called), arguments, targets);
    let variables = variables_at(program, called);
    let inputs = inputs_at(program, called) as usize;
    for (output, target) in targets.iter().enumerate() {
        let clock = clock_at(&node.variables, *target as usize);
        if !(follows_base(
            node,
            variables,
            inputs + output,
            arguments,
            targets,
            base,
            clock,
        ) && named)
        {
            return false;
        }
    }
    true
}

/// The clock of the first variable on the left, and of variable 0 where there is none.
fn clock_of_first(node: &Node, targets: &[u32]) -> Option<NewestTest>
    ensures { clock_in result ≡ test_of (node_of node.now) (item 0 targets.now 0) }
{
    match targets.first() {
        Some(target) => clock_at(&node.variables, *target as usize),
        None => clock_at(&node.variables, 0),
    }
}

/// Fails at the first token of the right side, or of a part of it, where the equation isn't on clocks.
fn check_equation(program: &Program, node: &Node, equation: &Equation) -> Result<(), Misplaced>
    ensures { let f = node_of node.now in
        let xs = equation.now.targets.items in
        is_ok result ≡ equation_fits (program_seen program.now) f xs (expression_of equation.now.right) (test_of f (item 0 xs 0)) }
{
    let clock = clock_of_first(node, &equation.targets);
    let right = &equation.right;
    match &right.form {
        Form::Call(called, arguments) => {
            let base = base_of(program, node, *called, clock);
            require(
                outputs_are_on(program, node, *called, arguments, &equation.targets, base),
                Misplaced {
                    place: right.place,
                    why: OffClock::Output(*called, clock, base),
                },
            )?;
            check_arguments(program, node, *called, arguments, base)
        }
        _ => {
            require(
                lefts_are_on(node, &equation.targets, clock),
                Misplaced {
                    place: right.place,
                    why: OffClock::Left(clock),
                },
            )?;
            check_expression(program, node, right, clock)
        }
    }
}

/// Fails where an equation of the node isn't on clocks.
pub fn check_equations(program: &Program, node: &Node) -> Result<(), Misplaced>
    ensures { is_ok result ≡ equations_fit (program_seen program.now) (node_of node.now) node.now.equations.items }
{
    for equation in &node.equations {
        check_equation(program, node, equation)?;
    }
    Ok(())
}

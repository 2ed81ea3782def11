//! Whether an expression is on the clock of its place.

ghost use Rattle.std.specs.Prelude.{◌≡◌, [], is_ok};
ghost use Rattle.lus_program.specs.Programs.{node_at};
ghost use Rattle.lus_program.specs.View.{expression_of, node_of, operands_of, program_seen};
ghost use Rattle.lus_streams.specs.OnClock.{actuals};
ghost use Rattle.lus_clocks.specs.Fitting.{fits, operands_fit, branches_fit, arguments_fit, names_in, output_fits, same_test};
ghost use Rattle.lus_clocks.specs.View.{clock_in};

use crate::call::{argument_clock, base_of, follows_base, names_tested};
use crate::clock::{NewestTest, clock_at, clock_on, same_clock};
use crate::fault::{Misplaced, OffClock, require};
use crate::formals::{formals_at, inputs_at, variables_at};
use lus_program::{Expr, Form, Node, Program};
use lus_syntax::Place;

/// Fails at a place that is on a clock, where it has to be on another one.
fn require_same(
    place: Place,
    found: Option<NewestTest>,
    wanted: Option<NewestTest>,
) -> Result<(), Misplaced>
    ensures { is_ok result ≡ same_test (clock_in found) (clock_in wanted) }
{
    require(
        same_clock(found, wanted),
        Misplaced {
            place,
            why: OffClock::Other(found, wanted),
        },
    )
}

/// Fails at the first token of a part that isn't on its clock, where the expression is on this one.
#[cycle(expressions)]
pub fn check_expression(
    program: &Program,
    node: &Node,
    expr: &Expr,
    clock: Option<NewestTest>,
) -> Result<(), Misplaced>
    ensures { is_ok result ≡ fits (program_seen program.now) (node_of node.now) (expression_of expr.now) (clock_in clock) }
{
    match &expr.form {
        Form::Literal(_) => Ok(()),
        Form::Variable(variable) => {
            let found = clock_at(&node.variables, *variable as usize);
            require_same(expr.place, found, clock)
        }
        Form::Operate(_, operands) => check_operands(program, node, operands, clock),
        Form::Pre(operand) => check_expression(program, node, operand, clock),
        Form::Arrow(first, later) => {
            check_expression(program, node, first, clock)?;
            check_expression(program, node, later, clock)
        }
        Form::When(test, operand) => {
            require_same(expr.place, clock_on(*test), clock)?;
            check_expression(
                program,
                node,
                operand,
                clock_at(&node.variables, test.variable as usize),
            )
        }
        Form::Merge(variable, branches) => {
            let found = clock_at(&node.variables, *variable as usize);
            require_same(expr.place, found, clock)?;
            check_branches(program, node, *variable, branches)
        }
        Form::Call(called, arguments) => {
            let base = base_of(program, node, *called, clock);
            require(
                is_output(program, node, *called, arguments, base, clock),
                Misplaced {
                    place: expr.place,
                    why: OffClock::Output(*called, clock, base),
                },
            )?;
            check_arguments(program, node, *called, arguments, base)
        }
    }
}

/// The one output of a call that is an expression is on this clock.
fn is_output(
    program: &Program,
    node: &Node,
    called: u32,
    arguments: &[Expr],
    base: Option<NewestTest>,
    clock: Option<NewestTest>,
) -> bool
    ensures { let g = node_at (program_seen program.now) called in
        let names = names_in (actuals (operands_of arguments.now) []) in
        result ≡ output_fits (node_of node.now) g names 0 (clock_in base) (clock_in clock) }
{
    let first = inputs_at(program, called) as usize;
    follows_base(
        node,
        variables_at(program, called),
        first,
        arguments,
        &[],
        base,
        clock,
    ) && names_tested(formals_at(program, called), arguments, &[])
}

#[cycle(expressions)]
fn check_operands(
    program: &Program,
    node: &Node,
    operands: &[Expr],
    clock: Option<NewestTest>,
) -> Result<(), Misplaced>
    ensures { is_ok result ≡ operands_fit (program_seen program.now) (node_of node.now) (operands_of operands.now) (clock_in clock) }
{
    for operand in operands {
        check_expression(program, node, operand, clock)?;
    }
    Ok(())
}

/// Each branch is on the clock of the merge's variable with its own constructor.
#[cycle(expressions)]
fn check_branches(
    program: &Program,
    node: &Node,
    variable: u32,
    branches: &[Expr],
) -> Result<(), Misplaced>
    ensures { is_ok result ≡ branches_fit (program_seen program.now) (node_of node.now) (operands_of branches.now) variable 0 }
{
    for (constructor, branch) in branches.iter().enumerate() {
        let clock = NewestTest {
            variable: variable as usize,
            constructor,
        };
        check_expression(program, node, branch, Some(clock))?;
    }
    Ok(())
}

/// Each argument of a call with this base is on the clock of its formal.
#[cycle(expressions)]
pub fn check_arguments(
    program: &Program,
    node: &Node,
    called: u32,
    arguments: &[Expr],
    base: Option<NewestTest>,
) -> Result<(), Misplaced>
    ensures { let p = program_seen program.now in
        let args = operands_of arguments.now in
        is_ok result ≡ arguments_fit p (node_of node.now) args (node_at p called) (names_in (actuals args [])) (clock_in base) 0 }
{
    for (formal, argument) in arguments.iter().enumerate() {
        let clock = argument_clock(variables_at(program, called), formal, arguments, base);
        check_expression(program, node, argument, clock)?;
    }
    Ok(())
}

//! The clocks of a call: of its outputs and of its arguments.

ghost use Rattle.std.specs.Prelude.{◌≡◌, [], length, map};
ghost use Rattle.lus_program.specs.Programs.{node_at};
ghost use Rattle.lus_program.specs.View.{variable_of, node_of, operands_of, program_seen};
ghost use Rattle.lus_streams.specs.Clocks.{chain};
ghost use Rattle.lus_streams.specs.OnClock.{actuals};
ghost use Rattle.lus_clocks.specs.View.{clock_in};
ghost use Rattle.lus_clocks.specs.Fitting.{names_in, leads_to, renamed_first, are_named, base_test};

use crate::clock::{NewestTest, clock_at, clock_on, depth_of, same_clock, test_at, without_tests};
use crate::formals::{inputs_at, name_for, variables_at};
use lus_program::{Expr, Node, Program, Test, Variable};

/// The base of a call whose first output is on this clock.
pub fn base_of(
    program: &Program,
    node: &Node,
    called: u32,
    clock: Option<NewestTest>,
) -> Option<NewestTest>
    ensures { clock_in result ≡ base_test (node_of node.now) (node_at (program_seen program.now) called) (clock_in clock) }
{
    let depth = depth_of(
        variables_at(program, called),
        inputs_at(program, called) as usize,
    );
    without_tests(node, depth, clock)
}

/// A clock is the base with the tests of an output, as tests on what stands for the formals.
pub fn follows_base(
    node: &Node,
    formals: &[Variable],
    output: usize,
    arguments: &[Expr],
    targets: &[u32],
    base: Option<NewestTest>,
    clock: Option<NewestTest>,
) -> bool
    ensures { let vs = map variable_of formals.now in
        let names = names_in (actuals (operands_of arguments.now) targets.now) in
        result ≡ leads_to (node_of node.now) names (chain (length vs) vs output) (clock_in base) (clock_in clock) }
{
    let mut rest = clock;
    let mut formal = output;
    for _step in 0..formals.len() {
        match test_at(formals, formal) {
            Some(test) => {
                if let Some(name) = name_for(arguments, targets, test.variable as usize) {
                    let renamed = Test {
                        variable: name,
                        constructor: test.constructor,
                    };
                    if !same_clock(rest, clock_on(renamed)) {
                        return false;
                    }
                    rest = clock_at(&node.variables, name as usize);
                }
                formal = test.variable as usize;
            }
            None => return same_clock(rest, base),
        }
    }
    same_clock(rest, base)
}

/// A variable stands for each formal that a clock of these formals tests.
pub fn names_tested(formals: &[Variable], arguments: &[Expr], targets: &[u32]) -> bool
    ensures { result ≡ are_named (names_in (actuals (operands_of arguments.now) targets.now)) (map variable_of formals.now) }
{
    for formal in formals {
        if let Some(test) = formal.test {
            if name_for(arguments, targets, test.variable as usize).is_none() {
                return false;
            }
        }
    }
    true
}

/// The clock of an argument: the base with the tests of its formal, as tests on what stands for the formals.
pub fn argument_clock(
    formals: &[Variable],
    formal: usize,
    arguments: &[Expr],
    base: Option<NewestTest>,
) -> Option<NewestTest>
    ensures { let vs = map variable_of formals.now in
        clock_in result ≡ renamed_first (names_in (actuals (operands_of arguments.now) [])) (chain (length vs) vs formal) (clock_in base) }
{
    let mut current = formal;
    for _step in 0..formals.len() {
        match test_at(formals, current) {
            Some(test) => {
                if let Some(name) = name_for(arguments, &[], test.variable as usize) {
                    return clock_on(Test {
                        variable: name,
                        constructor: test.constructor,
                    });
                }
                current = test.variable as usize;
            }
            None => return base,
        }
    }
    base
}

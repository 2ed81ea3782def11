//! The clock of a place in a node's text: its newest test, none for the base clock. Where declared clocks aren't circular
//! that determines the clock, since what follows a test is the clock of the test's variable.

ghost use Rattle.std.specs.Prelude.{◌≡◌, Some, length, map};
ghost use Rattle.lus_values.specs.Lists.{item};
ghost use Rattle.lus_program.specs.Programs.{no_variable};
ghost use Rattle.lus_program.specs.View.{variable_of, node_of};
ghost use Rattle.lus_streams.specs.Clocks.{chain};
ghost use Rattle.lus_clocks.specs.Fitting.{same_test, without_test, without_tests as without_newest};
ghost use Rattle.lus_clocks.specs.View.{clock_in};

use crate::tests::tests_of;
use lus_program::{Node, Test, Variable};

/// The newest test of a clock. A constructor is a branch's place too, of which there may be any number.
#[derive(Clone, Copy, PartialEq, Eq, Debug)]
pub struct NewestTest {
    pub variable: usize,
    pub constructor: usize,
}

/// The clock with this test as its newest.
pub fn clock_on(test: Test) -> Option<NewestTest>
    ensures { clock_in result ≡ Some test }
{
    Some(NewestTest {
        variable: test.variable as usize,
        constructor: test.constructor as usize,
    })
}

/// The test with which a variable is declared; past the last variable there is none.
pub fn test_at(variables: &[Variable], variable: usize) -> Option<Test>
    ensures { result ≡ (item no_variable (map variable_of variables.now) variable).test }
{
    match variables.get(variable) {
        Some(declared) => declared.test,
        None => None,
    }
}

/// The clock of a variable.
pub fn clock_at(variables: &[Variable], variable: usize) -> Option<NewestTest>
    ensures { clock_in result ≡ (item no_variable (map variable_of variables.now) variable).test }
{
    match test_at(variables, variable) {
        Some(test) => clock_on(test),
        None => None,
    }
}

/// Two places are on one clock.
pub fn same_clock(left: Option<NewestTest>, right: Option<NewestTest>) -> bool
    ensures { result ≡ same_test (clock_in left) (clock_in right) }
{
    match (left, right) {
        (None, None) => true,
        (Some(a), Some(b)) => a.variable == b.variable && a.constructor == b.constructor,
        _ => false,
    }
}

/// How many tests the clock of a variable has.
pub fn depth_of(variables: &[Variable], variable: usize) -> usize
    ensures { result ≡ length (chain (length (map variable_of variables.now)) (map variable_of variables.now) variable) }
{
    tests_of(variables, variable).count()
}

/// The clock without its newest test.
pub fn outer_clock(node: &Node, clock: Option<NewestTest>) -> Option<NewestTest>
    ensures { clock_in result ≡ without_test (node_of node.now) (clock_in clock) }
{
    match clock {
        Some(test) => clock_at(&node.variables, test.variable),
        None => None,
    }
}

/// The clock without its newest tests.
pub fn without_tests(node: &Node, count: usize, clock: Option<NewestTest>) -> Option<NewestTest>
    ensures { clock_in result ≡ without_newest (node_of node.now) count (clock_in clock) }
{
    let mut rest = clock;
    for _test in 0..count {
        rest = outer_clock(node, rest);
    }
    rest
}

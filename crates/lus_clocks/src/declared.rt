//! Whether the declared clocks of a node are lawful.

ghost use Rattle.std.specs.Prelude.{◌≡◌, is_ok};
ghost use Rattle.lus_program.specs.View.{node_of};
ghost use Rattle.lus_clocks.specs.Fitting.{may_test as test_allowed, is_declared, are_declared};

use crate::clock::depth_of;
use crate::fault::{Misplaced, OffClock};
use lus_program::{Node, Test};

/// An input is tested by an input, an output by an input or an output.
fn may_test(node: &Node, variable: usize, tested: usize) -> bool
    ensures { result ≡ test_allowed (node_of node.now) variable tested }
{
    let inputs = node.inputs as usize;
    let formals = inputs + node.outputs as usize;
    (variable >= inputs || tested < inputs) && (variable >= formals || tested < formals)
}

/// The clock of a variable that is declared with a test is the test after the clock of the test's variable.
fn is_lawful(node: &Node, variable: usize, test: Option<Test>) -> bool
    ensures { result ≡ is_declared (node_of node.now) variable test }
{
    match test {
        Some(test) => {
            let tested = test.variable as usize;
            let depth = depth_of(&node.variables, variable);
            let tested_depth = depth_of(&node.variables, tested);
            tested_depth < depth && depth - tested_depth == 1 && may_test(node, variable, tested)
        }
        None => true,
    }
}

/// Fails at the declaration of a variable whose clock isn't lawful.
pub fn check_declared(node: &Node) -> Result<(), Misplaced>
    ensures { is_ok result ≡ are_declared (node_of node.now) 0 (node_of node.now).variables }
{
    for (index, variable) in node.variables.iter().enumerate() {
        if !is_lawful(node, index, variable.test) {
            return Err(Misplaced {
                place: variable.place,
                why: OffClock::Declared,
            });
        }
    }
    Ok(())
}

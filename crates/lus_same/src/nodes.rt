//! Nodes compared.

ghost use Rattle.std.specs.Prelude.{◌≡◌, IsTrue, map};
ghost use Rattle.lus_program.specs.View.{equations_from, node_of, variable_of};
ghost use Rattle.lus_same.specs.Nameless.{nameless_node, nameless_variable};
ghost use Rattle.lus_same.specs.Stored.{stored};

use crate::expressions::same_expression;
use lus_program::{Equation, Node, Variable};

/// Whether two variables are one but for their names.
fn same_variable(left: &Variable, right: &Variable) -> bool
    ensures { IsTrue result → nameless_variable (variable_of left.now) ≡ nameless_variable (variable_of right.now) }
{
    left.kind == right.kind && left.test == right.test
}

/// Whether variables are the same but for their names, one by one.
fn same_variables(left: &[Variable], right: &[Variable]) -> bool
    ensures { IsTrue result → map nameless_variable (map variable_of left.now) ≡ map nameless_variable (map variable_of right.now) }
{
    if left.len() != right.len() {
        return false;
    }
    for (variable, other) in left.iter().zip(right) {
        if !same_variable(variable, other) {
            return false;
        }
    }
    true
}

/// Whether two equations are one.
fn same_equation(left: &Equation, right: &Equation) -> bool
    ensures { IsTrue result → stored left.now ≡ stored right.now }
{
    left.targets == right.targets && same_expression(&left.right, &right.right)
}

/// Whether equations are the same, one by one.
fn same_stored(left: &[Equation], right: &[Equation]) -> bool
    ensures { IsTrue result → map stored left.now ≡ map stored right.now }
{
    if left.len() != right.len() {
        return false;
    }
    for (equation, other) in left.iter().zip(right) {
        if !same_equation(equation, other) {
            return false;
        }
    }
    true
}

/// Whether a node's equations are another one's, with its calls numbered as they stand.
#[tactic(auto, using(crate::proofs::Numbering::same_numbered))]
fn same_equations(left: &[Equation], right: &[Equation]) -> bool
    ensures { IsTrue result → equations_from 0 left.now ≡ equations_from 0 right.now }
{
    same_stored(left, right)
}

/// Whether two nodes are one but for their names.
fn same_node(left: &Node, right: &Node) -> bool
    ensures { IsTrue result → nameless_node (node_of left.now) ≡ nameless_node (node_of right.now) }
{
    left.kind == right.kind
        && left.inputs == right.inputs
        && left.outputs == right.outputs
        && same_variables(&left.variables, &right.variables)
        && same_equations(&left.equations, &right.equations)
}

/// Whether nodes are the same but for their names, one by one.
pub fn same_nodes(left: &[Node], right: &[Node]) -> bool
    ensures { IsTrue result → map nameless_node (map node_of left.now) ≡ map nameless_node (map node_of right.now) }
{
    if left.len() != right.len() {
        return false;
    }
    for (node, other) in left.iter().zip(right) {
        if !same_node(node, other) {
            return false;
        }
    }
    true
}

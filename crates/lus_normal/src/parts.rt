//! How many parts a program has, against the limit of them.

ghost use Rattle.std.specs.Prelude.{◌≡◌, ◌↔◌, IsTrue, min};
ghost use Rattle.lus_program.specs.Parts.{node_parts as parts_in, parts as parts_of, parts_all};
ghost use Rattle.lus_program.specs.View.{expression_of, node_of, operands_of, program_seen};
ghost use Rattle.lus_normal.specs.Parts.{HasFewParts};

use lus_program::{Expr, Form, Node, Program};
use lus_syntax::MOST_PARTS;

/// The parts of an expression, or the greatest `u32` where there are more.
#[cycle(parts)]
fn parts(expr: &Expr) -> u32
    ensures { result ≡ min (parts_of (expression_of expr.now)) 4294967295 }
{
    match &expr.form {
        Form::Literal(_) => 1,
        Form::Variable(_) => 1,
        Form::Operate(_, operands) => all_parts(operands).saturating_add(1),
        Form::Pre(operand) => parts(operand).saturating_add(1),
        Form::Arrow(first, later) => parts(first).saturating_add(parts(later)).saturating_add(1),
        Form::When(_, operand) => parts(operand).saturating_add(1),
        Form::Merge(_, branches) => all_parts(branches).saturating_add(1),
        Form::Call(_, arguments) => all_parts(arguments).saturating_add(1),
    }
}

#[cycle(parts)]
fn all_parts(operands: &[Expr]) -> u32
    ensures { result ≡ min (parts_all (operands_of operands.now)) 4294967295 }
{
    let mut total: u32 = 0;
    for operand in operands {
        total = total.saturating_add(parts(operand));
    }
    total
}

/// The parts of a node, or the greatest `u32` where there are more.
fn node_parts(node: &Node) -> u32
    ensures { result ≡ min (parts_in (node_of node.now)) 4294967295 }
{
    let mut total: u32 = 0;
    for equation in &node.equations {
        total = total
            .saturating_add(parts(&equation.right))
            .saturating_add(1);
    }
    total
}

/// Whether the parts of a program can be numbered. The program of a text that isn't too long always has so few.
pub(crate) fn has_few_parts(program: &Program) -> bool
    ensures { IsTrue result ↔ HasFewParts (program_seen program.now) }
{
    let mut total: u32 = 0;
    for node in &program.nodes {
        total = total.saturating_add(node_parts(node));
    }
    total as usize <= MOST_PARTS
}

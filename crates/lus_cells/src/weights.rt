//! One walk over an expression for its type and its cells.

ghost use Rattle.std.specs.Prelude.{◌≡◌, ◌+◌, max, min, sum_by};
ghost use Rattle.lus_values.specs.Lists.{item};
ghost use Rattle.lus_program.specs.declared.types.Kind.TheVariants.{Bool as OfBool};
ghost use Rattle.lus_program.specs.View.{expression_of, node_of, operands_of, program_seen};
ghost use Rattle.lus_program.specs.Given.{given, last_given};
ghost use Rattle.lus_program.specs.Leaves.{kind_leaves as leaves_in};
ghost use Rattle.lus_cells.specs.Given.{all_counted, counted, most};

use lus_program::{
    Expr, Form, Kind, Node, Program, operator_kind, output_kind, value_kind, variable_kind,
};

/// What an expression gives, and its cells, or the greatest `u32` where it has more.
#[derive(Clone, Copy)]
struct Weight {
    kind: Kind,
    cells: u32,
}

impl Weight {
    /// What gives this type and keeps nothing.
    fn new(kind: Kind) -> Weight
        ensures kind { result.kind ≡ kind }
        ensures cells { result.cells ≡ 0 }
    {
        Weight { kind, cells: 0 }
    }

    /// The same type, and so many more cells.
    fn with(self, more: u32) -> Weight
        ensures kind { result.kind ≡ self.kind }
        ensures cells { result.cells ≡ min (self.cells + more) most }
    {
        Weight {
            kind: self.kind,
            cells: self.cells.saturating_add(more),
        }
    }
}

/// The leaves of a type, by those of the declared types; one for an unknown type.
fn kind_leaves(leaves: &[u32], kind: Kind) -> u32
    ensures { result ≡ leaves_in (item 1 leaves.now) kind }
{
    match kind {
        Kind::Bool => 1,
        Kind::Int => 1,
        Kind::Enum(_) => 1,
        Kind::Struct(number) => leaves.get(number as usize).copied().unwrap_or(1),
    }
}

/// The cells of a call: those of the called node, but at least one.
fn call_cells(cells: &[u32], called: u32) -> u32
    ensures { result ≡ max 1 (item 0 cells.now called) }
{
    cells.get(called as usize).copied().unwrap_or(0).max(1)
}

/// The type and the cells of an expression, by the leaves of the types and the cells of the nodes that it calls.
#[cycle(weighing)]
fn weigh(program: &Program, node: &Node, leaves: &[u32], cells: &[u32], expr: &Expr) -> Weight
    ensures kind { result.kind ≡ given (program_seen program.now) (node_of node.now) (expression_of expr.now) }
    ensures cells { let count = counted (program_seen program.now) (node_of node.now) leaves.now cells.now in
        result.cells ≡ min (count (expression_of expr.now)) most }
{
    match &expr.form {
        Form::Literal(value) => Weight::new(value_kind(value)),
        Form::Variable(variable) => Weight::new(variable_kind(node, *variable)),
        Form::Operate(operator, operands) => {
            let all = weigh_all(program, node, leaves, cells, operands);
            Weight::new(operator_kind(program, *operator, all.kind)).with(all.cells)
        }
        Form::Pre(operand) => {
            let kept = weigh(program, node, leaves, cells, operand);
            kept.with(kind_leaves(leaves, kept.kind))
        }
        Form::Arrow(first, later) => {
            let first = weigh(program, node, leaves, cells, first);
            let later = weigh(program, node, leaves, cells, later);
            first.with(later.cells).with(1)
        }
        Form::When(_, operand) => weigh(program, node, leaves, cells, operand),
        Form::Merge(_, branches) => weigh_all(program, node, leaves, cells, branches),
        Form::Call(called, arguments) => {
            let all = weigh_all(program, node, leaves, cells, arguments);
            let called_cells = call_cells(cells, *called);
            Weight::new(output_kind(program, *called))
                .with(called_cells)
                .with(all.cells)
        }
    }
}

/// The type of the last operand, bool where there is none, and the cells of all.
#[cycle(weighing)]
fn weigh_all(
    program: &Program,
    node: &Node,
    leaves: &[u32],
    cells: &[u32],
    operands: &[Expr],
) -> Weight
    ensures kind { result.kind ≡ last_given (program_seen program.now) (node_of node.now) OfBool (operands_of operands.now) }
    ensures cells { let count = all_counted (program_seen program.now) (node_of node.now) leaves.now cells.now in
        result.cells ≡ min (count (operands_of operands.now)) most }
{
    let mut kind = Kind::Bool;
    let mut total: u32 = 0;
    for operand in operands {
        let weight = weigh(program, node, leaves, cells, operand);
        kind = weight.kind;
        total = total.saturating_add(weight.cells);
    }
    Weight { kind, cells: total }
}

/// The cells of a node.
pub fn node_cells(program: &Program, node: &Node, leaves: &[u32], cells: &[u32]) -> u32
    ensures { let count = counted (program_seen program.now) (node_of node.now) leaves.now cells.now in
        result ≡ min (sum_by (λ q. count (expression_of q.right)) node.now.equations.items) most }
{
    let mut total: u32 = 0;
    for equation in &node.equations {
        total = total.saturating_add(weigh(program, node, leaves, cells, &equation.right).cells);
    }
    total
}

//! Where expressions stand in a right side, and on which clocks.

ghost use Rattle.std.specs.Prelude.{◌≡◌};
ghost use Rattle.lus_program.specs.View.{expression_of, node_of};
ghost use Rattle.lus_streams.specs.OnClock.{test_of as test_in};
ghost use Rattle.lus_clocks.specs.View.{clock_in};
ghost use Rattle.lus_normal_form.specs.Forms.{is_taken as is_taken_at};
ghost use Rattle.lus_normal.specs.Operands.{position_in, operand_test};

use lus_clocks::{NewestTest, argument_clock, clock_on, variables_at};
use lus_program::{Expr, Form, Node, Program};

/// Where an expression stands in a right side.
#[derive(Clone, Copy)]
pub enum Position {
    /// As an operand of an operator or of `->`, or as a branch: a call is taken out.
    Inside,
    /// As an operand of `pre` or `when`, or as an argument: all but a literal or a variable is taken out.
    Operand,
}

/// The clocks of operands.
#[derive(Clone, Copy)]
pub enum Clocks {
    /// All are on this one.
    Same(Option<NewestTest>),
    /// They are the branches of a merge by this variable.
    Branches(u32),
    /// They are the arguments of a call of this node, with this base.
    Arguments(u32, Option<NewestTest>),
}

/// An expression is taken out where it stands.
pub fn is_taken(position: Position, expr: &Expr) -> bool
    ensures { result ≡ is_taken_at (position_in position) (expression_of expr.now) }
{
    match &expr.form {
        Form::Literal(_) | Form::Variable(_) => false,
        Form::Call(_, _) => true,
        _ => matches!(position, Position::Operand),
    }
}

/// The clock of a variable of a node; past the last variable it is the base clock.
pub fn clock_of(node: &Node, variable: u32) -> Option<NewestTest>
    ensures { clock_in result ≡ test_in (node_of node.now) variable }
{
    match node.variables.get(variable as usize) {
        Some(declared) => match declared.test {
            Some(test) => clock_on(test),
            None => None,
        },
        None => None,
    }
}

/// The clock of the operand at a place.
pub fn operand_clock(
    program: &Program,
    operands: &[Expr],
    clocks: Clocks,
    place: usize,
) -> Option<NewestTest>
    ensures { clock_in result ≡ operand_test program.now operands.now clocks place }
{
    match clocks {
        Clocks::Same(clock) => clock,
        Clocks::Branches(variable) => Some(NewestTest {
            variable: variable as usize,
            constructor: place,
        }),
        Clocks::Arguments(called, base) => {
            argument_clock(variables_at(program, called), place, operands, base)
        }
    }
}

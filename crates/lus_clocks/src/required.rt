//! Whether the text of a node meets what flags require of it.

ghost use Rattle.std.specs.Prelude.{◌≡◌, not, map, take, is_ok};
ghost use Rattle.lus_program.specs.View.{expression_of, operands_of, variable_of, node_of};
ghost use Rattle.lus_streams.specs.Flags.{greatest};
ghost use Rattle.lus_clocks.specs.Raising.{flags_in, meets, all_meet, rights_meet, tests_meet, none_raised, all_required};

use crate::fault::{Needed, Wanting, require};
use crate::flag::{flag_at, flag_of};
use crate::raising::count_formals;
use crate::values::is_nil_free;
use lus_program::{Expr, Form, Node};
use lus_syntax::Place;

/// What may be nil at a place.
fn wanting(place: Place, needed: Needed) -> Wanting {
    Wanting { place, needed }
}

/// A tested variable that may be nil.
fn tested(node: &Node, variable: u32) -> Wanting {
    wanting(node.place_of(variable as usize), Needed::Tested(variable))
}

/// Fails at the first token of an operand that may be nil, where an expression or a part of it requires that it isn't.
#[cycle(requirements)]
fn check_meets(node: &Node, flags: &[bool], expr: &Expr) -> Result<(), Wanting>
    ensures { is_ok result ≡ meets (flags_in flags.now) (expression_of expr.now) }
{
    match &expr.form {
        Form::Literal(value) => require(is_nil_free(value), wanting(expr.place, Needed::Literal)),
        Form::Variable(_) => Ok(()),
        Form::Operate(_, operands) => check_all_meet(node, flags, operands),
        Form::Pre(operand) => {
            require(
                !flag_of(flags, operand),
                wanting(operand.place, Needed::Delayed),
            )?;
            check_meets(node, flags, operand)
        }
        Form::Arrow(first, later) => {
            check_meets(node, flags, first)?;
            check_meets(node, flags, later)
        }
        Form::When(test, operand) => {
            require(
                !flag_at(flags, test.variable as usize),
                tested(node, test.variable),
            )?;
            check_meets(node, flags, operand)
        }
        Form::Merge(variable, branches) => {
            require(!flag_at(flags, *variable as usize), tested(node, *variable))?;
            check_flagless(flags, branches, Needed::Branch(*variable))?;
            check_all_meet(node, flags, branches)
        }
        Form::Call(called, arguments) => {
            check_flagless(flags, arguments, Needed::Argument(*called))?;
            check_all_meet(node, flags, arguments)
        }
    }
}

#[cycle(requirements)]
fn check_all_meet(node: &Node, flags: &[bool], operands: &[Expr]) -> Result<(), Wanting>
    ensures { is_ok result ≡ all_meet (flags_in flags.now) (operands_of operands.now) }
{
    for operand in operands {
        check_meets(node, flags, operand)?;
    }
    Ok(())
}

/// Fails at the first token of an operand that may be nil.
fn check_flagless(flags: &[bool], operands: &[Expr], needed: Needed) -> Result<(), Wanting>
    ensures { is_ok result ≡ not (greatest (flags_in flags.now) (operands_of operands.now)) }
{
    for operand in operands {
        require(!flag_of(flags, operand), wanting(operand.place, needed))?;
    }
    Ok(())
}

/// Fails where a right side of the equations doesn't meet its requirements.
fn check_rights(node: &Node, flags: &[bool]) -> Result<(), Wanting>
    ensures { is_ok result ≡ rights_meet (flags_in flags.now) node.now.equations.items }
{
    for equation in &node.equations {
        check_meets(node, flags, &equation.right)?;
    }
    Ok(())
}

/// Fails where a variable that another is declared with may be nil.
fn check_tests(node: &Node, flags: &[bool]) -> Result<(), Wanting>
    ensures { is_ok result ≡ tests_meet (flags_in flags.now) (map variable_of node.now.variables.items) }
{
    for variable in &node.variables {
        if let Some(test) = variable.test {
            let flag = flag_at(flags, test.variable as usize);
            require(!flag, tested(node, test.variable))?;
        }
    }
    Ok(())
}

/// The first of some flags.
fn front(flags: &[bool], count: usize) -> &[bool]
    ensures { result.now ≡ take count flags.now }
{
    if count < flags.len() {
        &flags[..count]
    } else {
        flags
    }
}

/// Fails where one of the first variables, which have these flags, may be nil.
fn check_none_raised(node: &Node, flags: &[bool]) -> Result<(), Wanting>
    ensures { is_ok result ≡ none_raised flags.now }
{
    for (variable, flag) in flags.iter().enumerate() {
        require(
            !*flag,
            wanting(node.place_of(variable), Needed::Formal(variable)),
        )?;
    }
    Ok(())
}

/// Fails where flags, which meet the equations of a node's locals, don't meet all else that is required. Under them the
/// equations give the flags in `given`: an output is at fault where its own equation may be nil.
pub fn check_required(node: &Node, flags: &[bool], given: &[bool]) -> Result<(), Wanting>
    ensures { is_ok result ≡ all_required (node_of node.now) node.now.equations.items flags.now given.now }
{
    check_none_raised(node, front(given, count_formals(node)))?;
    check_tests(node, flags)?;
    check_rights(node, flags)
}

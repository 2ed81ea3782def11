//! Flags of expressions, where each variable has the one that a table gives it.

ghost use Rattle.std.specs.Prelude.{◌≡◌};
ghost use Rattle.lus_program.specs.View.{expression_of, operands_of};
ghost use Rattle.lus_streams.specs.Flags.{flag as flag_by, greatest};
ghost use Rattle.lus_clocks.specs.Raising.{flags_in};

use lus_program::{Expr, Form};

/// The flag of a variable; past the table it is false.
pub fn flag_at(flags: &[bool], variable: usize) -> bool
    ensures { result ≡ flags_in flags.now variable }
{
    match flags.get(variable) {
        Some(flag) => *flag,
        None => false,
    }
}

/// Whether an expression may be nil at the first instant of its clock.
#[cycle(flags)]
pub fn flag_of(flags: &[bool], expr: &Expr) -> bool
    ensures { result ≡ flag_by (flags_in flags.now) (expression_of expr.now) }
{
    match &expr.form {
        Form::Literal(_) => false,
        Form::Variable(variable) => flag_at(flags, *variable as usize),
        Form::Operate(_, operands) => greatest_flag(flags, operands),
        Form::Pre(_) => true,
        Form::Arrow(first, _) => flag_of(flags, first),
        Form::When(_, operand) => flag_of(flags, operand),
        Form::Merge(_, _) => false,
        Form::Call(_, _) => false,
    }
}

/// The greatest flag of some operands.
#[cycle(flags)]
pub fn greatest_flag(flags: &[bool], operands: &[Expr]) -> bool
    ensures { result ≡ greatest (flags_in flags.now) (operands_of operands.now) }
{
    for operand in operands {
        if flag_of(flags, operand) {
            return true;
        }
    }
    false
}

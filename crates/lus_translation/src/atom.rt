//! Atoms of operands.

ghost use Rattle.std.specs.Prelude.{◌≡◌, IfOk};
ghost use Rattle.lus_program.specs.View.{expression_of};
ghost use Rattle.lus_classes.specs.View.{atom_of as atom_in, code_of as code_in};
ghost use Rattle.lus_classes.specs.ClassesOf.{atom_code};
ghost use Rattle.lus_translation.specs.Forms.{atom_form};

use lus_instructions::{Atom, Formula};
use lus_program::{Expr, Form};
use lus_values::{Memory, Value, copy};
use std::alloc::Global;

/// The atom of an operand: of a literal its value, of a variable itself; nil for any other, which no normal form has.
pub fn atom_of(alloc: Global, operand: &Expr) -> Result<Atom, Memory>
    ensures { IfOk result (λ a. atom_in a ≡ atom_form (expression_of operand.now)) }
{
    match &operand.form {
        Form::Literal(value) => Ok(Atom::Constant(copy(alloc, value)?)),
        Form::Variable(variable) => Ok(Atom::Variable(*variable)),
        _ => Ok(Atom::Constant(Value::Nil)),
    }
}

/// The formula of what an atom holds.
pub fn formula_of_atom(atom: Atom) -> Formula
    ensures { code_in result ≡ atom_code (atom_in atom) }
{
    match atom {
        Atom::Constant(value) => Formula::Fixed(value),
        Atom::Variable(variable) => Formula::Fetch(variable),
    }
}

//! How many parts and calls a text has.

ghost use Rattle.std.specs.Prelude.{◌≡◌, ◌+◌, IfOk};
ghost use Rattle.lus_program.specs.Parts.{parts, parts_all};
ghost use Rattle.lus_program.specs.Programs.{all_calls, calls};
ghost use Rattle.lus_program.specs.View.{expression_of, operands_of};

use lus_program::{Expr, Form};
use lus_values::Memory;

/// How many parts and calls stand before a place in a text.
#[derive(Clone, Copy, PartialEq, Eq, Debug)]
pub struct Counts {
    pub parts: usize,
    pub calls: usize,
}

/// One more.
fn one_more(count: usize) -> Result<usize, Memory>
    ensures { IfOk result (λ n. n ≡ count + 1) }
{
    match count.checked_add(1) {
        Some(next) => Ok(next),
        None => Err(Memory),
    }
}

/// How many stand before what follows an expression, from how many stand before it. Where they are too many, memory is out.
#[cycle(counts)]
pub fn count(expr: &Expr, before: Counts) -> Result<Counts, Memory>
    ensures parts { IfOk result (λ n. n.parts ≡ before.parts + parts (expression_of expr.now)) }
    ensures calls { IfOk result (λ n. n.calls ≡ before.calls + calls (expression_of expr.now)) }
{
    let parts = one_more(before.parts)?;
    let here = Counts {
        parts,
        calls: before.calls,
    };
    match &expr.form {
        Form::Literal(_) => Ok(here),
        Form::Variable(_) => Ok(here),
        Form::Operate(_, operands) => count_all(operands, here),
        Form::Pre(operand) => count(operand, here),
        Form::Arrow(first, later) => {
            let between = count(first, here)?;
            count(later, between)
        }
        Form::When(_, operand) => count(operand, here),
        Form::Merge(_, branches) => count_all(branches, here),
        Form::Call(_, arguments) => {
            let calls = one_more(before.calls)?;
            let inside = Counts { parts, calls };
            count_all(arguments, inside)
        }
    }
}

/// How many stand before what follows operands.
#[cycle(counts)]
pub fn count_all(operands: &[Expr], before: Counts) -> Result<Counts, Memory>
    ensures parts { IfOk result (λ n. n.parts ≡ before.parts + parts_all (operands_of operands.now)) }
    ensures calls { IfOk result (λ n. n.calls ≡ before.calls + all_calls (operands_of operands.now)) }
{
    let mut so_far = before;
    for operand in operands {
        let after = count(operand, so_far)?;
        so_far = after;
    }
    Ok(so_far)
}

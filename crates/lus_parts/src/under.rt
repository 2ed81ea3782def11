//! On which clocks the operands of an expression are.

ghost use Rattle.std.specs.Prelude.{◌≡◌, IfOk};
ghost use Rattle.lus_program.specs.View.{operands_of, program_seen};
ghost use Rattle.lus_parts.specs.Parts.{operand_clock};

use crate::clocks::{base_of, copy_clock, formal_clock, with_test};
use lus_program::{Expr, Program, Test};
use lus_values::Memory;
use std::alloc::Global;

/// What operands stand under: an operator, a merge by a variable, or a call of a node.
#[derive(Clone, Copy, PartialEq, Eq, Debug)]
pub enum Under {
    Operator,
    Merge(u32),
    Call(u32),
}

/// The clock of an operand of an expression on this clock.
pub fn operand_clock(
    alloc: Global,
    program: &Program,
    under: Under,
    operands: &[Expr],
    clock: &[Test],
    index: u32,
) -> Result<Vec<Test>, Memory>
    ensures { IfOk result (λ k. k.items ≡ operand_clock (program_seen program.now) under (operands_of operands.now) clock.now index) }
{
    match under {
        Under::Operator => copy_clock(alloc, clock),
        Under::Merge(variable) => {
            let test = Test {
                variable,
                constructor: index,
            };
            with_test(alloc, test, clock)
        }
        Under::Call(called) => {
            let base = base_of(alloc, program, called, clock)?;
            formal_clock(alloc, program, called, operands, &base, index)
        }
    }
}

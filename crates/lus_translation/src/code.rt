//! Codes of expressions.

ghost use Rattle.std.specs.Prelude.{◌≡◌, IfOk, OnOk};
ghost use Rattle.lus_program.specs.View.{expression_of, operands_of};
ghost use Rattle.lus_streams.specs.Clocks.{branch_clock};
ghost use Rattle.lus_translation.specs.Forms.{cell_for, kept_cells, all_kept_cells, one_clock};
ghost use Rattle.lus_translation.specs.Firsts.{place_of};
ghost use Rattle.lus_translation.specs.Newest.{newest as newest_of};
ghost use Rattle.lus_translation.specs.Building.{next_cell, KeepsCells, IsCodeFrom, AreCodesFrom, AreBranchesFrom};

use crate::atom::{atom_of, formula_of_atom};
use crate::clock::{newest, with_test};
use crate::firsts::Firsts;
use crate::numbers::number_of;
use lus_instructions::{Cell, Formula};
use lus_program::{Expr, Form, Test};
use lus_values::{Memory, Value, copy};
use std::alloc::Global;

/// A cell for an operand on a clock: its number.
fn cell_of(
    alloc: Global,
    operand: &Expr,
    clock: &[Test],
    cells: &mut Vec<Cell>,
) -> Result<u32, Memory>
    ensures number { IfOk result (λ n. n ≡ next_cell cells.old.items) }
    ensures cells { OnOk result (KeepsCells cells.old.items cells.new.items (cell_for (expression_of operand.now) clock.now)) }
{
    let number = number_of(cells.len())?;
    let test = newest(clock);
    let operand = atom_of(alloc, operand)?;
    cells.push(Cell { test, operand })?;
    Ok(number)
}

/// The number of the first-flag of a clock.
fn first_of(clock: &[Test], firsts: &Firsts) -> Result<u32, Memory>
    ensures { IfOk result (λ n. n ≡ place_of (newest_of clock.now) firsts.now) }
{
    number_of(firsts.place(newest(clock)))
}

/// The code of an expression in normal form, which is no call, on a clock. Its cells are numbered in the order of the
/// text, those of its operands first.
#[cycle(codes)]
pub fn code_of(
    alloc: Global,
    expr: &Expr,
    clock: &[Test],
    firsts: &Firsts,
    cells: &mut Vec<Cell>,
) -> Result<Formula, Memory>
    ensures code { IfOk result (λ d. IsCodeFrom cells.old.items firsts.now (expression_of expr.now) clock.now d) }
    ensures cells { OnOk result (KeepsCells cells.old.items cells.new.items (kept_cells (expression_of expr.now) clock.now)) }
{
    match &expr.form {
        Form::Literal(value) => Ok(Formula::Fixed(copy(alloc, value)?)),
        Form::Variable(variable) => Ok(Formula::Fetch(*variable)),
        Form::Operate(operator, operands) => {
            let codes = codes_of(alloc, operands, clock, firsts, cells)?;
            Ok(Formula::Compute(*operator, codes))
        }
        Form::Pre(operand) => Ok(Formula::Recall(cell_of(alloc, operand, clock, cells)?)),
        Form::Arrow(first, later) => {
            let flag = first_of(clock, firsts)?;
            let first = Box::new(alloc, code_of(alloc, first, clock, firsts, cells)?)?;
            let later = Box::new(alloc, code_of(alloc, later, clock, firsts, cells)?)?;
            Ok(Formula::Choose(flag, first, later))
        }
        Form::When(_, operand) => Ok(formula_of_atom(atom_of(alloc, operand)?)),
        Form::Merge(variable, branches) => {
            let codes = branch_codes_of(alloc, *variable, branches, clock, firsts, cells)?;
            Ok(Formula::Select(*variable, codes))
        }
        Form::Call(_, _) => Ok(Formula::Fixed(Value::Nil)),
    }
}

/// The codes of the operands of an operator.
#[cycle(codes)]
fn codes_of(
    alloc: Global,
    operands: &[Expr],
    clock: &[Test],
    firsts: &Firsts,
    cells: &mut Vec<Cell>,
) -> Result<Vec<Formula>, Memory>
    ensures code { IfOk result (λ ds. AreCodesFrom cells.old.items firsts.now (operands_of operands.now) clock.now ds.items) }
    ensures cells { let kept = all_kept_cells (operands_of operands.now) (one_clock clock.now) 0 in
        OnOk result (KeepsCells cells.old.items cells.new.items kept) }
{
    let mut codes = Vec::with_capacity(alloc, operands.len())?;
    for operand in operands {
        let code = code_of(alloc, operand, clock, firsts, cells)?;
        codes.push(code)?;
    }
    Ok(codes)
}

/// The codes of the branches of a merge by a variable.
#[cycle(codes)]
fn branch_codes_of(
    alloc: Global,
    variable: u32,
    branches: &[Expr],
    clock: &[Test],
    firsts: &Firsts,
    cells: &mut Vec<Cell>,
) -> Result<Vec<Formula>, Memory>
    ensures code { IfOk result (λ ds. AreBranchesFrom cells.old.items firsts.now (operands_of branches.now) variable clock.now ds.items) }
    ensures cells { let kept = all_kept_cells (operands_of branches.now) (branch_clock variable clock.now) 0 in
        OnOk result (KeepsCells cells.old.items cells.new.items kept) }
{
    let mut codes = Vec::new(alloc);
    for (constructor, branch) in branches.iter().enumerate() {
        let constructor = number_of(constructor)?;
        let clock = with_test(
            alloc,
            Test {
                variable,
                constructor,
            },
            clock,
        )?;
        let code = code_of(alloc, branch, &clock, firsts, cells)?;
        codes.push(code)?;
    }
    Ok(codes)
}

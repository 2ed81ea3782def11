//! The value of an expression from those of its operands.

ghost use Rattle.std.specs.Prelude.{◌≡◌, IfOk, map};
ghost use Rattle.std.specs.Option.{option_map};
ghost use Rattle.lus_values.specs.Lists.{item};
ghost use Rattle.lus_values.specs.Operators.{apply};
ghost use Rattle.lus_values.specs.View.{entry_of, value_of};
ghost use Rattle.lus_values.specs.Entries.{with_operands};
ghost use Rattle.lus_program.specs.Programs.{numbered};
ghost use Rattle.lus_program.specs.View.{expression_of, program_seen};
ghost use Rattle.lus_reference.specs.Made.{gathered, held, made, output_in, width};

use crate::entries::{before, entries_from, entry_at, has_entry, holds};
use lus_clocks::inputs_at;
use lus_instructions::{copy_value, operate};
use lus_parts::Part;
use lus_program::{Expr, Form, Program};
use lus_values::{Memory, Operator, Row, Value, copy, copy_entry};
use std::alloc::Global;

/// How many operands an expression has.
pub fn width(expr: &Expr) -> usize
    ensures { result ≡ width (expression_of expr.now) }
{
    match &expr.form {
        Form::Literal(_) => 0,
        Form::Variable(_) => 0,
        Form::Operate(_, operands) => operands.len(),
        Form::Pre(_) => 1,
        Form::Arrow(_, _) => 2,
        Form::When(_, _) => 1,
        Form::Merge(_, branches) => branches.len(),
        Form::Call(_, arguments) => arguments.len(),
    }
}

/// An output of the call with this number, which is one of this node.
pub fn output_at(
    alloc: Global,
    program: &Program,
    called: u32,
    number: usize,
    place: usize,
    rows: &[Row],
) -> Result<Option<Value>, Memory>
    ensures { IfOk result (λ v. entry_of v ≡ output_in (program_seen program.now) rows.now called number place) }
{
    match rows.get(number) {
        Some(row) => {
            let inputs = inputs_at(program, called) as usize;
            entry_at(alloc, entries_from(row.items(), inputs), place)
        }
        None => Ok(None),
    }
}

/// The values of operands, if all have one.
pub fn gathered(alloc: Global, operands: &[Option<Value>]) -> Result<Option<Vec<Value>>, Memory>
    ensures { IfOk result (λ vs. option_map (λ v. map value_of v.items) vs ≡ gathered (map entry_of operands.now)) }
{
    let mut values = Vec::new(alloc);
    for operand in operands {
        match operand {
            Some(value) => values.push(copy(alloc, value)?)?,
            None => return Ok(None),
        }
    }
    Ok(Some(values))
}

/// What an operator gives for its operands, if all have values.
fn operate_on(
    alloc: Global,
    operator: Operator,
    operands: &[Option<Value>],
) -> Result<Option<Value>, Memory>
    ensures { IfOk result (λ v. entry_of v ≡ with_operands (apply operator) (gathered (map entry_of operands.now))) }
{
    match gathered(alloc, operands)? {
        Some(values) => operate(alloc, operator, values),
        None => Ok(None),
    }
}

/// The value of the branch of the constructor that a variable holds.
fn held(
    alloc: Global,
    row: &[Option<Value>],
    variable: u32,
    branches: &[Option<Value>],
) -> Result<Option<Value>, Memory>
    ensures { IfOk result (λ v. entry_of v ≡ held (map entry_of branches.now) (item None (map entry_of row.now) variable) 0) }
{
    for (constructor, branch) in branches.iter().enumerate() {
        if holds(row, variable as usize, constructor) {
            return copy_entry(alloc, branch);
        }
    }
    Ok(None)
}

/// The value of a part, if it has one, from those of its operands, from what is kept of it and of its first operand, and from the
/// rows of the called nodes.
pub fn value_from(
    alloc: Global,
    program: &Program,
    row: &[Option<Value>],
    rows: &[Row],
    part: &Part<'_>,
    operands: &[Option<Value>],
    kept: &[Option<Value>],
) -> Result<Option<Value>, Memory>
    ensures { let e = numbered part.now.number (expression_of part.now.expr.now) in
        IfOk result (λ v. entry_of v ≡ made (program_seen program.now) (map entry_of row.now) rows.now e (map entry_of operands.now) (item None (map entry_of kept.now) 1)) }
{
    match &part.expr.form {
        Form::Literal(value) => copy_value(alloc, value),
        Form::Variable(variable) => entry_at(alloc, row, *variable as usize),
        Form::Operate(operator, _) => operate_on(alloc, *operator, operands),
        Form::Pre(_) => {
            let last = entry_at(alloc, kept, 1)?;
            Ok(before(last))
        }
        Form::Arrow(_, _) => {
            if has_entry(kept, 1) {
                entry_at(alloc, operands, 1)
            } else {
                entry_at(alloc, operands, 0)
            }
        }
        Form::When(_, _) => entry_at(alloc, operands, 0),
        Form::Merge(variable, _) => held(alloc, row, *variable, operands),
        Form::Call(called, _) => output_at(alloc, program, *called, part.number, 0, rows),
    }
}

//! The values of parts, each found once, from those of its operands: read from the end of a text, each part stands behind its operands.

ghost use Rattle.std.specs.Prelude.{◌≡◌, IfOk, OnOk, drop, map, take};
ghost use Rattle.lus_values.specs.Lists.{item};
ghost use Rattle.lus_program.specs.Programs.{numbered};
ghost use Rattle.lus_program.specs.View.{expression_of, program_seen};
ghost use Rattle.lus_values.specs.View.{entry_of};
ghost use Rattle.lus_parts.specs.Parts.{part_of};
ghost use Rattle.lus_reference.specs.Made.{AreValues, made, stack_of, width};

use crate::entries::entries_from;
use crate::value::{value_from, width};
use lus_parts::Part;
use lus_program::Program;
use lus_values::{Memory, Row, Value};
use std::alloc::Global;

/// Takes so many values off a stack, the first from its top.
fn take_values(stack: &mut Vec<Option<Value>>, count: usize) -> Result<Vec<Option<Value>>, Memory>
    ensures taken { IfOk result (λ vs. map entry_of vs.items ≡ take count (stack_of stack.old.items)) }
    ensures left { OnOk result (stack_of stack.new.items ≡ drop count (stack_of stack.old.items)) }
{
    let left = stack.len().saturating_sub(count);
    let mut values = stack.split_off(left)?;
    values.reverse();
    Ok(values)
}

/// The value of a part, if it has one, and those of its operands.
#[derive(Drop)]
pub struct Made {
    pub operands: Vec<Option<Value>>,
    pub value: Option<Value>,
}

/// The value of a part, whose operands' values are taken off a stack, from what is kept of it and of those behind it.
pub fn make(
    alloc: Global,
    program: &Program,
    row: &[Option<Value>],
    rows: &[Row],
    part: &Part<'_>,
    kept: &[Option<Value>],
    stack: &mut Vec<Option<Value>>,
) -> Result<Made, Memory>
    ensures operands { let e = numbered part.now.number (expression_of part.now.expr.now) in
        IfOk result (λ m. map entry_of m.operands.items ≡ take (width e) (stack_of stack.old.items)) }
    ensures left { let e = numbered part.now.number (expression_of part.now.expr.now) in
        OnOk result (stack_of stack.new.items ≡ drop (width e) (stack_of stack.old.items)) }
    ensures value { let e = numbered part.now.number (expression_of part.now.expr.now) in
        IfOk result (λ m. entry_of m.value ≡ made (program_seen program.now) (map entry_of row.now) rows.now e (map entry_of m.operands.items) (item None (map entry_of kept.now) 1)) }
{
    let operands = take_values(stack, width(part.expr))?;
    let value = value_from(alloc, program, row, rows, part, &operands, kept)?;
    Ok(Made { operands, value })
}

/// The values of the outermost of these parts, those that are in no other of them, from what is kept of all of them.
fn values_of(
    alloc: Global,
    program: &Program,
    row: &[Option<Value>],
    rows: &[Row],
    parts: &[Part<'_>],
    kept: &[Option<Value>],
) -> Result<Vec<Option<Value>>, Memory>
    ensures { IfOk result (λ vs. AreValues (program_seen program.now) (map entry_of row.now) rows.now (map part_of parts.now) (map entry_of kept.now) (map entry_of vs.items)) }
{
    let mut stack = Vec::new(alloc);
    for behind in 0..parts.len() {
        let place = parts.len() - 1 - behind;
        let earlier = entries_from(kept, place);
        let made = make(
            alloc,
            program,
            row,
            rows,
            &parts[place],
            earlier,
            &mut stack,
        )?;
        stack.push(made.value)?;
    }
    stack.reverse();
    Ok(stack)
}

/// So many of these parts, from a place on.
fn parts_at<'a, 'p>(parts: &'a [Part<'p>], place: usize, count: usize) -> &'a [Part<'p>]
    ensures { result.now ≡ take count (drop place parts.now) }
{
    if place >= parts.len() {
        return &[];
    }
    let rest = &parts[place..];
    if count < rest.len() {
        &rest[..count]
    } else {
        rest
    }
}

/// The values of the outermost of so many parts from a place on, from what is kept of all of a node.
pub fn values_at(
    alloc: Global,
    program: &Program,
    row: &[Option<Value>],
    rows: &[Row],
    parts: &[Part<'_>],
    place: usize,
    count: usize,
    kept: &[Option<Value>],
) -> Result<Vec<Option<Value>>, Memory>
    ensures { let own = take count (drop place (map part_of parts.now)) in
        IfOk result (λ vs. AreValues (program_seen program.now) (map entry_of row.now) rows.now own (drop place (map entry_of kept.now)) (map entry_of vs.items)) }
{
    let own = parts_at(parts, place, count);
    values_of(alloc, program, row, rows, own, entries_from(kept, place))
}

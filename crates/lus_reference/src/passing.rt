//! What a call passes to the node that it calls.

ghost use Rattle.std.specs.Prelude.{◌≡◌, IfOk, map};
ghost use Rattle.lus_program.specs.Programs.{node_at};
ghost use Rattle.lus_program.specs.View.{operands_of, program_seen};
ghost use Rattle.lus_streams.specs.Clocks.{formal_clock};
ghost use Rattle.lus_streams.specs.Streams.{where_on};
ghost use Rattle.lus_values.specs.View.{entry_of};
ghost use Rattle.lus_parts.specs.Parts.{part_of};
ghost use Rattle.lus_reference.specs.Given.{ArePassedAt, passed};

use crate::counting::{Counts, count_all};
use crate::renewal::is_on;
use crate::values::values_at;
use lus_parts::{Part, formal_clock};
use lus_program::{Expr, Program, Test};
use lus_values::{Memory, Row, Value, copy_entry};
use std::alloc::Global;

/// A count as a number, if it is one.
fn number_of(count: usize) -> Result<u32, Memory>
    ensures { IfOk result (λ n. n ≡ count) }
{
    match u32::try_from(count) {
        Ok(number) => Ok(number),
        Err(_) => Err(Memory),
    }
}

/// A value where a clock is present.
fn value_on(alloc: Global, on: bool, value: &Option<Value>) -> Result<Option<Value>, Memory>
    ensures { IfOk result (λ v. entry_of v ≡ where_on on (entry_of value.now)) }
{
    if on {
        copy_entry(alloc, value)
    } else {
        Ok(None)
    }
}

/// What formals get of the values of a call's arguments, each where its clock is present. The call has this base. Where there are more than
/// 2^32 arguments, memory is out.
fn pass_values(
    alloc: Global,
    program: &Program,
    present: bool,
    row: &[Option<Value>],
    called: u32,
    arguments: &[Expr],
    base: &[Test],
    values: &[Option<Value>],
) -> Result<Vec<Option<Value>>, Memory>
    ensures { let clocks = formal_clock (node_at (program_seen program.now) called) (operands_of arguments.now) base.now in
        IfOk result (λ vs. map entry_of vs.items ≡ passed present (map entry_of row.now) clocks 0 (map entry_of values.now)) }
{
    let mut passed = Vec::new(alloc);
    for (formal, value) in values.iter().enumerate() {
        let number = number_of(formal)?;
        let clock = formal_clock(alloc, program, called, arguments, base, number)?;
        let entry = value_on(alloc, is_on(&clock, present, row), value)?;
        passed.push(entry)?;
    }
    Ok(passed)
}

/// What the inputs of a called node hold: from the presence of the caller's base and the entries of its variables, the rows of the
/// called nodes, and the caller's parts, where those of the arguments stand from a place on, with what is kept of them. The call has this base.
pub fn pass(
    alloc: Global,
    program: &Program,
    present: bool,
    row: &[Option<Value>],
    rows: &[Row],
    called: u32,
    arguments: &[Expr],
    base: &[Test],
    parts: &[Part<'_>],
    place: usize,
    kept: &[Option<Value>],
) -> Result<Vec<Option<Value>>, Memory>
    ensures { let p = program_seen program.now in
        IfOk result (λ vs. ArePassedAt p present (map entry_of row.now) rows.now called (operands_of arguments.now) base.now (map part_of parts.now) place (map entry_of kept.now) (map entry_of vs.items)) }
{
    let size = count_all(arguments, Counts { parts: 0, calls: 0 })?;
    let values = values_at(alloc, program, row, rows, parts, place, size.parts, kept)?;
    pass_values(
        alloc, program, present, row, called, arguments, base, &values,
    )
}

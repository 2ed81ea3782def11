//! What calls pass to the nodes that they call.

ghost use Rattle.std.specs.Prelude.{IfOk, map};
ghost use Rattle.lus_program.specs.View.{operands_of, program_seen};
ghost use Rattle.lus_values.specs.View.{entry_of};
ghost use Rattle.lus_parts.specs.Parts.{part_of};
ghost use Rattle.lus_worlds.specs.Passing.{PassesAt};

use lus_parts::{Part, base_of};
use lus_program::{Expr, Program};
use lus_reference::{is_on, pass};
use lus_values::{Memory, Row, Value};
use std::alloc::Global;

/// What a call passes: whether the base of the node that it calls is present, and that node's inputs.
#[derive(Drop)]
pub struct Passed {
    pub on: bool,
    pub inputs: Vec<Option<Value>>,
}

/// What the call at a part passes, which stands before this place among the parts of its node.
pub fn pass_at(
    alloc: Global,
    program: &Program,
    present: bool,
    row: &[Option<Value>],
    rows: &[Row],
    part: &Part<'_>,
    called: u32,
    arguments: &[Expr],
    parts: &[Part<'_>],
    behind: usize,
    kept: &[Option<Value>],
) -> Result<Passed, Memory>
    ensures { IfOk result (λ v. PassesAt (program_seen program.now) present (map entry_of row.now) rows.now part.now called (operands_of arguments.now) (map part_of parts.now) behind (map entry_of kept.now) v.on (map entry_of v.inputs.items)) }
{
    let base = base_of(alloc, program, called, &part.clock)?;
    let on = is_on(&base, present, row);
    let inputs = pass(
        alloc, program, present, row, rows, called, arguments, &base, parts, behind, kept,
    )?;
    Ok(Passed { on, inputs })
}

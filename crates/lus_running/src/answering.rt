//! What an instant of a class answers.

ghost use Rattle.std.specs.Prelude.{◌≡◌, ◌+◌, ◌≤◌, IfOk, drop, length, map, take};
ghost use Rattle.lus_values.specs.View.{entry_of};
ghost use Rattle.lus_instructions.specs.Followed.{cell_of};
ghost use Rattle.lus_orders.specs.Classes.{CanFollow};
ghost use Rattle.lus_running.specs.Answering.{AnswersTo, AreLong, left_by};

use crate::beginning::begin;
use crate::copying::copy_alike;
use lus_instructions::{Held, Stop, entry_at};
use lus_orders::{Setting, follow_class};
use lus_values::{Memory, Row, Value};
use std::alloc::Global;

/// So many outputs, which stand in a row from a place on, in no more memory than they need.
fn outputs_in<T: Held>(alloc: Global, row: &[T], from: usize, outputs: usize) -> Result<Row, Memory>
    requires { from + outputs ≤ length row.now }
    ensures { IfOk result (λ found. found ≡ take outputs (drop from (map T.entry row.now))) }
{
    if outputs == 1 {
        let entry = entry_at(alloc, row, from)?;
        return Ok(Row::one(entry));
    }
    let mut found = Vec::with_capacity(alloc, outputs)?;
    for variable in from..from + outputs {
        let entry = entry_at(alloc, row, variable)?;
        found.push(entry)?;
    }
    Ok(Row::new(found))
}

/// So many outputs, which stand behind the inputs, of one instant of a class, if it has values, and what its cells keep next: a copy
/// of them over which the code stores. It is followed on a row that is empty but for the inputs.
pub fn answer<T: Held>(
    on: &Setting<'_>,
    inputs: &[Option<Value>],
    outputs: usize,
    cells: &[T],
    next: &mut [T],
    row: &mut [T],
) -> Result<Option<Row>, Stop>
    requires follow { CanFollow on.now.classes.now on.now.depth on.now.class.now }
    requires long { AreLong on.now.class.now (length cells.now) (length next.old) (length row.old) }
    requires outputs { length inputs.now + outputs ≤ on.now.class.now.own }
    ensures { AnswersTo (left_by on.now (map (cell_of T.entry) cells.now) (map entry_of inputs.now)) (length inputs.now) outputs
        result (map (cell_of T.entry) next.new) }
{
    let (own, behind) = row.split_at_mut(on.class.own);
    copy_alike(on.alloc, cells, next)?;
    begin(on.alloc, inputs, own)?;
    let made = follow_class(on, cells, next, own, behind)?;
    if !made {
        return Ok(None);
    }
    let found = outputs_in(on.alloc, own, inputs.len(), outputs)?;
    Ok(Some(found))
}

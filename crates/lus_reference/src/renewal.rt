//! What is kept of the parts of a node's text behind an instant, and which of them is at fault.

ghost use Rattle.std.specs.Prelude.{◌≡◌, ◌&&◌, IfOk, is_none, map};
ghost use Rattle.lus_program.specs.View.{program_seen};
ghost use Rattle.lus_streams.specs.Streams.{instant, is_on, nobody};
ghost use Rattle.lus_values.specs.Lists.{item};
ghost use Rattle.lus_values.specs.View.{entry_of};
ghost use Rattle.lus_parts.specs.Nested.{AreNested};
ghost use Rattle.lus_parts.specs.Parts.{part_of};
ghost use Rattle.lus_reference.specs.Causes.{IsFaultOf};
ghost use Rattle.lus_reference.specs.Kept.{DoesRenew, kept_next};

use crate::cause::{AtFault, fault_or};
use crate::entries::{entries_from, entry_at, holds};
use crate::values::make;
use lus_parts::Part;
use lus_program::{Program, Test};
use lus_values::{Memory, Row, Value, copy_entry};
use std::alloc::Global;

/// Whether a clock is present at an instant with these entries, at which the base is present or not.
pub fn is_on(clock: &[Test], present: bool, row: &[Option<Value>]) -> bool
    ensures { result ≡ is_on clock.now (instant present (map entry_of row.now) nobody) }
{
    for test in clock {
        if !holds(row, test.variable as usize, test.constructor as usize) {
            return false;
        }
    }
    present
}

/// What is kept of a part behind an instant: its value where its clock is present, elsewhere what was kept.
fn next_of(
    alloc: Global,
    on: bool,
    value: &Option<Value>,
    kept: &[Option<Value>],
) -> Result<Option<Value>, Memory>
    ensures { IfOk result (λ v. entry_of v ≡ kept_next on (entry_of value.now) (item None (map entry_of kept.now) 0)) }
{
    if on {
        copy_entry(alloc, value)
    } else {
        entry_at(alloc, kept, 0)
    }
}

/// Whether a part is at fault: its clock is present, and it has no value.
fn is_at_fault(on: bool, value: &Option<Value>) -> bool
    ensures { result ≡ on && is_none (entry_of value.now) }
{
    on && value.is_none()
}

/// What is kept of the parts of a node behind an instant, and the first of them at fault, if one is: one whose operands all have values
/// before others.
#[derive(Drop)]
pub struct Renewed {
    pub kept: Vec<Option<Value>>,
    pub fault: Option<AtFault>,
}

/// What is kept of the parts of a node behind an instant, from what was kept of them, if none is at fault, and which is the first that
/// is: from the presence of the node's base, the entries of its variables, and the rows of the called nodes.
pub fn renew(
    alloc: Global,
    program: &Program,
    present: bool,
    row: &[Option<Value>],
    rows: &[Row],
    parts: &[Part<'_>],
    kept: &[Option<Value>],
) -> Result<Renewed, Memory>
    requires { AreNested (program_seen program.now) (map part_of parts.now) }
    ensures kept { IfOk result (λ r. DoesRenew (program_seen program.now) present (map entry_of row.now) rows.now (map part_of parts.now) (map entry_of kept.now) (map entry_of r.kept.items)) }
    ensures fault { IfOk result (λ r. IsFaultOf (program_seen program.now) present (map entry_of row.now) rows.now (map part_of parts.now) (map entry_of kept.now) r.fault) }
{
    let mut stack = Vec::new(alloc);
    let mut next = Vec::new(alloc);
    let mut fault = None;
    for behind in 0..parts.len() {
        let place = parts.len() - 1 - behind;
        let part = &parts[place];
        let earlier = entries_from(kept, place);
        let made = make(alloc, program, row, rows, part, earlier, &mut stack)?;
        let on = is_on(&part.clock, present, row);
        let entry = next_of(alloc, on, &made.value, earlier)?;
        let at_fault = is_at_fault(on, &made.value);
        fault = fault_or(alloc, at_fault, place, part.expr, &made.operands, fault)?;
        next.push(entry)?;
        stack.push(made.value)?;
    }
    next.reverse();
    Ok(Renewed { kept: next, fault })
}

//! Which part is at fault at an instant, in the node or in one that it calls.

ghost use Rattle.std.specs.Prelude.{◌≡◌, ◌⊎◌, ◌∷◌, IfOk, IsTrue, MatchOption, None, Some, false, map};
ghost use Rattle.std.specs.Option.{option_map};
ghost use Rattle.lus_program.specs.View.{program_seen};
ghost use Rattle.lus_values.specs.View.{entry_of, value_of};
ghost use Rattle.lus_parts.specs.Parts.{part_of};
ghost use Rattle.lus_reference.specs.Causes.{IsFaultOf, operation_in};
ghost use Rattle.lus_worlds.specs.Judging.{EachFaultless, IsFaultBelow, IsFaultHere, IsJudged, NoFaultHere};
ghost use Rattle.lus_worlds.specs.Moments.{cause_in, fault_in, row_in};

use crate::moment::{Fault, Moment};
use lus_parts::Part;
use lus_program::Program;
use lus_reference::{AtFault, Operation};
use lus_values::{Memory, Row, Value, copy};
use std::alloc::Global;

/// Copies of values.
fn copy_all(alloc: Global, values: &[Value]) -> Result<Vec<Value>, Memory>
    ensures { IfOk result (λ vs. map value_of vs.items ≡ map value_of values.now) }
{
    let mut copies = Vec::new(alloc);
    for value in values {
        let value_copy = copy(alloc, value)?;
        copies.push(value_copy)?;
    }
    Ok(copies)
}

/// A copy of an operation, if there is one.
fn copy_cause(alloc: Global, cause: &Option<Operation>) -> Result<Option<Operation>, Memory>
    ensures { IfOk result (λ o. option_map operation_in o ≡ option_map operation_in cause.now) }
{
    match cause {
        Some(operation) => Ok(Some(Operation {
            operator: operation.operator,
            operands: copy_all(alloc, &operation.operands)?,
        })),
        None => Ok(None),
    }
}

/// A fault in a called node, as one of the node that calls it by this number.
fn fault_below(alloc: Global, number: u32, fault: &Fault) -> Result<Fault, Memory>
    ensures way { IfOk result (λ t. t.way.items ≡ number ∷ fault.now.way.items) }
    ensures place { IfOk result (λ t. t.place ≡ fault.now.place) }
    ensures cause { IfOk result (λ t. cause_in t ≡ cause_in fault.now) }
{
    let mut way = Vec::new(alloc);
    way.push(number)?;
    way.extend_from_slice(&fault.way)?;
    let cause = copy_cause(alloc, &fault.cause)?;
    Ok(Fault {
        way,
        place: fault.place,
        cause,
    })
}

/// The part of a node that is at fault, if one is.
fn fault_here(
    alloc: Global,
    program: &Program,
    present: bool,
    row: &[Option<Value>],
    rows: &[Row],
    parts: &[Part<'_>],
    kept: &[Option<Value>],
    called: &[Moment],
    fault: Option<AtFault>,
) -> Option<Fault>
    requires rows { rows.now ≡ map row_in called.now }
    requires fault { IsFaultOf (program_seen program.now) present (map entry_of row.now) rows.now (map part_of parts.now) (map entry_of kept.now) fault }
    ensures { let p = program_seen program.now in
        let now = map entry_of row.now in
        MatchOption result (NoFaultHere p present now parts.now (map entry_of kept.now) called.now) (IsFaultHere p present now parts.now (map entry_of kept.now) called.now) }
{
    match fault {
        Some(found) => Some(Fault {
            way: Vec::new(alloc),
            place: parts[found.place].expr.place,
            cause: found.operation,
        }),
        None => None,
    }
}

/// Whether a fault has its cause, or none is wanted.
fn is_wanted(fault: &Fault, is_cause: bool) -> bool
    ensures { is_cause ≡ false → IsTrue result }
{
    fault.cause.is_some() || !is_cause
}

/// The fault of an instant, if it has one, or one with its cause, if that is wanted.
fn fault_of(moment: &Moment, is_cause: bool) -> Option<&Fault>
    ensures { MatchOption result (is_cause ≡ false → fault_in moment.now ≡ None) (λ t. fault_in moment.now ≡ Some t.now) }
{
    match &moment.fault {
        Some(fault) => {
            if is_wanted(fault, is_cause) {
                Some(fault)
            } else {
                None
            }
        }
        None => None,
    }
}

/// The fault of the first called node that has one, or that has one with its cause, if that is wanted.
fn fault_among(alloc: Global, called: &[Moment], is_cause: bool) -> Result<Option<Fault>, Memory>
    ensures { IfOk result (λ o. MatchOption o (is_cause ≡ false → EachFaultless called.now) (IsFaultBelow called.now)) }
{
    let mut number = 0;
    for moment in called {
        if let Some(fault) = fault_of(moment, is_cause) {
            let found = fault_below(alloc, number, fault)?;
            return Ok(Some(found));
        }
        match number.checked_add(1) {
            Some(next) => number = next,
            None => return Err(Memory),
        }
    }
    Ok(None)
}

/// This fault, where it is a cause or none is found in a called node; else that cause.
fn cause_of(alloc: Global, called: &[Moment], fault: Fault) -> Result<Fault, Memory>
    ensures { IfOk result (λ t. (t ≡ fault) ⊎ IsFaultBelow called.now t) }
{
    if fault.cause.is_some() {
        return Ok(fault);
    }
    match fault_among(alloc, called, true)? {
        Some(cause) => Ok(cause),
        None => Ok(fault),
    }
}

/// The part that is at fault at an instant with these instants of called nodes, if one is: this one here, or one in them; a cause
/// before others.
pub fn judge(
    alloc: Global,
    program: &Program,
    present: bool,
    row: &[Option<Value>],
    rows: &[Row],
    parts: &[Part<'_>],
    kept: &[Option<Value>],
    called: &[Moment],
    fault: Option<AtFault>,
) -> Result<Option<Fault>, Memory>
    requires rows { rows.now ≡ map row_in called.now }
    requires fault { IsFaultOf (program_seen program.now) present (map entry_of row.now) rows.now (map part_of parts.now) (map entry_of kept.now) fault }
    ensures { IfOk result (IsJudged (program_seen program.now) present (map entry_of row.now) parts.now (map entry_of kept.now) called.now) }
{
    let here = fault_here(
        alloc, program, present, row, rows, parts, kept, called, fault,
    );
    match here {
        Some(fault) => Ok(Some(cause_of(alloc, called, fault)?)),
        None => fault_among(alloc, called, false),
    }
}

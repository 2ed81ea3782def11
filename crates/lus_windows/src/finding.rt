//! Rows at which something is at fault.

ghost use Rattle.std.specs.Prelude.{IfOk, MatchOption, map};
ghost use Rattle.lus_program.specs.View.{program_seen};
ghost use Rattle.lus_worlds.specs.Finding.{IsReady};
ghost use Rattle.lus_windows.specs.Finding.{HasFault, HasNone};

use lus_program::Program;
use lus_values::{Memory, Row};
use lus_worlds::{Fault, Moment, Stop, extend, keep};
use std::alloc::Global;

/// A part at fault, and the place of the row at which it is among those that were looked at.
#[derive(Drop)]
pub(crate) struct Found {
    pub(crate) fault: Fault,
    pub(crate) row: usize,
}

/// The first of these rows at which a part is at fault, behind what is kept of a node, if one is found.
pub(crate) fn find(
    alloc: Global,
    program: &Program,
    orders: &[Vec<u32>],
    node: u32,
    rows: &[Row],
    old: &Moment,
) -> Result<Option<Found>, Memory>
    ensures { let p = program_seen program.now in
        let ready = IsReady p (map (λ order. order.items) orders.now) node in
        IfOk result (λ o. MatchOption o (ready → HasNone p node rows.now old.now) (λ f. ready → HasFault p node rows.now old.now f.fault f.row)) }
{
    let mut reached = keep(alloc, old)?;
    for (place, row) in rows.iter().enumerate() {
        match extend(alloc, program, orders, node, row.items(), &reached) {
            Ok(next) => reached = next,
            Err(Stop::Fault(fault)) => return Ok(Some(Found { fault, row: place })),
            Err(Stop::Presence) => return Ok(None),
            Err(Stop::Memory) => return Err(Memory),
        }
    }
    Ok(None)
}

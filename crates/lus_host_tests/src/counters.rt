//! A node that counts its steps, with two seats.
ghost use Rattle.std.specs.Prelude.{◌≡◌, [], IfOk};

use lus_callers::lus_machine::{Machine, compile};
use lus_callers::lus_shared::{Journal, Seat, SeatNode};
use lus_program::NodeId;
use lus_requests::{Reply, Request};
use lus_values::{Memory, Row, Value};
use std::alloc::Global;
use std::sync::Arc;

/// A counter that was never stepped. Its text is right, so it is refused only where memory is out.
pub(crate) fn a_machine(alloc: Global) -> Result<Machine, Memory>
    ensures { IfOk result (λ m. m.history ≡ []) }
{
    let text = "node t() returns (n: int); let n = 0 -> pre n + 1; tel\n";
    let Ok(program) = compile(alloc, text) else {
        return Err(Memory);
    };
    let program = Arc::new(alloc, program)?;
    if !program.has(NodeId(0)) {
        return Err(Memory);
    }
    Machine::new(alloc, program, NodeId(0))
}

/// The counter and its two seats.
pub(crate) fn a_counter(alloc: Global) -> Result<(SeatNode, Seat, Seat), Memory>
    ensures first { IfOk result (λ r. r.1.instance ≡ r.0) }
    ensures second { IfOk result (λ r. r.2.instance ≡ r.0) }
{
    let (node, mut seats) = SeatNode::open(alloc, a_machine(alloc)?, 2)?;
    let Some(second) = seats.pop() else {
        return Err(Memory);
    };
    let Some(first) = seats.pop() else {
        return Err(Memory);
    };
    Ok((node, first, second))
}

/// The next instant.
pub(crate) fn a_step(alloc: Global) -> Request {
    Request::Step(Row::new(Vec::new(alloc)))
}

/// Whether the counter was at this number.
pub(crate) fn counts(reply: &Reply, number: i64) -> bool {
    match reply {
        Reply::Outputs(row) => match row.items() {
            [Some(Value::Int(found))] => *found == number,
            _ => false,
        },
        _ => false,
    }
}

/// Whether a call was answered, by this number.
pub(crate) fn gives<E: Drop>(answer: Result<Reply, E>, number: i64) -> bool {
    match answer {
        Ok(reply) => counts(&reply, number),
        Err(_) => false,
    }
}

/// Whether so many steps were entered, in order.
pub(crate) fn has_counted(journal: &Journal, steps: usize) -> bool {
    let mut entries = journal.entries.iter().enumerate();
    journal.entries.len() == steps
        && entries.all(|(place, entry)| counts(&entry.reply, place as i64))
}

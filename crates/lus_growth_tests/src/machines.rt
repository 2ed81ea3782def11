//! Machines.
ghost use Rattle.std.specs.Prelude.{◌≡◌, [], IfOk};

use crate::requests::{
    Made, SUM, SUMS, again, burst, gives_three, is_done, is_history, is_sum, step,
};
use lus_host::{CallError, Entry, Machine, Reply, Request, compile};
use lus_values::Memory;
use std::alloc::Global;
use std::sync::Arc;
use std::test::Fail;

/// An instance that was never called. Its text is right, so it is refused only where memory is out.
pub(crate) fn a_machine(alloc: Global) -> Result<Machine, Memory>
    ensures { IfOk result (λ m. m.history ≡ []) }
{
    let Ok(program) = compile(alloc, SUMS) else {
        return Err(Memory);
    };
    let program = Arc::new(alloc, program)?;
    if !program.has(SUM) {
        return Err(Memory);
    }
    Machine::new(alloc, program, SUM)
}

/// The calls that are made.
const CALLS: [Made; 5] = [
    Made::Step(1, 1),
    Made::Save(0),
    Made::Step(5, 6),
    Made::Restore(0),
    Made::Burst([2, 3, 4], [3, 6, 10]),
];

/// Whether a history has so many of them, the first.
fn has_first(entries: &[Entry], count: usize) -> bool {
    count <= CALLS.len() && is_history(entries, &CALLS[..count])
}

/// The reply to a call, or to the same call again where memory was out; none where the first left another history, or the second is
/// refused memory too.
fn answered(machine: &mut Machine, request: &Request) -> Option<Reply> {
    let entries = machine.history().len();
    match machine.call(0, request) {
        Ok(reply) => Some(reply),
        Err(CallError::Full) => None,
        Err(CallError::Memory) => {
            if !has_first(machine.history(), entries) {
                return None;
            }
            machine.call(0, request).ok()
        }
    }
}

/// Whether a step, a save, a step, a restore and a burst of three rows are answered as they always are, and are all entries that there are.
fn are_answered(machine: &mut Machine, one: &Request, five: &Request, three: &Request) -> bool {
    let stepped = is_sum(&answered(machine, one), 1);
    let saved = is_done(&answered(machine, &Request::Save(0)));
    let stepped_on = is_sum(&answered(machine, five), 6);
    let restored = is_done(&answered(machine, &Request::Restore(0)));
    let last = match answered(machine, three) {
        Some(reply) => gives_three(&reply, [3, 6, 10]),
        None => false,
    };
    (stepped && saved) && (stepped_on && restored) && last && is_history(machine.history(), &CALLS)
}

/// Whether calls are answered; memory may be out before the first is made.
fn is_played(alloc: Global) -> Result<bool, Memory> {
    let mut machine = a_machine(alloc)?;
    let one = step(alloc, 1)?;
    let five = step(alloc, 5)?;
    let three = burst(alloc, [2, 3, 4])?;
    let right = are_answered(&mut machine, &one, &five, &three);
    Ok(right && is_history(&machine.into_history(), &CALLS))
}

#[test]
fn calls_are_answered(rt: HostRuntime) -> Result<(), Fail> {
    let alloc = rt.alloc();
    assert!(&rt; again(is_played(alloc), is_played(alloc)));
    Ok(())
}

//! Two callers, each on a thread of its own.

ghost use Rattle.std.specs.Prelude.{◌≡◌, IfSome};

use crate::alone::{passing, show};
use lus_host::{Machine, Program, Seat, SeatNode};
use std::alloc::Global;
use std::sync::{Arc, Wait};
use std::thread::{Threads, join};

/// Steps the counter twice. The seat is still one of the counter's.
fn pass_twice<R: Wait>(rt: &R, alloc: Global, counter: &SeatNode, mut seat: Seat) -> Option<Seat>
    requires { seat.instance ≡ counter.now }
    ensures { IfSome result (λ s. s.instance ≡ counter.now) }
{
    let request = passing(alloc, true).ok()?;
    counter.call(rt, &mut seat, &request).ok()?;
    counter.call(rt, &mut seat, &request).ok()?;
    Some(seat)
}

/// Lets two callers step the counter at the same time.
fn pass_together<R: Threads + Wait + Sync>(
    rt: &R,
    alloc: Global,
    counter: &SeatNode,
    first: Seat,
    second: Seat,
) -> Option<(Seat, Seat)>
    requires first { first.instance ≡ counter.now }
    requires second { second.instance ≡ counter.now }
    ensures first { IfSome result (λ both. both.0.instance ≡ counter.now) }
    ensures second { IfSome result (λ both. both.1.instance ≡ counter.now) }
{
    let (first, second) = join(
        rt,
        move ||
            requires { first.instance ≡ counter.now }
            ensures { IfSome result (λ s. s.instance ≡ counter.entry.now) }
        { pass_twice(rt, alloc, counter, first) },
        move ||
            requires { second.instance ≡ counter.now }
            ensures { IfSome result (λ s. s.instance ≡ counter.entry.now) }
        { pass_twice(rt, alloc, counter, second) },
    );
    Some((first?, second?))
}

/// Lets two callers share an instance, then one of them step it once more, and prints its output: each of the five calls counts.
pub fn count_together<R: AllocGlobal + Print + Threads + Wait + Sync>(
    rt: &R,
    program: &Arc<Program>,
) -> Option<()> {
    let node = program.node("counter")?;
    if !program.has(node) {
        return None;
    }
    let machine = Machine::new(rt.alloc(), program.clone().ok()?, node).ok()?;
    let (counter, mut seats) = SeatNode::open(rt.alloc(), machine, 2).ok()?;
    let second = seats.pop()?;
    let first = seats.pop()?;
    let (mut first, _second) = pass_together(rt, rt.alloc(), &counter, first, second)?;
    let request = passing(rt.alloc(), true).ok()?;
    let reply = counter.call(rt, &mut first, &request).ok()?;
    show(rt, program, &reply)
}

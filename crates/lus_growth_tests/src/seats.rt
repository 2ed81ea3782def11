//! Seats at one machine.
ghost use Rattle.std.specs.Prelude.{◌≡◌, IfOk, IfSome};

use crate::machines::a_machine;
use crate::requests::{Made, again, is_done, is_history, is_sum, step};
use lus_host::{CallError, Reply, Request, Seat, SeatNode, Strangers, TryError};
use lus_values::Memory;
use std::alloc::Global;
use std::sync::Wait;
use std::test::Fail;

/// The calls that are made.
const CALLS: [Made; 6] = [
    Made::Step(2, 2),
    Made::Step(2, 4),
    Made::Save(0),
    Made::Save(1),
    Made::Restore(0),
    Made::Restore(1),
];

/// A node and its two seats.
fn a_node(alloc: Global) -> Result<(SeatNode, Seat, Seat), Memory>
    ensures first { IfOk result (λ r. r.1.instance ≡ r.0) }
    ensures second { IfOk result (λ r. r.2.instance ≡ r.0) }
{
    let (node, mut seats) = SeatNode::open(alloc, a_machine(alloc)?, 2)?;
    let Some(second) = seats.pop() else {
        return Err(Memory);
    };
    let Some(first) = seats.pop() else {
        return Err(Memory);
    };
    Ok((node, first, second))
}

/// The reply to a seat's call; where memory was out, to the same call of another seat, which finds as many entries and the machine free.
fn tried(node: &SeatNode, seat: &mut Seat, other: &mut Seat, request: &Request) -> Option<Reply>
    requires { (seat.old.instance ≡ node.now) × (other.old.instance ≡ node.now) }
    ensures { (seat.new.instance ≡ node.now) × (other.new.instance ≡ node.now) }
{
    let entries = node.count(seat);
    match node.try_call(seat, request) {
        Ok(reply) => Some(reply),
        Err(TryError::Full | TryError::Busy(_)) => None,
        Err(TryError::Memory) => {
            if node.count(seat) != entries {
                return None;
            }
            node.try_call(other, request).ok()
        }
    }
}

/// The same of a call that may wait.
fn called<R: Wait>(
    rt: &R,
    node: &SeatNode,
    seat: &mut Seat,
    other: &mut Seat,
    request: &Request,
) -> Option<Reply>
    requires { (seat.old.instance ≡ node.now) × (other.old.instance ≡ node.now) }
    ensures { (seat.new.instance ≡ node.now) × (other.new.instance ≡ node.now) }
{
    let entries = node.count(seat);
    match node.call(rt, seat, request) {
        Ok(reply) => Some(reply),
        Err(CallError::Full) => None,
        Err(CallError::Memory) => {
            if node.count(seat) != entries {
                return None;
            }
            node.try_call(other, request).ok()
        }
    }
}

/// Whether a step, a save and a restore of each seat are answered as they always are.
fn are_answered<R: Wait>(
    rt: &R,
    node: &SeatNode,
    first: &mut Seat,
    second: &mut Seat,
    request: &Request,
) -> bool
    requires { (first.old.instance ≡ node.now) × (second.old.instance ≡ node.now) }
    ensures { (first.new.instance ≡ node.now) × (second.new.instance ≡ node.now) }
{
    let one = is_sum(&tried(node, first, second, request), 2);
    let two = is_sum(&called(rt, node, second, first, request), 4);
    let saved = is_done(&tried(node, first, second, &Request::Save(0)));
    let saved_too = is_done(&called(rt, node, second, first, &Request::Save(1)));
    let restored = is_done(&tried(node, first, second, &Request::Restore(0)));
    let restored_too = is_done(&called(rt, node, second, first, &Request::Restore(1)));
    (one && two) && (saved && saved_too) && (restored && restored_too)
}

/// Whether what takes no memory goes well: to count, to meet, to hold and to give back.
fn is_held_and_met(node: &SeatNode, first: Seat, second: Seat) -> Option<(Seat, Seat)>
    requires { (first.instance ≡ node.now) × (second.instance ≡ node.now) }
    ensures { IfSome result (λ r. (r.0.instance ≡ node.now) × (r.1.instance ≡ node.now)) }
{
    let (first, mut second) = node.meet(first, second);
    let Ok(held) = node.hold(first) else {
        return None;
    };
    let entries = node.count(&mut second);
    let mut first = node.release(held);
    if node.count(&mut first) != entries {
        return None;
    }
    Some((first, second))
}

/// Whether calls are answered as they always are, and the node is closed with both seats.
fn is_played<R: Wait>(rt: &R, alloc: Global) -> Result<bool, Memory> {
    let (node, mut first, mut second) = a_node(alloc)?;
    let request = step(alloc, 2)?;
    let mut seats = Vec::with_capacity(alloc, 2)?;
    let right = are_answered(rt, &node, &mut first, &mut second, &request);
    let Some((first, second)) = is_held_and_met(&node, first, second) else {
        return Ok(false);
    };
    seats.push_reserved(first);
    seats.push_reserved(second);
    match node.close(seats) {
        Ok(journal) => Ok(right && is_history(&journal.entries, &CALLS)),
        Err(strangers) => {
            let Strangers { node: _, seats: _ } = strangers;
            Ok(false)
        }
    }
}

#[test]
fn seats_are_answered(rt: HostRuntime) -> Result<(), Fail> {
    let alloc = rt.alloc();
    assert!(&rt; again(is_played(&rt, alloc), is_played(&rt, alloc)));
    Ok(())
}

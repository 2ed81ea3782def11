//! Seats that call in turn, on one thread.
ghost use Rattle.std.specs.Prelude.{◌≡◌, IfOk, IfSome};

use crate::calls::{call_both, found_taken};
use crate::counters::{a_counter, a_machine, a_step, gives, has_counted};
use crate::promises::{
    call_machine, call_seat, call_shared, close_seats, count_entries, meet_seats,
};
use lus_callers::lus_shared::{Busy, LockedNode, Seat, SeatNode, Shared, Strangers, TryError};
use lus_requests::Request;
use lus_values::Memory;
use std::alloc::Global;
use std::test::Fail;

// Whether a call is refused since the machine is taken, which has so many entries.
fn is_busy(node: &SeatNode, seat: &mut Seat, request: &Request, entries: u64) -> bool
    requires { seat.old.instance ≡ node.now }
    ensures { seat.new.instance ≡ node.now }
{
    match node.try_call(seat, request) {
        Err(TryError::Busy(Busy(count))) => count == entries,
        _ => false,
    }
}

// The node and the seat, which were given back where one seat of two was missing.
fn given_back(alloc: Global, node: SeatNode, seat: Seat) -> Result<Option<(SeatNode, Seat)>, Memory>
    requires { seat.instance ≡ node }
    ensures { IfOk result (λ o. IfSome o (λ r. (r.0 ≡ node) × (r.1 ≡ seat))) }
{
    let mut seats = Vec::new(alloc);
    seats.push(seat)?;
    match node.close(seats) {
        Ok(_) => Ok(None),
        Err(strangers) => {
            let Strangers { node, mut seats } = strangers;
            match seats.pop() {
                Some(seat) => Ok(Some((node, seat))),
                None => Ok(None),
            }
        }
    }
}

// Whether the node is closed with these seats, after so many steps.
fn is_closed(
    alloc: Global,
    node: SeatNode,
    first: Seat,
    second: Seat,
    steps: usize,
) -> Result<bool, Memory>
    requires first { first.instance ≡ node }
    requires second { second.instance ≡ node }
{
    let mut seats = Vec::new(alloc);
    seats.push(first)?;
    seats.push(second)?;
    match close_seats(node, seats) {
        Ok(journal) => Ok(has_counted(&journal, steps)),
        Err(strangers) => {
            let Strangers { node: _, seats: _ } = strangers;
            Ok(false)
        }
    }
}

#[test]
fn seats_take_turns(rt: HostRuntime) -> Result<(), Fail> {
    let alloc = rt.alloc();
    let (node, mut first, mut second) = a_counter(alloc)?;
    let step = a_step(alloc);
    assert!(&rt; gives(call_seat(&node, &mut first, &step), 0));
    assert!(&rt; count_entries(&node, &mut first) == 1);
    let Ok(held) = node.hold(first) else {
        panic!(&rt; "the machine is free")
    };
    assert!(&rt; is_busy(&node, &mut second, &step, 1));
    let (taken, second) = found_taken(&node, second);
    let Ok(Some((node, second))) = given_back(alloc, node, second) else {
        panic!(&rt; "a seat is held")
    };
    let first = node.release(held);
    let (free, mut second) = found_taken(&node, second);
    assert!(&rt; taken == Some(1) && free == None);
    assert!(&rt; gives(node.try_call(&mut second, &step), 1));
    let (mut first, second) = meet_seats(&node, first, second);
    assert!(&rt; first.number() == 0 && second.number() == 1);
    assert!(&rt; first.share() == 1 && second.share() == 1);
    assert!(&rt; count_entries(&node, &mut first) == 2);
    let Ok(Some((node, first))) = given_back(alloc, node, first) else {
        panic!(&rt; "a seat is missing")
    };
    assert!(&rt; is_closed(alloc, node, first, second, 2)?);
    Ok(())
}

#[test]
fn a_seat_counts_what_others_did(rt: HostRuntime) -> Result<(), Fail> {
    let alloc = rt.alloc();
    let (node, mut first, mut second) = a_counter(alloc)?;
    let step = a_step(alloc);
    assert!(&rt; gives(node.try_call(&mut first, &step), 0));
    assert!(&rt; gives(node.try_call(&mut first, &step), 1));
    assert!(&rt; gives(node.try_call(&mut first, &step), 2));
    assert!(&rt; count_entries(&node, &mut second) == 3);
    assert!(&rt; is_closed(alloc, node, second, first, 3)?);
    Ok(())
}

#[test]
fn nodes_are_apart(rt: HostRuntime) -> Result<(), Fail> {
    let alloc = rt.alloc();
    let (node, mut first, _) = a_counter(alloc)?;
    let (other, mut second, _) = a_counter(alloc)?;
    let step = a_step(alloc);
    assert!(&rt; gives(node.try_call(&mut first, &step), 0));
    let Ok((one, two)) = call_both(&node, &mut first, &other, &mut second, &step) else {
        panic!(&rt; "both machines are free")
    };
    assert!(&rt; gives::<TryError>(Ok(one), 1) && gives::<TryError>(Ok(two), 0));
    Ok(())
}

#[test]
fn machines_and_locks_answer(rt: HostRuntime) -> Result<(), Fail> {
    let alloc = rt.alloc();
    let step = a_step(alloc);
    let mut machine = a_machine(alloc)?;
    assert!(&rt; gives(call_machine(&mut machine, 5, &step), 0));
    assert!(&rt; machine.history().len() == 1);
    let (node, mut seats) = LockedNode::open(alloc, a_machine(alloc)?, 1)?;
    let Some(mut seat) = seats.pop() else {
        panic!(&rt; "there is a seat")
    };
    assert!(&rt; gives(call_shared(&rt, &node, &mut seat, &step), 0));
    assert!(&rt; LockedNode::share(&seat) == 1);
    Ok(())
}

//! Nodes of both kinds that are closed, with all of their seats and without one.

use crate::counters::{a_machine, a_step, gives, has_counted};
use lus_callers::lus_shared::{LockedNode, SeatNode, Shared, Strangers};
use lus_values::Memory;
use std::alloc::Global;
use std::sync::Wait;
use std::test::Fail;

// Whether this seat's next step gives this number.
fn steps<N: Shared, R: Wait>(
    rt: &R,
    alloc: Global,
    node: &N,
    seat: &mut N::Seat,
    number: i64,
) -> bool
    requires { N.belongs node.now seat.old }
    ensures { N.belongs node.now seat.new }
{
    gives(node.call(rt, seat, &a_step(alloc)), number)
}

// Whether a close with these seats leaves two steps.
fn leaves_two<N: Shared + Drop>(
    alloc: Global,
    node: N,
    first: N::Seat,
    second: N::Seat,
) -> Result<bool, Memory>
where
    N::Seat: Drop,
    requires first { N.belongs node first }
    requires second { N.belongs node second }
{
    let mut seats = Vec::new(alloc);
    seats.push(first)?;
    seats.push(second)?;
    match node.close(seats) {
        Ok(journal) => Ok(has_counted(&journal, 2)),
        Err(strangers) => {
            let Strangers { node: _, seats: _ } = strangers;
            Ok(false)
        }
    }
}

// Whether a close without the last seat gives all back, the seat that came back is answered, and a close with both, in their
// order or turned, leaves the calls of both.
fn comes_back<N: Shared + Drop, R: Wait>(
    rt: &R,
    alloc: Global,
    is_turned: bool,
) -> Result<bool, Memory>
where
    N::Seat: Drop,
{
    let (node, mut seats) = N::open(alloc, a_machine(alloc)?, 2)?;
    let Some(mut last) = seats.pop() else {
        return Ok(false);
    };
    if !steps(rt, alloc, &node, &mut last, 0) {
        return Ok(false);
    }
    let Err(strangers) = node.close(seats) else {
        return Ok(false);
    };
    let Strangers { node, mut seats } = strangers;
    let Some(mut first) = seats.pop() else {
        return Ok(false);
    };
    if !steps(rt, alloc, &node, &mut first, 1) {
        return Ok(false);
    }
    if is_turned {
        leaves_two(alloc, node, last, first)
    } else {
        leaves_two(alloc, node, first, last)
    }
}

#[test]
fn strangers_come_back(rt: HostRuntime) -> Result<(), Fail> {
    let alloc = rt.alloc();
    for is_turned in [false, true] {
        assert!(&rt; comes_back::<LockedNode, HostRuntime>(&rt, alloc, is_turned)?);
        assert!(&rt; comes_back::<SeatNode, HostRuntime>(&rt, alloc, is_turned)?);
    }
    Ok(())
}

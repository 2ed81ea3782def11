//! Calls at two nodes, and at a node that may be taken.
ghost use Rattle.std.specs.Prelude.{◌≡◌};

use lus_callers::lus_shared::{Seat, SeatNode, TryError};
use lus_requests::{Reply, Request};

/// The replies to one request at two nodes, by a seat of each.
pub fn call_both(
    first: &SeatNode,
    at_first: &mut Seat,
    second: &SeatNode,
    at_second: &mut Seat,
    request: &Request,
) -> Result<(Reply, Reply), TryError>
    requires first { at_first.old.instance ≡ first.now }
    requires second { at_second.old.instance ≡ second.now }
{
    let one = first.try_call(at_first, request)?;
    let other = second.try_call(at_second, request)?;
    Ok((one, other))
}

/// The number of entries with which a hold is refused, none where the machine is free; and the seat again.
pub fn found_taken(node: &SeatNode, seat: Seat) -> (Option<u64>, Seat)
    requires { seat.instance ≡ node.now }
    ensures { result.1.instance ≡ node.now }
{
    match node.hold(seat) {
        Ok(held) => (None, node.release(held)),
        Err((seat, busy)) => (Some(busy.0), seat),
    }
}

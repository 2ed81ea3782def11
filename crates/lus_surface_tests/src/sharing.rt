//! `lus_shared`, by `lus_host`.

ghost use Rattle.std.specs.Prelude.{◌≡◌, []};
ghost use Rattle.std.specs.List.{All};

use lus_cli::lus_host::lus_callers::lus_shared::Journal;
use lus_cli::lus_host::{
    Busy, CallError, Held, LockedNode, LockedSeat, Machine, Memory, Reply, Request, Seat, SeatNode,
    Shared, Strangers, TryError,
};
use std::alloc::Global;
use std::sync::Wait;

/// A node of either kind, and its seats.
pub fn open_node<N: Shared>(
    alloc: Global,
    machine: Machine,
    callers: u32,
) -> Result<(N, Vec<N::Seat>), Memory>
    requires { machine.history ≡ [] }
{
    N::open(alloc, machine, callers)
}

/// The same by a lock.
pub fn open_locked(
    alloc: Global,
    machine: Machine,
    callers: u32,
) -> Result<(LockedNode, Vec<LockedSeat>), Memory>
    requires { machine.history ≡ [] }
{
    LockedNode::open(alloc, machine, callers)
}

/// The same by seats.
pub fn open_seats(
    alloc: Global,
    machine: Machine,
    callers: u32,
) -> Result<(SeatNode, Vec<Seat>), Memory>
    requires { machine.history ≡ [] }
{
    SeatNode::open(alloc, machine, callers)
}

/// One call, which may wait.
pub fn call_node<N: Shared, R: Wait>(
    rt: &R,
    node: &N,
    seat: &mut N::Seat,
    request: &Request,
) -> Result<Reply, CallError>
    requires { N.belongs node.now seat.old }
{
    node.call(rt, seat, request)
}

/// The journal of a node, or the node and the seats again.
pub fn close_node<N: Shared>(node: N, seats: Vec<N::Seat>) -> Result<Journal, Strangers<N>>
    requires { All (N.belongs node) seats.items }
{
    node.close(seats)
}

/// The same of a lock, whose seats have no condition.
pub fn close_locked(
    node: LockedNode,
    seats: Vec<LockedSeat>,
) -> Result<Journal, Strangers<LockedNode>> {
    node.close(seats)
}

/// One call that doesn't wait.
pub fn try_seat(node: &SeatNode, seat: &mut Seat, request: &Request) -> Result<Reply, TryError>
    requires { seat.old.instance ≡ node.now }
{
    match node.try_call(seat, request) {
        Err(TryError::Busy(Busy(entries))) => {
            let entries: u64 = entries;
            Err(TryError::Busy(Busy(entries)))
        }
        answer => answer,
    }
}

/// Both seats, which have seen the same, and how many entries that is.
pub fn meet_and_count(node: &SeatNode, first: Seat, second: Seat) -> (Seat, Seat, u64)
    requires first { first.instance ≡ node.now }
    requires second { second.instance ≡ node.now }
{
    let both: (Seat, Seat) = node.meet(first, second);
    let (mut first, second) = both;
    let entries: u64 = node.count(&mut first);
    (first, second, entries)
}

/// The seat, which had the machine to itself in between, or how many entries there are.
pub fn hold_seat(node: &SeatNode, seat: Seat) -> Result<Seat, (Seat, Busy)>
    requires { seat.instance ≡ node.now }
{
    let held: Held = node.hold(seat)?;
    let seat: Seat = node.release(held);
    Ok(seat)
}

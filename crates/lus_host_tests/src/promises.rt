//! What a host relies on: each function makes one call, and its contract is what that call's contract says to a host.
ghost use Rattle.std.specs.Arc.{arc_value};
ghost use Rattle.std.specs.List.{All};
ghost use Rattle.std.specs.Prelude.{◌≡◌, ◌<◌, ◌^◌, ◌++◌, ◌∷◌, [], true, length, IfOk, IfErr};
ghost use Rattle.lus_callers.specs.CodeSpecs.Codes.{program_of};
ghost use Rattle.lus_callers.specs.MachineSpecs.Machines.{entry};
ghost use Rattle.lus_callers.specs.Scripts.{HasNodes, CallKnown, HaveFewCalls, scripts, shares, histories};
ghost use Rattle.lus_callers.specs.Served.{AllCounted, AllServed};
ghost use Rattle.lus_callers.specs.SharedSpecs.Closing.{Closed};
ghost use Rattle.lus_callers.specs.SharedSpecs.Trait.{EndsIn};
ghost use Rattle.lus_callers.specs.SharedSpecs.Views.{Adds, Sees};

use lus_callers::lus_machine::{CallError, Machine, Program};
use lus_callers::lus_shared::{Journal, Seat, SeatNode, Shared, Strangers, TryError};
use lus_callers::{Caller, Gate, HostError, Journals, run_callers};
use lus_program::NodeId;
use lus_requests::{Reply, Request};
use std::alloc::Global;
use std::sync::{Arc, Wait};
use std::thread::Threads;

/// One call at a machine of one's own: it is entered, with the reply that is given.
pub fn call_machine(
    machine: &mut Machine,
    caller: u32,
    request: &Request,
) -> Result<Reply, CallError>
    ensures { IfOk result (λ a. machine.new.history ≡ machine.old.history ++ entry caller request.now a ∷ []) }
{
    machine.call(caller, request)
}

/// One call, by a lock or by a seat: some history of a node ends in it.
pub fn call_shared<N: Shared, R: Wait>(
    rt: &R,
    node: &N,
    seat: &mut N::Seat,
    request: &Request,
) -> Result<Reply, CallError>
    requires { N.belongs node.now seat.old }
    ensures { IfOk result (λ a. EndsIn (N.number seat.old) request.now a) }
{
    node.call(rt, seat, request)
}

/// One call by a seat: it stands behind all that the seat had seen, or nothing was entered for the seat.
pub fn call_seat(node: &SeatNode, seat: &mut Seat, request: &Request) -> Result<Reply, TryError>
    requires { seat.old.instance ≡ node.now }
    ensures ok { IfOk result (λ a. Adds seat.old seat.new request.now a) }
    ensures err { IfErr result (λ e. Sees seat.old seat.new (length seat.new.seen)) }
{
    node.try_call(seat, request)
}

/// How many entries the seat has now seen.
pub fn count_entries(node: &SeatNode, seat: &mut Seat) -> u64
    requires { seat.old.instance ≡ node.now }
    ensures { Sees seat.old seat.new result }
{
    node.count(seat)
}

/// Both seats, which have now seen the same.
pub fn meet_seats(node: &SeatNode, first: Seat, second: Seat) -> (Seat, Seat)
    requires first { first.instance ≡ node.now }
    requires second { second.instance ≡ node.now }
    ensures first { Sees first result.0 (length result.0.seen) }
    ensures second { Sees second result.1 (length result.1.seen) }
    ensures same { result.0.seen ≡ result.1.seen }
{
    node.meet(first, second)
}

/// The entries that all seats have seen the beginning of.
pub fn close_seats(node: SeatNode, seats: Vec<Seat>) -> Result<Journal, Strangers<SeatNode>>
    requires { All (λ s. s.instance ≡ node) seats.items }
    ensures { IfOk result (λ j. Closed node seats.items j.entries.items) }
{
    node.close(seats)
}

/// A run over seats: each entry is one of a caller's, and each caller made its calls up to one that it ran out at.
pub fn run_served<G: Gate + Sync, R: Threads + Wait + Sync>(
    rt: &R,
    alloc: Global,
    program: &Arc<Program>,
    instances: &[NodeId],
    callers: &[Caller],
    gate: &G,
) -> Result<Journals, HostError>
    requires nodes { HasNodes (program_of (arc_value program.now)) instances.now }
    requires known { CallKnown (length instances.now) callers.now }
    requires few_calls { HaveFewCalls callers.now }
    requires few { length callers.now < 2 ^ 32 }
    ensures counted { IfOk result (λ r. AllCounted (length instances.now) (shares r) (histories r)) }
    ensures served { IfOk result (λ r. AllServed true (scripts callers.now) r.wants.items (shares r) (histories r)) }
{
    run_callers::<SeatNode, G, R>(rt, alloc, program, instances, callers, gate)
}

//! Seats with their node.
ghost use Rattle.std.specs.Prelude.{◌≡◌, length, Some, None, IfOk, IfErr, MatchOption, MatchResult};
ghost use Rattle.std.specs.Arc.{arc_value};
ghost use Rattle.std.specs.Coded.{codes};
ghost use Rattle.lus_values.specs.Coded.{coded_row};
ghost use Rattle.lus_shared.specs.HistorySpecs.CodedPrograms.{coded_expression};
ghost use Rattle.lus_shared.specs.Views.{Sees, Adds};
ghost use Rattle.lus_shared.specs.Calls.{Counts};
ghost use Rattle.lus_shared.specs.CodeSpecs.Codes.{program_of};
ghost use Rattle.lus_foreign.specs.Seated.{IsOf};

use lus_requests::{Reply, Request};
use lus_shared::lus_machine::{NodeId, Program};
use lus_shared::{Busy, Held, Seat, SeatNode, TryError};
use std::marker::Model;
use std::sync::Arc;

/// An instance, with the number by which C's calls tell it from others, and the node of a program that it is an instance of.
#[derive(Drop)]
pub struct Opened {
    pub(crate) node: SeatNode,
    pub(crate) id: u64,
    pub(crate) program: Arc<Program>,
    pub(crate) kind: NodeId,
    ghost opened: { IsOf node (program_of (arc_value program)) kind.0 } by { Prim.hlevel (codes, coded_row, coded_expression) },
}

/// A seat with its instance, and the reply to its last call.
#[derive(Drop)]
pub struct NodeSeat {
    pub(crate) node: Arc<Opened>,
    pub(crate) seat: Seat,
    pub(crate) last: Option<Reply>,
}

impl Model for NodeSeat {
    ghost use Rattle.std.specs.Prelude.{◌≡◌};
    ghost use Rattle.std.specs.Arc.{arc_value};
    ghost use Rattle.lus_foreign.specs.Seated.{Seated};
    ghost use Rattle.std.specs.Coded.{codes};
    ghost use Rattle.lus_values.specs.Coded.{coded_row};
    ghost use Rattle.lus_shared.specs.HistorySpecs.CodedPrograms.{coded_expression};

    ghost Value = { Seated };

    ghost coded = { Prim.hlevel (codes, coded_row, coded_expression) };

    ghost view = { λ s. record { id = (arc_value s.node).id; standing = s.seat; last = s.last } };

    ghost invariant = { λ s. s.seat.instance ≡ (arc_value s.node).node };
}

impl NodeSeat {
    /// The number by which C's calls tell its instance from others.
    pub fn id(&self) -> u64
        ensures { result ≡ self.now.id }
    {
        self.node.id
    }

    /// Its number among the seats of its instance.
    pub fn number(&self) -> u32
        ensures { result ≡ self.now.standing.number }
    {
        self.seat.number()
    }

    pub(crate) fn callers(&self) -> u32
        ensures { result ≡ self.now.standing.instance.origin.callers }
    {
        self.node.node.callers()
    }

    /// How many entries its instance has.
    pub fn count(&mut self) -> u64
        ensures id { self.new.id ≡ self.old.id }
        ensures last { self.new.last ≡ self.old.last }
        ensures sees { Sees self.old.standing self.new.standing result }
    {
        self.node.node.count(&mut self.seat)
    }

    /// One call where the machine is free.
    pub fn try_call(&mut self, request: &Request) -> Result<Reply, TryError>
        ensures id { self.new.id ≡ self.old.id }
        ensures last { self.new.last ≡ self.old.last }
        ensures ok { IfOk result (λ a. Adds self.old.standing self.new.standing request.now a) }
        ensures err { IfErr result (λ e. Sees self.old.standing self.new.standing (length self.new.standing.seen)
            × Counts e (length self.new.standing.seen)) }
    {
        self.node.node.try_call(&mut self.seat, request)
    }

    /// Keeps a reply, so that it can be given again.
    pub fn keep(&mut self, reply: Reply)
        ensures id { self.new.id ≡ self.old.id }
        ensures standing { self.new.standing ≡ self.old.standing }
        ensures last { self.new.last ≡ Some reply }
    {
        self.last = Some(reply);
    }

    /// The reply to its last call.
    pub fn last(&self) -> Option<&Reply>
        ensures { MatchOption result (self.now.last ≡ None) (λ r. self.now.last ≡ Some r.now) }
    {
        self.last.as_ref()
    }

    /// Both seats, in their order, which have now seen the same.
    pub fn meet(self, other: NodeSeat) -> (NodeSeat, NodeSeat)
        requires { other.standing.instance ≡ self.standing.instance }
        ensures ids { (result.0.id ≡ self.id) × (result.1.id ≡ other.id) }
        ensures lasts { (result.0.last ≡ self.last) × (result.1.last ≡ other.last) }
        ensures first { Sees self.standing result.0.standing (length result.0.standing.seen) }
        ensures second { Sees other.standing result.1.standing (length result.1.standing.seen) }
        ensures same { result.0.standing.seen ≡ result.1.standing.seen }
    {
        let NodeSeat { node, seat, last } = self;
        let NodeSeat {
            node: other_node,
            seat: other_seat,
            last: other_last,
        } = other;
        let (seat, other_seat) = node.node.meet(seat, other_seat);
        let first = NodeSeat { node, seat, last };
        let second = NodeSeat {
            node: other_node,
            seat: other_seat,
            last: other_last,
        };
        (first, second)
    }

    /// Takes the machine, where it is free, and makes no entry.
    pub fn hold(self) -> Result<HeldSeat, (NodeSeat, Busy)>
        ensures last { MatchResult result (λ h. h.last ≡ self.last) (λ e. e.0.last ≡ self.last) }
        ensures ok { IfOk result (λ h. (h.id ≡ self.id) × Sees self.standing h.standing (length h.standing.seen)) }
        ensures err { IfErr result (λ e. (e.0.id ≡ self.id) × Sees self.standing e.0.standing (length e.0.standing.seen)
            × (e.1.0 ≡ length e.0.standing.seen)) }
    {
        let NodeSeat { node, seat, last } = self;
        match node.node.hold(seat) {
            Ok(held) => Ok(HeldSeat { node, held, last }),
            Err((seat, busy)) => Err((NodeSeat { node, seat, last }, busy)),
        }
    }
}

/// A seat that has the machine to itself, with its instance. Where it is let go it gives the machine back.
pub struct HeldSeat {
    node: Arc<Opened>,
    held: Held,
    last: Option<Reply>,
}

impl Model for HeldSeat {
    ghost use Rattle.std.specs.Prelude.{◌≡◌};
    ghost use Rattle.std.specs.Arc.{arc_value};
    ghost use Rattle.lus_foreign.specs.Seated.{Seated};
    ghost use Rattle.std.specs.Coded.{codes};
    ghost use Rattle.lus_values.specs.Coded.{coded_row};
    ghost use Rattle.lus_shared.specs.HistorySpecs.CodedPrograms.{coded_expression};

    ghost Value = { Seated };

    ghost coded = { Prim.hlevel (codes, coded_row, coded_expression) };

    ghost view = { λ h. record { id = (arc_value h.node).id; standing = h.held.standing; last = h.last } };

    ghost invariant = { λ h. h.held.standing.instance ≡ (arc_value h.node).node };
}

impl HeldSeat {
    /// Gives the machine back as it was.
    pub fn release(self) -> NodeSeat
        ensures { result ≡ self }
    {
        let HeldSeat { node, held, last } = self;
        let seat = node.node.release(held);
        NodeSeat { node, seat, last }
    }
}

impl Drop for HeldSeat {
    fn drop(self) {
        let HeldSeat {
            node,
            held,
            last: _,
        } = self;
        let _ = node.node.release(held);
    }
}

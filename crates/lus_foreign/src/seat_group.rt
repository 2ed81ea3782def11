//! Seats of one instance that are together.
ghost use Rattle.std.specs.Prelude.{◌≡◌, ◌++◌, ◌∷◌, [], IfOk, IfErr, IfSome, IsTrue, MatchOption};
ghost use Rattle.std.specs.Arc.{arc_value};
ghost use Rattle.lus_shared.specs.CodeSpecs.Codes.{program_of};
ghost use Rattle.lus_shared.specs.Knowledge.{Instance};
ghost use Rattle.lus_foreign.specs.Closing.{EndLeaves};
ghost use Rattle.lus_foreign.specs.Seated.{AreOpened, Belongs, IsMate};

use crate::node_seat::{NodeSeat, Opened};
use lus_requests::Entry;
use lus_shared::lus_machine::{Machine, NodeId, Program};
use lus_shared::{Seat, SeatNode, Strangers};
use lus_values::Memory;
use std::alloc::Global;
use std::marker::Model;
use std::sync::Arc;

/// Seats of one instance that are together.
#[derive(Drop)]
pub struct SeatGroup {
    seats: Vec<NodeSeat>,
}

impl Model for SeatGroup {
    ghost use Rattle.std.specs.Prelude.{List};
    ghost use Rattle.lus_foreign.specs.Seated.{Seated, Together};
    ghost use Rattle.std.specs.Coded.{codes};
    ghost use Rattle.lus_values.specs.Coded.{coded_row};
    ghost use Rattle.lus_shared.specs.HistorySpecs.CodedPrograms.{coded_expression};

    ghost Value = { List Seated };

    ghost coded = { Prim.hlevel (codes, coded_row, coded_expression) };

    ghost view = { λ g. g.seats.items };

    ghost invariant = { λ g. Together g.seats.items };
}

/// The entries of an instance that was closed, and the node of a program that it was an instance of.
#[derive(Drop)]
pub struct ClosedNode {
    pub entries: Vec<Entry>,
    pub program: Arc<Program>,
    pub kind: NodeId,
}

/// What becomes of seats that are closed.
#[derive(Drop)]
pub enum Ended {
    Closed(ClosedNode),
    /// These aren't all seats of an instance.
    Strangers(SeatGroup),
    /// A growth was refused.
    Memory(SeatGroup),
    /// A seat of the instance is elsewhere too, which no handle allows.
    Lost,
}

/// What an instance is opened with: the number by which C's calls tell it from others, and the node of a program.
#[derive(Drop)]
pub struct Opening {
    pub id: u64,
    pub program: Arc<Program>,
    pub kind: NodeId,
}

/// Whether a seat is behind the others, and the instance, where its last seat came.
#[derive(Drop)]
struct Parted {
    is_done: bool,
    found: Option<Opened>,
}

// Puts a seat behind others, and its instance where no other seat has it.
fn part(seats: &mut Vec<Seat>, place: NodeSeat, found: Option<Opened>) -> Parted
    ensures seats { IsTrue result.is_done → seats.new.items ≡ seats.old.items ++ place.standing ∷ [] }
    ensures found { (i : Instance) → place.standing.instance ≡ i → IfSome found (λ o. o.node ≡ i) → IfSome result.found (λ o. o.node ≡ i) }
{
    let NodeSeat {
        node,
        seat,
        last: _,
    } = place;
    let is_done = seats.push(seat).is_ok();
    match Arc::into_inner(node) {
        Some(opened) => Parted {
            is_done,
            found: Some(opened),
        },
        None => Parted { is_done, found },
    }
}

impl SeatGroup {
    /// The instance of this machine, with all of its seats.
    pub fn open(
        alloc: Global,
        machine: Machine,
        callers: u32,
        opening: Opening,
    ) -> Result<SeatGroup, Memory>
        requires new { machine.history ≡ [] }
        requires program { machine.program ≡ program_of (arc_value opening.program) }
        requires node { machine.node ≡ opening.kind.0 }
        ensures { IfOk result (λ ss. AreOpened machine callers opening.id ss) }
    {
        let Opening { id, program, kind } = opening;
        let (node, mut seats) = SeatNode::open(alloc, machine, callers)?;
        let opened = Opened {
            node,
            id,
            program,
            kind,
        };
        let node = Arc::new(alloc, opened)?;
        let mut places = Vec::with_capacity(alloc, callers as usize)?;
        while let Some(seat) = seats.pop() {
            let node = Arc::try_clone(&node)?;
            places.push(NodeSeat {
                node,
                seat,
                last: None,
            })?;
        }
        Ok(SeatGroup { seats: places })
    }

    /// No seats.
    pub fn empty(alloc: Global) -> SeatGroup
        ensures { result ≡ [] }
    {
        SeatGroup {
            seats: Vec::new(alloc),
        }
    }

    /// Whether the seat is of the instance of these.
    pub fn is_mate(&self, seat: &NodeSeat) -> bool
        ensures { IsTrue result → IsMate self.now seat.now }
    {
        match self.seats.first() {
            Some(first) => first.id() == seat.id(),
            None => true,
        }
    }

    /// Puts a seat behind these, or gives it back where a growth is refused.
    pub fn push(&mut self, seat: NodeSeat) -> Result<(), NodeSeat>
        requires { Belongs self.old seat }
        ensures ok { IfOk result (λ u. self.new ≡ self.old ++ seat ∷ []) }
        ensures err { IfErr result (λ s. (s ≡ seat) × (self.new ≡ self.old)) }
    {
        match self.seats.push(seat) {
            Ok(()) => Ok(()),
            Err(failed) => Err(failed.value),
        }
    }

    /// Takes the last of these.
    pub fn pop(&mut self) -> Option<NodeSeat>
        ensures { MatchOption result ((self.old ≡ []) × (self.new ≡ [])) (λ s. self.old ≡ self.new ++ s ∷ []) }
    {
        self.seats.pop()
    }

    fn count_number(&self, number: u32) -> usize {
        self.seats
            .iter()
            .filter(|seat| seat.number() == number)
            .count()
    }

    fn is_whole(&self) -> bool {
        let Some(first) = self.seats.first() else {
            return false;
        };
        let callers = first.callers();
        if self.seats.len() != callers as usize {
            return false;
        }
        for number in 0..callers {
            if self.count_number(number) != 1 {
                return false;
            }
        }
        true
    }

    /// The entries, where these are all seats of their instance.
    pub fn close(self, alloc: Global) -> Ended
        ensures { EndLeaves self result }
    {
        if !self.is_whole() {
            return Ended::Strangers(self);
        }
        let Ok(mut seats) = Vec::with_capacity(alloc, self.seats.len()) else {
            return Ended::Memory(self);
        };
        let SeatGroup { seats: mut places } = self;
        let mut found = None;
        while let Some(place) = places.pop() {
            let parted = part(&mut seats, place, found);
            if !parted.is_done {
                return Ended::Lost;
            }
            found = parted.found;
        }
        let Some(opened) = found else {
            return Ended::Lost;
        };
        let Opened {
            node,
            id: _,
            program,
            kind,
        } = opened;
        match node.close(seats) {
            Ok(journal) => Ended::Closed(ClosedNode {
                entries: journal.entries,
                program,
                kind,
            }),
            Err(strangers) => {
                let Strangers { node: _, seats: _ } = strangers;
                Ended::Lost
            }
        }
    }
}

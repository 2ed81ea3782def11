//! Seats at a table with one machine.
ghost use Rattle.std.specs.Prelude.{◌≡◌, ◌==◌, ◌<◌, ℕ, [], true, length, map, IfOk, IfErr};
ghost use Rattle.lus_shared.specs.Views.{Sees, Adds, fresh_seats};
ghost use Rattle.lus_shared.specs.Knowledge.{origin_with};
ghost use Rattle.lus_shared.specs.Told.{seat_at};
ghost use Rattle.lus_shared.specs.Closing.{Closed, facts_from};
ghost use Rattle.std.specs.List.{count_by};
ghost use Rattle.std.specs.List.{All, range_with_len};
ghost use Rattle.lus_shared.specs.Calls.{Counts};
ghost use Rattle.lus_machine.specs.Machines.{full};

use crate::close::gather;
use crate::place::{call_at, take};
use crate::refusal::{Busy, TryError};
use crate::rule::{Board, Both, Cut, Give, Key, Look, Place};
use atomic_table::Table;
use lus_machine::{CallError, Machine};
use lus_requests::{Reply, Request};
use lus_values::Memory;
use std::alloc::Global;
use std::marker::Model;
use std::snapshot::Snapshot;
use std::sync::Wait;
use std::thread;

/// A machine that several seats call, one at a time and without waiting.
#[derive(Drop)]
pub struct SeatNode {
    table: Board,
    callers: u32,
}

impl Model for SeatNode {
    ghost use Rattle.std.specs.Prelude.{◌≡◌};
    ghost use Rattle.lus_shared.specs.Knowledge.{Instance};
    ghost use Rattle.lus_shared.specs.Key.{origin_of};
    ghost use Rattle.std.specs.Coded.{codes};
    ghost use Rattle.lus_values.specs.Coded.{coded_value};
    ghost use Rattle.lus_machine.specs.HistorySpecs.CodedPrograms.{coded_expression};

    ghost Value = { Instance };

    ghost coded = { Prim.hlevel (codes, coded_value, coded_expression) };

    ghost view = { λ n. record { table = n.table.shared.table_id; origin = origin_of n.table.shared.key } };

    ghost invariant = { λ n. (n.table.shared.table_id.words ≡ 1) × (n.table.shared.table_id.slots ≡ 1)
        × (n.callers ≡ n.table.shared.key.callers) };
}

/// A caller's place at one node.
#[derive(Drop)]
pub struct Seat {
    place: Place,
    number: u32,
    share: u32,
}

impl Model for Seat {
    ghost use Rattle.lus_shared.specs.Knowledge.{Standing};
    ghost use Rattle.lus_shared.specs.Views.{standing_of, facts_of, IsSeated};
    ghost use Rattle.std.specs.Coded.{codes};
    ghost use Rattle.lus_values.specs.Coded.{coded_row};
    ghost use Rattle.lus_machine.specs.HistorySpecs.CodedPrograms.{coded_expression};

    ghost Value = { Standing };

    ghost coded = { Prim.hlevel (codes, coded_row, coded_expression) };

    ghost view = { λ s. standing_of s.place.table_id (facts_of s.place.me.0.seats) };

    ghost invariant = { λ s. IsSeated s.place.table_id s.place.me s.number s.share };
}

impl Seat {
    /// The number of the caller.
    pub fn number(&self) -> u32
        ensures { result ≡ self.now.number }
    {
        self.number
    }

    /// How many calls it made.
    pub fn share(&self) -> u32
        ensures { result ≡ length self.now.mine }
    {
        self.share
    }

    pub(crate) fn into_place(self) -> Place
        ensures { (result.table_id ≡ self.instance.table) × (result.me ≡ seat_at (facts_from self)) }
    {
        let Seat {
            place,
            number: _,
            share: _,
        } = self;
        place
    }
}

impl SeatNode {
    /// The node of this machine, and its seats, with the numbers from 0 on.
    pub fn open(
        alloc: Global,
        machine: Machine,
        callers: u32,
    ) -> Result<(SeatNode, Vec<Seat>), Memory>
        requires { machine.history ≡ [] }
        ensures origin { IfOk result (λ r. r.0.origin ≡ origin_with machine callers) }
        ensures seats { IfOk result (λ r. r.1.items ≡ fresh_seats r.0 0 callers) }
        ensures belong { IfOk result (λ r. All (λ s. s.instance ≡ r.0) r.1.items) }
        ensures numbers { IfOk result (λ r. map (λ s. s.number) r.1.items ≡ range_with_len 0 callers) }
        ensures none_made { IfOk result (λ r. All (λ s. length s.mine ≡ 0) r.1.items) }
    {
        let key = Key {
            machine: Snapshot::of(&machine),
            callers,
        };
        let mut seats = Vec::with_capacity(alloc, callers as usize)?;
        let mut slots = Vec::with_capacity(alloc, 1)?;
        let _ = machine.history();
        slots.push_reserved(machine);
        let Ok((table, mut rest)) = Table::new(alloc, &[0], slots, &key) else {
            return Err(Memory);
        };
        for number in 0..callers {
            let place = table.shared.split_seat::<Cut>(&mut rest);
            seats.push_reserved(Seat {
                place,
                number,
                share: 0,
            });
        }
        Ok((SeatNode { table, callers }, seats))
    }

    /// How many entries there are.
    pub fn count(&self, seat: &mut Seat) -> u64
        requires { seat.old.instance ≡ self.now }
        ensures { Sees seat.old seat.new result }
    {
        self.table.shared.load::<Look>(&mut seat.place, 0) / 2
    }

    /// Both seats, in their order, which have now seen the same.
    pub fn meet(&self, first: Seat, second: Seat) -> (Seat, Seat)
        requires { (first.instance ≡ self.now) × (second.instance ≡ self.now) }
        ensures first { Sees first result.0 (length result.0.seen) }
        ensures second { Sees second result.1 (length result.1.seen) }
        ensures same { result.0.seen ≡ result.1.seen }
    {
        let Seat {
            place: mut both,
            number: first_number,
            share: first_share,
        } = first;
        let Seat {
            place: other,
            number: second_number,
            share: second_share,
        } = second;
        let shared = &self.table.shared;
        shared.join_seat::<Both>(&mut both, other);
        shared.load::<Look>(&mut both, 0);
        let place = shared.split_seat::<Cut>(&mut both);
        (
            Seat {
                place,
                number: first_number,
                share: first_share,
            },
            Seat {
                place: both,
                number: second_number,
                share: second_share,
            },
        )
    }
}

/// A seat that has the machine to itself. Give it back with `release`.
pub struct Held {
    place: Place,
    number: u32,
    share: u32,
    found: u64,
}

impl Model for Held {
    ghost use Rattle.lus_shared.specs.Knowledge.{Holding};
    ghost use Rattle.lus_shared.specs.Views.{standing_of, facts_of, IsTaker};
    ghost use Rattle.std.specs.Coded.{codes};
    ghost use Rattle.lus_values.specs.Coded.{coded_row};
    ghost use Rattle.lus_machine.specs.HistorySpecs.CodedPrograms.{coded_expression};

    ghost Value = { Holding };

    ghost coded = { Prim.hlevel (codes, coded_row, coded_expression) };

    ghost view = { λ h. record { standing = standing_of h.place.table_id (facts_of h.place.me.0.seats); taker = h.place.me.0.taker } };

    ghost invariant = { λ h. IsTaker h.place.table_id h.place.me h.number h.share h.found };
}

impl SeatNode {
    /// One call where the machine is free. With an error it made no entry.
    pub fn try_call(&self, seat: &mut Seat, request: &Request) -> Result<Reply, TryError>
        requires { seat.old.instance ≡ self.now }
        ensures ok { IfOk result (λ a. Adds seat.old seat.new request.now a) }
        ensures err { IfErr result (λ e. Sees seat.old seat.new (length seat.new.seen) × Counts e (length seat.new.seen)) }
    {
        let reply = call_at(&self.table, &mut seat.place, seat.number, request)?;
        seat.share += 1;
        Ok(reply)
    }

    /// Takes the machine, where it is free, and makes no entry. Nobody else makes one until it is given back (`takers_are_alone`).
    pub fn hold(&self, seat: Seat) -> Result<Held, (Seat, Busy)>
        requires { seat.instance ≡ self.now }
        ensures ok { IfOk result (λ h. Sees seat h.standing (length h.standing.seen)) }
        ensures taker { IfOk result (λ h. h.taker ≡ true) }
        ensures err { IfErr result (λ e. Sees seat e.0 (length e.0.seen) × (e.1.0 ≡ length e.0.seen)) }
    {
        let Seat {
            mut place,
            number,
            share,
        } = seat;
        match take(&self.table, &mut place) {
            Ok(found) => Ok(Held {
                place,
                number,
                share,
                found,
            }),
            Err(found) => {
                let seat = Seat {
                    place,
                    number,
                    share,
                };
                Err((seat, Busy(found / 2)))
            }
        }
    }

    /// Gives the machine back as it was.
    pub fn release(&self, held: Held) -> Seat
        requires { held.standing.instance ≡ self.now }
        ensures { result ≡ held.standing }
    {
        let Held {
            mut place,
            number,
            share,
            found,
        } = held;
        self.table.shared.store::<Give>(&mut place, 0, found);
        Seat {
            place,
            number,
            share,
        }
    }
}

impl SeatNode {
    /// One call, for which it waits until the machine is free.
    pub fn call<R: Wait>(
        &self,
        rt: &R,
        seat: &mut Seat,
        request: &Request,
    ) -> Result<Reply, CallError>
        requires { seat.old.instance ≡ self.now }
        ensures ok { IfOk result (λ a. Adds seat.old seat.new request.now a) }
        ensures err { let seen = length seat.new.seen in
            IfErr result (λ e. Sees seat.old seat.new seen × (e ≡ CallError.Full → seen ≡ full) × (e ≡ CallError.Memory → seen < full)) }
    {
        for _ in rt.forever() {
            match self.try_call(seat, request) {
                Ok(reply) => return Ok(reply),
                Err(TryError::Memory) => return Err(CallError::Memory),
                Err(TryError::Full) => return Err(CallError::Full),
                // Whoever has the machine may be waiting for this processor.
                Err(TryError::Busy(_)) => thread::yield_now(),
            }
        }
        unreachable!()
    }
}

impl SeatNode {
    /// How many seats were made.
    pub fn callers(&self) -> u32
        ensures { result ≡ self.now.origin.callers }
    {
        self.callers
    }

    // The machine, once all seats are here.
    pub(crate) fn finish(self, seats: Vec<Seat>) -> Machine
        requires own { All (λ s. s.instance ≡ self) seats.items }
        requires all { (k : ℕ) → k < self.origin.callers → count_by (λ s. s.number == k) seats.items ≡ 1 }
        ensures { Closed self seats.items result.history }
    {
        let SeatNode { table, callers: _ } = self;
        match gather(&table, seats) {
            Some(place) => {
                let mut closed = table.close_with(place);
                let machine = closed.take(0);
                closed.free();
                machine
            }
            None => {
                let mut closed = table.close();
                let machine = closed.take(0);
                closed.free();
                machine
            }
        }
    }
}

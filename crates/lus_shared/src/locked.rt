//! A lock round a machine.
ghost use Rattle.std.specs.Prelude.{◌≡◌, ◌+◌, ◌==◌, ◌<◌, ◌≤◌, ℕ, true, false, length, map, IfOk, IfErr, IsTrue};
ghost use Rattle.std.specs.List.{All, sum_by, count_by};
ghost use mathlib.Core.Logic.{◌↔◌};
ghost use Rattle.lus_machine.specs.Machines.{IsLegal};
ghost use Rattle.lus_shared.specs.Closing.{HaveEach, Closed};
ghost use Rattle.lus_shared.specs.Trait.{Gathered, HaveMade, untold};

use crate::shared::{Journal, Shared, Strangers};
use lus_machine::{CallError, Machine};
use lus_requests::{Reply, Request};
use lus_values::Memory;
use std::alloc::Global;
use std::marker::Model;
use std::sync::{Mutex, Wait};

/// A machine that callers lock.
#[derive(Drop)]
pub struct LockedNode {
    machine: Mutex<Machine>,
    callers: u32,
}

impl Model for LockedNode {
    ghost use Rattle.std.specs.Prelude.{ℕ};

    ghost Value = { ℕ };

    ghost view = { λ n. n.callers };
}

/// A caller's number, and how many calls it made.
#[derive(Drop)]
pub struct LockedSeat {
    number: u32,
    share: u32,
}

fn count_number(seats: &[LockedSeat], number: u32) -> usize
    ensures { result ≡ count_by (λ s. s.number == number) seats.now }
{
    seats.iter().filter(|seat| seat.number == number).count()
}

fn has_all(seats: &[LockedSeat], callers: u32) -> bool
    ensures { IsTrue result ↔ ((k : ℕ) → k < callers → count_by (λ s. s.number == k) seats.now ≡ 1) }
{
    for number in 0..callers {
        if count_number(seats, number) != 1 {
            return false;
        }
    }
    true
}

fn has_no_other(seats: &[LockedSeat], callers: u32) -> bool
    ensures { IsTrue result ↔ All (λ s. s.number < callers) seats.now }
{
    seats.iter().all(|seat| seat.number < callers)
}

// The sum of the shares, which so wide a word holds, however many seats there are.
fn shares(seats: &[LockedSeat]) -> u128
    ensures { result ≡ sum_by (λ s. s.share) seats.now }
{
    let mut sum = 0;
    for seat in seats {
        sum += u128::from(seat.share);
    }
    sum
}

// Whether these are all seats of a node with this machine, and made as many calls as the machine has entries.
fn are_all(machine: &Machine, callers: u32, seats: &[LockedSeat]) -> bool
    ensures made { IsTrue result ↔ HaveMade (λ s. s.number) (λ s. s.share) callers seats.now machine.now.history }
    ensures legal { IsLegal machine.now }
{
    let entries = machine.history().len() as u128;
    if !has_all(seats, callers) {
        return false;
    }
    if !has_no_other(seats, callers) {
        return false;
    }
    shares(seats) == entries
}

// The machine's entries, where these are all seats and made as many calls; else the machine and the seats, as they were given.
fn journal_of(
    machine: Machine,
    callers: u32,
    seats: Vec<LockedSeat>,
) -> Result<Journal, (Machine, Vec<LockedSeat>)>
    ensures same { IfOk result (λ j. j.entries.items ≡ machine.history) }
    ensures legal { IsLegal machine }
    ensures ok { IfOk result (λ j. HaveMade (λ s. s.number) (λ s. s.share) callers seats.items machine.history) }
    ensures err { IfErr result (λ r. (r.0 ≡ machine) × (r.1.items ≡ seats.items)) }
    ensures refused { IfErr result (λ r. ¬ (HaveMade (λ s. s.number) (λ s. s.share) callers seats.items machine.history)) }
{
    if are_all(&machine, callers, seats.as_slice()) {
        Ok(Journal {
            entries: machine.into_history(),
        })
    } else {
        Err((machine, seats))
    }
}

impl Shared for LockedNode {
    ghost use Rattle.std.specs.Prelude.{◌≡◌, false};
    ghost use Rattle.lus_shared.specs.Trait.{untold};

    type Seat = LockedSeat;

    ghost places = { λ n. n };

    ghost number = { λ s. s.number };

    ghost made = { λ s. s.share };

    ghost belongs = { λ n s. Unit {0} };

    ghost tells = { false };

    ghost instance = { λ n. untold.instance };

    ghost standing = { λ s. untold };

    fn open(
        alloc: Global,
        machine: Machine,
        callers: u32,
    ) -> Result<(LockedNode, Vec<LockedSeat>), Memory> {
        let mut seats = Vec::with_capacity(alloc, callers as usize)?;
        for number in 0..callers {
            seats.push_reserved(LockedSeat { number, share: 0 });
        }
        let machine = Mutex::new(machine);
        Ok((LockedNode { machine, callers }, seats))
    }

    fn call<R: Wait>(
        &self,
        rt: &R,
        seat: &mut LockedSeat,
        request: &Request,
    ) -> Result<Reply, CallError> {
        if seat.share == u32::MAX {
            return Err(CallError::Full);
        }
        let reply = self.machine.lock(rt).call(seat.number, request)?;
        seat.share += 1;
        Ok(reply)
    }

    fn close(self, seats: Vec<LockedSeat>) -> Result<Journal, Strangers<LockedNode>>
        requires { All (λ s. Unit {0}) seats.items }
        ensures ok { IfOk result (λ j. Gathered (λ s. s.number) (λ s. s.share) self seats.items j.entries.items) }
        ensures told { false ≡ true → IfOk result (λ j. Closed untold.instance (map (λ s. untold) seats.items) j.entries.items) }
        ensures err { IfErr result (λ s. (s.node ≡ self) × (s.seats.items ≡ seats.items)) }
        ensures refused { false ≡ true → IfErr result (λ s. ¬ (HaveEach untold.instance.origin.callers (map (λ s. untold) seats.items))) }
    {
        let LockedNode { machine, callers } = self;
        match journal_of(machine.into_inner(), callers, seats) {
            Ok(journal) => Ok(journal),
            Err((machine, seats)) => {
                let machine = Mutex::new(machine);
                let node = LockedNode { machine, callers };
                Err(Strangers { node, seats })
            }
        }
    }

    fn share(seat: &LockedSeat) -> u32 {
        seat.share
    }
}

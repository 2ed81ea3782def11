//! Seats at a table share a machine.
ghost use Rattle.std.specs.Prelude.{◌≡◌, true, length, map, IfOk, IfErr};
ghost use Rattle.std.specs.List.{All};
ghost use Rattle.lus_shared.specs.Closing.{HaveEach, Closed};
ghost use Rattle.lus_shared.specs.Trait.{Gathered};

use crate::seat::{Seat, SeatNode};
use crate::shared::{Journal, Shared, Strangers};
use lus_machine::{CallError, Machine};
use lus_requests::{Reply, Request};
use lus_values::Memory;
use std::alloc::Global;
use std::sync::Wait;

impl Shared for SeatNode {
    ghost use Rattle.std.specs.Prelude.{◌≡◌, true, length};

    type Seat = Seat;

    ghost places = { λ n. n.origin.callers };

    ghost number = { λ s. s.number };

    ghost made = { λ s. length s.mine };

    ghost belongs = { λ n s. s.instance ≡ n };

    ghost tells = { true };

    ghost instance = { λ n. n };

    ghost standing = { λ s. s };

    fn open(
        alloc: Global,
        machine: Machine,
        callers: u32,
    ) -> Result<(SeatNode, Vec<Seat>), Memory> {
        SeatNode::open(alloc, machine, callers)
    }

    fn call<R: Wait>(
        &self,
        rt: &R,
        seat: &mut Seat,
        request: &Request,
    ) -> Result<Reply, CallError> {
        SeatNode::call(self, rt, seat, request)
    }

    fn close(self, seats: Vec<Seat>) -> Result<Journal, Strangers<SeatNode>>
        requires { All (λ s. s.instance ≡ self) seats.items }
        ensures ok { IfOk result (λ j. Gathered (λ s. s.number) (λ s. length s.mine) self.origin.callers seats.items j.entries.items) }
        ensures told { true ≡ true → IfOk result (λ j. Closed self (map (λ s. s) seats.items) j.entries.items) }
        ensures err { IfErr result (λ s. (s.node ≡ self) × (s.seats.items ≡ seats.items)) }
        ensures refused { true ≡ true → IfErr result (λ s. ¬ (HaveEach self.origin.callers (map (λ s. s) seats.items))) }
    {
        SeatNode::close(self, seats)
    }

    fn share(seat: &Seat) -> u32 {
        seat.share()
    }
}

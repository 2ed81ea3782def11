//! The end of a node.
ghost use Rattle.std.specs.Prelude.{◌≡◌, ◌==◌, ◌<◌, ℕ, false, [], IfOk, IfErr, IsTrue, MatchOption};
ghost use Rattle.std.specs.List.{count_by};
ghost use mathlib.Core.Logic.{◌↔◌};
ghost use Rattle.lus_values.specs.Lists.{Each};
ghost use Rattle.std.specs.List.{All};
ghost use Rattle.lus_shared.specs.Closing.{HaveEach, Closed, all_facts};
ghost use Rattle.lus_shared.specs.Told.{seats_at};

use crate::rule::{Board, Both, Place};
use crate::seat::{Seat, SeatNode};
use crate::shared::{Journal, Strangers};

fn count_number(seats: &[Seat], number: u32) -> usize
    ensures { result ≡ count_by (λ s. s.number == number) seats.now }
{
    seats.iter().filter(|seat| seat.number() == number).count()
}

fn has_all(seats: &[Seat], callers: u32) -> bool
    ensures { IsTrue result ↔ ((k : ℕ) → k < callers → count_by (λ s. s.number == k) seats.now ≡ 1) }
{
    for number in 0..callers {
        if count_number(seats, number) != 1 {
            return false;
        }
    }
    true
}

// One place with what all seats know, where there is a seat.
pub(crate) fn gather(board: &Board, mut seats: Vec<Seat>) -> Option<Place>
    requires words { board.now.shared.table_id.words ≡ 1 }
    requires seats { All (λ s. s.instance.table ≡ board.now.shared.table_id) seats.items }
    ensures { MatchOption result (seats.items ≡ []) (λ p.
        (p.table_id ≡ board.now.shared.table_id) × (p.me ≡ seats_at (all_facts seats.items))) }
{
    let mut all = seats.pop()?.into_place();
    while let Some(seat) = seats.pop() {
        board.shared.join_seat::<Both>(&mut all, seat.into_place());
    }
    Some(all)
}

impl SeatNode {
    /// The entries, where these are all of its seats, else all as it was given. It waits for nobody.
    pub fn close(self, seats: Vec<Seat>) -> Result<Journal, Strangers<SeatNode>>
        requires { All (λ s. s.instance ≡ self) seats.items }
        ensures ok { IfOk result (λ j. Closed self seats.items j.entries.items) }
        ensures err { IfErr result (λ s. (s.node ≡ self) × (s.seats.items ≡ seats.items) × ¬ (HaveEach self.origin.callers seats.items)) }
    {
        if !has_all(seats.as_slice(), self.callers()) {
            return Err(Strangers { node: self, seats });
        }
        Ok(Journal {
            entries: self.finish(seats).into_history(),
        })
    }
}

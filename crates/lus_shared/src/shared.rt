//! What every shared machine offers, by a lock or by seats.
ghost use Rattle.std.specs.Prelude.{◌≡◌, ◌+◌, true, [], length, map, IfOk, IfErr, OnErr};
ghost use Rattle.lus_machine.specs.Machines.{full};
ghost use Rattle.std.specs.List.{All, range_with_len};
ghost use Rattle.lus_shared.specs.Views.{IsLater, Adds, fresh_seats};
ghost use Rattle.lus_shared.specs.Closing.{HaveEach, Closed};
ghost use Rattle.lus_shared.specs.Trait.{EndsIn, Gathered};

use lus_machine::{CallError, Machine};
use lus_requests::{Entry, Reply, Request};
use lus_values::Memory;
use std::alloc::Global;
use std::sync::Wait;

/// The entries of a node that was closed.
#[derive(Drop)]
pub struct Journal {
    pub entries: Vec<Entry>,
}

/// A node that wasn't closed, and the seats that were given, as both were.
pub struct Strangers<N: Shared> {
    pub node: N,
    pub seats: Vec<N::Seat>,
}

/// A machine that several callers share.
pub trait Shared {
    ghost use Rattle.std.specs.Prelude.{ℕ, Bool};
    ghost use Rattle.lus_shared.specs.Knowledge.{Instance, Standing, origin_with};

    /// A caller's place at a node. Its number is the caller's.
    type Seat;

    // How many seats were made, and each seat's number and how many calls it made.
    ghost places: { Self → ℕ };

    ghost number: { Self.Seat → ℕ };

    ghost made: { Self.Seat → ℕ };

    // Whether the seat is one of the node's.
    ghost belongs: { Self → Self.Seat → Type 0 };

    // Whether its calls tell what they did, and then which node it is, and what a seat knows.
    ghost tells: { Bool };

    ghost instance: { Self → Instance };

    ghost standing: { Self.Seat → Standing };

    /// The node of a machine that was never called, and a seat for each caller, numbered from 0.
    fn open(
        alloc: Global,
        machine: Machine,
        callers: u32,
    ) -> Result<(Self, Vec<Self::Seat>), Memory>
    where
        Self: Sized,
        requires { machine.history ≡ [] }
        ensures places { IfOk result (λ r. places r.0 ≡ callers) }
        ensures numbers { IfOk result (λ r. map number r.1.items ≡ range_with_len 0 callers) }
        ensures none_made { IfOk result (λ r. All (λ s. made s ≡ 0) r.1.items) }
        ensures belong { IfOk result (λ r. All (belongs r.0) r.1.items) }
        ensures origin { tells ≡ true → IfOk result (λ r. (instance r.0).origin ≡ origin_with machine callers) }
        ensures seats { tells ≡ true → IfOk result (λ r. map standing r.1.items ≡ fresh_seats (instance r.0) 0 callers) };

    /// The reply to a request, which the machine has entered with it. With an error nothing was entered. It may wait for others.
    fn call<R: Wait>(
        &self,
        rt: &R,
        seat: &mut Self::Seat,
        request: &Request,
    ) -> Result<Reply, CallError>
        requires { belongs self.now seat.old }
        ensures belongs { belongs self.now seat.new }
        ensures number { number seat.new ≡ number seat.old }
        ensures made { IfOk result (λ a. made seat.new ≡ made seat.old + 1) }
        ensures ends { IfOk result (λ a. EndsIn (number seat.old) request.now a) }
        ensures none_made { OnErr result (made seat.new ≡ made seat.old) }
        ensures adds { tells ≡ true → IfOk result (λ a. Adds (standing seat.old) (standing seat.new) request.now a) }
        ensures sees { tells ≡ true → OnErr result (IsLater (standing seat.old) (standing seat.new)) }
        ensures full { tells ≡ true → IfErr result (λ e. e ≡ CallError.Full → length (standing seat.new).seen ≡ full) };

    /// The entries, where the seats' numbers are those of the callers, each once, and the seats made as many calls as there are
    /// entries; else the seats as they were given, and the node. Of a node whose calls don't tell, contracts see how many callers it
    /// has and nothing else: that the node which comes back holds the machine that was given, with its entries, isn't promised here.
    fn close(self, seats: Vec<Self::Seat>) -> Result<Journal, Strangers<Self>>
    where
        Self: Sized,
        requires { All (belongs self) seats.items }
        ensures ok { IfOk result (λ j. Gathered number made (places self) seats.items j.entries.items) }
        ensures told { tells ≡ true → IfOk result (λ j. Closed (instance self) (map standing seats.items) j.entries.items) }
        ensures err { IfErr result (λ s. (s.node ≡ self) × (s.seats.items ≡ seats.items)) }
        ensures refused { tells ≡ true → IfErr result (λ s. ¬ (HaveEach (instance self).origin.callers (map standing seats.items))) };

    /// How many calls the seat made.
    fn share(seat: &Self::Seat) -> u32
        ensures { result ≡ made seat.now };
}

//! A machine that another thread has.
ghost use Rattle.std.specs.Prelude.{◌≡◌};

use crate::counters::{a_counter, a_step, gives};
use lus_callers::lus_shared::{Busy, Seat, SeatNode, TryError};
use lus_requests::Request;
use std::sync::Wait;
use std::sync::atomic::{AtomicU64, Ordering};
use std::test::Fail;
use std::thread;
use std::thread::{Threads, join};

const TAKEN: u64 = 1;

const REFUSED: u64 = 2;

// How far both threads are, and whether one waited in vain.
#[derive(Drop)]
struct Signs {
    reached: AtomicU64,
    late: AtomicU64,
}

impl Signs {
    fn give(&self, sign: u64) {
        self.reached.store(sign, Ordering::SeqCst);
    }

    fn wait_for(&self, sign: u64) {
        for _ in 0..1_000_000u32 {
            if self.reached.load(Ordering::SeqCst) >= sign {
                return;
            }
            thread::yield_now();
        }
        self.late.store(1, Ordering::SeqCst);
    }

    fn is_late(&self) -> bool {
        self.late.load(Ordering::SeqCst) == 1
    }
}

// Has the machine until the other seat was refused, and some turns more.
fn holds(node: &SeatNode, seat: Seat, signs: &Signs)
    requires { seat.instance ≡ node.now }
{
    if let Ok(held) = node.hold(seat) {
        signs.give(TAKEN);
        signs.wait_for(REFUSED);
        for _ in 0..1_000u32 {
            thread::yield_now();
        }
        node.release(held);
    }
}

// Whether all calls that don't wait are refused while the machine is taken, and one that begins then, and waits, is answered.
fn is_answered<R: Wait>(
    rt: &R,
    node: &SeatNode,
    mut seat: Seat,
    request: &Request,
    signs: &Signs,
) -> bool
    requires { seat.instance ≡ node.now }
{
    signs.wait_for(TAKEN);
    let mut refused = true;
    for _ in 0..1_000u32 {
        match node.try_call(&mut seat, request) {
            Err(TryError::Busy(Busy(0))) => {}
            _ => refused = false,
        }
    }
    signs.give(REFUSED);
    refused && gives(node.call(rt, &mut seat, request), 0)
}

// Both at once; whether all went as said.
fn waits<R: Threads + Wait + Sync>(
    rt: &R,
    node: &SeatNode,
    first: Seat,
    second: Seat,
    request: &Request,
    signs: &Signs,
) -> bool
    requires first { first.instance ≡ node.now }
    requires second { second.instance ≡ node.now }
{
    let (_, answered) = join(
        rt,
        || -> ()
            requires { first.instance ≡ node.now }
        { holds(node, first, signs) },
        || -> bool
            requires { second.instance ≡ node.now }
        { is_answered(rt, node, second, request, signs) },
    );
    answered && !signs.is_late()
}

#[test]
fn calls_wait_while_held(rt: HostRuntime) -> Result<(), Fail> {
    let alloc = rt.alloc();
    let (node, first, second) = a_counter(alloc)?;
    let step = a_step(alloc);
    let signs = Signs {
        reached: AtomicU64::new(0),
        late: AtomicU64::new(0),
    };
    assert!(&rt; waits(&rt, &node, first, second, &step, &signs));
    Ok(())
}

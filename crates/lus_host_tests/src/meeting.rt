//! A gate at which callers meet.

use lus_callers::Gate;
use std::sync::atomic::{AtomicU64, Ordering};
use std::thread;

/// Before its call each caller gives a sign and waits for the signs of all that meet; then all but the last wait until the last
/// one is answered. A wait ends after a million turns at most, and is then late. It keeps how often each of four callers was told
/// of its calls, which it has to be in turn: before the call, then after it.
#[derive(Drop)]
pub(crate) struct Meeting {
    callers: u32,
    signs: AtomicU64,
    answered: AtomicU64,
    first: AtomicU64,
    second: AtomicU64,
    third: AtomicU64,
    fourth: AtomicU64,
    wrong: AtomicU64,
}

impl Meeting {
    /// A meeting of so many callers, each with one call; of none, where none waits.
    pub(crate) fn of(callers: u32) -> Meeting {
        Meeting {
            callers,
            signs: AtomicU64::new(0),
            answered: AtomicU64::new(0),
            first: AtomicU64::new(0),
            second: AtomicU64::new(0),
            third: AtomicU64::new(0),
            fourth: AtomicU64::new(0),
            wrong: AtomicU64::new(0),
        }
    }

    /// Whether no caller waited in vain, or was told of its calls otherwise than in turn.
    pub(crate) fn was_kept(&self) -> bool {
        self.wrong.load(Ordering::SeqCst) == 0
    }

    /// How often a caller was told of a call, twice for each.
    pub(crate) fn told(&self, caller: usize) -> u64 {
        self.times(caller).load(Ordering::SeqCst)
    }

    fn times(&self, caller: usize) -> &AtomicU64 {
        match caller {
            0 => &self.first,
            1 => &self.second,
            2 => &self.third,
            _ => &self.fourth,
        }
    }

    fn tell(&self, caller: u32, place: u64) {
        if self.times(caller as usize).fetch_add(1, Ordering::SeqCst) != place {
            self.wrong.store(1, Ordering::SeqCst);
        }
    }

    fn is_last(&self, caller: u32) -> bool {
        caller >= self.callers.saturating_sub(1)
    }

    fn wait_for(&self, word: &AtomicU64, wanted: u64) {
        for _ in 0..1_000_000u32 {
            if word.load(Ordering::SeqCst) >= wanted {
                return;
            }
            thread::yield_now();
        }
        self.wrong.store(1, Ordering::SeqCst);
    }
}

impl Gate for Meeting {
    fn before(&self, caller: u32, call: u32) {
        self.tell(caller, u64::from(call) * 2);
        self.signs.fetch_add(1, Ordering::SeqCst);
        self.wait_for(&self.signs, u64::from(self.callers));
        if !self.is_last(caller) {
            self.wait_for(&self.answered, 1);
        }
    }

    fn answered(&self, caller: u32, call: u32) {
        self.tell(caller, u64::from(call) * 2 + 1);
        if self.is_last(caller) {
            self.answered.store(1, Ordering::SeqCst);
        }
    }
}

//! Where instants stand in a picture of waves. Lengths are tenths of a pixel.

/// How long all instants are at most, how long one of them is, and how much room a number needs.
const LONGEST: usize = 10_000;

const WIDEST: usize = 800;

const NUMBER: usize = 500;

/// How many instants there are, the place of the first in its journal, where it begins, and how long they are together.
#[derive(Clone, Copy)]
pub(crate) struct Time {
    pub instants: usize,
    pub first: u64,
    left: usize,
    length: usize,
}

impl Time {
    pub(crate) fn of(instants: usize, first: u64, left: usize) -> Time {
        Time {
            instants,
            first,
            left,
            length: LONGEST.min(instants.saturating_mul(WIDEST)),
        }
    }

    /// How far the first so many instants reach.
    fn length_of(self, instants: usize) -> usize {
        instants.saturating_mul(self.length) / self.instants.max(1)
    }

    /// Where an instant ends, counted from 1; of 0, where the first begins.
    pub(crate) fn end(self, instant: usize) -> usize {
        self.left.saturating_add(self.length_of(instant))
    }

    pub(crate) fn start(self, instant: usize) -> usize {
        self.end(instant.saturating_sub(1))
    }

    /// Where so many instants of the journal end.
    pub(crate) fn behind(self, instants: u64) -> usize {
        let left_out = self.first.saturating_sub(1);
        self.end(instants.saturating_sub(left_out) as usize)
    }

    /// Where all instants end.
    pub(crate) fn right(self) -> usize {
        self.end(self.instants)
    }

    /// How many instants are between two that have their numbers: the least of 1, 2, 5, 10 and so on that leaves them room.
    pub(crate) fn step(self) -> u64 {
        let steps: [usize; 13] = [
            1, 2, 5, 10, 20, 50, 100, 200, 500, 1_000, 2_000, 5_000, 10_000,
        ];
        for step in &steps {
            if self.length_of(*step) >= NUMBER {
                return *step as u64;
            }
        }
        self.instants.max(1) as u64
    }
}

//! Lines that were read ahead.

use lus_devices::{Failure, Source};
use std::cell::Cell;

/// How many whole lines were read ahead of a device and aren't taken yet. It says when answers are written, and never which.
#[derive(Drop)]
pub struct Waiting(Cell<u64>);

impl Waiting {
    /// Of a device of which nothing is read yet.
    pub fn new() -> Waiting {
        Waiting(Cell::new(0))
    }

    /// Counts a line that was taken, and says whether no other waits.
    pub fn take(&self) -> bool {
        let others = self.0.get().saturating_sub(1);
        self.0.set(others);
        others == 0
    }

    /// Counts the lines that end in these bytes, which were read.
    fn count(&self, bytes: &[u8]) {
        let mut lines = self.0.get();
        for byte in bytes {
            if *byte == b'\n' {
                lines = lines.saturating_add(1);
            }
        }
        self.0.set(lines);
    }
}

/// A device whose lines are counted as they are read.
#[derive(Drop)]
pub struct Counted<'a, S> {
    pub waiting: &'a Waiting,
    pub source: S,
}

impl<S: Source> Source for Counted<'_, S> {
    ghost left = { λ c. S.left c.source };

    ghost failures = { λ c. S.failures c.source };

    fn read(&mut self, buffer: &mut [u8]) -> Result<usize, Failure> {
        let given = self.source.read(buffer)?;
        self.waiting.count(&buffer[..given]);
        Ok(given)
    }
}

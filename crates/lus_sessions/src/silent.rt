//! Runs without a journal, or of which nothing is told.

ghost use Rattle.std.specs.Prelude.{[], None, ⊤};

use crate::recovering::Start;
use crate::writes::Writes;
use lus_bursts::Syncs;
use lus_devices::{Failure, Sink};
use lus_play::Speaks;
use lus_requests::Entry;
use lus_values::Memory;
use std::alloc::Global;

/// Spells each entry by no text.
#[derive(Drop)]
pub struct Silent;

impl Speaks for Silent {
    ghost says = { λ _ _ _. [] };

    fn push(&self, _text: &mut String, _number: u64, _entry: &Entry) -> Result<(), Memory> {
        Ok(())
    }
}

impl Writes for Silent {
    ghost starts = { λ _ _. [] };

    ghost ends = { λ _ _. [] };

    fn start(&self, alloc: Global, _start: Start) -> Result<Vec<u8>, Memory> {
        Ok(Vec::new(alloc))
    }

    fn end(&self, alloc: Global, _entries: u64) -> Result<String, Memory> {
        Ok(String::new(alloc))
    }
}

/// Takes all, and keeps nothing.
#[derive(Drop)]
pub struct Nowhere;

impl Sink for Nowhere {
    ghost written = { λ _. None };

    ghost failures = { λ _. None };

    fn write(&mut self, piece: &[u8]) -> Result<usize, Failure> {
        Ok(piece.len())
    }
}

impl Syncs for Nowhere {
    ghost syncs = { λ _ _. ⊤ };

    fn sync(&mut self) -> Result<(), Failure> {
        Ok(())
    }
}

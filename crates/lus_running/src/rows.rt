//! Rows of what an instance keeps, of one kind.

ghost use Rattle.std.specs.Prelude.{◌≡◌, ◌+◌, ◌↔◌, ℕ, IsTrue, IfOk, map};
ghost use Rattle.lus_instructions.specs.Followed.{cell_of};
ghost use Rattle.lus_running.specs.Instances.{CanStep, IsBack, IsCopy, IsLong, IsNew, IsReset, Keeps, MakesStep, exchanged, rows_seen};

use crate::answering::answer;
use crate::copying::{cells_again, copy_cells};
use crate::filling::{empty_all, fill, filled};
use lus_instructions::words::Word;
use lus_instructions::{Held, Stop};
use lus_orders::{Class as Emitted, Setting};
use lus_values::{Memory, Row};
use std::alloc::Global;
use std::mem::swap;

/// What an instance keeps, with room for its next instant.
#[derive(Drop)]
pub struct Rows<T> {
    pub cells: Vec<T>,
    /// The cells of the next instant while it is made, and then those of the last one.
    pub next: Vec<T>,
    /// The class's own places, and behind them the frames of its calls. What it holds between instants has no meaning.
    pub row: Vec<T>,
}

/// Whether a length is the sum of two others.
fn is_sum(whole: usize, first: usize, rest: usize) -> bool
    ensures { IsTrue result ↔ (whole ≡ first + rest) }
{
    whole >= first && whole - first == rest
}

impl<T: Held> Rows<T> {
    /// Rows as long as code wants them, at their start.
    pub fn fresh(alloc: Global, class: &Emitted) -> Result<Rows<T>, Memory>
        ensures { IfOk result (λ o. (g : ℕ) → IsNew class.now (rows_seen T.entry g o)) }
    {
        let count = class.cells as usize;
        let cells = filled(alloc, count, Word::Nil)?;
        let next = filled(alloc, count, Word::Nil)?;
        let mut row = filled(alloc, class.own, Word::Absent)?;
        fill(&mut row, class.behind, Word::Absent)?;
        Ok(Rows { cells, next, row })
    }

    /// As they were when they were fresh; takes no memory.
    pub fn reset(&mut self)
        ensures { (g : ℕ) → IsReset (rows_seen T.entry g self.old) (rows_seen T.entry g self.new) }
    {
        empty_all(&mut self.cells);
    }

    /// Rows that keep these cells, with so many places in the row.
    pub fn keeping(alloc: Global, cells: &[T], places: usize) -> Result<Rows<T>, Stop>
        ensures { IfOk result (λ o. (g : ℕ) → Keeps g (map (cell_of T.entry) cells.now) places (rows_seen T.entry g o)) }
    {
        let again = cells_again(alloc, cells)?;
        let next = filled(alloc, cells.len(), Word::Nil)?;
        let row = filled(alloc, places, Word::Absent)?;
        Ok(Rows {
            cells: again,
            next,
            row,
        })
    }

    /// Rows of another kind that keep the same, or `Structure` where words can't.
    pub fn over<U: Held>(&self, alloc: Global) -> Result<Rows<U>, Stop>
        ensures { IfOk result (λ o. (g : ℕ) → IsCopy (rows_seen T.entry g self.now) (rows_seen U.entry g o)) }
    {
        let mut cells = filled(alloc, self.cells.len(), Word::Nil)?;
        copy_cells(alloc, &self.cells, &mut cells)?;
        let next = filled(alloc, self.next.len(), Word::Nil)?;
        let row = filled(alloc, self.row.len(), Word::Absent)?;
        Ok(Rows { cells, next, row })
    }

    /// Whether the rows are as long as code wants them.
    pub fn is_long(&self, class: &Emitted) -> bool
        ensures { (g : ℕ) → IsTrue result ↔ IsLong class.now (rows_seen T.entry g self.now) }
    {
        let count = class.cells as usize;
        self.cells.len() == count
            && self.next.len() == count
            && is_sum(self.row.len(), class.own, class.behind)
    }

    /// One more instant of a class: so many outputs, if it has values, with the cells of the last instant left behind as those for the
    /// next one; or the rows keep what they kept.
    pub fn step(
        &mut self,
        on: &Setting<'_>,
        inputs: &Row,
        outputs: usize,
    ) -> Result<Option<Row>, Stop>
        requires { CanStep on.now inputs.now outputs (rows_seen T.entry 0 self.old) }
        ensures { MakesStep on.now inputs.now outputs (rows_seen T.entry 0 self.old) result (rows_seen T.entry 0 self.new) }
    {
        let answer = answer(
            on,
            inputs.items(),
            outputs,
            &self.cells,
            &mut self.next,
            &mut self.row,
        );
        match answer {
            Ok(Some(found)) => {
                self.exchange();
                Ok(Some(found))
            }
            Ok(None) => Ok(None),
            Err(stop) => Err(stop),
        }
    }

    /// Keeps what were the cells of the next instant, and the other way round; takes no memory.
    fn exchange(&mut self)
        ensures { self.new ≡ exchanged self.old }
    {
        swap(&mut self.cells, &mut self.next);
    }

    /// As they were before the step that was their last call; takes no memory.
    pub fn go_back(&mut self)
        ensures { (g : ℕ) → IsBack (rows_seen T.entry g self.old) (rows_seen T.entry g self.new) }
    {
        self.exchange();
    }
}

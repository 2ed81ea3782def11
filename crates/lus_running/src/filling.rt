//! Rows of cells and places as they are at the start.

ghost use Rattle.std.specs.Prelude.{◌≡◌, ◌++◌, IfOk, map, replicate};
ghost use Rattle.lus_values.specs.Values.{nil};
ghost use Rattle.lus_instructions.specs.Words.{entry_in};
ghost use Rattle.lus_instructions.specs.Followed.{cell_of};

use lus_instructions::Held;
use lus_instructions::words::Word;
use lus_values::Memory;
use std::alloc::Global;

/// Adds so many places that hold one word, in no more memory than they need.
pub fn fill<T: Held>(row: &mut Vec<T>, count: usize, word: Word) -> Result<(), Memory>
    ensures { IfOk result (λ _. map T.entry row.new.items ≡ map T.entry row.old.items ++ replicate count (entry_in word)) }
{
    row.reserve_exact(count)?;
    for _place in 0..count {
        row.push(T::of_word(word))?;
    }
    Ok(())
}

/// So many places that hold one word.
pub fn filled<T: Held>(alloc: Global, count: usize, word: Word) -> Result<Vec<T>, Memory>
    ensures { IfOk result (λ row. map T.entry row.items ≡ replicate count (entry_in word)) }
{
    let mut row = Vec::new(alloc);
    fill(&mut row, count, word)?;
    Ok(row)
}

/// Cells set back.
pub fn empty_all<T: Held>(cells: &mut [T])
    ensures { map (cell_of T.entry) cells.new ≡ map (λ v. nil) (map (cell_of T.entry) cells.old) }
{
    for place in 0..cells.len() {
        cells[place] = T::of_word(Word::Nil);
    }
}

//! Places that are emptied.

ghost use Rattle.std.specs.Prelude.{◌≡◌, ◌+◌, ◌≤◌, None, length, map, replicate};
ghost use Rattle.lus_orders.specs.Orders.{emptied};

use lus_instructions::Held;
use lus_instructions::words::Word;

/// Empties all places.
#[inline(always)]
pub fn empty<T: Held>(places: &mut [T])
    ensures { map T.entry places.new ≡ replicate (length places.old) None }
{
    for place in 0..places.len() {
        places[place] = T::of_word(Word::Absent);
    }
}

/// Empties so many places of a row from one on.
#[inline(always)]
pub fn empty_from<T: Held>(row: &mut [T], from: u32, count: u32)
    requires { from + count ≤ length row.old }
    ensures { map T.entry row.new ≡ emptied from count (map T.entry row.old) }
{
    let from = from as usize;
    let end = from + count as usize;
    empty(&mut row[from..end]);
}

//! Random numbers.

ghost use Rattle.std.specs.Prelude.{◌≡◌, IfOk, length};

use crate::columns::Column;
use lus_values::Memory;
use rand_core::Rng;
use std::alloc::Global;

/// A number between two others, which may be drawn too.
fn number_in(low: i64, high: i64, word: u64) -> i64 {
    let offset = match high.abs_diff(low).checked_add(1) {
        Some(count) => word % count,
        None => word,
    };
    low.saturating_add_unsigned(offset)
}

/// A row of random numbers, one for each column.
fn draw_row<R: Rng>(alloc: Global, columns: &[Column], random: &mut R) -> Result<Vec<i64>, Memory> {
    let mut row = Vec::new(alloc);
    for column in columns {
        row.push(number_in(column.low, column.high, random.next_u64()))?;
    }
    Ok(row)
}

/// So many rows of random numbers, one behind another.
pub(crate) fn draw_rows<R: Rng>(
    alloc: Global,
    columns: &[Column],
    count: u64,
    random: &mut R,
) -> Result<Vec<Vec<i64>>, Memory>
    ensures { IfOk result (λ v. length v.items ≡ count) }
{
    let mut rows = Vec::new(alloc);
    for _row in 0..count {
        rows.push(draw_row(alloc, columns, random)?)?;
    }
    Ok(rows)
}

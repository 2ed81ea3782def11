//! Rows of things, turned into their columns.

ghost use Rattle.std.specs.Prelude.{◌≡◌, ◌<◌, length, map, IfOk};
ghost use Rattle.std.specs.List.{All};
ghost use Rattle.lus_callers.specs.Columns.{AreColumns, IsCut};

use std::alloc::{AllocError, Global};

// Takes the last thing of each row.
fn cut<T: Drop>(alloc: Global, rows: &mut Vec<Vec<T>>) -> Result<Vec<T>, AllocError>
    requires { All (λ r. 0 < length r.items) rows.old.items }
    ensures { IfOk result (λ column. IsCut (map (λ r. r.items) rows.old.items) (map (λ r. r.items) rows.new.items) column.items) }
{
    let mut column = Vec::with_capacity(alloc, rows.len())?;
    for row in rows.iter_mut() {
        let Some(last) = row.pop() else {
            unreachable!()
        };
        column.push_reserved(last);
    }
    Ok(column)
}

/// The columns of rows that have so many things each.
pub fn turn<T: Drop>(
    alloc: Global,
    mut rows: Vec<Vec<T>>,
    width: usize,
) -> Result<Vec<Vec<T>>, AllocError>
    requires { All (λ r. length r.items ≡ width) rows.items }
    ensures { IfOk result (λ columns. AreColumns width (map (λ r. r.items) rows.items) (map (λ c. c.items) columns.items)) }
{
    if width == 0 {
        return Ok(Vec::new(alloc));
    }
    let last = cut(alloc, &mut rows)?;
    let mut columns = turn(alloc, rows, width - 1)?;
    columns.push(last)?;
    Ok(columns)
}

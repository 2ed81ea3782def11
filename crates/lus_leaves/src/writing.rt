//! Rows become leaves.
ghost use Rattle.std.specs.Prelude.{◌≡◌, ◌∷◌, [], pos, length, map, min};
ghost use Rattle.lus_values.specs.Values.{struct, fields_of};
ghost use Rattle.lus_values.specs.View.{value_of, entry_of};
ghost use Rattle.lus_leaves.specs.Leaves.{leaf, value_leaves, entry_leaves, row_leaves, rows_leaves};
ghost use Rattle.lus_leaves.specs.Writing.{IsWritten, over, most};

use crate::leaf::{ABSENT, BOOL, ENUM, INT, Leaf, NIL, STRUCT, leaf_of};
use lus_values::{Row, Value};

/// Writes a leaf at a place, where the array has it; answers the place behind it.
fn put(leaves: &mut [Leaf], at: u64, leaf: Leaf) -> u64
    ensures { IsWritten leaves.old at (leaf ∷ []) leaves.new result }
{
    if at < leaves.len() as u64 {
        leaves[at as usize] = leaf;
    }
    at.saturating_add(1)
}

/// Writes a value from a place on; answers the place behind it.
#[cycle(write)]
fn write(leaves: &mut [Leaf], at: u64, value: &Value) -> u64
    ensures { IsWritten leaves.old at (value_leaves (value_of value.now)) leaves.new result }
{
    match value {
        Value::Bool(truth) => put(leaves, at, leaf_of(BOOL, 0, i64::from(*truth))),
        Value::Int(number) => put(leaves, at, leaf_of(INT, 0, *number)),
        Value::Enum(of, constructor) => {
            put(leaves, at, leaf_of(ENUM, *of, i64::from(*constructor)))
        }
        Value::Struct(fields) => write_structure(leaves, at, fields),
        Value::Nil => put(leaves, at, leaf_of(NIL, 0, 0)),
    }
}

/// Writes a structure of these fields from a place on; answers the place behind it.
#[cycle(write)]
fn write_structure(leaves: &mut [Leaf], at: u64, fields: &[Value]) -> u64
    ensures { IsWritten leaves.old at (value_leaves (struct (fields_of (map value_of fields.now)))) leaves.new result }
{
    let head = head_of(fields);
    let mut behind = put(leaves, at, head);
    for field in fields {
        behind = write(leaves, behind, field);
    }
    behind
}

/// The leaf before the fields of a structure.
fn head_of(fields: &[Value]) -> Leaf
    ensures { result ≡ leaf 4 0 (pos (length fields.now)) }
{
    leaf_of(STRUCT, 0, fields.len() as i64)
}

fn write_entry(leaves: &mut [Leaf], at: u64, entry: &Option<Value>) -> u64
    ensures { IsWritten leaves.old at (entry_leaves (entry_of entry.now)) leaves.new result }
{
    match entry {
        Some(value) => write(leaves, at, value),
        None => put(leaves, at, leaf_of(ABSENT, 0, 0)),
    }
}

/// Writes a row's entries from a place on; answers the place behind them.
fn write_entries(leaves: &mut [Leaf], start: u64, row: &Row) -> u64
    ensures { IsWritten leaves.old start (row_leaves row.now) leaves.new result }
{
    let entries = row.items();
    let mut at = start;
    for entry in entries {
        at = write_entry(leaves, at, entry);
    }
    at
}

/// Writes a row, as far as the array has room, and answers how many leaves it is.
pub fn write_row(leaves: &mut [Leaf], row: &Row) -> u64
    ensures written { leaves.new ≡ over leaves.old (row_leaves row.now) }
    ensures count { result ≡ min (length (row_leaves row.now)) most }
    ensures length { length leaves.new ≡ length leaves.old }
{
    let _room = leaves.len();
    write_entries(leaves, 0, row)
}

/// Writes rows, one behind another, as far as the array has room, and answers how many leaves they are.
pub fn write_rows(leaves: &mut [Leaf], rows: &[Row]) -> u64
    ensures written { leaves.new ≡ over leaves.old (rows_leaves rows.now) }
    ensures count { result ≡ min (length (rows_leaves rows.now)) most }
    ensures length { length leaves.new ≡ length leaves.old }
{
    let _room = leaves.len();
    let mut at = 0;
    for row in rows {
        at = write_entries(leaves, at, row);
    }
    at
}

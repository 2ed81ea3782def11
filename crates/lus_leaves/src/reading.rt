//! Leaves become rows.
ghost use Rattle.std.specs.Prelude.{◌≡◌, ◌≤◌, ◌<◌, ◌/◌, ◌++◌, pos, List, length, reverse, map, Some, IfOk, IfSome, MatchOption};
ghost use Rattle.lus_values.specs.Values.{Row as PlainRow, fields_of};
ghost use Rattle.lus_values.specs.View.{value_of, entry_of};
ghost use Rattle.lus_leaves.specs.Leaves.{leaf, row_leaves};
ghost use Rattle.lus_leaves.specs.Fits.{FieldsFit, RowFits, RowsFit, small_of, bool_piece, absent_piece, piece, piece_of};
ghost use Rattle.lus_leaves.specs.Reading.{IsSingle, SingleFits, IsFound, FoundFits, IsOnly, AreFields, AreOnly, AreRows};

use crate::leaf::{ABSENT, BOOL, ENUM, INT, Leaf, STRUCT};
use lus_values::{Memory, Row, Value};
use std::alloc::Global;

/// The most structures in one another.
const DEPTH: u32 = 64;

/// The most rows at a time, far above what an instance takes.
const MOST_ROWS: u64 = 65535;

/// The entry that begins at a place, and the place behind it.
#[derive(Drop)]
enum Found {
    At(Option<Value>, usize),
    Wrong,
}

/// A number that a count or a constructor can be.
fn small(number: i64) -> Option<u32>
    ensures same { IfSome result (λ n. number ≡ pos n) }
    ensures exact { result ≡ small_of number }
{
    if number < 0 {
        return None;
    }
    if number > 4294967295 {
        return None;
    }
    Some(number as u32)
}

/// What one leaf is: an entry, the head of a structure with so many fields, or neither.
#[derive(Drop)]
enum Single {
    Entry(Option<Value>),
    Head(u32),
    Wrong,
}

fn read_bool(number: i64) -> Single
    ensures single { IsSingle (leaf 1 0 number) result }
    ensures exact { bool_piece number ≡ piece_of result }
    ensures fits { SingleFits result }
{
    if number == 0 {
        return Single::Entry(Some(Value::Bool(false)));
    }
    if number == 1 {
        return Single::Entry(Some(Value::Bool(true)));
    }
    Single::Wrong
}

fn read_absent(number: i64) -> Single
    ensures single { IsSingle (leaf 0 0 number) result }
    ensures exact { absent_piece number ≡ piece_of result }
    ensures fits { SingleFits result }
{
    if number == 0 {
        return Single::Entry(None);
    }
    Single::Wrong
}

fn read_leaf(leaf: Leaf) -> Single
    ensures single { IsSingle leaf result }
    ensures exact { piece leaf ≡ piece_of result }
    ensures fits { SingleFits result }
{
    if leaf.kind == ENUM {
        return match small(leaf.number) {
            Some(constructor) => Single::Entry(Some(Value::Enum(leaf.of, constructor))),
            None => Single::Wrong,
        };
    }
    if leaf.of != 0 {
        return Single::Wrong;
    }
    if leaf.kind == INT {
        return Single::Entry(Some(Value::Int(leaf.number)));
    }
    if leaf.kind == BOOL {
        return read_bool(leaf.number);
    }
    if leaf.kind == STRUCT {
        return match small(leaf.number) {
            Some(count) => Single::Head(count),
            None => Single::Wrong,
        };
    }
    if leaf.kind == ABSENT {
        return read_absent(leaf.number);
    }
    Single::Wrong
}

/// The entry that begins at a place.
#[cycle(read)]
fn read(alloc: Global, leaves: &[Leaf], at: usize, depth: u32) -> Result<Found, Memory>
    ensures found { IfOk result (λ f. IsFound leaves.now at f) }
    ensures fits { IfOk result (λ f. FoundFits depth f) }
    ensures only { IfOk result (λ f. IsOnly depth leaves.now at f) }
{
    let Some(leaf) = leaves.get(at) else {
        return Ok(Found::Wrong);
    };
    match read_leaf(*leaf) {
        Single::Entry(entry) => Ok(Found::At(entry, at + 1)),
        Single::Head(count) => {
            if depth == 0 {
                return Ok(Found::Wrong);
            }
            match read_fields(alloc, leaves, at + 1, count, depth - 1)? {
                Some((fields, next)) => Ok(Found::At(Some(Value::Struct(fields)), next)),
                None => Ok(Found::Wrong),
            }
        }
        Single::Wrong => Ok(Found::Wrong),
    }
}

/// So many fields, of which the first begins at a place, and the place behind the last.
#[cycle(read)]
fn read_fields(
    alloc: Global,
    leaves: &[Leaf],
    start: usize,
    count: u32,
    depth: u32,
) -> Result<Option<(Vec<Value>, usize)>, Memory>
    ensures leaves { IfOk result (λ r. IfSome r (λ f. AreFields leaves.now start count f.0.items f.1)) }
    ensures fits { IfOk result (λ r. IfSome r (λ f. FieldsFit depth (fields_of (map value_of f.0.items)))) }
    ensures only { IfOk result (λ r. AreOnly depth leaves.now start count r) }
{
    let mut fields = Vec::new(alloc);
    let mut at = start;
    for _field in 0..count {
        match read(alloc, leaves, at, depth)? {
            Found::At(entry, next) => {
                let Some(value) = entry else {
                    return Ok(None);
                };
                fields.push(value)?;
                at = next;
            }
            Found::Wrong => return Ok(None),
        }
    }
    Ok(Some((fields, at)))
}

/// The entries that these leaves are, or nothing: leaves that no values are, or structures more than 64 deep.
fn entries_of(alloc: Global, leaves: &[Leaf]) -> Result<Option<Vec<Option<Value>>>, Memory>
    ensures leaves { IfOk result (λ r. IfSome r (λ es. row_leaves (map entry_of es.items) ≡ leaves.now)) }
    ensures fits { IfOk result (λ r. IfSome r (λ es. RowFits (map entry_of es.items))) }
    ensures only { IfOk result (λ r. (row : PlainRow) → RowFits row → row_leaves row ≡ leaves.now → MatchOption r ⊥ (λ es. map entry_of es.items ≡ row)) }
{
    let mut entries = Vec::new(alloc);
    let mut at = 0;
    while at < leaves.len() {
        match read(alloc, leaves, at, DEPTH)? {
            Found::At(entry, next) => {
                entries.push(entry)?;
                at = next;
            }
            Found::Wrong => return Ok(None),
        }
    }
    Ok(Some(entries))
}

/// The row that these leaves are, or nothing: leaves that no values are, or structures more than 64 deep.
pub fn row_of(alloc: Global, leaves: &[Leaf]) -> Result<Option<Row>, Memory>
    ensures leaves { IfOk result (λ r. IfSome r (λ row. row_leaves row ≡ leaves.now)) }
    ensures fits { IfOk result (λ r. IfSome r RowFits) }
    ensures only { IfOk result (λ r. (row : PlainRow) → RowFits row → row_leaves row ≡ leaves.now → r ≡ Some row) }
{
    match entries_of(alloc, leaves)? {
        Some(entries) => Ok(Some(Row::new(entries))),
        None => Ok(None),
    }
}

/// The next row of so many entries, of which the last comes first; nothing where there are fewer.
fn next_row(
    alloc: Global,
    entries: &mut Vec<Option<Value>>,
    width: usize,
) -> Result<Option<Row>, Memory>
    ensures leaves { IfOk result (λ r. IfSome r (λ row. (length row ≡ width)
        × (map entry_of (reverse entries.old.items) ≡ row ++ map entry_of (reverse entries.new.items)))) }
    ensures short { IfOk result (λ r. MatchOption r (length entries.old.items < width) (λ row. width ≤ length entries.old.items)) }
{
    let mut items = Vec::new(alloc);
    for _entry in 0..width {
        let Some(entry) = entries.pop() else {
            return Ok(None);
        };
        items.push(entry)?;
    }
    Ok(Some(Row::new(items)))
}

/// How long each of so many rows of one length is.
fn width_of(entries: usize, count: u64) -> usize
    ensures { 0 < count → result ≡ entries / count }
{
    if count == 0 {
        0
    } else {
        entries / count as usize
    }
}

/// The rows that these leaves are, so many and all of one length, or nothing: leaves that no such rows are, or more than 65,535 rows.
pub fn rows_of(alloc: Global, leaves: &[Leaf], count: u64) -> Result<Option<Vec<Row>>, Memory>
    ensures leaves { IfOk result (λ r. IfSome r (λ rows. AreRows leaves.now count rows.items)) }
    ensures fits { IfOk result (λ r. IfSome r (λ rows. RowsFit rows.items × (count ≤ 65535))) }
    ensures only { IfOk result (λ r. (rows : List PlainRow) → RowsFit rows → count ≤ 65535 → AreRows leaves.now count rows → MatchOption r ⊥ (λ found. found.items ≡ rows)) }
{
    if count > MOST_ROWS {
        return Ok(None);
    }
    let Some(mut entries) = entries_of(alloc, leaves)? else {
        return Ok(None);
    };
    let width = width_of(entries.len(), count);
    entries.reverse();
    let mut rows = Vec::new(alloc);
    for _row in 0..count {
        let Some(row) = next_row(alloc, &mut entries, width)? else {
            return Ok(None);
        };
        rows.push(row)?;
    }
    if entries.is_empty() {
        Ok(Some(rows))
    } else {
        Ok(None)
    }
}

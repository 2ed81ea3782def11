//! Tables whose outputs are filled in.

ghost use Rattle.std.specs.Prelude.{◌≡◌, ◌++◌, IfOk, OnOk, map, string_bytes};
ghost use Rattle.csv.specs.Records.{fields_of};
ghost use Rattle.lus_records.specs.Outputs.{record_text};
ghost use Rattle.lus_test.specs.Findings.{row_at, told_by};
ghost use Rattle.lus_test.specs.Filling.{filled_cell, filled_from, rows_from, told_or_none};

use crate::finding::{Outputs, cell_at, row_at};
use csv::ByteRecord;
use lus_records::{bytes_of, cells_of, record_bytes};
use lus_requests::Reply;
use lus_values::Memory;
use std::alloc::Global;

/// The cells of the outputs in a reply: none in a refusal.
fn told_or_none(outputs: &Outputs<'_>, reply: &Reply) -> Result<Vec<String>, Memory>
    ensures { IfOk result (λ v. map string_bytes v.items ≡ told_or_none (told_by outputs.now reply.now)) }
{
    match outputs.told(reply)? {
        Some(told) => Ok(told),
        None => Ok(Vec::new(outputs.alloc)),
    }
}

/// What is told in the column that a cell stands under, and under no output's the cell itself.
fn filled_cell(
    alloc: Global,
    place: Option<usize>,
    told: &[&[u8]],
    cell: &[u8],
) -> Result<Vec<u8>, Memory>
    ensures { IfOk result (λ v. v.items ≡ filled_cell (map (λ t. t.now) told.now) place cell.now) }
{
    match place {
        Some(place) => Ok(cell_at(told, place).to_vec(alloc)?),
        None => Ok(cell.to_vec(alloc)?),
    }
}

/// The cells of a row whose outputs are filled in.
fn filled_cells(
    alloc: Global,
    places: &[Option<usize>],
    told: &[&[u8]],
    cells: &[&[u8]],
) -> Result<Vec<Vec<u8>>, Memory>
    ensures { IfOk result (λ v. map (λ t. t.items) v.items
        ≡ filled_from 0 (map (λ t. t.now) told.now) places.now (map (λ t. t.now) cells.now)) }
{
    let mut filled = Vec::new(alloc);
    for (at, place) in places.iter().enumerate() {
        filled.push(filled_cell(alloc, *place, told, cell_at(cells, at))?)?;
    }
    Ok(filled)
}

/// The bytes of cells.
fn slices_of(alloc: Global, cells: &[Vec<u8>]) -> Result<Vec<&[u8]>, Memory>
    ensures { IfOk result (λ v. map (λ t. t.now) v.items ≡ map (λ t. t.items) cells.now) }
{
    let mut slices = Vec::new(alloc);
    for cell in cells {
        slices.push(cell.as_slice())?;
    }
    Ok(slices)
}

/// Appends the record of these cells.
pub(crate) fn push_record(alloc: Global, text: &mut Vec<u8>, cells: &[&[u8]]) -> Result<(), Memory>
    ensures { OnOk result (text.new.items ≡ text.old.items ++ record_text (map (λ t. t.now) cells.now)) }
{
    let Ok(record) = record_bytes(alloc, cells) else {
        return Err(Memory);
    };
    text.extend_from_slice(&record)?;
    Ok(())
}

/// Appends the record of the row at a place, with its outputs.
fn push_row(
    outputs: &Outputs<'_>,
    text: &mut Vec<u8>,
    places: &[Option<usize>],
    rows: &[ByteRecord],
    row: usize,
    reply: &Reply,
) -> Result<(), Memory>
    ensures { OnOk result (text.new.items ≡ text.old.items ++ record_text
        (filled_from 0 (told_or_none (told_by outputs.now reply.now)) places.now (row_at (map fields_of rows.now) row))) }
{
    let told = told_or_none(outputs, reply)?;
    let told = bytes_of(outputs.alloc, &told)?;
    let cells = row_at(outputs.alloc, rows, row)?;
    let filled = filled_cells(outputs.alloc, places, &told, &cells)?;
    let slices = slices_of(outputs.alloc, &filled)?;
    push_record(outputs.alloc, text, &slices)
}

/// A table whose outputs are those of these replies: what stands under an input stays, and the outputs of a refused row are empty.
pub(crate) fn filled(
    outputs: &Outputs<'_>,
    places: &[Option<usize>],
    head: &ByteRecord,
    rows: &[ByteRecord],
    replies: &[Reply],
) -> Result<Vec<u8>, Memory>
    ensures { IfOk result (λ v. v.items ≡ record_text (fields_of head.now)
        ++ rows_from 0 (told_by outputs.now) places.now (map fields_of rows.now) replies.now) }
{
    let names = cells_of(outputs.alloc, head)?;
    let mut text = Vec::new(outputs.alloc);
    push_record(outputs.alloc, &mut text, &names)?;
    for (row, reply) in replies.iter().enumerate() {
        push_row(outputs, &mut text, places, rows, row, reply)?;
    }
    Ok(text)
}

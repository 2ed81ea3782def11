//! The cells of lines.

ghost use Rattle.std.specs.Prelude.{◌≡◌, [], IfOk, Some, map, option_map, unwrap_or};
ghost use Rattle.csv.specs.Reading.{Ready, default_config, reader_config, reader_state, reader_trim, source_of, strip_bom};
ghost use Rattle.csv.specs.Records.{field_at, fields_of};
ghost use Rattle.csv.specs.declared.parser.State.TheVariants as st;
ghost use Rattle.csv.specs.declared.reader.Trim.TheVariants as trim;
ghost use Rattle.lus_play.specs.Plays.{ended};
ghost use Rattle.lus_records.specs.Records.{cells_of};

use csv::{ByteRecord, Reader, ReaderBuilder};
use lus_values::Memory;
use std::alloc::Global;

/// A line with its line feed.
fn ended(alloc: Global, line: &[u8]) -> Result<Vec<u8>, Memory>
    ensures { IfOk result (λ v. v.items ≡ ended line.now) }
{
    let mut text = Vec::new(alloc);
    text.extend_from_slice(line)?;
    text.push(b'\n')?;
    Ok(text)
}

/// A reader of the records of a text, however many cells each has.
fn reader_of(alloc: Global, text: &[u8]) -> Reader<&[u8]>
    ensures config { reader_config result ≡ default_config }
    ensures trim { reader_trim result ≡ trim.None }
    ensures ready { Ready result }
    ensures state { reader_state result ≡ st.StartRecord }
    ensures source { source_of (λ s. Some s.now) result ≡ Some (strip_bom text.now) }
{
    ReaderBuilder::new()
        .has_headers(false)
        .flexible(true)
        .from_reader(alloc, text)
}

/// The record that a line is: one without cells where it is blank, and none where it has several.
pub(crate) fn record_of(alloc: Global, line: &[u8]) -> Result<Option<ByteRecord>, Memory>
    ensures { IfOk result (λ o. option_map fields_of o ≡ cells_of line.now) }
{
    let text = ended(alloc, line)?;
    let mut reader = reader_of(alloc, text.as_slice());
    let mut record = ByteRecord::new(alloc);
    let Ok(is_there) = reader.read_byte_record(&mut record) else {
        return Err(Memory);
    };
    if !is_there {
        return Ok(Some(ByteRecord::new(alloc)));
    }
    let mut behind = ByteRecord::new(alloc);
    let Ok(is_more) = reader.read_byte_record(&mut behind) else {
        return Err(Memory);
    };
    if is_more {
        return Ok(None);
    }
    Ok(Some(record))
}

/// The cell at a place, and an empty one behind the last.
fn cell_at(line_record: &ByteRecord, place: usize) -> &[u8]
    ensures { result.now ≡ unwrap_or (field_at (fields_of line_record.now) place) [] }
{
    match line_record.get(place) {
        Some(cell) => cell,
        None => &[],
    }
}

/// The cells of a record.
pub fn cells_of(alloc: Global, line_record: &ByteRecord) -> Result<Vec<&[u8]>, Memory>
    ensures { IfOk result (λ v. map (λ t. t.now) v.items ≡ fields_of line_record.now) }
{
    let mut cells = Vec::new(alloc);
    for place in 0..line_record.len() {
        cells.push(cell_at(line_record, place))?;
    }
    Ok(cells)
}

//! What is found of a table, once its rows are answered.

ghost use Rattle.std.specs.Prelude.{◌≡◌, IfOk, Some, map, option_map, string_bytes};
ghost use Rattle.std.specs.Str.{bytes_eq};
ghost use Rattle.std.specs.Prelude.{position};
ghost use Rattle.csv.specs.Records.{fields_of};
ghost use Rattle.lus_program.specs.View.{program_seen, variable_of};
ghost use Rattle.lus_scripts.specs.Scripts.{place_of};
ghost use Rattle.lus_test.specs.Findings.{cell_at, finding_from, is_met, outcome_of, row_at, row_finding, told_by, unmet_from, word_of};

use csv::ByteRecord;
use lus_program::{Program, Variable};
use lus_records::{bytes_of, cells_of, row_cells};
use lus_requests::Reply;
use lus_values::{Memory, Names, Row};
use std::alloc::Global;

/// What is found of a table.
#[derive(Clone, Copy, Debug, PartialEq, Eq)]
pub enum Finding {
    /// Each row is answered, and each output is the one that is expected.
    Passed,
    /// The row at this place, from 0, is the first of which not all is so, and it is refused.
    Refused(usize),
    /// Likewise, and the cell at this place in it, from 0, is the first that is another.
    Differs(usize, usize),
}

/// Outputs of a node, of a program with these names of constructors.
#[derive(Clone, Copy)]
pub(crate) struct Outputs<'p> {
    pub alloc: Global,
    pub program: &'p Program,
    pub names: &'p Names,
    pub variables: &'p [Variable],
}

/// A cell as a word: a dash, as journals have it, for one that is empty.
fn word_of(alloc: Global, cell: &str) -> Result<String, Memory>
    ensures { IfOk result (λ word. string_bytes word ≡ word_of cell.now) }
{
    if cell.is_empty() {
        return Ok(String::from_str(alloc, "-")?);
    }
    Ok(String::from_str(alloc, cell)?)
}

/// Cells as words.
fn words_of(alloc: Global, cells: &[String]) -> Result<Vec<String>, Memory>
    ensures { IfOk result (λ v. map string_bytes v.items ≡ map word_of (map string_bytes cells.now)) }
{
    let mut words = Vec::new(alloc);
    for cell in cells {
        words.push(word_of(alloc, cell.as_str())?)?;
    }
    Ok(words)
}

impl Outputs<'_> {
    fn row(&self, row: &Row) -> Result<Vec<String>, Memory>
        ensures { IfOk result (λ v. Some (map string_bytes v.items) ≡ told_by self.now (Reply.Outputs row.now)) }
    {
        let cells = row_cells(self.alloc, self.program, self.names, self.variables, row)?;
        words_of(self.alloc, &cells)
    }

    /// The words of the outputs' columns in a reply; a refusal has none.
    pub(crate) fn told(&self, reply: &Reply) -> Result<Option<Vec<String>>, Memory>
        ensures { IfOk result (λ o. option_map (λ v. map string_bytes v.items) o ≡ told_by self.now reply.now) }
    {
        match reply {
            Reply::Outputs(row) => Ok(Some(self.row(row)?)),
            Reply::Rows(_) | Reply::Done | Reply::Refused(_) => Ok(None),
        }
    }
}

/// The place of the first of these columns that has a name.
fn place_among(columns: &[String], name: &[u8]) -> Option<usize>
    ensures { result ≡ position (λ c. bytes_eq name.now (string_bytes c)) columns.now }
{
    columns.iter().position(|column| name == column.as_bytes())
}

/// The place of the column of a name.
pub(crate) fn column_of(columns: &[String], name: &[u8]) -> Option<usize>
    ensures { result ≡ place_of (map string_bytes columns.now) name.now }
{
    place_among(columns, name)
}

/// Of each name of a head the place of the column among these that it names.
pub(crate) fn places_of(
    alloc: Global,
    columns: &[String],
    head: &ByteRecord,
) -> Result<Vec<Option<usize>>, Memory>
    ensures { IfOk result (λ v. v.items ≡ map (place_of (map string_bytes columns.now)) (fields_of head.now)) }
{
    let names = cells_of(alloc, head)?;
    let mut places = Vec::new(alloc);
    for name in &names {
        places.push(column_of(columns, *name))?;
    }
    Ok(places)
}

/// The cell at a place, and an empty one behind the last.
pub(crate) fn cell_at<'c>(cells: &[&'c [u8]], place: usize) -> &'c [u8]
    ensures { result.now ≡ cell_at (map (λ t. t.now) cells.now) place }
{
    match cells.get(place) {
        Some(cell) => *cell,
        None => &[],
    }
}

/// The cells of the row at a place, and none behind the last.
pub(crate) fn row_at(alloc: Global, rows: &[ByteRecord], place: usize) -> Result<Vec<&[u8]>, Memory>
    ensures { IfOk result (λ v. map (λ t. t.now) v.items ≡ row_at (map fields_of rows.now) place) }
{
    match rows.get(place) {
        Some(record) => cells_of(alloc, record),
        None => Ok(Vec::new(alloc)),
    }
}

/// Whether a cell asks for nothing, or for what is told in the column that it stands under.
pub(crate) fn is_met(place: Option<usize>, told: &[&[u8]], cell: &[u8]) -> bool
    ensures { result ≡ is_met (map (λ t. t.now) told.now) place cell.now }
{
    match place {
        Some(place) => cell.is_empty() || cell_at(told, place) == cell,
        None => true,
    }
}

/// The place of the first cell that isn't met.
fn unmet(places: &[Option<usize>], told: &[&[u8]], cells: &[&[u8]]) -> Option<usize>
    ensures { result ≡ unmet_from 0 (map (λ t. t.now) told.now) places.now (map (λ t. t.now) cells.now) }
{
    for (at, place) in places.iter().enumerate() {
        if !is_met(*place, told, cell_at(cells, at)) {
            return Some(at);
        }
    }
    None
}

/// What is found of the row at a place, whose outputs are told.
fn outcome_of(row: usize, unmet: Option<usize>) -> Finding
    ensures { result ≡ outcome_of row unmet }
{
    match unmet {
        Some(cell) => Finding::Differs(row, cell),
        None => Finding::Passed,
    }
}

/// What is found of the row at a place.
fn row_finding(
    outputs: &Outputs<'_>,
    places: &[Option<usize>],
    rows: &[ByteRecord],
    row: usize,
    reply: &Reply,
) -> Result<Finding, Memory>
    ensures { IfOk result (λ f. f ≡ row_finding row places.now (row_at (map fields_of rows.now) row) (told_by outputs.now reply.now)) }
{
    let Some(told) = outputs.told(reply)? else {
        return Ok(Finding::Refused(row));
    };
    let told = bytes_of(outputs.alloc, &told)?;
    let cells = row_at(outputs.alloc, rows, row)?;
    Ok(outcome_of(row, unmet(places, &told, &cells)))
}

/// What is found of a table: the first row that is refused, or has a cell that isn't met.
pub(crate) fn find(
    outputs: &Outputs<'_>,
    places: &[Option<usize>],
    rows: &[ByteRecord],
    replies: &[Reply],
) -> Result<Finding, Memory>
    ensures { IfOk result (λ f. f ≡ finding_from 0 (told_by outputs.now) places.now (map fields_of rows.now) replies.now) }
{
    for (row, reply) in replies.iter().enumerate() {
        let finding = row_finding(outputs, places, rows, row, reply)?;
        if finding != Finding::Passed {
            return Ok(finding);
        }
    }
    Ok(Finding::Passed)
}

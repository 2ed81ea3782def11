//! The inputs that the cells of a record are.

ghost use Rattle.std.specs.Prelude.{◌≡◌, IfOk, map, option_map, string_bytes};
ghost use Rattle.std.specs.List.{list_all};
ghost use Rattle.lus_values.specs.View.{entry_of, value_of};
ghost use Rattle.lus_program.specs.View.{field_of, program_seen, variable_of};
ghost use Rattle.lus_scripts.specs.Forms.{each};
ghost use Rattle.lus_scripts.specs.Scripts.{place_of};
ghost use Rattle.lus_records.specs.Columns.{field_column};
ghost use Rattle.lus_records.specs.Records.{is_blank, is_empty, item_in, row_of, value_at, value_in};
ghost use Rattle.lus_records.specs.View.{cell_seen, cells_seen, head_seen};

use crate::columns::{columns_of, field_column, fields_at};
use indexmap::IndexSet;
use lus_asked::read_word;
use lus_program::{Field, Kind, Program, Variable};
use lus_syntax::MOST_NESTING;
use lus_values::{Memory, Names, Row, Value};
use std::alloc::Global;

/// The cells of a record under the names of a head.
#[derive(Clone, Copy)]
pub(crate) struct Cells<'r> {
    pub head: &'r IndexSet<String>,
    pub cells: &'r [&'r [u8]],
}

/// The place of a name in a head.
pub fn place_of(head: &IndexSet<String>, name: &str) -> Option<usize>
    ensures { result ≡ place_of (map string_bytes head.now.keys) name.now }
{
    head.get_index_of(name)
}

impl<'r> Cells<'r> {
    /// The cell under a name: an empty one, where the head lacks the name.
    pub(crate) fn cell(&self, name: &str) -> &'r [u8]
        ensures { result.now ≡ cell_seen self.now name.now }
    {
        let Some(place) = place_of(self.head, name) else {
            return &[];
        };
        match self.cells.get(place) {
            Some(cell) => *cell,
            None => &[],
        }
    }

    /// Whether the cell under a name is empty.
    fn is_empty(&self, name: &str) -> bool
        ensures { result ≡ is_empty (cell_seen self.now name.now) }
    {
        self.cell(name).is_empty()
    }
}

/// Whether all cells of an input are empty.
fn is_blank(
    alloc: Global,
    program: &Program,
    cells: &Cells<'_>,
    input: &Variable,
) -> Result<bool, Memory>
    ensures { IfOk result (λ b. b ≡ is_blank (program_seen program.now) (cell_seen cells.now) (variable_of input.now)) }
{
    let columns = columns_of(alloc, program, input)?;
    Ok(are_empty(cells, &columns))
}

fn are_empty(cells: &Cells<'_>, columns: &[String]) -> bool
    ensures { result ≡ list_all (λ c. is_empty (cell_seen cells.now c)) (map string_bytes columns.now) }
{
    for column in columns {
        if !cells.is_empty(column.as_str()) {
            return false;
        }
    }
    true
}

/// The value of a type in a column or in those of its fields, where structures nest at most this many levels.
#[cycle(values)]
fn read_value(
    alloc: Global,
    program: &Program,
    names: &Names,
    cells: &Cells<'_>,
    levels: usize,
    kind: Kind,
    column: &str,
) -> Result<Option<Value>, Memory>
    ensures { IfOk result (λ o. option_map value_of o
        ≡ value_at levels (program_seen program.now) names.now (cell_seen cells.now) kind column.now) }
{
    let Some(fields) = fields_at(program, kind) else {
        return Ok(read_word(names, cells.cell(column)));
    };
    if levels == 0 {
        return Ok(None);
    }
    match read_fields(alloc, program, names, cells, levels - 1, fields, column)? {
        Some(values) => Ok(Some(Value::Struct(values))),
        None => Ok(None),
    }
}

/// The values of fields.
#[cycle(values)]
fn read_fields(
    alloc: Global,
    program: &Program,
    names: &Names,
    cells: &Cells<'_>,
    levels: usize,
    fields: &[Field],
    column: &str,
) -> Result<Option<Vec<Value>>, Memory>
    ensures { IfOk result (λ o. option_map (λ v. map value_of v.items) o
        ≡ each (λ f. value_at levels (program_seen program.now) names.now (cell_seen cells.now) f.kind (field_column column.now f.name))
        (map field_of fields.now)) }
{
    let mut values = Vec::new(alloc);
    for field in fields {
        let name = field_column(alloc, column, field.name.as_str())?;
        let found = read_value(alloc, program, names, cells, levels, field.kind, &name)?;
        let Some(value) = found else {
            return Ok(None);
        };
        values.push(value)?;
    }
    Ok(Some(values))
}

/// The value of an input that isn't absent.
fn read_present(
    alloc: Global,
    program: &Program,
    names: &Names,
    cells: &Cells<'_>,
    input: &Variable,
) -> Result<Option<Value>, Memory>
    ensures { IfOk result (λ o. option_map value_of o
        ≡ value_in (program_seen program.now) names.now (cell_seen cells.now) (variable_of input.now)) }
{
    let name = input.name.as_str();
    read_value(alloc, program, names, cells, MOST_NESTING, input.kind, name)
}

/// The item of an input: absent, or its value; none where its cells are no value.
pub(crate) fn read_item(
    alloc: Global,
    program: &Program,
    names: &Names,
    cells: &Cells<'_>,
    input: &Variable,
) -> Result<Option<Option<Value>>, Memory>
    ensures { IfOk result (λ o. option_map entry_of o
        ≡ item_in (program_seen program.now) names.now (cell_seen cells.now) (variable_of input.now)) }
{
    if is_blank(alloc, program, cells, input)? {
        return Ok(Some(None));
    }
    match read_present(alloc, program, names, cells, input)? {
        Some(value) => Ok(Some(Some(value))),
        None => Ok(None),
    }
}

fn read_items(
    alloc: Global,
    program: &Program,
    names: &Names,
    cells: &Cells<'_>,
    inputs: &[Variable],
) -> Result<Option<Vec<Option<Value>>>, Memory>
    ensures { IfOk result (λ o. option_map (λ v. map entry_of v.items) o
        ≡ each (item_in (program_seen program.now) names.now (cell_seen cells.now)) (map variable_of inputs.now)) }
{
    let mut items = Vec::new(alloc);
    for input in inputs {
        let Some(item) = read_item(alloc, program, names, cells, input)? else {
            return Ok(None);
        };
        items.push(item)?;
    }
    Ok(Some(items))
}

/// The row of the inputs: as many cells as names, and each input absent or with a value.
pub(crate) fn read_row(
    alloc: Global,
    program: &Program,
    names: &Names,
    cells: &Cells<'_>,
    inputs: &[Variable],
) -> Result<Option<Row>, Memory>
    ensures { IfOk result (λ o. o
        ≡ row_of (program_seen program.now) names.now (map variable_of inputs.now) (head_seen cells.now) (cells_seen cells.now)) }
{
    if cells.cells.len() != cells.head.len() {
        return Ok(None);
    }
    match read_items(alloc, program, names, cells, inputs)? {
        Some(items) => Ok(Some(Row::new(items))),
        None => Ok(None),
    }
}

/// The first field of a structure type whose cells are no value, where a column is of that type.
pub(crate) fn wrong_field<'p>(
    alloc: Global,
    program: &'p Program,
    names: &Names,
    cells: &Cells<'_>,
    kind: Kind,
    column: &str,
) -> Result<Option<&'p Field>, Memory> {
    let Some(fields) = fields_at(program, kind) else {
        return Ok(None);
    };
    for field in fields {
        let name = field_column(alloc, column, field.name.as_str())?;
        let value = read_value(
            alloc,
            program,
            names,
            cells,
            MOST_NESTING,
            field.kind,
            &name,
        )?;
        if value.is_none() {
            return Ok(Some(field));
        }
    }
    Ok(None)
}

/// The names of a head, in their order.
pub(crate) fn column_names(alloc: Global, head: &IndexSet<String>) -> Result<Vec<&str>, Memory> {
    let mut names = Vec::new(alloc);
    for name in head.iter() {
        names.push(name.as_str())?;
    }
    Ok(names)
}

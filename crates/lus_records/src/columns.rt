//! The columns of variables.

ghost use Rattle.std.specs.Prelude.{◌≡◌, ◌++◌, IfOk, OnOk, Some, flat_map, map, option_map, string_bytes};
ghost use Rattle.lus_program.specs.View.{field_of, program_seen, variable_of};
ghost use Rattle.lus_scripts.specs.Scripts.{fields_at};
ghost use Rattle.lus_records.specs.Columns.{all_columns, columns_at, columns_of, field_column};

use lus_program::{Declared, Field, Kind, Program, Variable};
use lus_syntax::MOST_NESTING;
use lus_values::Memory;
use std::alloc::Global;

/// The fields of a structure type.
pub(crate) fn fields_at(program: &Program, kind: Kind) -> Option<&[Field]>
    ensures { option_map (λ fs. map field_of fs.now) result ≡ fields_at (program_seen program.now) (Some kind) }
{
    let Kind::Struct(structure) = kind else {
        return None;
    };
    match program.types.get(structure as usize)? {
        Declared::Structure(fields) => Some(fields.as_slice()),
        _ => None,
    }
}

/// The name of a field's column.
pub(crate) fn field_column(alloc: Global, column: &str, field: &str) -> Result<String, Memory>
    ensures { IfOk result (λ name. string_bytes name ≡ field_column column.now field.now) }
{
    let mut name = String::from_str(alloc, column)?;
    name.push_str(".")?;
    name.push_str(field)?;
    Ok(name)
}

/// Appends the columns of a variable of a type, whose structures nest at most this many levels.
#[cycle(columns)]
fn push_columns(
    alloc: Global,
    columns: &mut Vec<String>,
    program: &Program,
    levels: usize,
    kind: Kind,
    column: &str,
) -> Result<(), Memory>
    ensures { OnOk result (map string_bytes columns.new.items
        ≡ map string_bytes columns.old.items ++ columns_at levels (program_seen program.now) kind column.now) }
{
    let Some(fields) = fields_at(program, kind) else {
        columns.push(String::from_str(alloc, column)?)?;
        return Ok(());
    };
    if levels == 0 {
        return Ok(());
    }
    push_fields(alloc, columns, program, levels - 1, fields, column)
}

/// Appends the columns of fields.
#[cycle(columns)]
fn push_fields(
    alloc: Global,
    columns: &mut Vec<String>,
    program: &Program,
    levels: usize,
    fields: &[Field],
    column: &str,
) -> Result<(), Memory>
    ensures { OnOk result (map string_bytes columns.new.items ≡ map string_bytes columns.old.items
        ++ flat_map (λ f. columns_at levels (program_seen program.now) f.kind (field_column column.now f.name)) (map field_of fields.now)) }
{
    for field in fields {
        let name = field_column(alloc, column, field.name.as_str())?;
        push_columns(alloc, columns, program, levels, field.kind, &name)?;
    }
    Ok(())
}

/// Appends the columns of a variable.
fn push_variable(
    alloc: Global,
    columns: &mut Vec<String>,
    program: &Program,
    variable: &Variable,
) -> Result<(), Memory>
    ensures { OnOk result (map string_bytes columns.new.items
        ≡ map string_bytes columns.old.items ++ columns_of (program_seen program.now) (variable_of variable.now)) }
{
    let name = variable.name.as_str();
    push_columns(alloc, columns, program, MOST_NESTING, variable.kind, name)
}

/// The columns of a variable.
pub(crate) fn columns_of(
    alloc: Global,
    program: &Program,
    variable: &Variable,
) -> Result<Vec<String>, Memory>
    ensures { IfOk result (λ v. map string_bytes v.items ≡ columns_of (program_seen program.now) (variable_of variable.now)) }
{
    let mut columns = Vec::new(alloc);
    push_variable(alloc, &mut columns, program, variable)?;
    Ok(columns)
}

/// The columns of variables, in their order: one for a variable that is no structure, and one for each field of one that is.
pub fn all_columns(
    alloc: Global,
    program: &Program,
    variables: &[Variable],
) -> Result<Vec<String>, Memory>
    ensures { IfOk result (λ v. map string_bytes v.items ≡ all_columns (program_seen program.now) (map variable_of variables.now)) }
{
    let mut columns = Vec::new(alloc);
    for variable in variables {
        push_variable(alloc, &mut columns, program, variable)?;
    }
    Ok(columns)
}

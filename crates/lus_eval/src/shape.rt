//! Whether rows are of the types of inputs.

ghost use Rattle.std.specs.Prelude.{◌≡◌, map};
ghost use Rattle.lus_values.specs.View.{entry_of, value_of};
ghost use Rattle.lus_program.specs.View.{program_seen};
ghost use Rattle.lus_program.specs.Kinds.{constructors_in};
ghost use Rattle.lus_program.specs.Resolved.{declared_in};
ghost use Rattle.lus_code.specs.SimulationSpecs.Fitting.{entry_fits, is_of};
ghost use Rattle.lus_eval.specs.TypedRows.{entries_fit, values_fit};

use lus_program::{Declared, Field, Kind, Program, Variable, fields_at};
use lus_values::Value;

/// How many constructors a declared type has, none where it is no enumeration.
fn constructors_at(program: &Program, number: u32) -> usize
    ensures { result ≡ constructors_in (declared_in (program_seen program.now) number) }
{
    match program.types.get(number as usize) {
        Some(Declared::Enumeration(constructors)) => constructors.len(),
        Some(Declared::Alias(_)) => 0,
        Some(Declared::Structure(_)) => 0,
        None => 0,
    }
}

/// Whether a value is one of a type.
#[cycle(shape)]
fn is_of(value: &Value, kind: Kind, program: &Program) -> bool
    ensures { result ≡ is_of (program_seen program.now) kind (value_of value.now) }
{
    match value {
        Value::Bool(_) => kind == Kind::Bool,
        Value::Int(_) => kind == Kind::Int,
        Value::Enum(number, constructor) => {
            kind == Kind::Enum(*number)
                && (*constructor as usize) < constructors_at(program, *number)
        }
        Value::Struct(fields) => match kind {
            Kind::Struct(number) => are_of(fields, fields_at(program, number), program),
            Kind::Bool | Kind::Int | Kind::Enum(_) => false,
        },
        Value::Nil => false,
    }
}

/// Whether values are as many as fields, each of its field's type.
#[cycle(shape)]
fn are_of(values: &[Value], fields: &[Field], program: &Program) -> bool
    ensures { result ≡ values_fit (program_seen program.now) fields.now values.now }
{
    if values.len() != fields.len() {
        return false;
    }
    for (value, field) in values.iter().zip(fields) {
        if !is_of(value, field.kind, program) {
            return false;
        }
    }
    true
}

/// Whether an entry is absent or of a type.
fn entry_fits(entry: &Option<Value>, kind: Kind, program: &Program) -> bool
    ensures { result ≡ entry_fits (program_seen program.now) kind (entry_of entry.now) }
{
    match entry {
        Some(value) => is_of(value, kind, program),
        None => true,
    }
}

/// Whether entries are as many as variables, each absent or of its variable's type.
pub fn row_fits(entries: &[Option<Value>], variables: &[Variable], program: &Program) -> bool
    ensures { result ≡ entries_fit (program_seen program.now) variables.now entries.now }
{
    if entries.len() != variables.len() {
        return false;
    }
    for (entry, variable) in entries.iter().zip(variables) {
        if !entry_fits(entry, variable.kind, program) {
            return false;
        }
    }
    true
}

//! Values as JSON, spelled as scripts spell them.

ghost use Rattle.std.specs.Prelude.{◌≡◌, ◌++◌, OnOk, map, string_bytes};
ghost use Rattle.lus_values.specs.View.{value_of};
ghost use Rattle.lus_program.specs.View.{field_of, program_seen};
ghost use Rattle.lus_replies.specs.Replies.{fields_at, key, kind_at, name_at, value_json};

use lus_program::{Declared, Field, Kind, Program};
use lus_values::{Memory, Names, Value, push_value};

/// The fields of a structure type; another type has none.
fn fields_at(program: &Program, kind: Option<Kind>) -> &[Field]
    ensures { map field_of result.now ≡ fields_at (program_seen program.now) kind }
{
    let Some(Kind::Struct(structure)) = kind else {
        return &[];
    };
    match program.types.get(structure as usize) {
        Some(Declared::Structure(fields)) => fields.as_slice(),
        _ => &[],
    }
}

/// The name of the field at a place.
fn name_at(fields: &[Field], place: usize) -> &str
    ensures { result.now ≡ name_at (map field_of fields.now) place }
{
    match fields.get(place) {
        Some(field) => field.name.as_str(),
        None => "?",
    }
}

/// The type of the field at a place.
fn kind_at(fields: &[Field], place: usize) -> Option<Kind>
    ensures { result ≡ kind_at (map field_of fields.now) place }
{
    match fields.get(place) {
        Some(field) => Some(field.kind),
        None => None,
    }
}

/// Appends the key of a member of an object.
pub(crate) fn push_key(text: &mut String, name: &str) -> Result<(), Memory>
    ensures { OnOk result (string_bytes text.new ≡ string_bytes text.old ++ key name.now) }
{
    text.push_str("\"")?;
    text.push_str(name)?;
    text.push_str("\":")?;
    Ok(())
}

/// Appends a value of a type: a number, a truth value, the name of a constructor as a string, or a structure as an object of its
/// fields. After `Memory` a part of it may have been appended.
pub(crate) fn push_json(
    text: &mut String,
    program: &Program,
    names: &Names,
    kind: Option<Kind>,
    value: &Value,
) -> Result<(), Memory>
    ensures { OnOk result (string_bytes text.new ≡ string_bytes text.old ++ value_json (program_seen program.now) names.now kind (value_of value.now)) }
{
    match value {
        Value::Bool(_) | Value::Int(_) => push_value(text, value, names)?,
        Value::Enum(_, _) => {
            text.push_str("\"")?;
            push_value(text, value, names)?;
            text.push_str("\"")?;
        }
        Value::Struct(values) => {
            let fields = fields_at(program, kind);
            text.push_str("{")?;
            let mut before = "";
            for (place, field_value) in values.iter().enumerate() {
                text.push_str(before)?;
                push_key(text, name_at(fields, place))?;
                push_json(text, program, names, kind_at(fields, place), field_value)?;
                before = ",";
            }
            text.push_str("}")?;
        }
        Value::Nil => text.push_str("null")?,
    }
    Ok(())
}

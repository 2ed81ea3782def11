//! Values without nil.

ghost use Rattle.std.specs.Prelude.{◌≡◌, map};
ghost use Rattle.lus_values.specs.Values.{fields_of};
ghost use Rattle.lus_values.specs.View.{value_of};
ghost use Rattle.lus_streams.specs.Flags.{nil_free, nil_free_fields};

use lus_values::Value;

/// No nil stands in a value, at any depth.
#[cycle(values)]
pub fn is_nil_free(value: &Value) -> bool
    ensures { result ≡ nil_free (value_of value.now) }
{
    match value {
        Value::Bool(_) => true,
        Value::Int(_) => true,
        Value::Enum(_, _) => true,
        Value::Struct(fields) => are_nil_free(fields),
        Value::Nil => false,
    }
}

#[cycle(values)]
fn are_nil_free(fields: &[Value]) -> bool
    ensures { result ≡ nil_free_fields (fields_of (map value_of fields.now)) }
{
    for field in fields {
        if !is_nil_free(field) {
            return false;
        }
    }
    true
}

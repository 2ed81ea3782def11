//! Equality of values.

ghost use Rattle.std.specs.Prelude.{◌≡◌, ◌↔◌, IsTrue, map};
ghost use Rattle.lus_values.specs.Equality.{same, same_fields};
ghost use Rattle.lus_values.specs.Values.{fields_of};
ghost use Rattle.lus_values.specs.View.{value_of};

use crate::value::Value;

/// Whether two values are equal, structures field by field.
#[cycle(same)]
pub fn same(left: &Value, right: &Value) -> bool
    ensures value { result ≡ same (value_of left.now) (value_of right.now) }
    ensures equal { IsTrue result ↔ (value_of left.now ≡ value_of right.now) }
{
    match (left, right) {
        (Value::Bool(a), Value::Bool(b)) => a == b,
        (Value::Int(a), Value::Int(b)) => a == b,
        (Value::Enum(a_type, a), Value::Enum(b_type, b)) => a_type == b_type && a == b,
        (Value::Struct(a), Value::Struct(b)) => same_fields(a, b),
        (Value::Nil, Value::Nil) => true,
        _ => false,
    }
}

#[cycle(same)]
fn same_fields(left: &[Value], right: &[Value]) -> bool
    ensures { result ≡ same_fields (fields_of (map value_of left.now)) (fields_of (map value_of right.now)) }
{
    if left.len() != right.len() {
        return false;
    }
    for (a, b) in left.iter().zip(right) {
        if !same(a, b) {
            return false;
        }
    }
    true
}

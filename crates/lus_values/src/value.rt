//! Values of streams.

ghost use Rattle.std.specs.Prelude.{◌≡◌, IfOk, map};
ghost use Rattle.lus_values.specs.Values.{fields_of, struct};
ghost use Rattle.lus_values.specs.View.{value_of};

use crate::memory::Memory;
use std::alloc::Global;

/// A value of a stream at an instant at which it is present.
///
/// Calls over a value recur once for each structure in a structure: at most 64 deep for values of a compiled program, whose
/// types nest no deeper. A caller's own values are bounded by the caller alone, dropping them included.
#[derive(Drop)]
pub enum Value {
    Bool(bool),
    Int(i64),
    /// The number of the enumeration's declaration among the types, and of the constructor in it.
    Enum(u32, u32),
    /// The fields in declared order.
    Struct(Vec<Value>),
    /// What `pre` has at the first instant of its clock.
    Nil,
}

/// An equal value. A structure has a function of its own, so that all other values are copied where they stand.
#[cycle(copy)]
pub fn copy(alloc: Global, value: &Value) -> Result<Value, Memory>
    ensures { IfOk result (λ v. value_of v ≡ value_of value.now) }
{
    match value {
        Value::Bool(truth) => Ok(Value::Bool(*truth)),
        Value::Int(number) => Ok(Value::Int(*number)),
        Value::Enum(enumeration, constructor) => Ok(Value::Enum(*enumeration, *constructor)),
        Value::Struct(fields) => copy_structure(alloc, fields),
        Value::Nil => Ok(Value::Nil),
    }
}

/// A structure of equal fields.
#[cycle(copy)]
fn copy_structure(alloc: Global, fields: &[Value]) -> Result<Value, Memory>
    ensures { IfOk result (λ v. value_of v ≡ struct (fields_of (map value_of fields.now))) }
{
    let mut copies = Vec::new(alloc);
    for field in fields {
        let field_copy = copy(alloc, field)?;
        copies.push(field_copy)?;
    }
    Ok(Value::Struct(copies))
}

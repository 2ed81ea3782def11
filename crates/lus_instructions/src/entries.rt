//! Copies of values.

ghost use Rattle.std.specs.Prelude.{◌≡◌, IfOk, Some};
ghost use Rattle.lus_values.specs.View.{value_of, entry_of};

use lus_values::{Memory, Value, copy};
use std::alloc::Global;

/// An equal value, as an entry; only a structure is walked.
#[inline(always)]
pub fn copy_value(alloc: Global, value: &Value) -> Result<Option<Value>, Memory>
    ensures { IfOk result (λ v. entry_of v ≡ Some (value_of value.now)) }
{
    match value {
        Value::Bool(truth) => Ok(Some(Value::Bool(*truth))),
        Value::Int(number) => Ok(Some(Value::Int(*number))),
        Value::Enum(enumeration, constructor) => Ok(Some(Value::Enum(*enumeration, *constructor))),
        Value::Struct(_) => Ok(Some(copy(alloc, value)?)),
        Value::Nil => Ok(Some(Value::Nil)),
    }
}

//! `lus_values`.

use lus_values::{Memory, Names, Op, Row, Value, apply, copy, fits_op, print, same};
use std::alloc::Global;

/// What an operator gives, where the operands fit it.
pub fn applied(operator: Op, operands: &[Value]) -> Option<Value> {
    let fits: bool = fits_op(operator, operands);
    if fits {
        apply(operator, operands)
    } else {
        None
    }
}

/// A copy of a value, whether it is the same, and its text.
pub fn value_and_text(
    alloc: Global,
    value: &Value,
    names: &Names,
) -> Result<(Value, bool, String), Memory> {
    let copied: Value = copy(alloc, value)?;
    let is_same: bool = same(value, &copied);
    let text: String = print(alloc, value, names)?;
    Ok((copied, is_same, text))
}

/// The number of a value's kind: each kind with what it holds.
pub fn kind_of_value(value: &Value) -> u32 {
    match value {
        Value::Bool(_truth) => 0,
        Value::Int(_number) => 1,
        Value::Enum(kind, constructor) => {
            let (_, _): (&u32, &u32) = (kind, constructor);
            2
        }
        Value::Struct(fields) => {
            let _: &Vec<Value> = fields;
            3
        }
        Value::Nil => 4,
    }
}

/// A row of one entry.
pub fn one_row(entry: Option<Value>) -> Row {
    Row::one(entry)
}

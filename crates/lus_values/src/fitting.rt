//! Which operands an operator takes.

ghost use Rattle.std.specs.Prelude.{◌≡◌, map};
ghost use Rattle.std.specs.List.{list_all};
ghost use Rattle.lus_values.specs.Fitting.{alike, alike_fields, fit_equality, fits_bool, fits_int, fits_op};
ghost use Rattle.lus_values.specs.Operators.{is_nil};
ghost use Rattle.lus_values.specs.Values.{fields_of};
ghost use Rattle.lus_values.specs.View.{value_of};

use crate::operator::{Op, Shape};
use crate::value::Value;

/// Whether the operands fit an operator in number and in kind, nil apart: what `apply` asks.
pub fn fits_op(op: Op, operands: &[Value]) -> bool
    ensures { result ≡ fits_op op (map value_of operands.now) }
{
    match op.shape() {
        Shape::Int => matches!(operands, [a] if fits_int(a)),
        Shape::Ints | Shape::Comparison => {
            matches!(operands, [a, b] if fits_int(a) && fits_int(b))
        }
        Shape::Bool => matches!(operands, [a] if fits_bool(a)),
        Shape::Bools => matches!(operands, [a, b] if fits_bool(a) && fits_bool(b)),
        Shape::Alike => matches!(operands, [a, b] if fit_equality(a, b)),
        Shape::Count => !operands.is_empty() && all_fit_bool(operands),
    }
}

fn all_fit_bool(operands: &[Value]) -> bool
    ensures { result ≡ list_all fits_bool (map value_of operands.now) }
{
    for operand in operands {
        if !fits_bool(operand) {
            return false;
        }
    }
    true
}

fn fits_int(value: &Value) -> bool
    ensures { result ≡ fits_int (value_of value.now) }
{
    matches!(value, Value::Int(_) | Value::Nil)
}

fn fits_bool(value: &Value) -> bool
    ensures { result ≡ fits_bool (value_of value.now) }
{
    matches!(value, Value::Bool(_) | Value::Nil)
}

fn fit_equality(left: &Value, right: &Value) -> bool
    ensures { result ≡ fit_equality (value_of left.now) (value_of right.now) }
{
    is_nil(left) || is_nil(right) || alike(left, right)
}

fn is_nil(value: &Value) -> bool
    ensures { result ≡ is_nil (value_of value.now) }
{
    matches!(value, Value::Nil)
}

/// Whether two values are of one kind, structures field by field. Nil is of none.
#[cycle(alike)]
fn alike(left: &Value, right: &Value) -> bool
    ensures { result ≡ alike (value_of left.now) (value_of right.now) }
{
    match (left, right) {
        (Value::Bool(_), Value::Bool(_)) | (Value::Int(_), Value::Int(_)) => true,
        (Value::Enum(a, _), Value::Enum(b, _)) => a == b,
        (Value::Struct(a), Value::Struct(b)) => alike_fields(a, b),
        _ => false,
    }
}

#[cycle(alike)]
fn alike_fields(left: &[Value], right: &[Value]) -> bool
    ensures { result ≡ alike_fields (fields_of (map value_of left.now)) (fields_of (map value_of right.now)) }
{
    if left.len() != right.len() {
        return false;
    }
    for (a, b) in left.iter().zip(right) {
        if !alike(a, b) {
            return false;
        }
    }
    true
}

//! What operators give.

ghost use Rattle.std.specs.Prelude.{◌≡◌, IsTrue, map};
ghost use Rattle.std.specs.Option.{option_map};
ghost use Rattle.lus_values.specs.Fitting.{fits_op};
ghost use Rattle.lus_values.specs.Operators.{any_nil, apply, compute as value_computed, count_true, one_bool, one_int, two_bools, two_ints, two_values};
ghost use Rattle.lus_values.specs.Equality.{same};
ghost use Rattle.lus_values.specs.declared.operator.Operator.TheVariants.{Compute};
ghost use Rattle.lus_values.specs.View.{value_of};

use crate::equality::same;
use crate::operator::Op;
use crate::value::Value;

/// What an operator gives for operands that fit it. `None` is a fault: the exact result is out of range, or the divisor is 0.
pub fn apply(op: Op, operands: &[Value]) -> Option<Value>
    requires fits { IsTrue (fits_op op (map value_of operands.now)) }
    ensures { option_map value_of result ≡ apply (Compute op) (map value_of operands.now) }
{
    try_apply(op, operands)
}

/// As `apply`, for any operands: where they don't fit the operator and none is nil, there is no value either.
pub fn try_apply(op: Op, operands: &[Value]) -> Option<Value>
    ensures { option_map value_of result ≡ apply (Compute op) (map value_of operands.now) }
{
    if any_nil(operands) {
        Some(Value::Nil)
    } else {
        compute(op, operands)
    }
}

/// Whether an operand is nil.
pub fn any_nil(operands: &[Value]) -> bool
    ensures { result ≡ any_nil (map value_of operands.now) }
{
    for operand in operands {
        if let Value::Nil = operand {
            return true;
        }
    }
    false
}

fn compute(op: Op, operands: &[Value]) -> Option<Value>
    ensures { option_map value_of result ≡ value_computed op (map value_of operands.now) }
{
    match op {
        Op::Negate => one_int(operands)?.checked_neg().map(Value::Int),
        Op::Add => {
            let (a, b) = two_ints(operands)?;
            a.checked_add(b).map(Value::Int)
        }
        Op::Subtract => {
            let (a, b) = two_ints(operands)?;
            a.checked_sub(b).map(Value::Int)
        }
        Op::Multiply => {
            let (a, b) = two_ints(operands)?;
            a.checked_mul(b).map(Value::Int)
        }
        Op::Divide => {
            let (a, b) = two_ints(operands)?;
            a.checked_div(b).map(Value::Int)
        }
        Op::Remainder => {
            let (a, b) = two_ints(operands)?;
            a.checked_rem(b).map(Value::Int)
        }
        Op::Not => one_bool(operands).map(|a| Value::Bool(!a)),
        Op::And => two_bools(operands).map(|(a, b)| Value::Bool(a && b)),
        Op::Or => two_bools(operands).map(|(a, b)| Value::Bool(a || b)),
        Op::Xor => two_bools(operands).map(|(a, b)| Value::Bool(a != b)),
        Op::Implies => two_bools(operands).map(|(a, b)| Value::Bool(!a || b)),
        Op::Equal => equality(operands).map(Value::Bool),
        Op::NotEqual => equality(operands).map(|equal| Value::Bool(!equal)),
        Op::Less => two_ints(operands).map(|(a, b)| Value::Bool(a < b)),
        Op::AtMost => two_ints(operands).map(|(a, b)| Value::Bool(a <= b)),
        Op::Greater => two_ints(operands).map(|(a, b)| Value::Bool(a > b)),
        Op::AtLeast => two_ints(operands).map(|(a, b)| Value::Bool(a >= b)),
        Op::AtMostOne => count_true(operands).map(|count| Value::Bool(count <= 1)),
        Op::Nor => count_true(operands).map(|count| Value::Bool(count == 0)),
    }
}

fn one_int(operands: &[Value]) -> Option<i64>
    ensures { result ≡ one_int (map value_of operands.now) }
{
    match operands {
        [Value::Int(a)] => Some(*a),
        _ => None,
    }
}

fn two_ints(operands: &[Value]) -> Option<(i64, i64)>
    ensures { result ≡ two_ints (map value_of operands.now) }
{
    match operands {
        [Value::Int(a), Value::Int(b)] => Some((*a, *b)),
        _ => None,
    }
}

fn one_bool(operands: &[Value]) -> Option<bool>
    ensures { result ≡ one_bool (map value_of operands.now) }
{
    match operands {
        [Value::Bool(a)] => Some(*a),
        _ => None,
    }
}

fn two_bools(operands: &[Value]) -> Option<(bool, bool)>
    ensures { result ≡ two_bools (map value_of operands.now) }
{
    match operands {
        [Value::Bool(a), Value::Bool(b)] => Some((*a, *b)),
        _ => None,
    }
}

/// How many operands are true, if they are one truth value or more.
fn count_true(operands: &[Value]) -> Option<usize>
    ensures { result ≡ count_true (map value_of operands.now) }
{
    let mut count = 0;
    for operand in operands {
        match operand {
            Value::Bool(true) => count += 1,
            Value::Bool(false) => {}
            _ => return None,
        }
    }
    if operands.is_empty() {
        None
    } else {
        Some(count)
    }
}

/// Whether the operands are equal, if they are two.
fn equality(operands: &[Value]) -> Option<bool>
    ensures { result ≡ option_map (λ p. same p.0 p.1) (two_values (map value_of operands.now)) }
{
    match operands {
        [a, b] => Some(same(a, b)),
        _ => None,
    }
}

//! Operators on values that no program applies them to. What they give on others is in `rows/`.

use lus_values::{Op, Value, apply, fits_op, try_apply};

fn applied(op: Op, operands: &[Value]) -> Option<Value> {
    if fits_op(op, operands) {
        apply(op, operands)
    } else {
        None
    }
}

fn is_nil(op: Op, operands: &[Value]) -> bool {
    matches!(applied(op, operands), Some(Value::Nil))
}

/// Whether an operator of three truths gives this one.
fn gives(op: Op, a: bool, b: bool, c: bool, wanted: bool) -> bool {
    let operands = [Value::Bool(a), Value::Bool(b), Value::Bool(c)];
    matches!(applied(op, &operands), Some(Value::Bool(given)) if given == wanted)
}

/// Whether it gives these where none, one, two and three of them are true.
fn counts(op: Op, none: bool, one: bool, two: bool, three: bool) -> bool {
    let few = gives(op, false, false, false, none) && gives(op, true, false, false, one);
    few && gives(op, true, true, false, two) && gives(op, true, true, true, three)
}

/// Whether it gives nil where an operand is nil, and takes no list without an operand, nor a number.
fn takes_truths(op: Op) -> bool {
    let gives_nil = is_nil(op, &[Value::Bool(true), Value::Nil]);
    let takes_none = fits_op(op, &[]);
    let takes_a_number = fits_op(op, &[Value::Bool(true), Value::Int(1)]);
    gives_nil && !takes_none && !takes_a_number && try_apply(op, &[]).is_none()
}

#[test]
fn at_most_one_and_none_count_what_is_true(rt: HostRuntime) {
    assert!(rt; counts(Op::AtMostOne, true, true, false, false));
    assert!(rt; takes_truths(Op::AtMostOne));
    assert!(rt; counts(Op::Nor, true, false, false, false));
    assert!(rt; takes_truths(Op::Nor));
}

fn are_nil() -> bool {
    let from_nil = is_nil(Op::Divide, &[Value::Nil, Value::Int(0)]);
    let by_nil = is_nil(Op::Divide, &[Value::Int(0), Value::Nil]);
    let of_nil = is_nil(Op::Negate, &[Value::Nil]);
    from_nil && by_nil && of_nil
}

fn are_misfits() -> bool {
    let one_too_few = fits_op(Op::Add, &[Value::Int(1)]);
    let other_kind = fits_op(Op::And, &[Value::Nil, Value::Int(1)]);
    let other_type = fits_op(Op::Equal, &[Value::Enum(0, 1), Value::Enum(1, 1)]);
    !one_too_few && !other_kind && !other_type
}

#[test]
fn nil_is_an_answer_and_misfits_are_none(rt: HostRuntime) {
    assert!(rt; are_nil());
    assert!(rt; are_misfits());
    assert!(rt; try_apply(Op::Add, &[Value::Int(1)]).is_none());
}

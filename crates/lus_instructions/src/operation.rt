//! What operators of the language give.

ghost use Rattle.std.specs.Prelude.{◌≡◌, ◌∷◌, [], IfOk, IfSome, Some, map, option_map, slice_get};
ghost use Rattle.lus_values.specs.Operators.{apply, choose, project};
ghost use Rattle.lus_values.specs.Values.{bool};
ghost use Rattle.lus_values.specs.declared.operator.Operator.TheVariants.{Compute, Field, If};
ghost use Rattle.lus_values.specs.View.{entry_of, value_of};
ghost use Rattle.lus_values.specs.Entries.{chosen};
ghost use Rattle.lus_instructions.specs.Applied.{applied};
ghost use Rattle.lus_instructions.specs.Words.{entry_in};
ghost use Rattle.lus_instructions.specs.Seeing.{entry_seen};

use crate::entries::copy_value;
use crate::seen::{Seen, is_nil_seen, is_none, see};
use crate::words::{Word, apply_two, is_absent, is_nil};
use lus_values::{Memory, Op, Operator, Value, any_nil, same, try_apply};
use std::alloc::Global;

/// The branch that a condition chooses.
fn choose(alloc: Global, values: &[Value]) -> Result<Option<Value>, Memory>
    ensures { IfOk result (λ v. entry_of v ≡ choose (map value_of values.now)) }
{
    match values {
        [Value::Bool(true), a, _] => copy_value(alloc, a),
        [Value::Bool(false), _, b] => copy_value(alloc, b),
        _ => Ok(None),
    }
}

/// The value at a place; past the values there is nothing.
fn value_at(values: &[Value], place: usize) -> Option<&Value>
    ensures { option_map (λ v. value_of v.now) result ≡ slice_get (map value_of values.now) place }
{
    values.get(place)
}

/// A field of a structure.
fn field_of(value: &Value, field: usize) -> Option<&Value>
    ensures { option_map (λ v. value_of v.now) result ≡ project field (value_of value.now ∷ []) }
{
    match value {
        Value::Struct(fields) => value_at(fields, field),
        Value::Bool(_) => None,
        Value::Int(_) => None,
        Value::Enum(_, _) => None,
        Value::Nil => None,
    }
}

/// A copy of a field of the one operand.
fn project_only(alloc: Global, field: usize, values: &[Value]) -> Result<Option<Value>, Memory>
    ensures { IfOk result (λ v. entry_of v ≡ project field (map value_of values.now)) }
{
    match values {
        [value] => match field_of(value, field) {
            Some(found) => copy_value(alloc, found),
            None => Ok(None),
        },
        _ => Ok(None),
    }
}

/// What an operator gives for the values of its operands.
pub fn operate(
    alloc: Global,
    operator: Operator,
    values: Vec<Value>,
) -> Result<Option<Value>, Memory>
    ensures { IfOk result (λ v. entry_of v ≡ apply operator (map value_of values.items)) }
{
    if any_nil(&values) {
        return Ok(Some(Value::Nil));
    }
    match operator {
        Operator::Compute(op) => Ok(try_apply(op, &values)),
        Operator::If => choose(alloc, &values),
        Operator::Structure(_) => Ok(Some(Value::Struct(values))),
        Operator::Field(field) => project_only(alloc, field as usize, &values),
    }
}

/// A field of an operand, where it stands.
#[inline(always)]
pub fn project<'a>(field: u32, operand: Seen<'a>) -> Seen<'a>
    ensures { entry_seen result ≡ applied (Field field) (entry_seen operand.entry ∷ []) }
{
    match operand {
        Seen::Word(word) => Seen::Word(if is_nil(word) {
            Word::Nil
        } else {
            Word::Absent
        }),
        Seen::Structure(value) => match field_of(value, field as usize) {
            Some(found) => see(found),
            None => Seen::Word(if is_nil_seen(operand) {
                Word::Nil
            } else {
                Word::Absent
            }),
        },
    }
}

/// Whether two values are the same, where an operator asks for that and none is nil.
fn compare(op: Op, left: &Value, right: &Value) -> Option<Word>
    ensures { IfSome result (λ w. entry_in w ≡ applied (Compute op) (Some (value_of left.now) ∷ Some (value_of right.now) ∷ [])) }
{
    if matches!(left, Value::Nil) || matches!(right, Value::Nil) {
        return None;
    }
    match op {
        Op::Equal => Some(Word::Bool(same(left, right))),
        Op::NotEqual => Some(Word::Bool(!same(left, right))),
        _ => None,
    }
}

/// What an operator gives for two operands, if both are words, or both are structures and it compares them.
#[inline(always)]
pub fn compute_two(op: Op, left: Seen<'_>, right: Seen<'_>) -> Option<Word>
    ensures { IfSome result (λ w. entry_in w ≡ applied (Compute op) (entry_seen left.entry ∷ entry_seen right.entry ∷ [])) }
{
    match (left, right) {
        (Seen::Word(x), Seen::Word(y)) => Some(apply_two(op, x, y)),
        (Seen::Structure(x), Seen::Structure(y)) => compare(op, x, y),
        _ => None,
    }
}

/// What a condition decides: the first of two branches where it is true, the second where it is false.
pub fn decide<'a>(condition: Word, then: Seen<'a>, otherwise: Seen<'a>) -> Seen<'a>
    ensures { entry_seen result ≡ applied If (entry_in condition ∷ entry_seen then.entry ∷ entry_seen otherwise.entry ∷ []) }
{
    if is_absent(condition) || is_none(then) || is_none(otherwise) {
        return Seen::Word(Word::Absent);
    }
    if is_nil(condition) || is_nil_seen(then) || is_nil_seen(otherwise) {
        return Seen::Word(Word::Nil);
    }
    match condition {
        Word::Bool(true) => then,
        Word::Bool(false) => otherwise,
        _ => Seen::Word(Word::Absent),
    }
}

/// The first of two operands where a first-flag is set, else the second, if there is a flag and both have a value.
pub fn chosen<'a>(first: Option<bool>, now: Seen<'a>, later: Seen<'a>) -> Seen<'a>
    ensures { entry_seen result ≡ chosen first (entry_seen now.entry) (entry_seen later.entry) }
{
    match first {
        Some(is_first) => {
            if is_none(now) || is_none(later) {
                return Seen::Word(Word::Absent);
            }
            if is_first { now } else { later }
        }
        None => Seen::Word(Word::Absent),
    }
}

//! Parts at fault, in words.

ghost use Rattle.std.specs.Prelude.{◌≡◌, ◌++◌, [], OnOk, codes, map, string_bytes};
ghost use Rattle.std.specs.Option.{option_map};
ghost use Rattle.lus_values.specs.Text.{Begins};
ghost use Rattle.lus_values.specs.View.{value_of};
ghost use Rattle.lus_reference.specs.Causes.{operation_in};
ghost use Rattle.lus_windows.specs.Words.{SaysCause, SaysFault, SaysOperation, infix_text, listed, listed_text, place_text};

use itoa::Buffer;
use lus_parts::parts_of;
use lus_program::{Form, Program};
use lus_syntax::Place;
use lus_values::{Memory, Names, Op, Operator, Value, push_value};
use lus_worlds::{Fault, Operation};
use std::alloc::Global;

/// How an operator is written.
fn sign_of(operator: Operator) -> &'static str {
    match operator {
        Operator::Compute(op) => op.sign(),
        Operator::If => "if",
        Operator::Structure(_) => "{}",
        Operator::Field(_) => ".",
    }
}

/// Why an operation has no value.
fn cause_word(operation: &Operation) -> &'static str {
    match (operation.operator, operation.operands.as_slice()) {
        (Operator::Compute(Op::Divide | Op::Remainder), [_, Value::Int(0)]) => "division by zero",
        _ => "overflow, the result is no int",
    }
}

/// Appends an operation of two operands.
fn push_infix(
    text: &mut String,
    names: &Names,
    sign: &str,
    left: &Value,
    right: &Value,
) -> Result<(), Memory>
    ensures { OnOk result (string_bytes text.new ≡ string_bytes text.old ++ infix_text names.now sign.now (value_of left.now) (value_of right.now)) }
{
    push_value(text, left, names)?;
    text.push_str(" ")?;
    text.push_str(sign)?;
    text.push_str(" ")?;
    push_value(text, right, names)
}

/// Appends operands, with commas between them.
fn push_operands(text: &mut String, names: &Names, operands: &[Value]) -> Result<(), Memory>
    ensures { OnOk result (string_bytes text.new ≡ string_bytes text.old ++ listed names.now [] (map value_of operands.now)) }
{
    let mut before = "";
    for operand in operands {
        text.push_str(before)?;
        push_value(text, operand, names)?;
        before = ", ";
    }
    Ok(())
}

/// Appends an operation of other operands than two.
fn push_listed(
    text: &mut String,
    names: &Names,
    sign: &str,
    operands: &[Value],
) -> Result<(), Memory>
    ensures { OnOk result (string_bytes text.new ≡ string_bytes text.old ++ listed_text names.now sign.now (map value_of operands.now)) }
{
    text.push_str(sign)?;
    text.push_str(" ")?;
    push_operands(text, names, operands)
}

/// Appends an operation with its operands' values.
fn push_operation(text: &mut String, names: &Names, operation: &Operation) -> Result<(), Memory>
    ensures { OnOk result (SaysOperation names.now (operation_in operation.now) (string_bytes text.old) (string_bytes text.new)) }
{
    let sign = sign_of(operation.operator);
    match operation.operands.as_slice() {
        [left, right] => push_infix(text, names, sign, left, right),
        operands => push_listed(text, names, sign, operands),
    }
}

/// Appends which operation has no value, if the fault has its cause.
fn push_cause(text: &mut String, names: &Names, cause: &Option<Operation>) -> Result<(), Memory>
    ensures { OnOk result (SaysCause names.now (option_map operation_in cause.now) (string_bytes text.old) (string_bytes text.new)) }
{
    match cause {
        Some(operation) => push_operation(text, names, operation),
        None => {
            text.push_str("an expression")?;
            Ok(())
        }
    }
}

/// Appends a place.
fn push_place(text: &mut String, place: Place) -> Result<(), Memory>
    ensures { OnOk result (string_bytes text.new ≡ string_bytes text.old ++ place_text place) }
{
    text.push_str("line ")?;
    text.push_str(Buffer::new().format(place.line))?;
    text.push_str(", column ")?;
    text.push_str(Buffer::new().format(place.column))?;
    Ok(())
}

/// Appends why a part has no value, and at which instant.
fn push_why(text: &mut String, cause: &Option<Operation>, number: u64) -> Result<(), Memory>
    ensures { OnOk result (Begins (string_bytes text.old) (string_bytes text.new)) }
{
    text.push_str(": ")?;
    text.push_str(match cause {
        Some(operation) => cause_word(operation),
        None => "it has no value, since another has none",
    })?;
    text.push_str(", instant ")?;
    text.push_str(Buffer::new().format(number))?;
    Ok(())
}

/// The node of a call of a node, by the call's number, and its place.
fn callee(
    alloc: Global,
    program: &Program,
    node: u32,
    number: u32,
) -> Result<Option<(u32, Place)>, Memory> {
    let Some(found) = program.nodes.get(node as usize) else {
        return Ok(None);
    };
    let parts = parts_of(alloc, program, found)?;
    for part in &parts {
        if let Form::Call(called, _) = &part.expr.form
            && part.number == number as usize
        {
            return Ok(Some((*called, part.expr.place)));
        }
    }
    Ok(None)
}

fn name_of(program: &Program, node: u32) -> &str {
    match program.nodes.get(node as usize) {
        Some(found) => found.name.as_str(),
        None => "?",
    }
}

/// Appends the nodes down to a part, as `, in main > meter(line 4, column 7) > total(line 9, column 3)`.
fn push_way(
    text: &mut String,
    alloc: Global,
    program: &Program,
    node: u32,
    way: &[u32],
) -> Result<(), Memory>
    ensures { OnOk result (Begins (string_bytes text.old) (string_bytes text.new)) }
{
    text.push_str(", in ")?;
    text.push_str(name_of(program, node))?;
    let mut caller = node;
    for number in way {
        let Some((called, place)) = callee(alloc, program, caller, *number)? else {
            return Ok(());
        };
        text.push_str(" > ")?;
        text.push_str(name_of(program, called))?;
        text.push_str("(")?;
        push_place(text, place)?;
        text.push_str(")")?;
        caller = called;
    }
    Ok(())
}

/// Appends which operation has no value, with its operands' values and its place; and why, at which instant, and in which node.
pub(crate) fn push_fault(
    text: &mut String,
    alloc: Global,
    program: &Program,
    names: &Names,
    node: u32,
    fault: &Fault,
    number: u64,
) -> Result<(), Memory>
    ensures { OnOk result (SaysFault names.now fault.now (string_bytes text.old) (string_bytes text.new)) }
{
    push_cause(text, names, &fault.cause)?;
    text.push_str(" at ")?;
    push_place(text, fault.place)?;
    push_why(text, &fault.cause, number)?;
    push_way(text, alloc, program, node, &fault.way)
}

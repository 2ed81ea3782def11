//! Faults, and their causes: operations that have no value on the values of their operands.

ghost use Rattle.std.specs.Prelude.{◌≡◌, ◌⊎◌, IfOk, IsSome, IsTrue, MatchOption, map};
ghost use Rattle.std.specs.Option.{option_map};
ghost use Rattle.lus_program.specs.View.{expression_of};
ghost use Rattle.lus_values.specs.View.{entry_of};
ghost use Rattle.lus_reference.specs.Causes.{IsFaultBy, operation_in, operation_on};

use crate::value::gathered;
use lus_program::{Expr, Form};
use lus_values::{Memory, Operator, Value};
use std::alloc::Global;

/// An operation, and the values that its operands have.
#[derive(Drop)]
pub struct Operation {
    pub operator: Operator,
    pub operands: Vec<Value>,
}

/// A part at fault: its place among the parts, and its operation, if its operands all have values.
#[derive(Drop)]
pub struct AtFault {
    pub place: usize,
    pub operation: Option<Operation>,
}

/// The operation that an expression is, if its operands all have values.
fn operation_of(
    alloc: Global,
    expr: &Expr,
    operands: &[Option<Value>],
) -> Result<Option<Operation>, Memory>
    ensures { IfOk result (λ o. option_map operation_in o ≡ operation_on (expression_of expr.now) (map entry_of operands.now)) }
{
    match &expr.form {
        Form::Operate(operator, _) => match gathered(alloc, operands)? {
            Some(values) => Ok(Some(Operation {
                operator: *operator,
                operands: values,
            })),
            None => Ok(None),
        },
        _ => Ok(None),
    }
}

/// Whether the operands of a part at fault all have values.
fn is_cause(fault: &Option<AtFault>) -> bool
    ensures { IsTrue result → IsSome fault.now }
{
    match fault {
        Some(found) => found.operation.is_some(),
        None => false,
    }
}

/// An expression at this place, where it is at fault, or another fault; one whose operands all have values before others.
pub fn fault_or(
    alloc: Global,
    at_fault: bool,
    place: usize,
    expr: &Expr,
    operands: &[Option<Value>],
    other: Option<AtFault>,
) -> Result<Option<AtFault>, Memory>
    ensures { let own = IsFaultBy (expression_of expr.now) (map entry_of operands.now) place in
        IfOk result (λ o. ((o ≡ other) × (IsTrue at_fault → IsSome other)) ⊎ (IsTrue at_fault × MatchOption o ⊥ own)) }
{
    if !at_fault {
        return Ok(other);
    }
    let operation = operation_of(alloc, expr, operands)?;
    if operation.is_none() && is_cause(&other) {
        return Ok(other);
    }
    Ok(Some(AtFault { place, operation }))
}

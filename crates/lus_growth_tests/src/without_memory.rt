//! What takes no memory: it is answered whatever growth is refused.

ghost use Rattle.lus_eval.specs.Objects.{IsObjectOf};

use crate::requests::{SUM, SUMS, again, row};
use lus_clocks::{check_clocks, check_nil};
use lus_eval::Object;
use lus_eval::lus_code::{Code, translate};
use lus_eval::lus_normal::{Normal, normalise};
use lus_eval::lus_order::order;
use lus_grammar::parse;
use lus_host::{Program, compile};
use lus_syntax::{Refusal, lex};
use lus_types::check_types;
use lus_values::{Memory, Op, Row, Value, apply, fits_op, same};
use std::alloc::Global;
use std::test::Fail;

/// Whether operators and comparisons are answered.
fn are_values_answered() -> bool {
    let operands = [Value::Int(2), Value::Int(3)];
    if !fits_op(Op::Add, &operands) {
        return false;
    }
    let sum = apply(Op::Add, &operands);
    matches!(sum, Some(Value::Int(5))) && !same(&operands[0], &operands[1])
}

/// Whether the calls of a program of the one node are answered.
fn is_program_answered(program: &Program) -> bool {
    if program.node("s") != Some(SUM) || program.nodes() != 1 || !program.has(SUM) {
        return false;
    }
    let formals = (program.inputs(SUM).len(), program.outputs(SUM).len());
    formals == (1, 1) && program.fields(0).is_empty() && program.names().find("s").is_none()
}

/// The normal form of the one node.
fn normal_of(alloc: Global) -> Result<Normal, Refusal> {
    let tokens = lex(alloc, SUMS)?;
    let typed = check_types(alloc, parse(alloc, &tokens)?)?;
    let initialised = check_nil(alloc, check_clocks(typed)?)?;
    let ordered = order(alloc, initialised)?;
    normalise(alloc, ordered)
}

/// Whether its counts are answered.
fn is_normal_answered(normal: &Normal) -> bool {
    normal.nodes() == 1 && (normal.memories(SUM), normal.firsts(SUM)) == (1, 1)
}

/// Whether inputs are tested.
fn are_inputs_answered(object: &Object, code: &Code, inputs: &Row) -> bool
    requires { IsObjectOf code.now object.now }
{
    object.fits_shape(code, inputs) && object.fits_presence(code, inputs)
}

/// Whether an object of the one node is tested and made fresh.
fn is_object_answered(object: &mut Object, code: &Code, inputs: &Row) -> bool {
    if object.shaped(code) {
        let fits = are_inputs_answered(object, code, inputs);
        object.reset();
        fits
    } else {
        false
    }
}

/// Whether the calls of the passes behind the text, of its code and of an object are answered; memory may be out while they are made.
fn is_coded(alloc: Global) -> Result<bool, Memory> {
    let normal = normal_of(alloc).map_err(|_| Memory)?;
    let counted = is_normal_answered(&normal);
    let code = translate(alloc, normal).map_err(|_| Memory)?;
    if code.nodes() != 1 || code.cells(SUM) != 2 {
        return Ok(false);
    }
    let mut object = Object::fresh(alloc, &code, SUM)?;
    let inputs = row(alloc, 2)?;
    Ok(counted && is_object_answered(&mut object, &code, &inputs))
}

/// Whether values and a program are answered; memory may be out before the program is there.
fn is_compiled(alloc: Global) -> Result<bool, Memory> {
    match compile(alloc, SUMS) {
        Ok(program) => Ok(are_values_answered() && is_program_answered(&program)),
        Err(_) => Err(Memory),
    }
}

#[test]
fn what_takes_no_memory_is_answered(rt: HostRuntime) -> Result<(), Fail> {
    let alloc = rt.alloc();
    assert!(&rt; again(is_compiled(alloc), is_compiled(alloc)));
    assert!(&rt; again(is_coded(alloc), is_coded(alloc)));
    Ok(())
}

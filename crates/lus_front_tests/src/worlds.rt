//! Worlds of small nodes, as they are defined.

use lus_clocks::{check_clocks, check_nil};
use lus_grammar::parse;
use lus_order::{Ordered, order};
use lus_syntax::{Refusal, lex};
use lus_types::check_types;
use lus_values::{Memory, Row, Value};
use lus_worlds::{Fault, Moment, Stop, extend, start};
use std::alloc::Global;
use std::test::Fail;

/// A counter, and a node that calls it on a slower clock, and divides.
pub(crate) const SLOWER: &str = "node t(c: bool) returns (n: int); let n = 0 -> pre n + 1; tel
node o(a: int; c: bool) returns (x: int; y: int when c); let
  x = 12 / a + (0 -> pre x); y = t(c when c); tel";

/// The ordered program of a text.
pub(crate) fn ordered_of(alloc: Global, text: &str) -> Result<Ordered, Refusal> {
    let tokens = lex(alloc, text)?;
    let tree = parse(alloc, &tokens)?;
    let typed = check_types(alloc, tree)?;
    let clocked = check_clocks(typed)?;
    let initialised = check_nil(alloc, clocked)?;
    order(alloc, initialised)
}

/// A number and a truth value, as inputs.
pub(crate) fn inputs(alloc: Global, number: i64, truth: bool) -> Result<Row, Memory> {
    let mut items = Vec::new(alloc);
    items.push(Some(Value::Int(number)))?;
    items.push(Some(Value::Bool(truth)))?;
    Ok(Row::new(items))
}

/// Whether an entry is this number.
pub(crate) fn is_number(row: &Row, variable: usize, number: i64) -> bool {
    matches!(row.items().get(variable), Some(Some(Value::Int(found))) if *found == number)
}

/// The next instant, if at it the first output is this.
fn next_with(
    alloc: Global,
    ordered: &Ordered,
    old: &Moment,
    number: i64,
    truth: bool,
    output: i64,
) -> Result<Option<Moment>, Memory> {
    let given = inputs(alloc, number, truth)?;
    let Ok(moment) = extend(
        alloc,
        ordered.program(),
        ordered.orders(),
        1,
        given.items(),
        old,
    ) else {
        return Ok(None);
    };
    if is_number(&moment.row, 2, output) {
        Ok(Some(moment))
    } else {
        Ok(None)
    }
}

/// Whether a fault is of 12 divided by 0.
fn is_division(fault: &Fault) -> bool {
    match &fault.cause {
        Some(operation) => matches!(
            operation.operands.as_slice(),
            [Value::Int(12), Value::Int(0)]
        ),
        None => false,
    }
}

/// Whether a division by zero stops a world where it stands in the source.
fn stops(alloc: Global, ordered: &Ordered, old: &Moment) -> Result<bool, Memory> {
    let given = inputs(alloc, 0, true)?;
    match extend(
        alloc,
        ordered.program(),
        ordered.orders(),
        1,
        given.items(),
        old,
    ) {
        Err(Stop::Fault(fault)) => {
            let here = fault.way.is_empty() && fault.place.line == 3 && fault.place.column == 7;
            Ok(here && is_division(&fault))
        }
        _ => Ok(false),
    }
}

/// Whether instants follow, the call on its own clock, and go on behind one that stops.
fn is_found(alloc: Global, ordered: &Ordered) -> Result<bool, Memory> {
    let Some(before) = start(alloc, ordered.program(), 1)? else {
        return Ok(false);
    };
    let Some(first) = next_with(alloc, ordered, &before, 3, true, 4)? else {
        return Ok(false);
    };
    let Some(second) = next_with(alloc, ordered, &first, 2, false, 10)? else {
        return Ok(false);
    };
    let Some(third) = next_with(alloc, ordered, &second, 6, true, 12)? else {
        return Ok(false);
    };
    let counts = is_number(&first.row, 3, 0) && is_number(&third.row, 3, 1);
    Ok(counts && stops(alloc, ordered, &second)?)
}

#[test]
fn instants_follow_and_a_fault_stops(rt: HostRuntime) -> Result<(), Fail> {
    match ordered_of(rt.alloc(), SLOWER) {
        Ok(ordered) => assert!(rt; is_found(rt.alloc(), &ordered)?),
        Err(_) => assert!(rt; false),
    }
    Ok(())
}

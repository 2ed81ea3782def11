//! What is asked of an instance, and what is replied.

use lus_host::{Entry, NodeId, Reply, Request, Rows};
use lus_values::{Memory, Row, Value};
use std::alloc::Global;

/// A node that sums its inputs.
pub(crate) const SUMS: &str = "node s(x: int) returns (y: int); let y = x + (0 -> pre y); tel\n";

/// Its place in the program.
pub(crate) const SUM: NodeId = NodeId(0);

/// Whether the first of two answers is right, or the first had no memory and the second is right.
pub(crate) fn again(first: Result<bool, Memory>, second: Result<bool, Memory>) -> bool {
    match first {
        Ok(is_right) => is_right,
        Err(Memory) => second.unwrap_or(false),
    }
}

/// A row of one number.
pub(crate) fn row(alloc: Global, number: i64) -> Result<Row, Memory> {
    let mut items = Vec::new(alloc);
    items.push(Some(Value::Int(number)))?;
    Ok(Row::new(items))
}

/// The next instant, with this input.
pub(crate) fn step(alloc: Global, input: i64) -> Result<Request, Memory> {
    Ok(Request::Step(row(alloc, input)?))
}

/// Three instants, with these inputs.
pub(crate) fn burst(alloc: Global, inputs: [i64; 3]) -> Result<Request, Memory> {
    let [first, second, third] = inputs;
    let mut rows = Vec::new(alloc);
    rows.push(row(alloc, first)?)?;
    rows.push(row(alloc, second)?)?;
    rows.push(row(alloc, third)?)?;
    Ok(Request::Burst(Rows::new(rows)))
}

fn is_number(row: &Row, number: i64) -> bool {
    match row.items() {
        [Some(Value::Int(found))] => *found == number,
        _ => false,
    }
}

/// Whether a reply is this output.
fn gives(reply: &Reply, number: i64) -> bool {
    match reply {
        Reply::Outputs(row) => is_number(row, number),
        _ => false,
    }
}

fn are_numbers(rows: &Rows, numbers: [i64; 3]) -> bool {
    let [one, two, three] = numbers;
    match rows.items() {
        [first, second, third] => {
            is_number(first, one) && is_number(second, two) && is_number(third, three)
        }
        _ => false,
    }
}

/// Whether a reply is these outputs of three rows.
pub(crate) fn gives_three(reply: &Reply, numbers: [i64; 3]) -> bool {
    match reply {
        Reply::Rows(rows) => are_numbers(rows, numbers),
        _ => false,
    }
}

/// A call with its reply, as a history has it.
#[derive(Clone, Copy)]
pub(crate) enum Made {
    /// An input, and the sum that it gives.
    Step(i64, i64),
    Save(u64),
    Restore(u64),
    /// Inputs, and their sums.
    Burst([i64; 3], [i64; 3]),
}

fn is_entry(entry: &Entry, made: Made) -> bool {
    match (&entry.request, made) {
        (Request::Step(row), Made::Step(input, sum)) => {
            is_number(row, input) && gives(&entry.reply, sum)
        }
        (Request::Save(slot), Made::Save(wanted)) => {
            *slot == wanted && matches!(entry.reply, Reply::Done)
        }
        (Request::Restore(slot), Made::Restore(wanted)) => {
            *slot == wanted && matches!(entry.reply, Reply::Done)
        }
        (Request::Burst(rows), Made::Burst(inputs, sums)) => {
            are_numbers(rows, inputs) && gives_three(&entry.reply, sums)
        }
        _ => false,
    }
}

/// Whether a history has these calls and no others, in this order.
pub(crate) fn is_history(entries: &[Entry], made: &[Made]) -> bool {
    entries.len() == made.len()
        && entries
            .iter()
            .zip(made)
            .all(|(entry, made)| is_entry(entry, *made))
}

/// Whether a call was answered, by this output.
pub(crate) fn is_sum(reply: &Option<Reply>, number: i64) -> bool {
    match reply {
        Some(reply) => gives(reply, number),
        None => false,
    }
}

/// Whether a call was answered, as done.
pub(crate) fn is_done(reply: &Option<Reply>) -> bool {
    matches!(reply, Some(Reply::Done))
}

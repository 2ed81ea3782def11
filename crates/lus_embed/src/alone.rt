//! One caller.

use lus_host::{Machine, Memory, Program, Reply, Request, Row, Value, print};
use std::alloc::Global;
use std::sync::Arc;

/// The request that steps the counter once.
pub fn passing(alloc: Global, passed: bool) -> Result<Request, Memory> {
    let mut inputs = Vec::new(alloc);
    inputs.push(Some(Value::Bool(passed)))?;
    Ok(Request::Step(Row::new(inputs)))
}

/// Prints the first output of a reply, if there is one.
pub fn show<R: AllocGlobal + Print>(rt: &R, program: &Program, reply: &Reply) -> Option<()> {
    let Reply::Outputs(outputs) = reply else {
        return None;
    };
    let Some(Some(value)) = outputs.items().first() else {
        return None;
    };
    let text = print(rt.alloc(), value, program.names()).ok()?;
    println!(rt; "{text}").ok()
}

/// Steps the counter once and prints its output.
fn step<R: AllocGlobal + Print>(
    rt: &R,
    program: &Program,
    counter: &mut Machine,
    passed: bool,
) -> Option<()> {
    let request = passing(rt.alloc(), passed).ok()?;
    let reply = counter.call(0, &request).ok()?;
    show(rt, program, &reply)
}

/// Steps an instance of its own three times.
pub fn count_alone<R: AllocGlobal + Print>(rt: &R, program: &Arc<Program>) -> Option<()> {
    let node = program.node("counter")?;
    if !program.has(node) {
        return None;
    }
    let mut counter = Machine::new(rt.alloc(), program.clone().ok()?, node).ok()?;
    step(rt, program, &mut counter, true)?;
    step(rt, program, &mut counter, false)?;
    step(rt, program, &mut counter, true)
}

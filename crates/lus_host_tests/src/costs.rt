//! What a node costs.

use lus_callers::lus_machine::{Cost, compile};
use std::alloc::Global;

/// A sum, the choice of the first value, and what is kept of both: four orders on a row of four places, and two cells.
const COUNTER: &str = "node t() returns (n: int); let n = 0 -> pre n + 1; tel";

/// What the node of this name costs, if the text is accepted and has it.
fn cost_of(alloc: Global, text: &str, name: &str) -> Option<Cost> {
    let Ok(program) = compile(alloc, text) else {
        return None;
    };
    let node = program.node(name)?;
    if program.has(node) {
        Some(program.cost(node))
    } else {
        None
    }
}

#[test]
fn a_counter_costs_four_orders(rt: HostRuntime) {
    let Some(found) = cost_of(rt.alloc(), COUNTER, "t") else {
        panic!(rt; "there is no such node")
    };
    assert_eq!(rt; found.orders, 4);
    assert_eq!(rt; found.row, 4);
    assert_eq!(rt; found.instance_bytes, 128);
    assert_eq!(rt; found.saved_bytes, 32);
}

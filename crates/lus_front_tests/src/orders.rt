//! Orders of things that use each other.

use lus_graph::{GraphError, order_of};
use std::alloc::{AllocError, Global};
use std::test::Fail;

/// The uses of four things: their places, and 9 for a use of nothing.
fn four(
    alloc: Global,
    first: u32,
    second: u32,
    third: u32,
    fourth: u32,
) -> Result<Vec<Vec<u32>>, AllocError> {
    let mut uses = Vec::with_capacity(alloc, 4)?;
    for place in [first, second, third, fourth] {
        uses.push(vec![in alloc; place]?)?;
    }
    Ok(uses)
}

/// Whether what is used comes first.
fn is_ordered(alloc: Global) -> Result<bool, AllocError> {
    let uses = four(alloc, 2, 0, 3, 9)?;
    match order_of(alloc, &uses) {
        Ok(order) => Ok(order.as_slice() == [3, 2, 0, 1].as_slice()),
        Err(_) => Ok(false),
    }
}

/// Whether a cycle is told from its least on.
fn is_told_from_least(alloc: Global) -> Result<bool, AllocError> {
    let uses = four(alloc, 3, 2, 3, 1)?;
    match order_of(alloc, &uses) {
        Err(GraphError::Cycle(cycle)) => Ok(cycle.as_slice() == [1, 2, 3].as_slice()),
        _ => Ok(false),
    }
}

#[test]
fn uses_come_first_and_the_least_of_a_cycle(rt: HostRuntime) -> Result<(), Fail> {
    assert!(rt; is_ordered(rt.alloc())?);
    assert!(rt; is_told_from_least(rt.alloc())?);
    Ok(())
}

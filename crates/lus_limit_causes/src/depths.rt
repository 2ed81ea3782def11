//! How deep calls nest.

use lus_faults::{Link, calls_of};
use lus_syntax::Tree;
use std::alloc::{AllocError, Global};

/// The depths of so many nodes by those of the nodes that they call, which are as deep as was found before.
fn deepened(
    alloc: Global,
    calls: &[Link<'_>],
    count: usize,
    depths: &[usize],
) -> Result<Vec<usize>, AllocError> {
    let mut deeper: Vec<usize> = Vec::new(alloc);
    for _node in 0..count {
        deeper.push(1)?;
    }
    for call in calls {
        let called = depths.get(call.to).copied().unwrap_or(0);
        if let Some(depth) = deeper.get_mut(call.from) {
            *depth = (*depth).max(called.saturating_add(1));
        }
    }
    Ok(deeper)
}

/// How deep calls nest in the node at a place: 1 where it calls none, and at most so many.
pub fn depth_of(
    alloc: Global,
    tree: &Tree,
    place: usize,
    most: usize,
) -> Result<usize, AllocError> {
    let calls = calls_of(alloc, tree)?;
    let mut depths = Vec::new(alloc);
    for _round in 0..most {
        depths = deepened(alloc, &calls, tree.nodes.len(), &depths)?;
    }
    Ok(depths.get(place).copied().unwrap_or(0))
}

//! What the nodes of a program cost.

use lus_reports::lus_cli::lus_host::{Cost, NodeId, Program};
use std::alloc::{AllocError, Global};

const HEAD: &str = "orders a step  words a row  bytes an instance  bytes a saved state  node\n";

/// Appends what a node costs: a line below the head, or an object of JSON.
fn push_cost(text: &mut String, is_json: bool, node: &str, cost: Cost) -> Result<(), AllocError> {
    let Cost {
        orders,
        row,
        instance_bytes: instance,
        saved_bytes: saved,
    } = cost;
    if is_json {
        write!(
            text,
            "{{\"node\":\"{node}\",\"orders\":{orders},\"row\":{row},\"instance_bytes\":{instance},\"saved_bytes\":{saved}}}\n"
        )
    } else {
        write!(
            text,
            "{orders:>13}  {row:>11}  {instance:>17}  {saved:>19}  {node}\n"
        )
    }
}

/// What each node costs, in the order of their declaration: a table, or an object of JSON on a line of its own for each.
pub(crate) fn costs_of(
    alloc: Global,
    is_json: bool,
    program: &Program,
) -> Result<String, AllocError> {
    let mut text = String::new(alloc);
    if !is_json {
        text.push_str(HEAD)?;
    }
    let source = program.source();
    let count = program.nodes();
    for place in 0..count {
        let cost = program.cost(NodeId(place));
        if let Some(node) = source.nodes.get(place as usize) {
            push_cost(&mut text, is_json, node.name.as_str(), cost)?;
        }
    }
    Ok(text)
}

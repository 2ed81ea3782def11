//! The costs of a program's nodes, by its code.

ghost use Rattle.std.specs.Prelude.{◌<◌, IfOk, length};
ghost use Rattle.lus_code.specs.Codes.{program_of};
ghost use Rattle.lus_costs.specs.Costs.{AreLimited, IsCost, most};
ghost use Rattle.lus_costs.specs.Obeyed.{ObeysAtMost};
ghost use Rattle.lus_costs.specs.Places.{place_bytes};

use crate::cost::{Cost, cost_of};
use crate::counting::orders_of;
use lus_code::Code;
use lus_program::NodeId;
use lus_values::Memory;
use std::alloc::Global;

/// How many orders a step of each node obeys at most, or the greatest number where there are more. Linear in the code.
pub fn orders_of_code(alloc: Global, code: &Code) -> Result<Vec<u64>, Memory>
    ensures { IfOk result (λ counts. AreLimited code.now.emitted counts.items) }
{
    // The classes call each other as the source's nodes do.
    let _classes = code.classes();
    let sound = code.source().initialised().clocked().sound();
    orders_of(alloc, code.emitted(), sound.nodes())
}

/// The cost of a node, by the orders of all.
pub fn cost_in(code: &Code, orders: &[u64], node: NodeId) -> Cost
    requires node { node.0 < length (program_of code.now).nodes }
    requires orders { AreLimited code.now.emitted orders.now }
    ensures exact { IsCost code.now.emitted (place_bytes code.now.source.program) node.0 result }
    ensures bound { result.orders < most → ObeysAtMost code.now.emitted node.0 result.orders }
{
    // There is a class for each node.
    let _classes = code.classes();
    let place = node.0 as usize;
    cost_of(code.program(), &code.emitted()[place], orders[place])
}

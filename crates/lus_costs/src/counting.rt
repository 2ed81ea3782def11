//! The orders of classes, counted once for each along an order in which each class comes after those that it calls.

ghost use Rattle.std.specs.Prelude.{◌≡◌, IfOk};
ghost use Rattle.lus_values.specs.Lists.{item};
ghost use Rattle.lus_graph.specs.Ways.{IsOrder};
ghost use Rattle.lus_costs.specs.Costs.{AreLimited, class_orders, code_uses, limited, order_weight};

use lus_orders::{Call, Class, Order};
use lus_values::Memory;
use std::alloc::Global;

/// How many orders are obeyed for one, by those of the nodes.
fn order_weight(counts: &[u64], calls: &[Call], order: &Order) -> u64
    ensures { result ≡ limited (order_weight (item 0 counts.now) calls.now order.now) }
{
    let Order::Call(number) = order else {
        return 1;
    };
    match calls.get(*number as usize) {
        Some(call) => {
            let inside = counts.get(call.node as usize).copied().unwrap_or(0);
            inside.saturating_add(1)
        }
        None => 1,
    }
}

/// The orders of a class, by those of the nodes that it calls.
fn class_orders(counts: &[u64], class: &Class) -> u64
    ensures { result ≡ limited (class_orders (item 0 counts.now) class.now) }
{
    let mut sum: u64 = 0;
    for order in &class.code {
        sum = sum.saturating_add(order_weight(counts, &class.calls, order));
    }
    sum
}

/// How many orders a step of each class obeys at most, or the greatest number where there are more. The order has before each class
/// those that it calls. Linear in the code.
pub(crate) fn orders_of(
    alloc: Global,
    classes: &[Class],
    order: &[usize],
) -> Result<Vec<u64>, Memory>
    requires { IsOrder (code_uses classes.now) order.now }
    ensures { IfOk result (λ counts. AreLimited classes.now counts.items) }
{
    let mut counts = vec![in alloc; 0u64; classes.len()]?;
    for place in order {
        let class = &classes[*place];
        let found = class_orders(&counts, class);
        counts[*place] = found;
    }
    Ok(counts)
}

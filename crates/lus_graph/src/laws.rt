//! Laws of orders and cycles.

ghost use Rattle.std.specs.Prelude.{ℕ, List};
ghost use Rattle.lus_values.specs.Lists.{item};
ghost use Rattle.lus_graph.specs.Ways.{Uses, IsOrder, IsCycle, HasNoWayBack, Leads};

/// A law: where all things stand in an order, nothing leads back to itself; what stands in a cycle does. So no uses have
/// both.
pub fn orders_have_no_cycle()
    ensures order { (uses : Uses) (order : List ℕ) → IsOrder uses order → HasNoWayBack uses }
    ensures cycle { (uses : Uses) (cycle : List ℕ) → IsCycle uses cycle → Leads uses (item 0 cycle 0) (item 0 cycle 0) }
{}

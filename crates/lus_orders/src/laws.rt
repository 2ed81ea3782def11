//! What code with calls makes of cells and rows.

ghost use Rattle.lus_orders.specs.Made.{CodeMakesSteps};
ghost use Rattle.lus_orders.specs.Segments.{CodeMakesInstants};
ghost use Rattle.lus_orders.specs.Stores.{StoresStore};

/// Code that makes the instants of each class alone makes those of all nodes, with all that they call.
pub fn code_makes_steps()
    ensures { CodeMakesSteps }
{}

/// Code of segments and stores makes the instants of all nodes, with all that they call.
pub fn code_makes_instants()
    ensures { CodeMakesInstants }
{}

/// Orders that store one cell after another store what a class keeps.
pub fn stores_store()
    ensures { StoresStore }
{}

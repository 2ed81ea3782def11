//! In which order the equations of a node give their variables.

ghost use Rattle.std.specs.Prelude.{IfOk, OnOk, length, map};
ghost use Rattle.lus_program.specs.View.{node_of, program_seen};
ghost use Rattle.lus_order.specs.Orders.{OrdersVariables};
ghost use Rattle.lus_normal_form.specs.Ready.{IsReady};
ghost use Rattle.lus_translation.specs.Orders.{AreTurns};
ghost use Rattle.lus_translation.specs.View.{turn_of as turn_in};
ghost use Rattle.lus_turns.specs.Adding.{PlacesAdded, TurnsAdded};
ghost use Rattle.lus_normal_form.specs.Ready.{IsDefined};

use lus_order::definers_of;
use lus_program::{Node, Program};
use lus_translation::Turn;
use lus_values::Memory;
use std::alloc::Global;

/// Appends a variable to the turn of its equation, which comes last where this is its first variable.
fn add_variable(
    alloc: Global,
    equation: usize,
    variable: u32,
    places: &mut Vec<usize>,
    turns: &mut Vec<Turn>,
) -> Result<(), Memory>
    ensures turns { OnOk result (TurnsAdded places.old.items turns.old.items turns.new.items equation variable) }
    ensures places { OnOk result (PlacesAdded places.old.items places.new.items (length turns.old.items) equation) }
{
    if equation >= places.len() {
        return Ok(());
    }
    let place = places[equation];
    if place < turns.len() {
        turns[place].variables.push(variable)?;
        return Ok(());
    }
    let mut variables = Vec::new(alloc);
    variables.push(variable)?;
    places[equation] = turns.len();
    turns.push(Turn {
        equation,
        variables,
    })?;
    Ok(())
}

/// The turns of a node whose variables stand in this order: each equation has its turn at the first of its variables that are
/// no inputs, and gives there all of them, in their order.
pub fn turns_of(
    alloc: Global,
    program: &Program,
    node: &Node,
    order: &[u32],
) -> Result<Vec<Turn>, Memory>
    requires ready { IsReady (program_seen program.now) (node_of node.now) }
    requires defined { IsDefined (program_seen program.now) (node_of node.now) }
    requires order { OrdersVariables (node_of node.now) order.now }
    ensures { IfOk result (λ ts. AreTurns (program_seen program.now) (node_of node.now) (map turn_in ts.items)) }
{
    let definers = definers_of(alloc, node)?;
    let mut places = vec![in alloc; usize::MAX; node.equations.len()]?;
    let mut turns = Vec::new(alloc);
    for variable in order {
        if *variable >= node.inputs {
            if let Some(equation) = definers.get(*variable as usize) {
                add_variable(alloc, *equation, *variable, &mut places, &mut turns)?;
            }
        }
    }
    Ok(turns)
}

//! Where the equations that define the variables of a node stand.

ghost use Rattle.std.specs.Prelude.{◌≡◌, IfOk};
ghost use Rattle.lus_reference.specs.Placed.{ArePlaces, blank, set_first, set_targets};

use crate::counting::{Counts, count};
use lus_program::Node;
use lus_values::Memory;
use std::alloc::Global;

/// Where the equation that defines a variable stands in the text of its node: its place among the equations, how many parts and how
/// many calls stand before its right side, and the variable's place on its left.
#[derive(Clone, Copy, PartialEq, Eq, Debug)]
pub struct Place {
    pub equation: usize,
    pub parts: usize,
    pub calls: usize,
    pub target: usize,
}

/// Sets the place of a variable that has none yet, if the node has this variable.
fn set_first(places: &mut Vec<Option<Place>>, variable: usize, place: Place)
    ensures { places.new.items ≡ set_first places.old.items variable place }
{
    match places.get(variable) {
        Some(Some(_)) => {}
        Some(None) => places[variable] = Some(place),
        None => {}
    }
}

/// Sets the places of the variables on the left side of an equation, before which this stands.
fn set_targets(places: &mut Vec<Option<Place>>, targets: &[u32], equation: usize, before: Counts)
    ensures { places.new.items ≡ set_targets places.old.items targets.now equation before.parts before.calls 0 }
{
    for (target, variable) in targets.iter().enumerate() {
        let place = Place {
            equation,
            parts: before.parts,
            calls: before.calls,
            target,
        };
        set_first(places, *variable as usize, place);
    }
}

/// So many variables without places.
fn no_places(alloc: Global, count: usize) -> Result<Vec<Option<Place>>, Memory>
    ensures { IfOk result (λ places. places.items ≡ blank count) }
{
    let mut places = Vec::new(alloc);
    for _variable in 0..count {
        places.push(None)?;
    }
    Ok(places)
}

/// Where the equation of each variable of a node stands, if it has one, found in one pass over the equations.
pub fn places_of(alloc: Global, node: &Node) -> Result<Vec<Option<Place>>, Memory>
    ensures { IfOk result (λ places. ArePlaces node.now places.items) }
{
    let mut places = no_places(alloc, node.variables.len())?;
    let mut before = Counts { parts: 0, calls: 0 };
    for (place, equation) in node.equations.iter().enumerate() {
        set_targets(&mut places, &equation.targets, place, before);
        let after = count(&equation.right, before)?;
        before = after;
    }
    Ok(places)
}

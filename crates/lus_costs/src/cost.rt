//! Costs.

ghost use Rattle.std.specs.Prelude.{◌≡◌, ◌+◌, ◌*◌};
ghost use Rattle.lus_costs.specs.Costs.{IsCostOfClass, limited};
ghost use Rattle.lus_costs.specs.Places.{has_structure, is_structure, place_bytes};

use lus_instructions::words::Word;
use lus_orders::Class;
use lus_program::{Declared, Program};
use lus_values::Value;

/// The bytes of a place that holds no structure, and of one that may.
const WORD_BYTES: u64 = size_of::<Word>() as u64;

const ENTRY_BYTES: u64 = size_of::<Option<Value>>() as u64;

/// What a step of a node takes at most, and what its instances keep. Each number is exact, or `u64::MAX` where it is that or more.
#[derive(Clone, Copy)]
pub struct Cost {
    /// The orders that a step obeys at most, with those of all calls in it.
    pub orders: u64,
    /// The places of the row on which steps are made: the node's own, and behind them those for its calls.
    pub row: u64,
    /// The bytes of an instance: of its cells, as many for its next instant, and its row.
    pub instance_bytes: u64,
    /// The bytes of a saved state: of its cells.
    pub saved_bytes: u64,
}

/// Whether a type is a structure.
fn is_structure(declared: &Declared) -> bool
    ensures { result ≡ is_structure declared.now }
{
    matches!(declared, Declared::Structure(_))
}

/// Whether a program declares one.
fn has_structure(program: &Program) -> bool
    ensures { result ≡ has_structure program.now }
{
    program.types.iter().any(|declared| is_structure(declared))
}

/// The bytes of a place in rows of a program's instances. What a structure holds beside its place isn't counted.
fn place_bytes(program: &Program) -> u64
    ensures { result ≡ place_bytes program.now }
{
    if has_structure(program) {
        ENTRY_BYTES
    } else {
        WORD_BYTES
    }
}

/// The bytes of so many cells twice and of a row, where a place takes so many.
fn rows_bytes(cells: u32, row: u64, place: u64) -> u64
    ensures { result ≡ limited (place * (2 * cells + row)) }
{
    (u64::from(cells) * 2)
        .saturating_add(row)
        .saturating_mul(place)
}

/// The cost of a class of a program that has so many orders.
pub(crate) fn cost_of(program: &Program, class: &Class, orders: u64) -> Cost
    ensures { IsCostOfClass (place_bytes program.now) class.now orders result }
{
    let row = (class.own as u64).saturating_add(class.behind as u64);
    let place = place_bytes(program);
    Cost {
        orders,
        row,
        instance_bytes: rows_bytes(class.cells, row, place),
        saved_bytes: u64::from(class.cells).saturating_mul(place),
    }
}

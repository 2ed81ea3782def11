//! The classes of a program in normal form, with their code.

ghost use Rattle.std.specs.Prelude.{◌≡◌, ℕ, List, length, map, IfOk};
ghost use Rattle.lus_program.specs.View.{program_seen};
ghost use Rattle.lus_classes.specs.ClassesOf.{AreClassesOf};
ghost use Rattle.lus_classes.specs.Passing.{PassGiven};
ghost use Rattle.lus_classes.specs.View.{classes_of};
ghost use Rattle.lus_normal_form.specs.Ready.{AreReady};
ghost use Rattle.lus_order.specs.Orders.{AreOrders};
ghost use Rattle.lus_orders.specs.Classes.{AreFramed};
ghost use Rattle.lus_emission.specs.Made.{AreWithin, HaveCode};
ghost use Rattle.lus_emission.specs.Sources.{CanAllBeEmitted, HaveParts};
ghost use Rattle.lus_turns.specs.Turned.{AreTurned};
ghost use Rattle.lus_code.specs.Made.{AreSmall, HasSource, NodesKeepTo};

use lus_emission::emit_classes;
use lus_instructions::{Class, Part};
use lus_orders::Class as Emitted;
use lus_program::Program;
use lus_turns::class_of;
use lus_values::Memory;
use std::alloc::Global;

/// Classes, and the parts that make the steps of each.
#[derive(Drop)]
struct Parted {
    classes: Vec<Class>,
    parts: Vec<Vec<Part>>,
}

/// Classes with their code.
#[derive(Drop)]
pub struct Coded {
    pub classes: Vec<Class>,
    pub emitted: Vec<Emitted>,
}

/// The class of each node of a program in normal form, whose variables have these orders, and the parts that make its steps.
fn parted_classes(alloc: Global, program: &Program, orders: &[Vec<u32>]) -> Result<Parted, Memory>
    requires ready { AreReady (program_seen program.now) }
    requires orders { AreOrders (program_seen program.now) (map (λ order. order.items) orders.now) }
    ensures turned { IfOk result (λ made. AreTurned (program_seen program.now) made.classes.items) }
    ensures parts { IfOk result (λ made. HaveParts made.classes.items made.parts.items) }
    ensures many { IfOk result (λ made. length made.parts.items ≡ length made.classes.items) }
{
    let mut classes = Vec::new(alloc);
    let mut parts = Vec::new(alloc);
    for (place, node) in program.nodes.iter().enumerate() {
        let made = class_of(alloc, program, node, &orders[place])?;
        classes.push(made.0)?;
        parts.push(made.1)?;
    }
    Ok(Parted { classes, parts })
}

/// The class of each node of a normal form of a checked program, whose variables have these orders, with its code. The places of the
/// nodes stand each behind those of the nodes that it calls. Where each node keeps to a count, its code has no more cells.
pub fn classes_of_nodes(
    alloc: Global,
    program: &Program,
    orders: &[Vec<u32>],
    nodes: &[usize],
) -> Result<Coded, Memory>
    requires source { HasSource (program_seen program.now) nodes.now }
    requires ready { AreReady (program_seen program.now) }
    requires orders { AreOrders (program_seen program.now) (map (λ order. order.items) orders.now) }
    requires small { AreSmall (program_seen program.now) }
    ensures belong { IfOk result (λ coded. AreClassesOf (program_seen program.now) (classes_of coded.classes.items)) }
    ensures size { IfOk result (λ coded. length coded.classes.items ≡ length (program_seen program.now).nodes) }
    ensures ready { IfOk result (λ coded. CanAllBeEmitted coded.classes.items) }
    ensures passing { IfOk result (λ coded. PassGiven coded.classes.items) }
    ensures many { IfOk result (λ coded. length coded.emitted.items ≡ length coded.classes.items) }
    ensures framed { IfOk result (λ coded. AreFramed coded.emitted.items) }
    ensures code { IfOk result (λ coded. HaveCode coded.classes.items coded.emitted.items) }
    ensures within { IfOk result (λ coded.
        (counts : List ℕ) → NodesKeepTo counts (program_seen program.now) → AreWithin counts coded.emitted.items) }
{
    let Parted { classes, mut parts } = parted_classes(alloc, program, orders)?;
    let emitted = emit_classes(alloc, nodes, &classes, &mut parts)?;
    Ok(Coded { classes, emitted })
}

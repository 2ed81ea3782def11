//! The class of a node with a causal order.

ghost use Rattle.std.specs.Prelude.{IfOk};
ghost use Rattle.lus_program.specs.View.{node_of, program_seen};
ghost use Rattle.lus_order.specs.Orders.{OrdersVariables};
ghost use Rattle.lus_classes.specs.Parts.{ArePartsOf};
ghost use Rattle.lus_turns.specs.Turned.{IsTurned};
ghost use Rattle.lus_normal_form.specs.Ready.{IsReady};
ghost use Rattle.lus_normal_form.specs.Ready.{IsDefined};

use crate::turns::turns_of;
use lus_instructions::{Class, Part};
use lus_program::{Node, Program};
use lus_translation::class_with;
use lus_values::Memory;
use std::alloc::Global;

/// The class of a node in normal form whose variables have this causal order, and the parts that make its steps.
pub fn class_of(
    alloc: Global,
    program: &Program,
    node: &Node,
    order: &[u32],
) -> Result<(Class, Vec<Part>), Memory>
    requires ready { IsReady (program_seen program.now) (node_of node.now) }
    requires defined { IsDefined (program_seen program.now) (node_of node.now) }
    requires order { OrdersVariables (node_of node.now) order.now }
    ensures turned { IfOk result (λ made. IsTurned (program_seen program.now) (node_of node.now) made.0) }
    ensures parts { IfOk result (λ made. ArePartsOf made.0 made.1.items) }
{
    let turns = turns_of(alloc, program, node, order)?;
    let made = class_with(alloc, program, node, &turns)?;
    Ok(made)
}

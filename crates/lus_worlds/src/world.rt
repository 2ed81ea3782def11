//! Worlds of a node, found out instant by instant.

ghost use Rattle.std.specs.Prelude.{◌≡◌, IfErr, IfOk, None as Nothing, map};
ghost use Rattle.lus_program.specs.View.{program_seen};
ghost use Rattle.lus_values.specs.View.{entry_of};
ghost use Rattle.lus_worlds.specs.Finding.{IsReady};
ghost use Rattle.lus_worlds.specs.Moments.{fault_in};
ghost use Rattle.lus_worlds.specs.Worlds.{Ends, HasNoFurther, IsFurther, IsStopped};

use crate::following::are_given;
use crate::moment::{Fault, Moment};
use crate::running::attempt;
use lus_program::Program;
use lus_values::{Memory, Value};
use std::alloc::Global;

/// Why a world doesn't go on.
#[derive(Drop)]
pub enum Stop {
    /// A part is at fault.
    Fault(Fault),
    /// The inputs aren't as many as the node's, or one is there though its clock isn't present, or isn't though it is.
    Presence,
    /// Memory is out.
    Memory,
}

/// An instant without a fault, or the fault.
fn sound(moment: Moment) -> Result<Moment, Stop>
    ensures ok { IfOk result (λ m. (m ≡ moment) × (fault_in moment ≡ Nothing)) }
    ensures fault { IfErr result (Ends moment) }
{
    if moment.fault.is_none() {
        return Ok(moment);
    }
    let Moment { fault, .. } = moment;
    match fault {
        Some(fault) => Err(Stop::Fault(fault)),
        None => unreachable!(),
    }
}

/// The next instant of a world of a node, behind what is kept, with these inputs: the streams for the inputs so far and these are the
/// world so far with this instant. A fault is in what the equations give for these inputs, and there are no such streams then, nor
/// where these aren't inputs of the node. What is kept stays as it is.
pub fn extend(
    alloc: Global,
    program: &Program,
    orders: &[Vec<u32>],
    node: u32,
    inputs: &[Option<Value>],
    old: &Moment,
) -> Result<Moment, Stop>
    ensures ok { let p = program_seen program.now in
        IfOk result (λ m. IsReady p (map (λ order. order.items) orders.now) node → IsFurther p node (map entry_of inputs.now) old.now m) }
    ensures stopped { let p = program_seen program.now in
        IfErr result (λ s. IsReady p (map (λ order. order.items) orders.now) node → IsStopped p node (map entry_of inputs.now) old.now s) }
    ensures none { let p = program_seen program.now in
        IfErr result (λ s. IsReady p (map (λ order. order.items) orders.now) node → HasNoFurther p node (map entry_of inputs.now) old.now s) }
{
    match are_given(alloc, program, node, inputs) {
        Ok(true) => match attempt(alloc, program, orders, node, true, inputs, old) {
            Ok(Some(moment)) => sound(moment),
            Ok(None) => Err(Stop::Presence),
            Err(_) => Err(Stop::Memory),
        },
        Ok(false) => Err(Stop::Presence),
        Err(_) => Err(Stop::Memory),
    }
}

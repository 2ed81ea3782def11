//! The calls of a class.

ghost use Rattle.std.specs.Prelude.{◌≡◌, ◌<◌, ◌^◌, ◌+◌, IfOk, length, map};
ghost use Rattle.lus_values.specs.Lists.{Each};
ghost use Rattle.lus_classes.specs.View.{atom_of};
ghost use Rattle.lus_emission.specs.Calls.{AreCallsAt, IsCallAt, cells_end, seen_argument};

use lus_instructions::{Argument, Atom, Call};
use lus_orders::{Call as EmittedCall, Class as Emitted};
use lus_values::{Memory, copy};
use std::alloc::Global;

/// The calls of a class, and where their cells end.
#[derive(Drop)]
pub struct Calls {
    pub calls: Vec<EmittedCall>,
    pub end: u32,
}

/// An equal atom.
fn atom_copy(alloc: Global, atom: &Atom) -> Result<Atom, Memory>
    ensures { IfOk result (λ a. atom_of a ≡ atom_of atom.now) }
{
    match atom {
        Atom::Constant(value) => Ok(Atom::Constant(copy(alloc, value)?)),
        Atom::Variable(variable) => Ok(Atom::Variable(*variable)),
    }
}

/// Equal arguments.
fn arguments_copy(alloc: Global, arguments: &[Argument]) -> Result<Vec<Argument>, Memory>
    ensures { IfOk result (λ all. map seen_argument all.items ≡ map seen_argument arguments.now) }
{
    let mut all = Vec::with_capacity(alloc, arguments.len())?;
    for argument in arguments {
        let atom = atom_copy(alloc, &argument.atom)?;
        all.push(Argument {
            test: argument.test,
            atom,
        })?;
    }
    Ok(all)
}

/// The call of a node that has its code, whose cells begin there. It gives nothing yet.
fn call_at(
    alloc: Global,
    emitted: &[Emitted],
    call: &Call,
    cells: u32,
) -> Result<EmittedCall, Memory>
    requires { call.now.node < length emitted.now }
    ensures { IfOk result (IsCallAt emitted.now cells call.now) }
{
    let arguments = arguments_copy(alloc, &call.arguments)?;
    Ok(EmittedCall {
        node: call.node,
        base: call.base,
        cells,
        length: emitted[call.node as usize].cells,
        arguments,
        targets: Vec::new(alloc),
    })
}

/// The calls of a class, whose cells stand one behind another from a place on. They give nothing yet.
pub fn calls_of(
    alloc: Global,
    emitted: &[Emitted],
    calls: &[Call],
    from: u32,
) -> Result<Calls, Memory>
    requires nodes { Each (λ q. q.node < length emitted.now) calls.now }
    requires fit { cells_end emitted.now from calls.now < 2 ^ 32 }
    ensures at { IfOk result (λ made. AreCallsAt emitted.now from calls.now made.calls.items made.end) }
    ensures end { IfOk result (λ made. made.end ≡ cells_end emitted.now from calls.now) }
{
    let mut made = Vec::with_capacity(alloc, calls.len())?;
    let mut end = from;
    for call in calls {
        let next = call_at(alloc, emitted, call, end)?;
        end += next.length;
        made.push(next)?;
    }
    Ok(Calls { calls: made, end })
}

//! Whether nil stands in a program only where flags allow.

ghost use Rattle.std.specs.Prelude.{◌≡◌, ◌≢◌, OnOk, IfErr};
ghost use Rattle.lus_program.specs.Programs.{Program as PlainProgram};
ghost use Rattle.lus_program.specs.View.{node_of, program_seen};
ghost use Rattle.lus_streams.specs.Flags.{IsFlagged};
ghost use Rattle.lus_clocks.specs.Raising.{HasFlags};

use crate::fault::{Unflagged, Wanting};
use crate::raising::{given_flags, least_flags};
use crate::required::check_required;
use lus_program::{Node, Program};
use lus_syntax::{Refusal, RefusalNumber};
use std::alloc::Global;

/// Tells whether some flags of a node meet all requirements: then the least do, under which an output's own equation gives it
/// flag 0. What is required doesn't hang on the other nodes of the program.
fn check_node(alloc: Global, node: &Node) -> Result<(), Unflagged>
    ensures ok { OnOk result ((p : PlainProgram) → HasFlags p (node_of node.now)) }
    ensures err { IfErr result (λ e. e.refusal.number ≢ RefusalNumber.Memory →
        (p : PlainProgram) → HasFlags p (node_of node.now) → ⊥) }
    ensures number { IfErr result (λ e. e.refusal.number ≢ RefusalNumber.Memory → e.refusal.number ≡ RefusalNumber.Nil) }
{
    let flags = least_flags(alloc, node)?;
    let given = given_flags(alloc, &node.equations, &flags)?;
    match check_required(node, &flags, &given) {
        Ok(()) => Ok(()),
        Err(Wanting { place, needed }) => Err(Unflagged {
            refusal: Refusal::new(RefusalNumber::Nil, place.line, place.column),
            needed: Some(needed),
        }),
    }
}

/// Tells whether in each node of a program some flags meet all requirements. A refusal stands at the first token of the
/// operand that may be nil, or at a variable's place on the left of its equation.
pub fn flags_fit(alloc: Global, program: &Program) -> Result<(), Refusal>
    ensures ok { OnOk result (IsFlagged (program_seen program.now)) }
    ensures err { IfErr result (λ refusal. refusal.number ≢ RefusalNumber.Memory → IsFlagged (program_seen program.now) → ⊥) }
    ensures number { IfErr result (λ refusal. refusal.number ≢ RefusalNumber.Memory → refusal.number ≡ RefusalNumber.Nil) }
{
    match judge_flags(alloc, program) {
        Ok(()) => Ok(()),
        Err(fault) => Err(fault.refusal),
    }
}

/// As `flags_fit`; says of a refusal what mustn't be nil.
pub fn judge_flags(alloc: Global, program: &Program) -> Result<(), Unflagged>
    ensures ok { OnOk result (IsFlagged (program_seen program.now)) }
    ensures err { IfErr result (λ e. e.refusal.number ≢ RefusalNumber.Memory → IsFlagged (program_seen program.now) → ⊥) }
    ensures number { IfErr result (λ e. e.refusal.number ≢ RefusalNumber.Memory → e.refusal.number ≡ RefusalNumber.Nil) }
{
    for node in &program.nodes {
        check_node(alloc, node)?;
    }
    Ok(())
}

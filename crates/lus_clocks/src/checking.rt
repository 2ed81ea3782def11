//! Whether a program is on clocks.

ghost use Rattle.std.specs.Prelude.{◌≡◌, ◌&&◌, OnOk, OnErr, IfErr, is_ok};
ghost use Rattle.lus_program.specs.View.{program_seen};
ghost use Rattle.lus_streams.specs.OnClock.{ProgramOnClocks};
ghost use Rattle.lus_clocks.specs.Fitting.{all_declared, all_fit};

use crate::declared::check_declared;
use crate::equation::check_equations;
use crate::fault::Misplaced;
use lus_program::{Node, Program};
use lus_syntax::{Refusal, RefusalNumber};

fn check_all_declared(nodes: &[Node]) -> Result<(), Misplaced>
    ensures { is_ok result ≡ all_declared nodes.now }
{
    for node in nodes {
        check_declared(node)?;
    }
    Ok(())
}

fn check_all_equations(program: &Program, nodes: &[Node]) -> Result<(), Misplaced>
    ensures { is_ok result ≡ all_fit (program_seen program.now) nodes.now }
{
    for node in nodes {
        check_equations(program, node)?;
    }
    Ok(())
}

fn check_program(program: &Program) -> Result<(), Misplaced>
    ensures { is_ok result ≡ (all_declared program.now.nodes.items && all_fit (program_seen program.now) program.now.nodes.items) }
{
    check_all_declared(&program.nodes)?;
    check_all_equations(program, &program.nodes)
}

/// Tells whether every declared clock, equation and call of a program is on clocks. A refusal stands at the declared
/// variable, or at the first token of an expression.
pub fn clocks_fit(program: &Program) -> Result<(), Refusal>
    ensures ok { OnOk result (ProgramOnClocks (program_seen program.now)) }
    ensures err { OnErr result (ProgramOnClocks (program_seen program.now) → ⊥) }
    ensures number { IfErr result (λ refusal. refusal.number ≡ RefusalNumber.Clock) }
{
    match judge_program(program) {
        Ok(()) => Ok(()),
        Err(fault) => Err(fault.refusal()),
    }
}

/// As `clocks_fit`; says of a place why it isn't on its clock.
pub fn judge_program(program: &Program) -> Result<(), Misplaced>
    ensures ok { OnOk result (ProgramOnClocks (program_seen program.now)) }
    ensures err { OnErr result (ProgramOnClocks (program_seen program.now) → ⊥) }
{
    match check_program(program) {
        Ok(()) => Ok(()),
        Err(fault) => Err(fault),
    }
}

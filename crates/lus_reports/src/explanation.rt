//! Why a program is refused.

ghost use Rattle.std.specs.Prelude.{◌≢◌, IfErr, IfOk};
ghost use Rattle.lus_syntax.specs.declared.refusal.RefusalNumber.TheVariants as numbers;
ghost use Rattle.lus_cli.specs.CodeSpecs.Codes.{program_of};
ghost use Rattle.lus_cli.specs.HostSpecs.Sources.{ProgramRefused};
ghost use Rattle.lus_cli.specs.MachineSpecs.Acceptance.{Accepted, AcceptedWith};

use lus_cli::lus_host::lus_machine::check;
use lus_cli::lus_host::{Program, compile, text_of};
use lus_syntax::Refusal;
use std::alloc::Global;

/// The program that bytes are the text of, or why they are refused: as text, or by the first pass that fails.
pub fn explain(alloc: Global, bytes: &[u8]) -> Result<Program, Refusal>
    ensures accepted { IfOk result (λ program. Accepted bytes.now (program_of program)) }
    ensures refused { IfErr result (λ r. r.number ≢ numbers.Memory → ProgramRefused bytes.now r) }
{
    let text = match text_of(bytes) {
        Ok(text) => text,
        Err(refusal) => return Err(refusal),
    };
    match compile(alloc, text) {
        Ok(program) => Ok(program),
        Err(refusal) => Err(refusal),
    }
}

/// How many nodes the program has that bytes are the text of, or why they are refused, as `explain` says. No code is made.
pub(crate) fn accept(alloc: Global, bytes: &[u8]) -> Result<usize, Refusal>
    ensures accepted { IfOk result (λ nodes. AcceptedWith bytes.now nodes) }
    ensures refused { IfErr result (λ r. r.number ≢ numbers.Memory → ProgramRefused bytes.now r) }
{
    let text = match text_of(bytes) {
        Ok(text) => text,
        Err(refusal) => return Err(refusal),
    };
    match check(alloc, text) {
        Ok(nodes) => Ok(nodes),
        Err(refusal) => Err(refusal),
    }
}

//! What a renaming keeps.

ghost use Rattle.std.specs.Prelude.{IfOk, IsTrue};
ghost use Rattle.lus_machine.specs.CodeSpecs.Codes.{program_of};
ghost use Rattle.lus_rename.specs.Renaming.{IsRefusedBy, IsSameProgram, SameButForNames};

use lus_machine::{Program, compile};
use lus_same::same_programs;
use lus_syntax::RefusalNumber;
use std::alloc::{AllocError, Global};

/// Whether a source is accepted as this program but for names.
fn is_same_program(alloc: Global, program: &Program, source: &str) -> Result<bool, AllocError>
    ensures { IfOk result (λ is. IsTrue is → IsSameProgram (program_of program.now) source.now) }
{
    match compile(alloc, source) {
        Ok(other) => Ok(same_programs(program.source(), other.source())),
        Err(refusal) => match refusal.number {
            RefusalNumber::Memory => Err(AllocError),
            _ => Ok(false),
        },
    }
}

/// Whether a source is refused by this number.
fn is_refused_by(alloc: Global, number: RefusalNumber, source: &str) -> Result<bool, AllocError>
    ensures { IfOk result (λ is. IsTrue is → IsRefusedBy number source.now) }
{
    match compile(alloc, source) {
        Ok(_program) => Ok(false),
        Err(refusal) => match refusal.number {
            RefusalNumber::Memory => Err(AllocError),
            other => Ok(other == number),
        },
    }
}

/// Whether a source is refused. Out of memory, that isn't known.
pub(crate) fn is_refused(alloc: Global, source: &str) -> Result<bool, AllocError> {
    match compile(alloc, source) {
        Ok(_program) => Ok(false),
        Err(refusal) => match refusal.number {
            RefusalNumber::Memory => Err(AllocError),
            _ => Ok(true),
        },
    }
}

/// Whether two sources are the same program but for names, or refused by the same number.
pub(crate) fn are_same_but_for_names(
    alloc: Global,
    old: &str,
    new: &str,
) -> Result<bool, AllocError>
    ensures { IfOk result (λ are. IsTrue are → SameButForNames old.now new.now) }
{
    match compile(alloc, old) {
        Ok(program) => is_same_program(alloc, &program, new),
        Err(refusal) => match refusal.number {
            RefusalNumber::Memory => Err(AllocError),
            number => is_refused_by(alloc, number, new),
        },
    }
}

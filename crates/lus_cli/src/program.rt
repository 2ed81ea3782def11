//! Programs, read of files.

ghost use Rattle.std.specs.Prelude.{IfErr, IfOk};
ghost use Rattle.lus_devices.specs.Folders.{WithFile};
ghost use Rattle.lus_host.specs.CodeSpecs.Codes.{program_of};
ghost use Rattle.lus_host.specs.MachineSpecs.Acceptance.{Accepted};
ghost use Rattle.lus_cli.specs.Ends.{ReadFails};
ghost use Rattle.lus_cli.specs.Programs.{IsCompileFault, IsProgramFault};

use crate::fault::Fault;
use crate::files::read_file;
use lus_devices::Folder;
use lus_host::{Program, RunError, compile, text_of};
use lus_syntax::MOST_BYTES;
use std::alloc::Global;

/// The program that bytes are the text of.
fn compiled(alloc: Global, bytes: &[u8]) -> Result<Program, Fault>
    ensures accepted { IfOk result (λ p. Accepted bytes.now (program_of p)) }
    ensures fault { IfErr result (λ f. IsCompileFault bytes.now f) }
{
    let text = match text_of(bytes) {
        Ok(text) => text,
        Err(refusal) => return Err(Fault::from(RunError::Program(refusal))),
    };
    match compile(alloc, text) {
        Ok(program) => Ok(program),
        Err(refusal) => Err(Fault::from(RunError::Program(refusal))),
    }
}

/// The program of a file. Its bytes are read to their end, or to the first that is one too many.
pub fn read_program<D: Folder>(alloc: Global, folder: &D, name: &str) -> Result<Program, Fault>
    ensures accepted { IfOk result (λ p. WithFile (D.known folder.now name.now) (λ text. Accepted text (program_of p))) }
    ensures fault { IfErr result (λ f. IsProgramFault (ReadFails D.File D.File.left D.File.failures) (D.known folder.now name.now) f) }
{
    let bytes = read_file(alloc, folder, name, MOST_BYTES + 1)?;
    compiled(alloc, &bytes)
}

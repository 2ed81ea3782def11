//! Reading a program from a device.

ghost use Rattle.std.specs.Prelude.{◌≡◌, ◌≢◌, ◌+◌, ◌⊎◌, IfOk, IfErr, IfSome, Err, take};
ghost use Rattle.lus_syntax.specs.declared.refusal.RefusalNumber.TheVariants as numbers;
ghost use Rattle.lus_syntax.specs.Limits.{most_bytes};
ghost use Rattle.lus_callers.specs.CodeSpecs.Codes.{program_of};
ghost use Rattle.lus_devices.specs.Devices.{one_more};
ghost use Rattle.lus_callers.specs.MachineSpecs.Acceptance.{Accepted, AcceptedWith, IsAccepted};
ghost use Rattle.lus_host.specs.Errors.{IsReadingError};
ghost use Rattle.lus_host.specs.Sources.{ProgramRefused};

use crate::error::RunError;
use crate::text::text_of;
use lus_callers::lus_machine::{Program, check, compile};
use lus_devices::{ReadError, Source, read_at_most};
use lus_syntax::{MOST_BYTES, Refusal};
use std::alloc::Global;

/// The program that bytes are the text of.
fn program_of(alloc: Global, bytes: &[u8]) -> Result<Program, Refusal>
    ensures ok { IfOk result (λ program. Accepted bytes.now (program_of program)) }
    ensures refused { IfErr result (λ e. e.number ≢ numbers.Memory → ProgramRefused bytes.now e) }
{
    match text_of(bytes) {
        Ok(text) => compile(alloc, text),
        Err(refusal) => Err(refusal),
    }
}

/// How many nodes the program has that bytes are the text of.
fn count_of(alloc: Global, bytes: &[u8]) -> Result<usize, Refusal>
    ensures ok { IfOk result (AcceptedWith bytes.now) }
    ensures refused { IfErr result (λ e. e.number ≢ numbers.Memory → ProgramRefused bytes.now e) }
{
    match text_of(bytes) {
        Ok(text) => check(alloc, text),
        Err(refusal) => Err(refusal),
    }
}

/// Reads a device to its end, or to the first byte that is too much for a program.
fn read_bytes<P: Source>(alloc: Global, source: &mut P) -> Result<Vec<u8>, RunError>
    ensures bytes { IfOk result (λ bytes. IfSome (P.left source.old) (λ left. bytes.items ≡ take (most_bytes + 1) left)) }
    ensures err { IfErr result (λ e. (e ≡ RunError.Read) ⊎ (e ≡ RunError.Memory)) }
    ensures quiet { (result ≡ Err RunError.Read → ⊥) → P.failures source.new ≡ P.failures source.old }
    ensures failed { result ≡ Err RunError.Read → P.failures source.new ≡ one_more (P.failures source.old) }
{
    match read_at_most(alloc, source, MOST_BYTES + 1) {
        Ok(bytes) => Ok(bytes),
        Err(ReadError::Read) => Err(RunError::Read),
        Err(ReadError::Memory) => Err(RunError::Memory),
    }
}

/// Reads the program of a device to its end, or to the first byte that is one too many.
pub(crate) fn read_program<P: Source>(alloc: Global, source: &mut P) -> Result<Program, RunError>
    ensures ok { IfOk result (λ program. IfSome (P.left source.old) (λ bytes. Accepted bytes (program_of program))) }
    ensures accepted { IfOk result (λ program. IsAccepted (program_of program)) }
    ensures refused { IfErr result (λ e. IsReadingError (P.left source.old) e) }
    ensures quiet { (result ≡ Err RunError.Read → ⊥) → P.failures source.new ≡ P.failures source.old }
    ensures failed { result ≡ Err RunError.Read → P.failures source.new ≡ one_more (P.failures source.old) }
{
    let bytes = read_bytes(alloc, source)?;
    match program_of(alloc, &bytes) {
        Ok(program) => Ok(program),
        Err(refusal) => Err(RunError::Program(refusal)),
    }
}

/// As `read_program`, but makes no code of the program: says how many nodes it has.
pub(crate) fn count_nodes<P: Source>(alloc: Global, source: &mut P) -> Result<usize, RunError>
    ensures ok { IfOk result (λ nodes. IfSome (P.left source.old) (λ bytes. AcceptedWith bytes nodes)) }
    ensures refused { IfErr result (λ e. IsReadingError (P.left source.old) e) }
    ensures quiet { (result ≡ Err RunError.Read → ⊥) → P.failures source.new ≡ P.failures source.old }
    ensures failed { result ≡ Err RunError.Read → P.failures source.new ≡ one_more (P.failures source.old) }
{
    let bytes = read_bytes(alloc, source)?;
    match count_of(alloc, &bytes) {
        Ok(nodes) => Ok(nodes),
        Err(refusal) => Err(RunError::Program(refusal)),
    }
}

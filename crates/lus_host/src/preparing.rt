//! Reading scripts.

ghost use Rattle.std.specs.Prelude.{◌≡◌, IfOk, IfErr, IfSome, Err};
ghost use Rattle.lus_callers.specs.CodeSpecs.Codes.{program_of};
ghost use Rattle.lus_devices.specs.Devices.{one_more};
ghost use Rattle.lus_host.specs.Errors.{IsScriptsError};
ghost use Rattle.lus_host.specs.ScriptRefusals.{AreRefused, AreScripts};
ghost use Rattle.lus_scripts.specs.Scripts.{HaveNodes};
ghost use Rattle.lus_scripts.specs.View.{scripts_seen};

use crate::error::RunError;
use lus_callers::lus_machine::Program;
use lus_devices::{ReadError, Source, read_at_most};
use lus_scripts::{ScriptRefusal, Scripts};
use lus_syntax::MOST_BYTES;
use std::alloc::Global;

/// The scripts of a program that bytes are. A refusal is that of the first check that fails: size, JSON, form, limits, doubled
/// names, unknown names, values.
pub fn read_scripts(
    alloc: Global,
    program: &Program,
    bytes: &[u8],
) -> Result<Scripts, ScriptRefusal>
    ensures ok { IfOk result (λ s. AreScripts (program_of program.now) bytes.now (scripts_seen s)) }
    ensures nodes { IfOk result (λ s. HaveNodes (program_of program.now) (scripts_seen s).instances) }
    ensures refused { IfErr result (λ e. AreRefused (program_of program.now) bytes.now e) }
{
    lus_scripts::read_scripts(alloc, program.source(), program.names(), bytes)
}

/// Reads scripts for a program from a device, to its end or to the first byte that is one too many.
pub(crate) fn scripts_for<S: Source>(
    alloc: Global,
    program: &Program,
    source: &mut S,
) -> Result<Scripts, RunError>
    ensures ok { IfOk result (λ s. IfSome (S.left source.old) (λ bytes. AreScripts (program_of program.now) bytes (scripts_seen s))) }
    ensures nodes { IfOk result (λ s. HaveNodes (program_of program.now) (scripts_seen s).instances) }
    ensures refused { IfErr result (λ e. IsScriptsError (program_of program.now) (S.left source.old) e) }
    ensures quiet { (result ≡ Err RunError.Read → ⊥) → S.failures source.new ≡ S.failures source.old }
    ensures failed { result ≡ Err RunError.Read → S.failures source.new ≡ one_more (S.failures source.old) }
{
    match read_at_most(alloc, source, MOST_BYTES + 1) {
        Ok(bytes) => match read_scripts(alloc, program, &bytes) {
            Ok(scripts) => Ok(scripts),
            Err(refusal) => Err(RunError::Scripts(refusal)),
        },
        Err(ReadError::Read) => Err(RunError::Read),
        Err(ReadError::Memory) => Err(RunError::Memory),
    }
}

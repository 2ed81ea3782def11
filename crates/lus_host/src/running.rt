//! Running a program with scripts.

ghost use Rattle.std.specs.Prelude.{◌≡◌, ◌≢◌, ◌⊎◌, IfOk, IfErr, IfSome, OnErr, Err, map};
ghost use Rattle.std.specs.Arc.{arc_value};
ghost use Rattle.lus_syntax.specs.declared.refusal.Refusal.{Refusal as ARefusal};
ghost use Rattle.lus_callers.specs.CodeSpecs.Codes.{program_of};
ghost use Rattle.lus_callers.specs.MachineSpecs.Acceptance.{IsAccepted};
ghost use Rattle.lus_devices.specs.Devices.{WritesBeginning, one_more, with_text};
ghost use Rattle.lus_host.specs.Errors.{IsAnsweringError, IsRunError, OneFailed};
ghost use Rattle.lus_host.specs.Runs.{BeginsRun, IsAnswered, Ran, WritesRun, journals_of};
ghost use Rattle.lus_devices.specs.View.{journal_seen};
ghost use Rattle.lus_scripts.specs.View.{instance_kept, scripts_seen};
ghost use Rattle.lus_host.specs.View.{ended_text, histories, none_wanted};

use crate::answering::{histories_of, is_done};
use crate::error::RunError;
use crate::preparing::scripts_for;
use crate::program::read_program;
use lus_callers::lus_machine::Program;
use lus_callers::lus_shared::Journal as History;
use lus_callers::{Gate, Journals};
use lus_devices::{Journal, Sink, Source, WriteError, write_journals};
use lus_scripts::{Instance, Scripts};
use std::alloc::{AllocError, Global};
use std::sync::{Arc, Wait};
use std::thread::Threads;

/// What a run leaves to be written: the program, whose names the text needs, and the histories of the scripts' instances.
#[derive(Drop)]
struct Ended {
    program: Arc<Program>,
    scripts: Scripts,
    journals: Journals,
}

/// The histories of instances, with their names, as far as there are both.
fn journals<'a>(
    alloc: Global,
    instances: &'a [Instance],
    histories: &'a [History],
) -> Result<Vec<Journal<'a>>, AllocError>
    ensures { IfOk result (λ v. map journal_seen v.items
        ≡ journals_of (map instance_kept instances.now) (map (λ h. h.entries.items) histories.now)) }
{
    let mut journals = Vec::new(alloc);
    for (place, instance) in instances.iter().enumerate() {
        let Some(history) = histories.get(place) else {
            return Ok(journals);
        };
        journals.push(Journal {
            instance: instance.name.as_str(),
            node: instance.node.as_str(),
            entries: &history.entries,
        })?;
    }
    Ok(journals)
}

/// Runs the callers of scripts that are read for a program.
fn answered<S: Source, G: Gate + Sync, R: Threads + Wait + Sync>(
    rt: &R,
    alloc: Global,
    program: Program,
    scripts: &mut S,
    gate: &G,
) -> Result<Ended, RunError>
    requires { IsAccepted (program_of program) }
    ensures same { IfOk result (λ e. arc_value e.program ≡ program) }
    ensures ok { IfOk result (λ e. IfSome (S.left scripts.old) (λ bytes. IsAnswered (program_of program) bytes (scripts_seen e.scripts)
        (none_wanted e) (histories e))) }
    ensures refused { IfErr result (λ e. IsAnsweringError (program_of program) (S.left scripts.old) e) }
    ensures quiet { (result ≡ Err RunError.Read → ⊥) → S.failures scripts.new ≡ S.failures scripts.old }
    ensures failed { result ≡ Err RunError.Read → S.failures scripts.new ≡ one_more (S.failures scripts.old) }
{
    let scripts = match scripts_for(alloc, &program, scripts) {
        Ok(scripts) => scripts,
        Err(error) => return Err(error),
    };
    let Ok(program) = Arc::new(alloc, program) else {
        return Err(RunError::Memory);
    };
    match histories_of(rt, alloc, &program, &scripts, gate) {
        Ok(journals) => Ok(Ended {
            program,
            scripts,
            journals,
        }),
        Err(error) => Err(RunError::Host(error)),
    }
}

/// Writes the journals of a run, and says whether no caller ran out of anything.
fn write_ended<O: Sink>(alloc: Global, ended: Ended, output: &mut O) -> Result<bool, RunError>
    ensures done { IfOk result (λ done. done ≡ none_wanted ended) }
    ensures whole { IfOk result (λ done. O.written output.new ≡ with_text (O.written output.old) (ended_text ended)) }
    ensures errors { IfErr result (λ e. (e ≡ RunError.Write) ⊎ (e ≡ RunError.Memory)) }
    ensures beginning { OnErr result (WritesBeginning (O.written output.old) (O.written output.new) (ended_text ended)) }
    ensures quiet { (result ≡ Err RunError.Write → ⊥) → O.failures output.new ≡ O.failures output.old }
    ensures failed { result ≡ Err RunError.Write → O.failures output.new ≡ one_more (O.failures output.old) }
{
    let Ended {
        program,
        scripts,
        journals: ran,
    } = ended;
    let done = is_done(&ran.wants);
    let Ok(texts) = journals(alloc, &scripts.instances, &ran.journals) else {
        return Err(RunError::Memory);
    };
    match write_journals(alloc, output, program.names(), &scripts.names, &texts) {
        Ok(()) => Ok(done),
        Err(WriteError::Write) => Err(RunError::Write),
        Err(WriteError::Memory) => Err(RunError::Memory),
    }
}

/// Reads a program and scripts for it, and runs the scripts' callers.
fn run_ended<P: Source, S: Source, G: Gate + Sync, R: Threads + Wait + Sync>(
    rt: &R,
    alloc: Global,
    program: &mut P,
    scripts: &mut S,
    gate: &G,
) -> Result<Ended, RunError>
    ensures ok { IfOk result (λ e. IfSome (P.left program.old) (λ text. IfSome (S.left scripts.old) (λ bytes.
        Ran text bytes (none_wanted e) (ended_text e)))) }
    ensures refused { IfErr result (λ e. IsRunError (P.left program.old) (S.left scripts.old) e) }
    ensures unwritten { result ≡ Err RunError.Write → ⊥ }
    ensures read { result ≡ Err RunError.Read
        → OneFailed (P.failures program.old) (P.failures program.new) (S.failures scripts.old) (S.failures scripts.new) }
    ensures quiet { (result ≡ Err RunError.Read → ⊥)
        → (P.failures program.new ≡ P.failures program.old) × (S.failures scripts.new ≡ S.failures scripts.old) }
    ensures unread { (e : ARefusal) → result ≡ Err (RunError.Program e) → S.left scripts.new ≡ S.left scripts.old }
{
    match read_program(alloc, program) {
        Ok(program) => answered(rt, alloc, program, scripts, gate),
        Err(error) => Err(error),
    }
}

/// Reads a program, and scripts for it once it is compiled, runs the scripts' callers, each in a thread of its own, and
/// writes the journals of the instances. Says whether each caller made its whole script.
///
/// A refusal of the program is that of the first pass that fails, and then the scripts aren't read; one of the scripts is
/// that of the first check that fails. Where the output fails, a beginning of the journals is written, and for want of
/// memory that or nothing, and else nothing.
pub fn run<P: Source, S: Source, O: Sink, G: Gate + Sync, R: Threads + Wait + Sync>(
    rt: &R,
    alloc: Global,
    program: &mut P,
    scripts: &mut S,
    output: &mut O,
    gate: &G,
) -> Result<bool, RunError>
    ensures ok { IfOk result (λ done. IfSome (P.left program.old) (λ text. IfSome (S.left scripts.old) (λ bytes.
        WritesRun text bytes done (O.written output.old) (O.written output.new)))) }
    ensures refused { IfErr result (λ e. IsRunError (P.left program.old) (S.left scripts.old) e) }

    ensures beginning { result ≡ Err RunError.Write → IfSome (P.left program.old) (λ text. IfSome (S.left scripts.old) (λ bytes.
        BeginsRun text bytes (O.written output.old) (O.written output.new))) }
    ensures nothing { IfErr result (λ e. e ≢ RunError.Write → e ≢ RunError.Memory → O.written output.new ≡ O.written output.old) }
    ensures memory { result ≡ Err RunError.Memory → (O.written output.new ≡ O.written output.old)
        ⊎ IfSome (P.left program.old) (λ text. IfSome (S.left scripts.old) (λ bytes.
        BeginsRun text bytes (O.written output.old) (O.written output.new))) }

    ensures quiet { (result ≡ Err RunError.Write → ⊥) → O.failures output.new ≡ O.failures output.old }
    ensures failed { result ≡ Err RunError.Write → O.failures output.new ≡ one_more (O.failures output.old) }
    ensures reads { (result ≡ Err RunError.Read → ⊥)
        → (P.failures program.new ≡ P.failures program.old) × (S.failures scripts.new ≡ S.failures scripts.old) }
    ensures fails { result ≡ Err RunError.Read
        → OneFailed (P.failures program.old) (P.failures program.new) (S.failures scripts.old) (S.failures scripts.new) }
    ensures unread { (e : ARefusal) → result ≡ Err (RunError.Program e) → S.left scripts.new ≡ S.left scripts.old }
{
    match run_ended(rt, alloc, program, scripts, gate) {
        Ok(ended) => write_ended(alloc, ended, output),
        Err(error) => Err(error),
    }
}

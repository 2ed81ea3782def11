//! The command line over a folder, where a claim is tried.

ghost use Rattle.std.specs.Prelude.{◌≡◌, IfOk, OnOk, Some, map, string_bytes, true, false};
ghost use Rattle.std.specs.Arc.{arc_value};
ghost use Rattle.lus_cli.specs.CodeSpecs.Codes.{program_of};
ghost use Rattle.lus_test.specs.Ends.{Holds, HoldsIn};
ghost use Rattle.lus_test.specs.Failing.{WritesFailing};
ghost use Rattle.lus_test.specs.Options.{asked_claim, wanted_seen};
ghost use Rattle.lus_scripts.specs.Scripts.{place_of};
ghost use Rattle.lus_test.specs.Tables.{output_columns};
ghost use Rattle.lus_test.specs.Trials.{IsFailure, IsReady, program_in};

use crate::claims::find_claim;
use crate::failing::{Found, first_failing};
use crate::options::{Wanted, choice_reason, choose, read_options};
use crate::problem::{Problem, explain, problem_of};
use crate::shrinking::shrink;
use crate::subjects::subject_of;
use crate::telling::{failing_line, failing_table, held_line};
use crate::trial::Subject;
use crate::trying::write_text;
use lus_cli::{Fault, read_program};
use lus_devices::{Folder, Sink, write_all};
use lus_live_instance::lus_machine::Program;
use rand_core::SeedableRng;
use rand_xoshiro::Xoshiro256PlusPlus;
use std::alloc::Global;
use std::sync::Arc;

/// Says where the claim fails, and writes the table of such a run, made short and simple.
fn tell_found<O: Sink, F: Sink>(
    subject: &Subject<'_>,
    wanted: Wanted<'_>,
    found: Found,
    output: &mut O,
    faults: &mut F,
) -> Result<(), Problem>
    requires ready { IsReady subject.now }
    requires fails { IsFailure subject.now found.failure }
    requires named { Some subject.now.claim ≡ place_of (output_columns (program_in subject.now) subject.now.node.0) wanted.claim.now }
    ensures { OnOk result (WritesFailing (program_in subject.now) wanted.entry.claim.now (O.written output.old) (O.written output.new)) }
{
    let Found { run, failure } = found;
    let row = failure.row;
    let shrunk = match shrink(subject, failure) {
        Ok(shrunk) => shrunk,
        Err(error) => return Err(problem_of(error, &[])),
    };
    let line = failing_line(subject, wanted, run, row, &shrunk)?;
    let _ = write_all(faults, line.as_bytes());
    let rows = &shrunk.trial.rows;
    let table = failing_table(
        subject.alloc,
        &subject.names,
        wanted.claim,
        shrunk.row,
        rows,
    )?;
    write_text(output, &table)?;
    Ok(())
}

/// Tries a claim of a program: whether it held.
fn try_claim<O: Sink, F: Sink>(
    alloc: Global,
    program: &Arc<Program>,
    wanted: Wanted<'_>,
    ranges: &[&str],
    output: &mut O,
    faults: &mut F,
) -> Result<bool, Problem>
    ensures held { IfOk result (λ ok. ok ≡ true → HoldsIn (program_of (arc_value program.now)) (wanted_seen wanted.entry)) }
    ensures failed { IfOk result (λ ok. ok ≡ false
        → WritesFailing (program_of (arc_value program.now)) wanted.entry.claim.now (O.written output.old) (O.written output.new)) }
{
    let claim = find_claim(alloc, program, wanted.node, wanted.claim)?;
    let subject = subject_of(alloc, program, claim, ranges)?;
    let mut random = Xoshiro256PlusPlus::seed_from_u64(wanted.seed);
    match first_failing(&subject, wanted.runs, wanted.steps, &mut random) {
        Ok(None) => {
            let line = held_line(alloc, wanted)?;
            write_text(output, line.as_bytes())?;
            Ok(true)
        }
        Ok(Some(found)) => {
            tell_found(&subject, wanted, found, output, faults)?;
            Ok(false)
        }
        Err(error) => Err(problem_of(error, &[])),
    }
}

/// Reads the program of a claim and tries it: the status.
fn try_program<D: Folder, O: Sink, F: Sink>(
    alloc: Global,
    folder: &D,
    wanted: Wanted<'_>,
    ranges: &[&str],
    output: &mut O,
    faults: &mut F,
) -> Result<u8, Fault>
    ensures { IfOk result (λ status. status ≡ 0 → Holds (D.known folder.now) (Some (wanted_seen wanted.entry))) }
{
    let program = read_program(alloc, folder, wanted.program)?;
    let Ok(program) = Arc::new(alloc, program) else {
        return Err(Fault::Memory);
    };
    match try_claim(alloc, &program, wanted, ranges, output, faults) {
        Ok(true) => Ok(0),
        Ok(false) => Ok(1),
        Err(problem) => Ok(explain(alloc, faults, wanted.program, problem)),
    }
}

/// Reads the words, and tries the claim that they ask for: the status.
pub(crate) fn perform_claim<D: Folder, O: Sink, F: Sink>(
    alloc: Global,
    folder: &D,
    words: &[String],
    output: &mut O,
    faults: &mut F,
) -> Result<u8, Fault>
    ensures { IfOk result (λ status. status ≡ 0 → Holds (D.known folder.now) (asked_claim (map string_bytes words.now))) }
{
    let matches = read_options(alloc, words)?;
    let Some(wanted) = choose(&matches) else {
        let Ok(reason) = choice_reason(alloc, &matches) else {
            return Err(Fault::Memory);
        };
        return Ok(explain(alloc, faults, "", Problem::Words(reason)));
    };
    let ranges = matches.get_strs("range").unwrap_or(&[]);
    try_program(alloc, folder, wanted, ranges, output, faults)
}

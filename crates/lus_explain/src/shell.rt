//! The command line over a folder.

ghost use Rattle.std.specs.Prelude.{◌≡◌, IfErr, IfOk, Some, None, map, option_map, string_bytes};
ghost use Rattle.lus_reports.specs.CliSpecs.Changes.{change};
ghost use Rattle.lus_reports.specs.CliSpecs.Ends.{Ends, IsLost, IsReadingFault, ReadFails, SaysEnds};
ghost use Rattle.lus_reports.specs.CliSpecs.Faults.{Told};
ghost use Rattle.lus_explain.specs.CommandLine.{asked};
ghost use Rattle.lus_explain.specs.Ends.{AreJudgedOf, AreLost, CommandEnds, EndsWriting, ExplainEnds, IsAnswerFor, ScriptEnds};

use crate::judging::{File, Verdict, judge};
use crate::script::{Script, script_for};
use crate::words::{Form, Task, read_words};
use lus_devices::{Folder, Sink, write_all};
use lus_reports::lus_cli::{Fault, read_file, tell};
use lus_syntax::MOST_BYTES;
use std::alloc::Global;

/// What is said of a program by itself. Of a file the bytes are read to their end, or to the first that is one too many.
fn judge_program<D: Folder>(
    alloc: Global,
    folder: &D,
    form: Form,
    name: &str,
) -> Result<Verdict, Fault>
    ensures judged { IfOk result (λ v. AreJudgedOf (D.known folder.now) form name.now None v.status) }
    ensures fault { IfErr result (λ f. IsReadingFault
        (AreLost (ReadFails D.File D.File.left D.File.failures) (D.known folder.now) name.now None) f) }
{
    let program = read_file(alloc, folder, name, MOST_BYTES + 1)?;
    judge(
        alloc,
        form,
        File {
            name,
            bytes: &program,
        },
        None,
    )
}

/// What is said of a program with scripts.
fn judge_both<D: Folder>(
    alloc: Global,
    folder: &D,
    form: Form,
    program_name: &str,
    scripts_name: &str,
) -> Result<Verdict, Fault>
    ensures judged { IfOk result (λ v. AreJudgedOf (D.known folder.now) form program_name.now (Some scripts_name.now) v.status) }
    ensures fault { IfErr result (λ f. IsReadingFault
        (AreLost (ReadFails D.File D.File.left D.File.failures) (D.known folder.now) program_name.now (Some scripts_name.now)) f) }
{
    let program = read_file(alloc, folder, program_name, MOST_BYTES + 1)?;
    let scripts = read_file(alloc, folder, scripts_name, MOST_BYTES + 1)?;
    judge(
        alloc,
        form,
        File {
            name: program_name,
            bytes: &program,
        },
        Some(File {
            name: scripts_name,
            bytes: &scripts,
        }),
    )
}

/// What is said of a program, and of scripts for it if there are any.
fn judge_files<D: Folder>(
    alloc: Global,
    folder: &D,
    form: Form,
    program: &str,
    scripts: Option<&str>,
) -> Result<Verdict, Fault>
    ensures judged { IfOk result (λ v. AreJudgedOf (D.known folder.now) form program.now (option_map (λ s. s.now) scripts.entry) v.status) }
    ensures fault { IfErr result (λ f. IsReadingFault (AreLost (ReadFails D.File D.File.left D.File.failures)
        (D.known folder.now) program.now (option_map (λ s. s.now) scripts.entry)) f) }
{
    match scripts {
        Some(scripts) => judge_both(alloc, folder, form, program, scripts),
        None => judge_program(alloc, folder, form, program),
    }
}

fn write_verdict<O: Sink>(output: &mut O, verdict: &Verdict) -> Result<u8, Fault>
    ensures { SaysEnds (λ status text. (status ≡ verdict.now.status) × (text ≡ string_bytes verdict.now.text)) (λ f. ⊥) result
        (change (O.written output.old) (O.written output.new) (O.failures output.old) (O.failures output.new)) }
{
    match write_all(output, verdict.text.as_bytes()) {
        Ok(()) => Ok(verdict.status),
        Err(_) => Err(Fault::Output),
    }
}

fn perform<D: Folder, O: Sink>(
    alloc: Global,
    folder: &D,
    form: Form,
    program: &str,
    scripts: Option<&str>,
    output: &mut O,
) -> Result<u8, Fault>
    ensures { ExplainEnds (ReadFails D.File D.File.left D.File.failures) (D.known folder.now) form program.now
        (option_map (λ s. s.now) scripts.entry) result
        (change (O.written output.old) (O.written output.new) (O.failures output.old) (O.failures output.new)) }
{
    let verdict = judge_files(alloc, folder, form, program, scripts)?;
    write_verdict(output, &verdict)
}

/// Says what there is to say of a program, and of scripts for it if there are any.
fn explain_files<D: Folder, O: Sink, F: Sink>(
    alloc: Global,
    folder: &D,
    form: Form,
    program: &str,
    scripts: Option<&str>,
    output: &mut O,
    faults: &mut F,
) -> u8
    ensures { Ends (λ s. s) (ExplainEnds (ReadFails D.File D.File.left D.File.failures) (D.known folder.now) form program.now)
        (Some (option_map (λ s. s.now) scripts.entry))
        (change (O.written output.old) (O.written output.new) (O.failures output.old) (O.failures output.new))
        (change (F.written faults.old) (F.written faults.new) (F.failures faults.old) (F.failures faults.new)) result }
{
    match perform(alloc, folder, form, program, scripts, output) {
        Ok(status) => status,
        Err(fault) => tell(faults, fault),
    }
}

/// Scripts to begin from, for the node of this name of the program in a file.
fn script_of_file<D: Folder>(
    alloc: Global,
    folder: &D,
    node: &str,
    program: &str,
) -> Result<Script, Fault>
    ensures answer { IfOk result (λ s. IsAnswerFor (D.known folder.now) node.now program.now s) }
    ensures fault { IfErr result (λ f. IsReadingFault
        (IsLost (ReadFails D.File D.File.left D.File.failures) (D.known folder.now program.now)) f) }
{
    let bytes = read_file(alloc, folder, program, MOST_BYTES + 1)?;
    script_for(
        alloc,
        File {
            name: program,
            bytes: &bytes,
        },
        node,
    )
}

/// Writes a text, and gives the status: 0, or that of the fault where the output failed.
fn write_text<O: Sink, F: Sink>(output: &mut O, faults: &mut F, text: &str) -> u8
    ensures { EndsWriting text.now
        (change (O.written output.old) (O.written output.new) (O.failures output.old) (O.failures output.new))
        (change (F.written faults.old) (F.written faults.new) (F.failures faults.old) (F.failures faults.new)) result }
{
    match write_all(output, text.as_bytes()) {
        Ok(()) => 0,
        Err(_) => tell(faults, Fault::Output),
    }
}

/// Tells why there are no scripts, and gives the status of that. A text that can't be written changes no status.
fn tell_refused<F: Sink>(faults: &mut F, verdict: &Verdict) -> u8
    ensures status { result ≡ verdict.now.status }
    ensures told { Told (string_bytes verdict.now.text)
        (change (F.written faults.old) (F.written faults.new) (F.failures faults.old) (F.failures faults.new)) }
{
    let _ = write_all(faults, verdict.text.as_bytes());
    verdict.status
}

/// Writes scripts to begin from, for the node of this name.
fn write_script<D: Folder, O: Sink, F: Sink>(
    alloc: Global,
    folder: &D,
    node: &str,
    program: &str,
    output: &mut O,
    faults: &mut F,
) -> u8
    ensures { ScriptEnds (ReadFails D.File D.File.left D.File.failures) (D.known folder.now) node.now program.now
        (change (O.written output.old) (O.written output.new) (O.failures output.old) (O.failures output.new))
        (change (F.written faults.old) (F.written faults.new) (F.failures faults.old) (F.failures faults.new)) result }
{
    match script_of_file(alloc, folder, node, program) {
        Ok(Script::Written(text)) => write_text(output, faults, text.as_str()),
        Ok(Script::Refused(verdict)) => tell_refused(faults, &verdict),
        Err(fault) => tell(faults, fault),
    }
}

/// Does what the words ask for over the files of a folder, with a device for what is said or written and one for the line of a
/// fault, and gives the status of the process: that of what is said, or of the fault.
pub fn command<D: Folder, O: Sink, F: Sink>(
    alloc: Global,
    folder: &D,
    words: &[String],
    output: &mut O,
    faults: &mut F,
) -> u8
    ensures { CommandEnds (ReadFails D.File D.File.left D.File.failures) (D.known folder.now)
        (change (O.written output.old) (O.written output.new) (O.failures output.old) (O.failures output.new))
        (change (F.written faults.old) (F.written faults.new) (F.failures faults.old) (F.failures faults.new)) result
        (asked (map string_bytes words.now)) }
{
    match read_words(alloc, words) {
        Ok(
            Task::Explain {
                form,
                program,
                scripts,
            },
        ) => explain_files(alloc, folder, form, program, scripts, output, faults),
        Ok(Task::Script { node, program }) => {
            write_script(alloc, folder, node, program, output, faults)
        }
        Err(error) => tell(faults, Fault::from(error)),
    }
}

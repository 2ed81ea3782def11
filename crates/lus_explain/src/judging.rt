//! What is said of a program, and of scripts for it.

ghost use Rattle.std.specs.Prelude.{◌≡◌, ◌≢◌, IfErr, IfOk, None, OnOk, Some, option_map};
ghost use Rattle.lus_syntax.specs.declared.refusal.RefusalNumber.TheVariants as numbers;
ghost use Rattle.lus_scripts.specs.declared.refusal.ScriptRefusal.TheVariants as refusals;
ghost use Rattle.lus_reports.specs.CliSpecs.CodeSpecs.Codes.{program_of};
ghost use Rattle.lus_reports.specs.CliSpecs.declared.fault.Fault.TheVariants as faults;
ghost use Rattle.lus_explain.specs.Judged.{AreJudged, IsJudged, IsPassed};

use crate::costs::costs_of;
use crate::notes::notes_of;
use crate::words::Form;
use lus_diagnostics::{Diagnostic, push_lines, push_report};
use lus_reports::lus_cli::Fault;
use lus_reports::lus_cli::lus_host::{Program, read_scripts, text_of};
use lus_reports::{diagnose, errors_of, explain, outline, script_error, warned_of};
use lus_scripts::{Instance, ScriptRefusal, Scripts};
use lus_syntax::Refusal;
use lus_values::Memory;
use std::alloc::{AllocError, Global};

/// A file that was read, with its name.
#[derive(Clone, Copy)]
pub struct File<'a> {
    pub name: &'a str,
    pub bytes: &'a [u8],
}

/// What is said, and the status of the process: 0 where all is accepted, 1 where the program is refused, or it is warned of something and
/// that is denied, and 2 where the scripts are refused.
#[derive(Drop)]
pub struct Verdict {
    pub text: String,
    pub status: u8,
}

/// Appends what there is to say of a file, as JSON or as a text for people.
fn push_all(
    alloc: Global,
    text: &mut String,
    is_json: bool,
    file: File<'_>,
    all: &[Diagnostic],
) -> Result<(), AllocError> {
    let source = text_of(file.bytes).unwrap_or("");
    if is_json {
        push_lines(alloc, text, file.name, source, all)
    } else {
        push_report(alloc, text, file.name, source, all)
    }
}

/// A verdict of this status: a text, and behind it what there is to say of a file.
fn told(
    alloc: Global,
    mut text: String,
    is_json: bool,
    file: File<'_>,
    all: &[Diagnostic],
    status: u8,
) -> Result<Verdict, Fault>
    ensures status { IfOk result (λ v. v.status ≡ status) }
    ensures memory { IfErr result (λ f. f ≡ faults.Memory) }
{
    match push_all(alloc, &mut text, is_json, file, all) {
        Ok(()) => Ok(Verdict { text, status }),
        Err(_) => Err(Fault::Memory),
    }
}

/// Of a refused program.
pub fn refused_program(
    alloc: Global,
    is_json: bool,
    program: File<'_>,
    refusal: Refusal,
) -> Result<Verdict, Fault>
    ensures status { IfOk result (λ v. v.status ≡ 1) }
    ensures other { OnOk result (refusal.number ≢ numbers.Memory) }
    ensures memory { IfErr result (λ f. f ≡ faults.Memory) }
{
    match errors_of(alloc, program.bytes, refusal) {
        Ok(errors) => told(alloc, String::new(alloc), is_json, program, &errors, 1),
        Err(_) => Err(Fault::Memory),
    }
}

/// Of refused scripts.
pub fn refused_scripts(
    alloc: Global,
    is_json: bool,
    program: &Program,
    scripts: File<'_>,
    refusal: ScriptRefusal,
) -> Result<Verdict, Fault>
    ensures status { IfOk result (λ v. v.status ≡ 2) }
    ensures other { OnOk result (refusal ≢ refusals.Memory) }
    ensures memory { IfErr result (λ f. f ≡ faults.Memory) }
{
    if refusal == ScriptRefusal::Memory {
        return Err(Fault::Memory);
    }
    match script_error(alloc, program, scripts.bytes, refusal) {
        Ok(error) => told(alloc, String::new(alloc), is_json, scripts, &[error], 2),
        Err(_) => Err(Fault::Memory),
    }
}

/// The status where all is accepted and this is warned of.
fn status_of(form: Form, warnings: &[Diagnostic]) -> u8
    ensures { IsPassed form result }
{
    if form.denies && !warnings.is_empty() {
        1
    } else {
        0
    }
}

/// What the nodes of an accepted program cost.
fn costs_text(alloc: Global, is_json: bool, program: File<'_>) -> Result<String, Memory> {
    let Ok(accepted) = explain(alloc, program.bytes) else {
        return Err(Memory);
    };
    let text = costs_of(alloc, is_json, &accepted)?;
    Ok(text)
}

/// What is said of an accepted program before warnings: what its nodes cost, if that is asked for, or its nodes, unless it is said as JSON.
fn head_of(alloc: Global, form: Form, program: File<'_>) -> Result<String, Memory> {
    if form.costs {
        return costs_text(alloc, form.is_json, program);
    }
    if form.is_json {
        return Ok(String::new(alloc));
    }
    match outline(alloc, program.bytes) {
        Ok(text) => Ok(text),
        Err(_) => Err(Memory),
    }
}

/// Of an accepted program, and what it is warned of.
fn accepted_program(
    alloc: Global,
    form: Form,
    program: File<'_>,
    warnings: &[Diagnostic],
) -> Result<Verdict, Fault>
    ensures passed { IfOk result (λ v. IsPassed form v.status) }
    ensures memory { IfErr result (λ f. f ≡ faults.Memory) }
{
    let Ok(text) = head_of(alloc, form, program) else {
        return Err(Fault::Memory);
    };
    let status = status_of(form, warnings);
    told(alloc, text, form.is_json, program, warnings, status)
}

/// Of a program alone.
fn judge_program(alloc: Global, form: Form, program: File<'_>) -> Result<Verdict, Fault>
    ensures judged { IfOk result (λ v. IsJudged form program.entry.bytes.now v.status None) }
    ensures memory { IfErr result (λ f. f ≡ faults.Memory) }
{
    let diagnosis = match diagnose(alloc, program.bytes, form.warns) {
        Ok(diagnosis) => diagnosis,
        Err(_) => return Err(Fault::Memory),
    };
    if diagnosis.errors.is_empty() {
        accepted_program(alloc, form, program, &diagnosis.warnings)
    } else {
        told(
            alloc,
            String::new(alloc),
            form.is_json,
            program,
            &diagnosis.errors,
            1,
        )
    }
}

/// How many instances and callers accepted scripts have, unless that is said as JSON, and notes on their steps.
fn scripts_text(
    alloc: Global,
    is_json: bool,
    program: &Program,
    file: File<'_>,
    scripts: &Scripts,
) -> Result<String, Memory> {
    let name = file.name;
    let instances = scripts.instances.len();
    let callers = scripts.callers.len();
    let mut text = String::new(alloc);
    if !is_json {
        write!(text, "{name}: instances {instances}, callers {callers}\n")?;
    }
    let notes = notes_of(alloc, program, scripts)?;
    push_all(alloc, &mut text, is_json, file, &notes)?;
    Ok(text)
}

/// What a program is warned of, by the nodes that instances run, if that is asked for.
fn warned_by(
    alloc: Global,
    form: Form,
    program: File<'_>,
    instances: &[Instance],
) -> Result<Vec<Diagnostic>, AllocError> {
    if !form.warns {
        return Ok(Vec::new(alloc));
    }
    let mut run = Vec::new(alloc);
    for instance in instances {
        run.push(instance.node.as_str())?;
    }
    warned_of(alloc, program.bytes, Some(run.as_slice()))
}

/// Of an accepted program with accepted scripts.
fn accepted_scripts(
    alloc: Global,
    form: Form,
    file: File<'_>,
    program: &Program,
    scripts_file: File<'_>,
    scripts: &Scripts,
) -> Result<Verdict, Fault>
    ensures passed { IfOk result (λ v. IsPassed form v.status) }
    ensures memory { IfErr result (λ f. f ≡ faults.Memory) }
{
    let (Ok(text), Ok(warnings)) = (
        scripts_text(alloc, form.is_json, program, scripts_file, scripts),
        warned_by(alloc, form, file, &scripts.instances),
    ) else {
        return Err(Fault::Memory);
    };
    let status = status_of(form, &warnings);
    told(alloc, text, form.is_json, file, &warnings, status)
}

/// Of scripts for an accepted program.
fn judge_scripts(
    alloc: Global,
    form: Form,
    file: File<'_>,
    program: &Program,
    scripts: File<'_>,
) -> Result<Verdict, Fault>
    ensures judged { IfOk result (λ v. AreJudged form (program_of program.now) scripts.entry.bytes.now v.status) }
    ensures memory { IfErr result (λ f. f ≡ faults.Memory) }
{
    match read_scripts(alloc, program, scripts.bytes) {
        Ok(accepted) => accepted_scripts(alloc, form, file, program, scripts, &accepted),
        Err(refusal) => refused_scripts(alloc, form.is_json, program, scripts, refusal),
    }
}

/// Of a program with scripts.
fn judge_both(
    alloc: Global,
    form: Form,
    program: File<'_>,
    scripts: File<'_>,
) -> Result<Verdict, Fault>
    ensures judged { IfOk result (λ v. IsJudged form program.entry.bytes.now v.status (Some scripts.entry.bytes.now)) }
    ensures memory { IfErr result (λ f. f ≡ faults.Memory) }
{
    match explain(alloc, program.bytes) {
        Ok(accepted) => judge_scripts(alloc, form, program, &accepted, scripts),
        Err(refusal) => refused_program(alloc, form.is_json, program, refusal),
    }
}

/// Of a program, and of scripts for it if there are any, in the form that is asked for.
pub fn judge(
    alloc: Global,
    form: Form,
    program: File<'_>,
    scripts: Option<File<'_>>,
) -> Result<Verdict, Fault>
    ensures judged { IfOk result (λ v.
        IsJudged form program.entry.bytes.now v.status (option_map (λ s. s.bytes.now) scripts.entry)) }
    ensures memory { IfErr result (λ f. f ≡ faults.Memory) }
{
    match scripts {
        Some(scripts) => judge_both(alloc, form, program, scripts),
        None => judge_program(alloc, form, program),
    }
}

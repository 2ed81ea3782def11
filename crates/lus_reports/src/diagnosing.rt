//! What there is to say of a program.

ghost use Rattle.std.specs.Prelude.{◌≡◌, ◌≢◌, [], IfOk, OnOk, is_some};
ghost use Rattle.lus_syntax.specs.declared.refusal.RefusalNumber.TheVariants as numbers;
ghost use Rattle.lus_diagnostics.specs.Errors.{AreErrors, BeginWith};
ghost use Rattle.lus_reports.specs.Diagnoses.{IsAccepted, IsExplained, IsRefused};

use crate::explanation::accept;
use crate::sentences::{fault_of, sentence_of};
use lus_causes::lus_faults::Finding;
use lus_causes::{finding_of, spelling_finding};
use lus_cli::lus_host::text_of;
use lus_diagnostics::{Diagnosis, Diagnostic, push_report};
use lus_error_recovery::Rest;
use lus_syntax::{Refusal, RefusalNumber};
use lus_warnings::warnings_of;
use std::alloc::{AllocError, Global};

/// What a refusal's number alone says.
fn plain_finding(alloc: Global, refusal: &Refusal) -> Result<Finding, AllocError> {
    let sentence = String::from_str(alloc, fault_of(refusal.number))?;
    Finding::new(alloc, sentence, 1).with_note(alloc, sentence_of(refusal.number))
}

/// A finding, without its change of the source unless that helps.
fn kept(finding: Finding, is_helpful: bool) -> Finding {
    if is_helpful {
        finding
    } else {
        finding.with_edit(None)
    }
}

/// The finding of a refusal's case, where what stands round its place shows it. A change is told only where it was tried and helps.
fn spelled_finding(
    alloc: Global,
    rest: &mut Rest<'_>,
    refusal: &Refusal,
) -> Result<Option<Finding>, AllocError> {
    let Some(window) = rest.window(alloc, refusal)? else {
        return Ok(None);
    };
    let Some(finding) = spelling_finding(alloc, window.text(), refusal)? else {
        return Ok(None);
    };
    let is_helpful = match &finding.edit {
        Some(edit) => window.helps(alloc, refusal, edit)?,
        None => true,
    };
    Ok(Some(window.further_on(kept(finding, is_helpful))))
}

/// The finding of a refusal's case, where the tree of its declaration shows it. A change is told only where it was tried and helps.
fn meant_finding(
    alloc: Global,
    rest: &mut Rest<'_>,
    source: &str,
    refusal: &Refusal,
) -> Result<Option<Finding>, AllocError> {
    let Some(tree) = rest.tree(alloc, refusal)? else {
        return Ok(None);
    };
    let Some(finding) = finding_of(alloc, source, tree, refusal)? else {
        return Ok(None);
    };
    let is_helpful = match &finding.edit {
        Some(edit) => rest.helps(alloc, refusal, edit)?,
        None => true,
    };
    Ok(Some(kept(finding, is_helpful)))
}

/// What is known of the case of a refusal of what is left of a source, or else of its number. Where there is neither a note nor a change,
/// there is a note on the number.
fn finding_in(
    alloc: Global,
    rest: &mut Rest<'_>,
    source: &str,
    refusal: &Refusal,
) -> Result<Finding, AllocError> {
    let mut found = spelled_finding(alloc, rest, refusal)?;
    if found.is_none() {
        found = meant_finding(alloc, rest, source, refusal)?;
    }
    let Some(finding) = found else {
        return plain_finding(alloc, refusal);
    };
    if finding.note.is_some() || finding.edit.is_some() {
        return Ok(finding);
    }
    finding.with_note(alloc, sentence_of(refusal.number))
}

/// The most errors that are told behind the first.
const MOST_FURTHER: usize = 19;

/// Adds the errors that are left behind the first one, as they are found.
fn add_others(
    alloc: Global,
    rest: &mut Rest<'_>,
    source: &str,
    others: &mut Vec<Diagnostic>,
) -> Result<(), AllocError> {
    for _turn in 0..MOST_FURTHER {
        let Some(refusal) = rest.next(alloc)? else {
            return Ok(());
        };
        let finding = finding_in(alloc, rest, source, &refusal)?;
        rest.take(alloc, &refusal, Some(&finding))?;
        others.push(Diagnostic::of_refusal(refusal, finding))?;
    }
    Ok(())
}

/// What is known of the case of a refusal of a source; and the errors behind it, in the order of their places: at most one an equation,
/// one of the same name a node, and 19 together. None are looked for behind a limit.
fn findings_in(
    alloc: Global,
    source: &str,
    first: &Refusal,
) -> Result<(Finding, Vec<Diagnostic>), AllocError> {
    let mut others = Vec::new(alloc);
    let mut rest = Rest::new(alloc, source)?;
    let finding = finding_in(alloc, &mut rest, source, first)?;
    if first.number != RefusalNumber::Limit {
        rest.take(alloc, first, Some(&finding))?;
        add_others(alloc, &mut rest, source, &mut others)?;
        others.sort_by_key(|told| told.place.column)?;
        others.sort_by_key(|told| told.place.line)?;
    }
    Ok((finding, others))
}

/// The errors of bytes that are refused so: that of the refusal, and then those behind it.
pub fn errors_of(
    alloc: Global,
    bytes: &[u8],
    refusal: Refusal,
) -> Result<Vec<Diagnostic>, AllocError>
    ensures first { IfOk result (λ errors. BeginWith refusal errors.items) }
    ensures other { OnOk result (refusal.number ≢ numbers.Memory) }
{
    if refusal.number == RefusalNumber::Memory {
        return Err(AllocError);
    }
    let (finding, mut errors) = match text_of(bytes) {
        Ok(source) => findings_in(alloc, source, &refusal)?,
        Err(_) => (plain_finding(alloc, &refusal)?, Vec::new(alloc)),
    };
    errors.insert(0, Diagnostic::of_refusal(refusal, finding))?;
    Ok(errors)
}

/// What the text of an accepted program is warned of, in the order of the text, by the nodes that instances run, where these are known.
pub fn warned_of(
    alloc: Global,
    bytes: &[u8],
    run: Option<&[&str]>,
) -> Result<Vec<Diagnostic>, AllocError> {
    let Ok(source) = text_of(bytes) else {
        return Ok(Vec::new(alloc));
    };
    match warnings_of(alloc, source, run) {
        Ok(warnings) => Ok(warnings),
        Err(refusal) if refusal.number == RefusalNumber::Memory => Err(AllocError),
        Err(_) => Ok(Vec::new(alloc)),
    }
}

/// What it is warned of, if that is asked for.
fn warned_if(alloc: Global, bytes: &[u8], warns: bool) -> Result<Vec<Diagnostic>, AllocError> {
    if warns {
        warned_of(alloc, bytes, None)
    } else {
        Ok(Vec::new(alloc))
    }
}

/// What there is to say of the bytes of a program: no errors where they are accepted, and perhaps what they are warned of; or errors, of
/// which the first has the number and the place of the refusal.
pub fn diagnose(alloc: Global, bytes: &[u8], warns: bool) -> Result<Diagnosis, AllocError>
    ensures { IfOk result (λ d. AreErrors IsAccepted IsRefused bytes.now d.errors.items) }
{
    match accept(alloc, bytes) {
        Ok(_nodes) => {
            let warnings = warned_if(alloc, bytes, warns)?;
            Ok(Diagnosis {
                errors: Vec::new(alloc),
                warnings,
            })
        }
        Err(refusal) => Ok(Diagnosis {
            errors: errors_of(alloc, bytes, refusal)?,
            warnings: Vec::new(alloc),
        }),
    }
}

/// Why the bytes of a program are refused, as a text for people, by the name of their file; nothing where they are accepted.
pub fn report(alloc: Global, name: &str, bytes: &[u8]) -> Result<Option<String>, AllocError>
    ensures { IfOk result (λ said. IsExplained bytes.now (is_some said)) }
{
    let diagnosis = diagnose(alloc, bytes, false)?;
    if diagnosis.errors.is_empty() {
        return Ok(None);
    }
    let mut text = String::new(alloc);
    let source = text_of(bytes).unwrap_or("");
    push_report(alloc, &mut text, name, source, &diagnosis.errors)?;
    Ok(Some(text))
}

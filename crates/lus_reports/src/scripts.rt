//! Where refused scripts fail, and why.

use crate::check::Check;
use crate::failed_check::FailedCheck;
use crate::form::wrong_form;
use crate::keys::with_keys;
use crate::known::{doubled_name, too_many, unknown_name};
use crate::value::wrong_value;
use lus_causes::lus_faults::Position;
use lus_cli::lus_host::Program;
use lus_cli::script_text;
use lus_culprits::{fault_at, push_unexpected, sentence};
use lus_diagnostics::{Code, Diagnostic, Site};
use lus_scripts::ScriptRefusal;
use lus_syntax::{MOST_BYTES, Place, place_behind};
use lus_values::Memory;
use serde_json::Value;
use std::alloc::{AllocError, Global};

/// What a refusal of scripts means.
fn meaning_of(refusal: ScriptRefusal) -> &'static str {
    match refusal {
        ScriptRefusal::Json => "invalid JSON",
        ScriptRefusal::Form => "invalid scripts",
        ScriptRefusal::Unknown => "unknown name",
        ScriptRefusal::Double => "duplicate name",
        ScriptRefusal::Limit => "limit exceeded",
        ScriptRefusal::Memory => "out of memory",
    }
}

/// The error of a refusal of scripts at a place, and what is wrong there, where that is known.
fn error_at(
    alloc: Global,
    refusal: ScriptRefusal,
    site: Site,
    wrong: Option<&str>,
) -> Result<Diagnostic, AllocError> {
    let meaning = meaning_of(refusal);
    let message = match wrong {
        Some(wrong) => format!(in alloc; "{meaning}: {wrong}")?,
        None => String::from_str(alloc, meaning)?,
    };
    let code = Code::Scripts(script_text(refusal));
    Ok(Diagnostic::new(alloc, code, site, message))
}

/// What stands in bytes behind the front that JSON may begin with.
fn unexpected(alloc: Global, front: &[u8], rest: &[u8]) -> Result<String, Memory> {
    let mut text = String::new(alloc);
    push_unexpected(&mut text, alloc, front, rest)?;
    sentence(alloc, &text, "unexpected character")
}

/// The error where bytes stop being JSON, whose reader stopped at this line and column.
fn no_json(
    alloc: Global,
    bytes: &[u8],
    refusal: ScriptRefusal,
    line: usize,
    column: usize,
) -> Result<Diagnostic, AllocError> {
    let Some(offset) = fault_at(alloc, bytes, line, column) else {
        return error_at(alloc, refusal, Site::File, None);
    };
    let Place { line, column, .. } = place_behind(&bytes[..offset]);
    let site = Site::Scripts(Position { line, column });
    if offset == bytes.len() {
        return error_at(alloc, refusal, site, Some(Check::End.sentence()));
    }
    match unexpected(alloc, &bytes[..offset], &bytes[offset..]) {
        Ok(wrong) => error_at(alloc, refusal, site, Some(wrong.as_str())),
        Err(_) => error_at(alloc, refusal, site, Some(Check::Json.sentence())),
    }
}

/// The check for which the JSON of scripts is refused so, if there is memory to look.
fn find_in(
    alloc: Global,
    program: &Program,
    scripts: &Value,
    refusal: ScriptRefusal,
) -> Option<FailedCheck> {
    match refusal {
        ScriptRefusal::Form => match wrong_form(scripts) {
            Some(failed) => with_keys(alloc, scripts, failed).ok(),
            None => wrong_value(alloc, program, scripts).unwrap_or(None),
        },
        ScriptRefusal::Limit => too_many(scripts),
        ScriptRefusal::Double => doubled_name(scripts),
        ScriptRefusal::Unknown => unknown_name(alloc, program, scripts).unwrap_or(None),
        ScriptRefusal::Json | ScriptRefusal::Memory => None,
    }
}

/// The error of scripts that are refused so, of which the check that failed and its place are found again, if there is memory to look.
pub fn script_error(
    alloc: Global,
    program: &Program,
    bytes: &[u8],
    refusal: ScriptRefusal,
) -> Result<Diagnostic, AllocError> {
    if bytes.len() > MOST_BYTES {
        return error_at(alloc, refusal, Site::File, Some(Check::Size.sentence()));
    }
    let failed = match Value::from_slice(alloc, bytes) {
        Ok(json) => find_in(alloc, program, &json, refusal),
        Err(error) if error.is_memory() => None,
        Err(error) => return no_json(alloc, bytes, refusal, error.line(), error.column()),
    };
    let Some(failed) = failed else {
        return error_at(alloc, refusal, Site::File, None);
    };
    let spot = failed.spot;
    let site = Site::Json(format!(in alloc; "{spot}")?);
    error_at(alloc, refusal, site, Some(failed.sentence()))
}

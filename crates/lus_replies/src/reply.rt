//! Replies as objects of JSON.

ghost use Rattle.std.specs.Prelude.{◌≡◌, ◌++◌, OnOk, map, string_bytes};
ghost use Rattle.lus_program.specs.View.{program_seen, variable_of};
ghost use Rattle.lus_replies.specs.Replies.{listed_rows_json, output_kind, output_name, reply_json, row_json, why_word, word_of};

use crate::value::{push_json, push_key};
use lus_program::{Kind, Program, Variable};
use lus_requests::{Reply, Request, Why};
use lus_values::{Memory, Names, Row};

/// The name of the output at a place.
fn output_name(outputs: &[Variable], place: usize) -> &str
    ensures { result.now ≡ output_name (map variable_of outputs.now) place }
{
    match outputs.get(place) {
        Some(output) => output.name.as_str(),
        None => "?",
    }
}

/// The type of the output at a place.
fn output_kind(outputs: &[Variable], place: usize) -> Option<Kind>
    ensures { result ≡ output_kind (map variable_of outputs.now) place }
{
    match outputs.get(place) {
        Some(output) => Some(output.kind),
        None => None,
    }
}

/// Appends the present values of outputs, as an object by their names.
fn push_row(
    text: &mut String,
    program: &Program,
    names: &Names,
    outputs: &[Variable],
    row: &Row,
) -> Result<(), Memory>
    ensures { OnOk result (string_bytes text.new
        ≡ string_bytes text.old ++ row_json (program_seen program.now) names.now (map variable_of outputs.now) row.now) }
{
    text.push_str("{")?;
    let mut before = "";
    for (place, item) in row.items().iter().enumerate() {
        if let Some(value) = item {
            text.push_str(before)?;
            push_key(text, output_name(outputs, place))?;
            push_json(text, program, names, output_kind(outputs, place), value)?;
            before = ",";
        }
    }
    text.push_str("}")?;
    Ok(())
}

fn push_listed_rows(
    text: &mut String,
    program: &Program,
    names: &Names,
    outputs: &[Variable],
    rows: &[Row],
) -> Result<(), Memory>
    ensures { OnOk result (string_bytes text.new
        ≡ string_bytes text.old ++ listed_rows_json (program_seen program.now) names.now (map variable_of outputs.now) rows.now) }
{
    let [first, later @ ..] = rows else {
        return Ok(());
    };
    push_row(text, program, names, outputs, first)?;
    for row in later {
        text.push_str(",")?;
        push_row(text, program, names, outputs, row)?;
    }
    Ok(())
}

/// What a request did that is done, in the journal's own word.
fn word_of(request: &Request) -> &'static str
    ensures { result.now ≡ word_of request.now }
{
    match request {
        Request::Step(_) => "step",
        Request::Reset => "reset",
        Request::Save(_) => "save",
        Request::Restore(_) => "restore",
        Request::Burst(_) => "burst",
    }
}

/// Why a request was refused, in the journal's own word.
fn why_word(why: Why) -> &'static str
    ensures { result.now ≡ why_word why }
{
    match why {
        Why::Shape => "shape",
        Why::Presence => "presence",
        Why::Fault => "fault",
        Why::NoSave => "nosave",
    }
}

/// Appends the reply to a request, as an object of JSON. After `Memory` a part of it may have been appended.
pub fn push_reply(
    text: &mut String,
    program: &Program,
    names: &Names,
    outputs: &[Variable],
    request: &Request,
    reply: &Reply,
) -> Result<(), Memory>
    ensures { OnOk result (string_bytes text.new
        ≡ string_bytes text.old ++ reply_json (program_seen program.now) names.now (map variable_of outputs.now) request.now reply.now) }
{
    match reply {
        Reply::Outputs(row) => {
            text.push_str("{\"outputs\":")?;
            push_row(text, program, names, outputs, row)?;
            text.push_str("}")?;
        }
        Reply::Rows(rows) => {
            text.push_str("{\"burst\":[")?;
            push_listed_rows(text, program, names, outputs, rows.items())?;
            text.push_str("]}")?;
        }
        Reply::Done => {
            text.push_str("{\"done\":\"")?;
            text.push_str(word_of(request))?;
            text.push_str("\"}")?;
        }
        Reply::Refused(why) => {
            text.push_str("{\"refused\":\"")?;
            text.push_str(why_word(*why))?;
            text.push_str("\"}")?;
        }
    }
    Ok(())
}

//! What messages ask.

ghost use Rattle.std.specs.Prelude.{◌≡◌, IfOk, option_map};
ghost use Rattle.std.specs.Str.{IsUtf8};
ghost use Rattle.serde_json.specs.Read.{read};
ghost use Rattle.serde_json.specs.View.{items_view, view};
ghost use Rattle.lus_editing.specs.Messages.{changed_of, changed_text, document_of, id_of, last_change, last_of, method_of, new_name_of, opened_of, opened_text, parameters_of, sent_by, sent_of, sent_seen, text_of, uri_of, version_of};

use lus_queries::Spot;
use serde_json::Value;
use std::alloc::{AllocError, Global};

/// A text that an editor sends, with its name and its version.
#[derive(Clone, Copy)]
pub(crate) struct Sent<'v> {
    pub uri: &'v str,
    pub version: i64,
    pub text: &'v str,
}

/// The value that a message is, if it is JSON.
pub(crate) fn parse(alloc: Global, message: &[u8]) -> Result<Option<Value>, AllocError>
    ensures { IfOk result (λ o. IsUtf8 message.now → read message.now ≡ option_map view o) }
{
    match Value::from_slice(alloc, message) {
        Ok(value) => Ok(Some(value)),
        Err(error) if error.is_memory() => Err(AllocError),
        Err(_) => Ok(None),
    }
}

/// The method that a message names.
pub(crate) fn method_of(message: &Value) -> Option<&str>
    ensures { option_map (λ t. t.now) result ≡ method_of (view message.now) }
{
    let method = message.get("method")?;
    method.as_str()
}

/// The id of a request; a notification has none.
pub(crate) fn id_of(message: &Value) -> Option<&Value>
    ensures { option_map (λ v. view v.now) result ≡ id_of (view message.now) }
{
    message.get("id")
}

/// The parameters of a message.
pub(crate) fn parameters_of(message: &Value) -> Option<&Value>
    ensures { option_map (λ v. view v.now) result ≡ parameters_of (view message.now) }
{
    message.get("params")
}

/// The document that parameters name.
fn document_of(parameters: &Value) -> Option<&Value>
    ensures { option_map (λ v. view v.now) result ≡ document_of (view parameters.now) }
{
    parameters.get("textDocument")
}

/// The name of the document that parameters name.
pub(crate) fn uri_of(parameters: &Value) -> Option<&str>
    ensures { option_map (λ t. t.now) result ≡ uri_of (view parameters.now) }
{
    let document = document_of(parameters)?;
    let uri = document.get("uri")?;
    uri.as_str()
}

/// The version of the document that parameters name.
fn version_of(parameters: &Value) -> Option<i64>
    ensures { result ≡ version_of (view parameters.now) }
{
    let document = document_of(parameters)?;
    let version = document.get("version")?;
    version.as_i64()
}

/// The text of a document or of a change.
fn text_of(value: &Value) -> Option<&str>
    ensures { option_map (λ t. t.now) result ≡ text_of (view value.now) }
{
    let text = value.get("text")?;
    text.as_str()
}

/// The last of some changes.
fn last_of(changes: &[Value]) -> Option<&Value>
    ensures { option_map (λ v. view v.now) result ≡ last_of (items_view changes.now) }
{
    changes.last()
}

/// The last change that parameters name.
fn last_change(parameters: &Value) -> Option<&Value>
    ensures { option_map (λ v. view v.now) result ≡ last_change (view parameters.now) }
{
    let changes = parameters.get("contentChanges")?;
    let listed = changes.as_array()?;
    last_of(listed)
}

/// The text of a document that is opened.
fn opened_text(parameters: &Value) -> Option<&str>
    ensures { option_map (λ t. t.now) result ≡ opened_text (view parameters.now) }
{
    let document = document_of(parameters)?;
    text_of(document)
}

/// The text that a document is changed to.
fn changed_text(parameters: &Value) -> Option<&str>
    ensures { option_map (λ t. t.now) result ≡ changed_text (view parameters.now) }
{
    let change = last_change(parameters)?;
    text_of(change)
}

/// A text as a message sends it.
fn text_sent<'v>(parameters: &'v Value, text: Option<&'v str>) -> Option<Sent<'v>>
    ensures { option_map sent_seen result ≡ sent_of (view parameters.now) (option_map (λ t. t.now) text.entry) }
{
    match (uri_of(parameters), version_of(parameters), text) {
        (Some(uri), Some(version), Some(text)) => Some(Sent { uri, version, text }),
        _ => None,
    }
}

/// The text that `didOpen` sends.
fn opened(parameters: &Value) -> Option<Sent<'_>>
    ensures { option_map sent_seen result ≡ opened_of (view parameters.now) }
{
    text_sent(parameters, opened_text(parameters))
}

/// The text that `didChange` sends.
fn changed(parameters: &Value) -> Option<Sent<'_>>
    ensures { option_map sent_seen result ≡ changed_of (view parameters.now) }
{
    text_sent(parameters, changed_text(parameters))
}

/// The text that a notification sends by its method.
pub(crate) fn sent_by<'v>(method: &str, parameters: Option<&'v Value>) -> Option<Sent<'v>>
    ensures { option_map sent_seen result ≡ sent_by method.now (option_map (λ v. view v.now) parameters.entry) }
{
    let parameters = parameters?;
    if method == "textDocument/didOpen" {
        opened(parameters)
    } else if method == "textDocument/didChange" {
        changed(parameters)
    } else {
        None
    }
}

/// A whole number that isn't negative.
fn natural(value: &Value, key: &str) -> Option<usize> {
    usize::try_from(value.get(key)?.as_u64()?).ok()
}

/// The place of a line and a character.
fn spot(value: &Value) -> Option<Spot> {
    let line = natural(value, "line")?;
    let character = natural(value, "character")?;
    Some(Spot { line, character })
}

/// The position that parameters name.
pub(crate) fn position_of(parameters: &Value) -> Option<Spot> {
    spot(parameters.get("position")?)
}

/// Both ends of the range that parameters name.
pub(crate) fn range_of(parameters: &Value) -> Option<(Spot, Spot)> {
    let range = parameters.get("range")?;
    let start = spot(range.get("start")?)?;
    let end = spot(range.get("end")?)?;
    Some((start, end))
}

/// The name that parameters give in place of another one.
pub(crate) fn new_name_of(parameters: &Value) -> Option<&str>
    ensures { option_map (λ t. t.now) result ≡ new_name_of (view parameters.now) }
{
    let name = parameters.get("newName")?;
    name.as_str()
}

/// Whether references are asked for with the declaration, if the parameters say so.
pub(crate) fn has_declaration(parameters: &Value) -> Option<bool> {
    parameters
        .get("context")?
        .get("includeDeclaration")?
        .as_bool()
}

/// The name of the document that a message changes, if it is a notification that does so.
pub(crate) fn changed_document(message: &Value) -> Option<&str> {
    if id_of(message).is_some() || method_of(message)? != "textDocument/didChange" {
        return None;
    }
    Some(changed(parameters_of(message)?)?.uri)
}

/// What an editor says that it can do with documents.
fn abilities(parameters: &Value) -> Option<&Value> {
    parameters.get("capabilities")?.get("textDocument")
}

/// Whether an editor takes snippets as completions, if its parameters say so.
pub(crate) fn has_snippets(parameters: &Value) -> Option<bool> {
    abilities(parameters)?
        .get("completion")?
        .get("completionItem")?
        .get("snippetSupport")?
        .as_bool()
}

/// Whether an editor shows the further places of a diagnostic, if its parameters say so.
pub(crate) fn shows_related(parameters: &Value) -> Option<bool> {
    abilities(parameters)?
        .get("publishDiagnostics")?
        .get("relatedInformation")?
        .as_bool()
}

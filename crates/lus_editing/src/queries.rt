//! What is asked of a document besides its errors.

use crate::answers::Problem;
use crate::compiler::Compiler;
use crate::messages::{has_declaration, position_of, range_of, uri_of};
use crate::server::Server;
use lus_queries::{
    Spot, completions, declared_at, definition, expression_hover, folds, highlights, hover,
    inlay_hints, lines_of, references, renamable, semantic_tokens, signature_help, symbols,
};
use serde_json::Value;
use std::alloc::{AllocError, Global};

/// What is asked of a whole document.
#[derive(Clone, Copy)]
pub(crate) enum Survey {
    Symbols,
    Folds,
    Colours,
}

/// What is asked of a position of a document.
#[derive(Clone, Copy)]
pub(crate) enum Lookup {
    Completions,
    Signature,
    Hover,
    Definition,
    References,
    Highlights,
    Renamable,
}

/// What is asked.
#[derive(Clone, Copy)]
pub(crate) enum Query {
    Survey(Survey),
    Lookup(Lookup),
    /// What is shown within the lines of a range.
    Hints,
}

/// What a method asks, if it asks something of a document.
pub(crate) fn query_of(method: &str) -> Option<Query> {
    match method {
        "textDocument/documentSymbol" => Some(Query::Survey(Survey::Symbols)),
        "textDocument/foldingRange" => Some(Query::Survey(Survey::Folds)),
        "textDocument/semanticTokens/full" => Some(Query::Survey(Survey::Colours)),
        "textDocument/inlayHint" => Some(Query::Hints),
        "textDocument/completion" => Some(Query::Lookup(Lookup::Completions)),
        "textDocument/signatureHelp" => Some(Query::Lookup(Lookup::Signature)),
        "textDocument/hover" => Some(Query::Lookup(Lookup::Hover)),
        "textDocument/definition" => Some(Query::Lookup(Lookup::Definition)),
        "textDocument/references" => Some(Query::Lookup(Lookup::References)),
        "textDocument/documentHighlight" => Some(Query::Lookup(Lookup::Highlights)),
        "textDocument/prepareRename" => Some(Query::Lookup(Lookup::Renamable)),
        _ => None,
    }
}

/// What there is to say of a whole text.
fn surveyed(alloc: Global, source: &str, survey: Survey) -> Result<String, AllocError> {
    match survey {
        Survey::Symbols => symbols(alloc, source),
        Survey::Folds => folds(alloc, source),
        Survey::Colours => semantic_tokens(alloc, source),
    }
}

/// What is shown at a spot of a document: of a name its declaration, with what a compiler says besides, and else the type and the clock of
/// the expression.
fn hovered<C: Compiler>(
    alloc: Global,
    compiler: &C,
    source: &str,
    at: Spot,
) -> Result<String, AllocError> {
    if let Some(declared) = declared_at(alloc, source, at)? {
        let fact = compiler.fact(alloc, source, declared)?;
        return hover(alloc, source, at, fact);
    }
    let byte = lines_of(alloc, source)?.byte_at(at);
    match &compiler.judged(alloc, source, byte)? {
        Some(judged) => expression_hover(alloc, source, judged),
        None => String::from_str(alloc, "null"),
    }
}

/// What there is to say of a spot of a document, to which these parameters belong.
fn looked_up<C: Compiler>(
    alloc: Global,
    compiler: &C,
    server: &Server,
    source: &str,
    uri: &str,
    at: Spot,
    lookup: Lookup,
    parameters: &Value,
) -> Result<String, AllocError> {
    match lookup {
        Lookup::Completions => completions(alloc, source, at, server.has_snippets),
        Lookup::Signature => signature_help(alloc, source, at),
        Lookup::Hover => hovered(alloc, compiler, source, at),
        Lookup::Definition => definition(alloc, source, uri, at),
        Lookup::References => {
            let has_declaration = has_declaration(parameters).unwrap_or(false);
            references(alloc, source, uri, at, has_declaration)
        }
        Lookup::Highlights => highlights(alloc, source, at),
        Lookup::Renamable => renamable(alloc, source, at),
    }
}

/// What a query gives, of the document that parameters name, and at their position where it asks for one.
pub(crate) fn queried<C: Compiler>(
    alloc: Global,
    compiler: &C,
    server: &Server,
    query: Query,
    parameters: Option<&Value>,
) -> Result<Result<String, Problem>, AllocError> {
    let Some(parameters) = parameters else {
        return Ok(Err(Problem::Parameters));
    };
    let Some(uri) = uri_of(parameters) else {
        return Ok(Err(Problem::Parameters));
    };
    let Some(document) = server.document(uri) else {
        return Ok(Err(Problem::Parameters));
    };
    let source = document.text.as_str();
    match query {
        Query::Survey(survey) => Ok(Ok(surveyed(alloc, source, survey)?)),
        Query::Lookup(lookup) => match position_of(parameters) {
            Some(at) => {
                let found = looked_up(
                    alloc, compiler, server, source, uri, at, lookup, parameters,
                )?;
                Ok(Ok(found))
            },
            None => Ok(Err(Problem::Parameters)),
        },
        Query::Hints => match range_of(parameters) {
            Some((from, to)) => Ok(Ok(inlay_hints(alloc, source, from, to)?)),
            None => Ok(Err(Problem::Parameters)),
        },
    }
}

//! Documents laid out.

use crate::answers::Problem;
use crate::compiler::Compiler;
use crate::messages::uri_of;
use crate::server::Server;
use lus_diagnostics::push_string;
use lus_queries::{lines_of, push_range};
use serde_json::Value;
use std::alloc::{AllocError, Global};

/// The changes that lay a text out: none where it is laid out already, or else one of the whole text; null where it can't be read.
fn changes(alloc: Global, source: &str, laid_out: Option<&str>) -> Result<String, AllocError> {
    let Some(laid_out) = laid_out else {
        return String::from_str(alloc, "null");
    };
    if laid_out == source {
        return String::from_str(alloc, "[]");
    }
    let mut text = String::new(alloc);
    text.push_str("[{\"range\":")?;
    push_range(&mut text, &lines_of(alloc, source)?, 0, source.len())?;
    text.push_str(",\"newText\":")?;
    push_string(alloc, &mut text, laid_out)?;
    text.push_str("}]")?;
    Ok(text)
}

/// The changes that lay out the document that parameters name.
pub(crate) fn formatted<C: Compiler>(
    alloc: Global,
    compiler: &C,
    server: &Server,
    parameters: Option<&Value>,
) -> Result<Result<String, Problem>, AllocError> {
    let Some(uri) = parameters.and_then(uri_of) else {
        return Ok(Err(Problem::Parameters));
    };
    let Some(document) = server.document(uri) else {
        return Ok(Err(Problem::Parameters));
    };
    let source = document.text.as_str();
    let laid_out = compiler.laid_out(alloc, source)?;
    Ok(Ok(changes(alloc, source, laid_out.as_deref())?))
}

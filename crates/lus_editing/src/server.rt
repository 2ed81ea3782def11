//! What a server keeps: how far it has come, and the documents that are open.

ghost use Rattle.std.specs.Prelude.{◌≡◌, option_map, string_bytes};
ghost use Rattle.lus_editing.specs.Renames.{source_in};

use indexmap::IndexMap;
use lus_diagnostics::Diagnosis;
use std::alloc::{AllocError, Global};

/// How far a server has come.
#[derive(Clone, Copy, PartialEq, Eq)]
pub(crate) enum Stage {
    /// It isn't initialised.
    Fresh,
    Running,
    /// It was shut down.
    Shut,
    /// It was told to end; in order, if it was shut down before.
    Over { is_in_order: bool },
}

/// A document that is open, with what there is to say of its text.
#[derive(Drop)]
pub(crate) struct Document {
    pub text: String,
    pub diagnosis: Diagnosis,
}

/// The state of a server.
#[derive(Drop)]
pub struct Server {
    pub(crate) stage: Stage,
    /// Whether the editor shows the further places of a diagnostic.
    pub(crate) shows_related: bool,
    /// Whether the editor takes snippets as completions.
    pub(crate) has_snippets: bool,
    pub(crate) documents: IndexMap<String, Document>,
}

impl Server {
    /// A server that isn't initialised yet.
    pub fn new(alloc: Global) -> Server {
        Server {
            stage: Stage::Fresh,
            shows_related: false,
            has_snippets: false,
            documents: IndexMap::new(alloc),
        }
    }

    /// The status that the process is to end with, once it is told to: 0, or 1 where it wasn't shut down before.
    pub fn status(&self) -> Option<u8> {
        match self.stage {
            Stage::Over { is_in_order: true } => Some(0),
            Stage::Over { is_in_order: false } => Some(1),
            _ => None,
        }
    }

    /// The open document of a name.
    pub(crate) fn document(&self, uri: &str) -> Option<&Document>
        ensures { option_map (λ d. string_bytes d.now.text) result ≡ source_in self.now uri.now }
    {
        self.documents.get(uri)
    }

    /// Keeps a document under its name, in place of one that was kept there.
    pub(crate) fn keep(
        &mut self,
        alloc: Global,
        uri: &str,
        document: Document,
    ) -> Result<(), AllocError> {
        let name = String::from_str(alloc, uri)?;
        let _before = self.documents.insert(name, document)?;
        Ok(())
    }

    /// Keeps the document of a name no more.
    pub(crate) fn close(&mut self, uri: &str) {
        let _document = self.documents.swap_remove(uri);
    }
}

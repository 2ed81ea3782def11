//! The files that the words of a tool for people name, and which it couldn't open.

use crate::instance::names_instance;
use crate::tools::placed_words;
use lus_devices::{Sink, write_all};
use lus_many::is_many;
use std::alloc::{AllocError, Global};
use std::fs;
use std::io::ErrorKind;
use std::rt::Files;

/// Whether there is a plain file of a name, and it can be opened. Opening a pipe could wait for its other end.
pub fn opens<R: Files>(rt: &R, name: &str) -> bool {
    match fs::metadata(rt, name) {
        Ok(metadata) => metadata.is_file() && fs::open(rt, name).is_ok(),
        Err(_) => false,
    }
}

/// What keeps a file of a name from being read: there is none, it is a folder, or a plain one that can't be opened.
fn fault_of<R: Files>(rt: &R, name: &str) -> Option<(&'static str, &'static str)> {
    let metadata = match fs::metadata(rt, name) {
        Ok(metadata) => metadata,
        Err(error) if error.kind() == ErrorKind::OutOfMemory => return None,
        Err(_) => return Some(("there is no file `", "`\n")),
    };
    if metadata.is_dir() {
        return Some(("`", "` is a folder\n"));
    }
    if metadata.is_file() && fs::open(rt, name).is_err() {
        return Some(("the file `", "` can't be opened\n"));
    }
    None
}

/// The words that name files: those told by their place, but for a node's name, the second one of `lus_live`, of `lus_audit --many` and of
/// `lus_draw --instance`.
pub fn named_files<'w>(
    alloc: Global,
    tool: &str,
    words: &'w [String],
) -> Result<Vec<&'w str>, AllocError> {
    let mut files = placed_words(alloc, tool, words)?;
    let has_node = tool == "lus_live" || is_many(words) || names_instance(words);
    if has_node && files.len() > 1 {
        files.remove(1);
    }
    Ok(files)
}

/// Whether a tool's own line of a fault of a file or a journal doesn't say which it is: `lus_format` names each file itself, and `lus_lsp` has
/// none.
pub fn names_none(tool: &str) -> bool {
    !matches!(tool, "lus_format" | "lus_lsp")
}

fn tell_unread<F: Sink>(tool: &str, before: &str, name: &str, behind: &str, faults: &mut F) {
    for text in [tool, ": ", before, name, behind] {
        let _ = write_all(faults, text.as_bytes());
    }
}

/// Says which file a tool for people couldn't open, behind the line of its fault: the first of those that its words name, in whose
/// order files are opened.
pub fn name_unopened<R: Files, F: Sink>(
    rt: &R,
    alloc: Global,
    tool: &str,
    words: &[String],
    faults: &mut F,
) {
    let Ok(files) = named_files(alloc, tool, words) else {
        return;
    };
    for name in &files {
        if let Some((before, behind)) = fault_of(rt, name) {
            tell_unread(tool, before, name, behind, faults);
            return;
        }
    }
}

//! A declared name replaced throughout a source.

ghost use Rattle.std.specs.Prelude.{IfOk, IsTrue, string_bytes};
ghost use Rattle.lus_syntax.specs.Lexemes.{Text};
ghost use Rattle.lus_edits.specs.Kept.{KeepsComments, RenamesTokens};
ghost use Rattle.lus_rename.specs.Renaming.{IsName, IsNameAt, Keeps, SameButForNames};

use crate::error::RenameError;
use crate::keeping::are_same_but_for_names;
use crate::naming::{is_name, named_at};
use crate::proposing::with_name;
use crate::taken::is_taken_in_refused;
use lus_edits::{keeps_comments, renames_tokens};
use lus_occurrences::names_of;
use lus_syntax::Refusal;
use std::alloc::Global;

/// Whether another source is this one but for a name.
fn keeps(alloc: Global, old: &str, name: &str, source: &str, made: &str) -> Result<bool, Refusal>
    ensures { IfOk result (λ keeps. IsTrue keeps → Keeps old.now name.now source.now made.now) }
{
    if !renames_tokens(alloc, old, name, source, made)? {
        return Ok(false);
    }
    if !keeps_comments(alloc, source, made)? {
        return Ok(false);
    }
    Ok(are_same_but_for_names(alloc, source, made)?)
}

/// A source with a new name in place of the one that stands at a byte of it or ends there, wherever what that one declares is named.
///
/// What is made has the source's tokens, but that the old name is the new one here or there, and its comments. Where the source is
/// accepted it is accepted too, as a program that is the same but for names; where the source is refused it is refused by the same
/// number, and the new name is none that another declaration in scope has. Where that can't be, as under a name that hides another one,
/// there is an error.
pub fn renamed(alloc: Global, source: &str, byte: usize, name: &str) -> Result<String, RenameError>
    ensures name { IfOk result (λ _. IsName name.now) }
    ensures tokens { IfOk result (λ made. (old : Text) × IsNameAt source.now byte old × RenamesTokens old name.now source.now (string_bytes made)) }
    ensures comments { IfOk result (λ made. KeepsComments source.now (string_bytes made)) }
    ensures program { IfOk result (λ made. SameButForNames source.now (string_bytes made)) }
{
    if !is_name(alloc, name)? {
        return Err(RenameError::NotAName);
    }
    let names = names_of(alloc, source)?;
    let Some(occurrence) = names.occurrence_at(byte) else {
        return Err(RenameError::NoName);
    };
    let Some(old) = named_at(&names.tokens, occurrence.token, byte) else {
        return Err(RenameError::NoName);
    };
    let declaration = occurrence.declaration;
    if is_taken_in_refused(alloc, source, &names, declaration, name)? {
        return Err(RenameError::Changes);
    }
    let made = with_name(alloc, source, &names, declaration, name)?;
    if !keeps(alloc, old, name, source, made.as_str())? {
        return Err(RenameError::Changes);
    }
    Ok(made)
}

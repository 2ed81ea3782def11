//! Texts compared by their tokens and their comments.

ghost use Rattle.std.specs.Prelude.{◌≡◌, IfOk, IsTrue};
ghost use Rattle.lus_edits.specs.Kept.{KeepsComments, KeepsTokens, RenamesTokens};

use crate::gaps::same_gaps;
use crate::kinds::{differ_by_name, same_kinds};
use lus_syntax::{Refusal, lex};
use std::alloc::Global;

/// Whether both texts have tokens, and the same. A refusal is that of `lex`, of the old text or of the new one.
pub fn keeps_tokens(alloc: Global, old: &str, new: &str) -> Result<bool, Refusal>
    ensures { IfOk result (λ keeps. IsTrue keeps → KeepsTokens old.now new.now) }
{
    let before = lex(alloc, old)?;
    let after = lex(alloc, new)?;
    Ok(same_kinds(&before, &after))
}

/// Whether both texts have tokens, and the same but for one name, which is another one here or there. A refusal is that of `lex`, of
/// the old text or of the new one.
pub fn renames_tokens(
    alloc: Global,
    old_name: &str,
    new_name: &str,
    old: &str,
    new: &str,
) -> Result<bool, Refusal>
    ensures { IfOk result (λ renames. IsTrue renames → RenamesTokens old_name.now new_name.now old.now new.now) }
{
    let before = lex(alloc, old)?;
    let after = lex(alloc, new)?;
    Ok(differ_by_name(old_name, new_name, &before, &after))
}

/// Whether both texts have the same comments, each with as many tokens before it. A refusal is that of `lex`, of the old text or of
/// the new one.
pub fn keeps_comments(alloc: Global, old: &str, new: &str) -> Result<bool, Refusal>
    ensures { IfOk result (λ keeps. IsTrue keeps → KeepsComments old.now new.now) }
{
    let before = lex(alloc, old)?;
    let after = lex(alloc, new)?;
    Ok(same_gaps(alloc, old.as_bytes(), &before, new.as_bytes(), &after)?)
}

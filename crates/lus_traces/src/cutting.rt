//! Texts, cut at a character.

ghost use Rattle.std.specs.Prelude.{◌≡◌, ◌<◌, ◌==◌, IfOk, map};
ghost use Rattle.std.specs.List.{slice_split};

use std::alloc::{AllocError, Global};

/// The parts of a text between characters: always one more than there are such characters.
pub fn parts_between(alloc: Global, text: &str, mark: char) -> Result<Vec<&str>, AllocError>
    requires { mark < 128 }
    ensures { IfOk result (λ v. map (λ t. t.now) v.items ≡ slice_split (λ b. b == mark) text.now) }
{
    text.split(mark).collect(alloc)
}

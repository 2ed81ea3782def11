//! The first line of a journal.

ghost use Rattle.std.specs.Prelude.{◌≡◌, ◌++◌, IfSome, codes};
ghost use Rattle.std.specs.Bool.{Decides};
ghost use Rattle.lus_lawful.specs.Heads.{ReadsHead};
ghost use Rattle.lus_lawful.specs.Journals.{BeginsJournals, head_of};

use std::str::from_utf8;

/// The names of an instance and of its node.
#[derive(Clone, Copy)]
pub(crate) struct Head<'a> {
    pub instance: &'a str,
    pub node: &'a str,
}

/// Whether bytes begin as journals do, so far as they go.
pub fn begins_journals(bytes: &[u8]) -> bool
    ensures { Decides result (BeginsJournals bytes.now) }
{
    let word = b"instance ".as_slice();
    bytes.starts_with(word) || word.starts_with(bytes)
}

/// The names that a line has, with its line feed, if it is the first of a journal.
pub(crate) fn read_head(line: &[u8]) -> Option<Head<'_>>
    ensures read { IfSome result (λ h. line.now ≡ head_of h.instance.now h.node.now ++ codes "\n") }
    ensures complete { ReadsHead line.now result }
{
    let Ok(text) = from_utf8(line) else {
        return None;
    };
    let names = text.strip_prefix("instance ")?.strip_suffix('\n')?;
    let (instance, node) = names.split_once(' ')?;
    Some(Head { instance, node })
}

//! Parts of journals' tables, by the places of accepted instants.

ghost use Rattle.std.specs.Prelude.{◌≡◌};
ghost use Rattle.lus_diagrams.specs.Parts.{is_instant, is_within};

use crate::lineage::Head;

/// The places of the first and the last instant that are shown, counted from 1.
#[derive(Clone, Copy)]
pub struct Part {
    pub from: u64,
    pub to: u64,
}

pub fn is_instant(head: Head) -> bool
    ensures { result ≡ is_instant head }
{
    matches!(head, Head::Instant(_))
}

/// Whether a column behind so many instants stands in a part.
pub(crate) fn is_within(part: Part, behind: u64, head: Head) -> bool
    ensures { result ≡ is_within part behind head }
{
    if is_instant(head) {
        part.from.saturating_sub(1) <= behind && behind < part.to
    } else {
        part.from.saturating_sub(1) <= behind && behind <= part.to
    }
}

//! What stands above columns, and above journals.

ghost use Rattle.std.specs.Prelude.{◌≡◌, IfOk, string_bytes};
ghost use Rattle.lus_traces.specs.Tables.{title_of};

use crate::trace::Heading;
use lus_diagrams::Head;
use std::alloc::{AllocError, Global};

/// What stands above a column.
pub(crate) fn title_of(alloc: Global, head: Head) -> Result<String, AllocError>
    ensures { IfOk result (λ title. string_bytes title ≡ title_of head) }
{
    match head {
        Head::Instant(number) => format!(in alloc; "{number}"),
        Head::Burst(count) => format!(in alloc; "burst {count}"),
        Head::Reset => String::from_str(alloc, "reset"),
        Head::Save(slot) => format!(in alloc; "save {slot}"),
        Head::Restore(slot) => format!(in alloc; "restore {slot}"),
    }
}

/// Appends that a journal ends early, where it does.
pub(crate) fn push_early(out: &mut String, heading: &Heading) -> Result<(), AllocError> {
    match heading.ends_early {
        Some(line) => write!(out, ", ends early at line {line}"),
        None => Ok(()),
    }
}

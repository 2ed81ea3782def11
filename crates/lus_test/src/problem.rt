//! Why a table isn't tried.

ghost use Rattle.std.specs.Prelude.{◌≡◌};

use crate::error::TableError;
use crate::report::line_of;
use csv::ByteRecord;
use lus_cli::{Fault, tell};
use lus_devices::{Sink, write_all};
use lus_printable::printable;
use lus_values::Memory;
use std::alloc::{AllocError, AllocFailed, Global};

/// Why a table isn't tried.
#[derive(Drop)]
pub(crate) enum Problem {
    /// Its file or the output failed, or memory was wanting.
    Fault(Fault),
    /// The program lacks what is named, a node, an output or an input: which, and what is near it.
    Lacks(String),
    /// What an option should have, and what is given.
    Words(String),
    /// What stands on this line is no head or no row.
    Line(u64, String),
    /// The file has more bytes than a table may have.
    Large,
}

impl From<Fault> for Problem {
    fn from(fault: Fault) -> Problem {
        Problem::Fault(fault)
    }
}

impl From<Memory> for Problem {
    fn from(_error: Memory) -> Problem {
        Problem::Fault(Fault::Memory)
    }
}

impl From<AllocError> for Problem {
    fn from(_error: AllocError) -> Problem {
        Problem::Fault(Fault::Memory)
    }
}

impl<T: Drop> From<AllocFailed<T>> for Problem {
    fn from(_error: AllocFailed<T>) -> Problem {
        Problem::Fault(Fault::Memory)
    }
}

/// Why a table of these records isn't tried.
pub(crate) fn problem_of(error: TableError, records: &[ByteRecord]) -> Problem {
    match error {
        TableError::Memory => Problem::Fault(Fault::Memory),
        TableError::Wrong(place, reason) => Problem::Line(line_of(records.get(place)), reason),
    }
}

/// Writes pieces of a line. What can't be written changes no status.
pub(crate) fn tell_line<F: Sink>(
    alloc: Global,
    faults: &mut F,
    file: &str,
    line: &str,
    reason: &str,
) {
    for piece in [file, line, reason, "\n"] {
        if let Ok(shown) = printable(alloc, piece.as_bytes()) {
            let _ = write_all(faults, shown.as_bytes());
        }
    }
}

/// Says why a table isn't tried, and gives the status.
pub(crate) fn explain<F: Sink>(alloc: Global, faults: &mut F, file: &str, problem: Problem) -> u8
    ensures { result ≡ 0 → ⊥ }
{
    match problem {
        Problem::Fault(fault) => {
            let _ = write_all(faults, file.as_bytes());
            let _ = write_all(faults, b": ");
            return tell(faults, fault);
        }
        Problem::Lacks(reason) => tell_line(alloc, faults, file, ": ", &reason),
        Problem::Words(reason) => tell_line(alloc, faults, "lus_test", ": ", &reason),
        Problem::Line(number, reason) => {
            if let Ok(line) = format!(in alloc; ":{number}: ") {
                tell_line(alloc, faults, file, &line, &reason);
            }
        }
        Problem::Large => tell_line(alloc, faults, file, ": ", "it has more than 16777216 bytes"),
    }
    2
}

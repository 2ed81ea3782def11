//! What is reported of journals.

ghost use Rattle.std.specs.Prelude.{◌≡◌, ◌++◌, OnOk, codes};
ghost use Rattle.lus_lawful.specs.Journals.{early_text, lawful_text, wrong_text};
ghost use Rattle.lus_printable.specs.Printable.{printable};

use itoa::Buffer;
use lus_printable::push_printable;
use lus_values::Memory;
use std::alloc::Global;

/// Reports that the journal of this instance is lawful and whole.
fn push_whole(alloc: Global, report: &mut Vec<u8>, instance: &str) -> Result<(), Memory>
    ensures { OnOk result (report.new.items ≡ report.old.items ++ (printable instance.now ++ codes " lawful\n")) }
{
    push_printable(alloc, report, instance.as_bytes())?;
    report.extend_from_slice(b" lawful\n")?;
    Ok(())
}

/// Reports that the journal of this instance is lawful up to its last line, which has this number.
fn push_early(alloc: Global, report: &mut Vec<u8>, instance: &str, line: u64) -> Result<(), Memory>
    ensures { OnOk result (report.new.items ≡ report.old.items ++ early_text instance.now line) }
{
    push_printable(alloc, report, instance.as_bytes())?;
    report.extend_from_slice(b" lawful, ends early at line ")?;
    report.extend_from_slice(Buffer::new().format(line).as_bytes())?;
    report.extend_from_slice(b"\n")?;
    Ok(())
}

/// Reports that the journal of this instance is lawful, and the number of its last line where it isn't whole.
pub(crate) fn push_lawful(
    alloc: Global,
    report: &mut Vec<u8>,
    instance: &str,
    is_whole: bool,
    line: u64,
) -> Result<(), Memory>
    ensures { OnOk result (report.new.items ≡ report.old.items ++ lawful_text instance.now is_whole line) }
{
    if is_whole {
        push_whole(alloc, report, instance)
    } else {
        push_early(alloc, report, instance, line)
    }
}

/// Reports the line of this number, which isn't the right one of this instance. Both lines end with their line feeds.
pub(crate) fn push_wrong(
    alloc: Global,
    report: &mut Vec<u8>,
    instance: &str,
    number: u64,
    line: &[u8],
    right: &str,
) -> Result<(), Memory>
    ensures { OnOk result (report.new.items ≡ report.old.items ++ wrong_text instance.now number line.now right.now) }
{
    push_printable(alloc, report, instance.as_bytes())?;
    report.extend_from_slice(b" line ")?;
    report.extend_from_slice(Buffer::new().format(number).as_bytes())?;
    report.extend_from_slice(b"\nwritten ")?;
    push_printable(alloc, report, line)?;
    report.extend_from_slice(b"right   ")?;
    push_printable(alloc, report, right.as_bytes())?;
    Ok(())
}

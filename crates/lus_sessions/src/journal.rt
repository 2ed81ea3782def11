//! The text of a journal of one instance that is named like its node, and of one caller.

ghost use Rattle.std.specs.Prelude.{◌≡◌, ◌∷◌, [], IfOk, drop, map, string_bytes};
ghost use Rattle.lus_devices.specs.Journals.{count_text, line_text};
ghost use Rattle.lus_sessions.specs.Recoveries.{head_of, start_text};

use crate::recovering::Start;
use crate::writes::Writes;
use lus_devices::push_line;
use lus_play::Speaks;
use lus_requests::Entry;
use lus_values::{Memory, Names};
use std::alloc::Global;

/// The names of the callers, where there is one.
pub fn callers(alloc: Global, caller: &str) -> Result<Vec<String>, Memory>
    ensures { IfOk result (λ v. map string_bytes v.items ≡ caller.now ∷ []) }
{
    let mut callers = Vec::new(alloc);
    callers.push(String::from_str(alloc, caller)?)?;
    Ok(callers)
}

/// The first line of the journal of an instance of this name, which is that of its node.
pub(crate) fn head(alloc: Global, name: &str) -> Result<String, Memory>
    ensures { IfOk result (λ t. string_bytes t ≡ head_of name.now) }
{
    let mut text = String::new(alloc);
    write!(text, "instance {name} {name}\n")?;
    Ok(text)
}

/// What stands behind so many bytes.
fn behind(bytes: &[u8], count: usize) -> &[u8]
    ensures { result.now ≡ drop count bytes.now }
{
    if count < bytes.len() {
        &bytes[count..]
    } else {
        &[]
    }
}

fn copy(alloc: Global, bytes: &[u8]) -> Result<Vec<u8>, Memory>
    ensures { IfOk result (λ v. v.items ≡ bytes.now) }
{
    let mut copied = Vec::new(alloc);
    copied.extend_from_slice(bytes)?;
    Ok(copied)
}

/// What is missing in a journal where a run goes on: the rest of the first line, or the mark of a line that was cut short.
fn missing(alloc: Global, name: &str, start: Start) -> Result<Vec<u8>, Memory>
    ensures { IfOk result (λ v. v.items ≡ start_text name.now start) }
{
    match start {
        Start::Head(count) => {
            let first = head(alloc, name)?;
            copy(alloc, behind(first.as_bytes(), count))
        }
        Start::Line(_) => Ok(Vec::new(alloc)),
        Start::Cut(_, _) => copy(alloc, b"# cut short\n"),
    }
}

/// Spells entries as the lines of the journal of an instance that is named like its node.
#[derive(Drop)]
pub struct JournalLines<'p> {
    pub names: &'p Names,
    pub node: &'p str,
    pub callers: &'p [String],
}

impl Speaks for JournalLines<'_> {
    ghost says = { λ s n e. line_text s.names.now (map string_bytes s.callers.now) n e };

    fn push(&self, text: &mut String, number: u64, entry: &Entry) -> Result<(), Memory> {
        push_line(text, self.names, self.callers, number, entry)
    }
}

impl Writes for JournalLines<'_> {
    ghost starts = { λ s start. start_text s.node.now start };

    ghost ends = { λ _ n. count_text n };

    fn start(&self, alloc: Global, start: Start) -> Result<Vec<u8>, Memory> {
        missing(alloc, self.node, start)
    }

    fn end(&self, alloc: Global, entries: u64) -> Result<String, Memory> {
        let mut text = String::new(alloc);
        write!(text, "entries {entries}\n")?;
        Ok(text)
    }
}

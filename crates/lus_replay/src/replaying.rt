//! The journal of an instance, line by line.

ghost use Rattle.std.specs.Prelude.{◌≡◌, ◌+◌, ◌<◌, ◌≤◌, ◌^◌, ℕ, IfOk, string_bytes};
ghost use Rattle.std.specs.Bool.{Decides};
ghost use Rattle.lus_program.specs.Programs.{Program};
ghost use Rattle.lus_devices.specs.Journals.{count_text};
ghost use Rattle.lus_lines.specs.Lines.{IsWholeLine};
ghost use Rattle.lus_replay.specs.Replays.{BeginsJournal, HasReplayed, IsCutShort, LineIs, ReadsBack, TurnIs, is_count, told_by};

use crate::line::{Verdict, replay_line};
use lus_devices::Source;
use lus_lines::{LineError, Whole, read_whole_line};
use lus_play::Reacts;
use lus_values::{Memory, Names};
use std::alloc::Global;

/// What ended the lines of a journal.
#[derive(Clone, Copy, PartialEq, Eq, Debug)]
pub enum Ending {
    /// The end of what was read, where a line would begin.
    End,
    /// The first line of another journal, which is in `line` with its line feed.
    Next,
    /// The end of what was read, within a line, whose bytes are in `line`.
    Cut,
    /// An entry whose reply isn't the right one. It is in `line`, and the right one in `right`.
    Wrong,
    /// A line that isn't one of the journal there.
    NoEntry,
}

/// What was read of a journal up to its end, or to a line that isn't right.
#[derive(Clone, Copy, PartialEq, Eq, Debug)]
pub struct Replayed {
    /// How many entries there are.
    pub entries: u64,
    /// How many lines were read before what ended them: entries, counts, and lines that a crash cut short.
    pub lines: u64,
    /// Whether the last of these lines is the number of entries.
    pub is_counted: bool,
    /// What ended them.
    pub ending: Ending,
}

/// What a line of a journal behind its first is.
#[derive(Clone, Copy, PartialEq, Eq)]
enum Kind {
    Entry,
    /// The number of entries so far.
    Count,
    /// What a crash left of a line.
    CutShort,
}

/// What was read where a line begins.
#[derive(Clone, Copy)]
enum Turn {
    Item(Kind),
    Ended(Ending),
}

/// Whether a line is what a crash left of one.
fn is_cut_short(line: &[u8]) -> bool
    ensures { Decides result (IsCutShort line.now) }
{
    line.ends_with(b"# cut short\n".as_slice())
}

/// Whether a line begins as the first of a journal does.
fn begins_journal(line: &[u8]) -> bool
    ensures { Decides result (BeginsJournal line.now) }
{
    line.starts_with(b"instance ".as_slice())
}

/// Whether a line is the number of entries of a journal with so many.
fn counts(alloc: Global, count: u64, line: &[u8]) -> Result<bool, Memory>
    ensures { IfOk result (λ b. Decides b (line.now ≡ count_text count)) }
{
    if !line.starts_with(b"entries ".as_slice()) {
        return Ok(false);
    }
    let mut text = String::new(alloc);
    write!(text, "entries {count}\n")?;
    Ok(text.as_bytes() == line)
}

/// What a line is that stands behind so many entries.
fn judge<R: Reacts>(
    alloc: Global,
    reactor: &mut R,
    names: &Names,
    entries: u64,
    line: &[u8],
    right: &mut String,
) -> Result<Turn, Memory>
    requires whole { IsWholeLine line.now }
    requires room { entries + 1 < 2 ^ 64 }
    ensures judged { IfOk result (λ turn. LineIs turn names.now entries line.now (string_bytes right.new)
        (R.history reactor.old) (R.history reactor.new)) }
    ensures same { (p : Program) (f : ℕ) → R.is_of reactor.old p f → R.is_of reactor.new p f }
{
    if is_cut_short(line) {
        reactor.pass();
        return Ok(Turn::Item(Kind::CutShort));
    }
    if begins_journal(line) {
        return Ok(Turn::Ended(Ending::Next));
    }
    if counts(alloc, entries, line)? {
        reactor.pass();
        return Ok(Turn::Item(Kind::Count));
    }
    match replay_line(alloc, reactor, names, entries + 1, line, right)? {
        Verdict::Right => Ok(Turn::Item(Kind::Entry)),
        Verdict::Wrong => Ok(Turn::Ended(Ending::Wrong)),
        Verdict::NoEntry => Ok(Turn::Ended(Ending::NoEntry)),
    }
}

/// Reads the next line behind so many entries: it is an item of the journal, or ends it.
fn take_turn<R: Reacts, S: Source>(
    alloc: Global,
    reactor: &mut R,
    names: &Names,
    entries: u64,
    source: &mut S,
    line: &mut Vec<u8>,
    right: &mut String,
) -> Result<Turn, LineError>
    requires { entries + 1 < 2 ^ 64 }
    ensures taken { IfOk result (λ turn. TurnIs turn names.now entries (S.left source.old) (S.left source.new)
        (R.history reactor.old) (R.history reactor.new) line.new.items (string_bytes right.new)) }
    ensures same { (p : Program) (f : ℕ) → R.is_of reactor.old p f → R.is_of reactor.new p f }
{
    match read_whole_line(source, line)? {
        Whole::Line => {}
        Whole::Unfinished => return Ok(Turn::Ended(Ending::Cut)),
        Whole::End => return Ok(Turn::Ended(Ending::End)),
    }
    match judge(alloc, reactor, names, entries, line, right) {
        Ok(turn) => Ok(turn),
        Err(_) => Err(LineError::Memory),
    }
}

/// How many entries an item tells.
fn told_by(kind: Kind) -> u64
    ensures told { result ≡ told_by kind }
    ensures few { result ≤ 1 }
{
    match kind {
        Kind::Entry => 1,
        Kind::Count | Kind::CutShort => 0,
    }
}

/// Whether an item is the number of entries.
fn is_count(kind: Kind) -> bool
    ensures { result ≡ is_count kind }
{
    match kind {
        Kind::Count => true,
        Kind::Entry | Kind::CutShort => false,
    }
}

/// Replays the lines of a journal behind its first, up to what ends them: the end of what is read, the first line of another journal,
/// or a line that isn't right. The line that ended them is then in `line`, with its line feed if it has one, and the line that would
/// be right in `right`. No more than one line and its entry is kept. Where the reads fail, or memory is out, entries may have been
/// replayed. It is an error of memory, too, where lines are more than a `u64` counts.
pub fn replay<R: Reacts, S: Source>(
    alloc: Global,
    reactor: &mut R,
    names: &Names,
    source: &mut S,
    line: &mut Vec<u8>,
    right: &mut String,
) -> Result<Replayed, LineError>
    ensures replayed { IfOk result (λ r. HasReplayed names.now r (S.left source.old) (S.left source.new)
        (R.history reactor.old) (R.history reactor.new) line.new.items (string_bytes right.new)) }
    ensures complete { IfOk result (λ r. ReadsBack names.now r (S.left source.old) (S.left source.new)
        (R.history reactor.old) (R.history reactor.new) line.new.items (string_bytes right.new)) }
    ensures same { (p : Program) (f : ℕ) → R.is_of reactor.old p f → R.is_of reactor.new p f }
{
    let mut entries = 0u64;
    let mut is_counted = false;
    for lines in 0..u64::MAX {
        match take_turn(alloc, reactor, names, entries, source, line, right)? {
            Turn::Item(kind) => {
                entries += told_by(kind);
                is_counted = is_count(kind);
            }
            Turn::Ended(ending) => {
                return Ok(Replayed {
                    entries,
                    lines,
                    is_counted,
                    ending,
                });
            }
        }
    }
    Err(LineError::Memory)
}

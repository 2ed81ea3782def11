//! Reading a journal, up to where a run goes on.

ghost use Rattle.std.specs.Prelude.{◌≡◌, ℕ, IfOk, OnOk};
ghost use Rattle.lus_program.specs.Programs.{Program};
ghost use Rattle.lus_sessions.specs.Recoveries.{BeginsHead, HasRecovered, StartsAt};

use crate::error::RecoveryError;
use crate::journal::head;
use lus_devices::Source;
use lus_lines::{Whole, read_whole_line};
use lus_play::Reacts;
use lus_replay::{Ending, Replayed, replay};
use lus_values::Names;
use std::alloc::Global;

/// Where a run goes on in its journal.
#[derive(Clone, Copy, PartialEq, Eq, Debug)]
pub enum Start {
    /// Behind so many bytes of the first line, where no more is there: none, in an empty journal.
    Head(usize),
    /// Behind so many entries, where a line begins.
    Line(u64),
    /// Behind so many entries, and what a crash left of the line of this number, from 1.
    Cut(u64, u64),
}

/// Where a run goes on that finds these bytes alone, if they begin the first line.
fn start_in_head(first: &[u8], bytes: &[u8]) -> Result<Start, RecoveryError>
    ensures { IfOk result (λ start. BeginsHead start first.now bytes.now) }
{
    if first.starts_with(bytes) {
        Ok(Start::Head(bytes.len()))
    } else {
        Err(RecoveryError::Line(1))
    }
}

/// Sees whether a line is the first of the journal.
fn check_first(first: &[u8], line: &[u8]) -> Result<(), RecoveryError>
    ensures { OnOk result (line.now ≡ first.now) }
{
    if line == first {
        Ok(())
    } else {
        Err(RecoveryError::Line(1))
    }
}

/// Where a run goes on behind lines that were replayed, if nothing is there that can't be gone on from.
fn start_behind(replayed: Replayed) -> Result<Start, RecoveryError>
    ensures { IfOk result (λ start. StartsAt start replayed) }
{
    let number = replayed.lines.saturating_add(2);
    match replayed.ending {
        Ending::End => Ok(Start::Line(replayed.entries)),
        Ending::Cut => Ok(Start::Cut(replayed.entries, number)),
        Ending::Wrong => Err(RecoveryError::Wrong(number)),
        Ending::Next | Ending::NoEntry => Err(RecoveryError::Line(number)),
    }
}

/// Reads the journal of an instance that is named like its node, and replays its entries on a new instance of that node, which then is
/// where the journal's was. Where a line isn't right, it is in `line`, with its line feed, and where its reply isn't, the line that
/// would be right is in `right`. No more than one line and its entry is kept.
pub fn recover<R: Reacts, J: Source>(
    alloc: Global,
    names: &Names,
    name: &str,
    reactor: &mut R,
    journal: &mut J,
    line: &mut Vec<u8>,
    right: &mut String,
) -> Result<Start, RecoveryError>
    ensures recovered { IfOk result (λ start. HasRecovered start names.now name.now (J.left journal.old)
        (R.history reactor.old) (R.history reactor.new)) }
    ensures same { (p : Program) (f : ℕ) → R.is_of reactor.old p f → R.is_of reactor.new p f }
{
    let first = head(alloc, name)?;
    match read_whole_line(journal, line)? {
        Whole::End => return Ok(Start::Head(0)),
        Whole::Unfinished => return start_in_head(first.as_bytes(), line.as_slice()),
        Whole::Line => {}
    }
    check_first(first.as_bytes(), line.as_slice())?;
    let replayed = replay(alloc, reactor, names, journal, line, right)?;
    start_behind(replayed)
}

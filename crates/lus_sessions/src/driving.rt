//! Runs behind what a journal has.

ghost use Rattle.std.specs.Prelude.{◌≡◌, ◌+◌, ℕ, IfOk, OnErr, OnOk};
ghost use Rattle.lus_bursts.specs.Syncs.{WasKept};
ghost use Rattle.lus_devices.specs.Devices.{WritesBeginning, with_text};
ghost use Rattle.lus_program.specs.Programs.{Program};
ghost use Rattle.lus_sessions.specs.Recoveries.{entries_at};
ghost use Rattle.lus_sessions.specs.Sessions.{HasDriven, HasDrivenSome, scribe_of};

use crate::recovering::Start;
use crate::writes::Writes;
use lus_bursts::{Syncs, Waiting};
use lus_devices::{Sink, Source};
use lus_play::{Calls, PlayError, Reacts, Score, Speaks, play, write_bytes};
use std::alloc::Global;

/// How many entries there are where a run goes on.
fn entries_at(start: Start) -> u64
    ensures { result ≡ entries_at start }
{
    match start {
        Start::Head(_) => 0,
        Start::Line(entries) | Start::Cut(entries, _) => entries,
    }
}

/// Writes what is missing in a journal where a run goes on.
fn write_start<J: Writes, L: Sink>(
    alloc: Global,
    scribe: &J,
    start: Start,
    log: &mut L,
) -> Result<(), PlayError>
    ensures whole { OnOk result (L.written log.new ≡ with_text (L.written log.old) (J.starts scribe.now start)) }
    ensures beginning { OnErr result (WritesBeginning (L.written log.old) (L.written log.new) (J.starts scribe.now start)) }
{
    let text = scribe.start(alloc, start)?;
    write_bytes(log, &text)
}

/// Writes what comes behind the last of so many entries.
fn write_end<J: Writes, L: Sink>(
    alloc: Global,
    scribe: &J,
    entries: u64,
    log: &mut L,
) -> Result<(), PlayError>
    ensures whole { OnOk result (L.written log.new ≡ with_text (L.written log.old) (J.ends scribe.now entries)) }
    ensures beginning { OnErr result (WritesBeginning (L.written log.old) (L.written log.new) (J.ends scribe.now entries)) }
{
    let text = scribe.end(alloc, entries)?;
    write_bytes(log, text.as_bytes())
}

/// Makes the call of each line on an instance, and writes on in its journal from where it was recovered: what is missing there, the line
/// of each entry, numbered on, before its reply is told, or where the log is synced once it was synced with it, once for all calls that were
/// read ahead; and the last line where no line is left. A line that is no call enters nothing, and `faults` is given its number and what is
/// wrong. What is kept is one line, its call and its entry, however many there were, and the replies that wait for a sync.
pub fn drive<C: Calls, R: Reacts, J: Writes, T: Speaks, S: Source, L: Syncs, O: Sink, F: Sink>(
    alloc: Global,
    start: Start,
    calls: &C,
    reactor: &mut R,
    scribe: &J,
    speaker: &T,
    is_synced: bool,
    waiting: &Waiting,
    input: &mut S,
    log: &mut L,
    output: &mut O,
    faults: &mut F,
) -> Result<Score, PlayError>
    ensures all { IfOk result (λ score. HasDriven (C.reads calls.now) (scribe_of (J.starts scribe.now) (J.says scribe.now) (J.ends scribe.now))
        (T.says speaker.now) (WasKept is_synced L L.syncs L.written) start (S.left input.old) (S.left input.new)
        (R.history reactor.old) (R.history reactor.new) (L.written log.old) (L.written log.new) (O.written output.old) (O.written output.new)
        score) }
    ensures some { OnErr result (HasDrivenSome (C.reads calls.now) (scribe_of (J.starts scribe.now) (J.says scribe.now) (J.ends scribe.now))
        (T.says speaker.now) (WasKept is_synced L L.syncs L.written) start (S.left input.old)
        (R.history reactor.old) (R.history reactor.new) (L.written log.old) (L.written log.new) (O.written output.old) (O.written output.new)) }
    ensures same { (p : Program) (f : ℕ) → R.is_of reactor.old p f → R.is_of reactor.new p f }
{
    write_start(alloc, scribe, start, log)?;
    let entries = entries_at(start);
    let first = entries.checked_add(1).ok_or(PlayError::Full)?;
    let score = play(
        alloc, calls, reactor, scribe, speaker, first, is_synced, waiting, input, log, output,
        faults,
    )?;
    let all = entries.checked_add(score.entered).ok_or(PlayError::Full)?;
    write_end(alloc, scribe, all, log)?;
    Ok(score)
}

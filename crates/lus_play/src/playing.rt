//! Plays, line by line.

ghost use Rattle.std.specs.Prelude.{◌≡◌, ℕ, IfOk, OnErr, true};
ghost use Rattle.lus_bursts.specs.Syncs.{WasKept};
ghost use Rattle.lus_program.specs.Programs.{Program};
ghost use Rattle.lus_play.specs.Plays.{HasPlayedAhead, HasPlayedAll, TurnFails, TurnIs, turn_of};
ghost use Rattle.lus_play.specs.declared.playing.Turn.TheVariants.{Ended, Unfinished};

use crate::entering::answer;
use crate::error::PlayError;
use crate::faults::{tell_refused, tell_unfinished};
use crate::parts::{Calls, Reacts, Speaks};
use crate::settling::settle;
use lus_bursts::{Syncs, Waiting};
use lus_devices::{Sink, Source};
use lus_lines::{Reading, read_line};
use std::alloc::Global;

/// How many lines were entered, and how many are no calls.
#[derive(Clone, Copy, PartialEq, Eq, Debug)]
pub struct Score {
    pub entered: u64,
    pub refused: u64,
}

/// What became of a line.
#[derive(Clone, Copy)]
enum Turn {
    /// Its call was made, and is entered; its reply is held.
    Entered,
    /// It is no call.
    Refused,
    /// The end was met in it.
    Unfinished,
    /// There is none.
    Ended,
}

fn turn_of(is_call: bool) -> Turn
    ensures { result ≡ turn_of is_call }
{
    if is_call {
        Turn::Entered
    } else {
        Turn::Refused
    }
}

/// Whether the replies that are held are due behind such a line: all, but where the log is synced those before a line that was read ahead,
/// which then are told with its own.
fn are_due(turn: Turn, is_synced: bool, waiting: &Waiting) -> bool
    ensures unfinished { turn ≡ Unfinished → result ≡ true }
    ensures ended { turn ≡ Ended → result ≡ true }
{
    match turn {
        Turn::Unfinished | Turn::Ended => true,
        Turn::Entered | Turn::Refused => !is_synced || waiting.take(),
    }
}

/// Reads a line, which has a number of its own, enters its call in the log, and holds its reply.
fn take_turn<C: Calls, R: Reacts, J: Speaks, T: Speaks, S: Source, L: Sink, F: Sink>(
    calls: &C,
    reactor: &mut R,
    scribe: &J,
    speaker: &T,
    number: u64,
    at: u64,
    line: &mut Vec<u8>,
    text: &mut String,
    input: &mut S,
    log: &mut L,
    held: &mut Vec<u8>,
    faults: &mut F,
) -> Result<Turn, PlayError>
    ensures ok { IfOk result (λ turn. TurnIs turn (C.reads calls.now) (J.says scribe.now) (T.says speaker.now) number
        (S.left input.old) (S.left input.new) (R.history reactor.old) (R.history reactor.new) (L.written log.old) (L.written log.new)
        held.old.items held.new.items) }
    ensures err { OnErr result (TurnFails (C.reads calls.now) (J.says scribe.now) number (S.left input.old)
        (R.history reactor.old) (R.history reactor.new) (L.written log.old) (L.written log.new)) }
    ensures same { (p : Program) (f : ℕ) → R.is_of reactor.old p f → R.is_of reactor.new p f }
{
    match read_line(input, line)? {
        Reading::Line => {
            let is_call = answer(
                calls, reactor, scribe, speaker, number, at, line, text, log, held, faults,
            )?;
            Ok(turn_of(is_call))
        }
        Reading::Long => Ok(Turn::Refused),
        Reading::Unfinished => Ok(Turn::Unfinished),
        Reading::End => Ok(Turn::Ended),
    }
}

/// Makes the call of each line, enters it in the log, the first under this number, and then tells its reply, until no line is left; where
/// the log is synced, once it was synced with it: once for all calls whose lines were read ahead. A line that is no call enters nothing,
/// and `faults` is given its number and what is wrong. No more is kept than one line, its call and its entry, and the replies that wait.
pub fn play<C: Calls, R: Reacts, J: Speaks, T: Speaks, S: Source, L: Syncs, O: Sink, F: Sink>(
    alloc: Global,
    calls: &C,
    reactor: &mut R,
    scribe: &J,
    speaker: &T,
    first: u64,
    is_synced: bool,
    waiting: &Waiting,
    input: &mut S,
    log: &mut L,
    output: &mut O,
    faults: &mut F,
) -> Result<Score, PlayError>
    ensures all { IfOk result (λ score. HasPlayedAll (C.reads calls.now) (J.says scribe.now) (T.says speaker.now)
        (WasKept is_synced L L.syncs L.written) first (S.left input.old) (S.left input.new) (R.history reactor.old) (R.history reactor.new)
        (L.written log.old) (L.written log.new) (O.written output.old) (O.written output.new) score) }
    ensures some { OnErr result (HasPlayedAhead (C.reads calls.now) (J.says scribe.now) (T.says speaker.now)
        (WasKept is_synced L L.syncs L.written) first (S.left input.old) (R.history reactor.old) (R.history reactor.new)
        (L.written log.old) (L.written log.new) (O.written output.old) (O.written output.new)) }
    ensures same { (p : Program) (f : ℕ) → R.is_of reactor.old p f → R.is_of reactor.new p f }
{
    let mut line = Vec::new(alloc);
    let mut text = String::new(alloc);
    let mut held = Vec::new(alloc);
    let mut refused = 0u64;
    for turn in 0..u64::MAX - first {
        let number = first + (turn - refused);
        let at = calls.first_line().saturating_add(turn);
        let taken = take_turn(
            calls, reactor, scribe, speaker, number, at, &mut line, &mut text, input, log,
            &mut held, faults,
        )?;
        let is_due = are_due(taken, is_synced, waiting);
        settle(is_due, is_synced, log, output, &mut held)?;
        match taken {
            Turn::Entered => {}
            Turn::Refused => {
                tell_refused(calls, faults, at, &line);
                refused += 1;
            }
            Turn::Unfinished => {
                tell_unfinished(faults, at);
                return Ok(Score {
                    entered: turn - refused,
                    refused: refused + 1,
                });
            }
            Turn::Ended => return Ok(Score {
                entered: turn - refused,
                refused,
            }),
        }
    }
    Err(PlayError::Full)
}

//! Entering a call in the log, and holding its reply.

ghost use Rattle.std.specs.Prelude.{◌≡◌, ◌++◌, ℕ, IfOk, OnErr, OnOk};
ghost use Rattle.lus_devices.specs.Devices.{WritesBeginning, with_text};
ghost use Rattle.lus_program.specs.Programs.{Program};
ghost use Rattle.lus_play.specs.Plays.{AnswerFails, Answers};

use crate::error::PlayError;
use crate::parts::{Calls, Reacts, Speaks};
use crate::settling::{hold, write_bytes};
use lus_devices::Sink;
use lus_requests::Entry;

/// Writes the text of an entry in the log, all or a beginning of it.
fn enter<J: Speaks, L: Sink>(
    scribe: &J,
    number: u64,
    entry: &Entry,
    text: &mut String,
    log: &mut L,
) -> Result<(), PlayError>
    ensures whole { OnOk result (L.written log.new ≡ with_text (L.written log.old) (J.says scribe.now number entry.now)) }
    ensures begun { OnErr result (WritesBeginning (L.written log.old) (L.written log.new) (J.says scribe.now number entry.now)) }
{
    text.clear();
    scribe.push(text, number, entry)?;
    write_bytes(log, text.as_bytes())
}

/// Keeps the reply of an entry until it is written.
fn hold_reply<T: Speaks>(
    speaker: &T,
    number: u64,
    entry: &Entry,
    text: &mut String,
    held: &mut Vec<u8>,
) -> Result<(), PlayError>
    ensures { OnOk result (held.new.items ≡ held.old.items ++ T.says speaker.now number entry.now) }
{
    text.clear();
    speaker.push(text, number, entry)?;
    hold(held, text.as_str())
}

/// Makes the call of a line, which has a number of its own, enters it in the log, and holds its reply; or says that the line is no call.
pub(crate) fn answer<C: Calls, R: Reacts, J: Speaks, T: Speaks, L: Sink, F: Sink>(
    calls: &C,
    reactor: &mut R,
    scribe: &J,
    speaker: &T,
    number: u64,
    at: u64,
    line: &[u8],
    text: &mut String,
    log: &mut L,
    held: &mut Vec<u8>,
    faults: &mut F,
) -> Result<bool, PlayError>
    ensures ok { IfOk result (λ is_call. Answers (C.reads calls.now) (J.says scribe.now) (T.says speaker.now) number line.now is_call
        (R.history reactor.old) (R.history reactor.new) (L.written log.old) (L.written log.new) held.old.items held.new.items) }
    ensures err { OnErr result (AnswerFails (C.reads calls.now) (J.says scribe.now) number line.now
        (R.history reactor.old) (R.history reactor.new) (L.written log.old) (L.written log.new)) }
    ensures same { (p : Program) (f : ℕ) → R.is_of reactor.old p f → R.is_of reactor.new p f }
{
    let Some(request) = calls.read(line)? else {
        return Ok(false);
    };
    let reply = reactor.call(&request)?;
    let entry = Entry {
        caller: 0,
        request,
        reply,
    };
    enter(scribe, number, &entry, text, log)?;
    hold_reply(speaker, number, &entry, text, held)?;
    calls.remark(at, &entry, faults);
    Ok(true)
}

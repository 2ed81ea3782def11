//! One line of a journal.

ghost use Rattle.std.specs.Prelude.{◌≡◌, ℕ, IfOk, string_bytes};
ghost use Rattle.lus_program.specs.Programs.{Program};
ghost use Rattle.lus_replay.specs.Replays.{IsCompared, IsJudged};

use crate::asked::{asks, spell};
use lus_asked::read_asked;
use lus_play::Reacts;
use lus_requests::Entry;
use lus_values::{Memory, Names};
use std::alloc::Global;

/// What a line of a journal is.
#[derive(Clone, Copy, PartialEq, Eq, Debug)]
pub enum Verdict {
    /// The line of an entry, with the right reply.
    Right,
    /// The line of an entry whose reply isn't the right one.
    Wrong,
    /// No line of an entry of this number.
    NoEntry,
}

/// What a line is beside the right one of an entry.
fn compare(
    alloc: Global,
    names: &Names,
    caller: &str,
    number: u64,
    entry: Entry,
    line: &[u8],
    right: &[u8],
) -> Result<Verdict, Memory>
    ensures { IfOk result (λ v. IsCompared v names.now caller.now number entry.request line.now right.now) }
{
    if line == right {
        return Ok(Verdict::Right);
    }
    if asks(alloc, names, caller, number, entry, line)? {
        Ok(Verdict::Wrong)
    } else {
        Ok(Verdict::NoEntry)
    }
}

/// Asks the request of an entry's line again, the nth of an instance's journal, and spells in `right` the line that is right: so says
/// whether it is this one. The line ends with its line feed.
pub fn replay_line<R: Reacts>(
    alloc: Global,
    reactor: &mut R,
    names: &Names,
    number: u64,
    line: &[u8],
    right: &mut String,
) -> Result<Verdict, Memory>
    ensures judged { IfOk result (λ v. IsJudged v names.now number line.now (string_bytes right.new)
        (R.history reactor.old) (R.history reactor.new)) }
    ensures same { (p : Program) (f : ℕ) → R.is_of reactor.old p f → R.is_of reactor.new p f }
{
    let Some((caller, request)) = read_asked(alloc, names, line)? else {
        return Ok(Verdict::NoEntry);
    };
    let reply = reactor.call(&request)?;
    let entry = Entry {
        caller: 0,
        request,
        reply,
    };
    spell(alloc, names, caller, number, &entry, right)?;
    compare(alloc, names, caller, number, entry, line, right.as_bytes())
}

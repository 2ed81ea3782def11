//! Hosting many instances.

ghost use Rattle.std.specs.Prelude.{◌≡◌, ◌<◌, [], None, Some, IfErr, IfOk, List, OnErr, OnOk, length, option_map, string_bytes, true};
ghost use Rattle.std.specs.Arc.{arc_value};
ghost use Rattle.lus_bursts.specs.Syncs.{IsSafe};
ghost use Rattle.lus_devices.specs.Devices.{WritesBeginning, with_text};
ghost use Rattle.lus_live_instance.specs.MachineSpecs.CodeSpecs.Codes.{program_of};
ghost use Rattle.lus_live_instance.specs.MachineSpecs.Constructors.{names_of};
ghost use Rattle.lus_hosting.specs.Hosts.{Keeps, ReadsTurn, TurnFails, WritesSome, WritesTurn};
ghost use Rattle.lus_hosting.specs.Logs.{Logged};
ghost use Rattle.lus_hosting.specs.Spellings.{log_spelling, no_spelling};
ghost use Rattle.lus_hosting.specs.Turns.{AreSafe, HasHosted, HasHostedSome, StopsBy, calls, everything, reads_seen};

use crate::error::HostError;
use crate::host::Host;
use crate::instances::{Instances, no_instances};
use crate::recovering::Recovered;
use crate::settling::are_due;
use crate::telling::{LogLines, Silent, Tells};
use crate::turns::{Kind, Texts, answer, answer_long, clear};
use crate::words::Lines;
use lus_bursts::{Syncs, Waiting};
use lus_devices::{Sink, Source, write_all};
use lus_lines::{Reading, read_line};
use lus_live_instance::lus_machine::{NodeId, Program};
use lus_play::{PlayError, Score, hold, settle};
use lus_sessions::Nowhere;
use std::alloc::Global;
use std::collections::hash_map::RandomState;
use std::sync::Arc;

/// Reads a line, and says what becomes of it.
fn read_turn<J: Tells, T: Tells, S: Source>(
    host: Host<'_>,
    instances: &mut Instances,
    lines: Lines<'_>,
    scribe: &J,
    teller: &T,
    input: &mut S,
    line: &mut Vec<u8>,
    texts: &mut Texts,
    right: &mut String,
) -> Result<Kind, PlayError>
    requires { host.node.0 < length (program_of (arc_value host.program.now)).nodes }
    ensures { (log : List Logged) → Keeps (program_of (arc_value host.entry.program.now)) host.entry.node.0 log instances.old
        → IfOk result (λ kind. ReadsTurn kind (reads_seen lines.entry) (program_of (arc_value host.entry.program.now)) host.entry.node.0
        (J.spelling scribe.now) (T.spelling teller.now) log (S.left input.old) (S.left input.new)
        (string_bytes texts.new.entry) (string_bytes texts.new.answer) instances.new) }
{
    match read_line(input, line)? {
        Reading::Line => answer(host, instances, lines, scribe, teller, line, texts, right),
        Reading::Long => answer_long(teller, texts),
        Reading::Unfinished => {
            clear(texts);
            Ok(Kind::Unfinished)
        }
        Reading::End => {
            clear(texts);
            Ok(Kind::Ended)
        }
    }
}

/// Writes a text, all or a beginning of it.
fn write_text<O: Sink>(output: &mut O, text: &str) -> Result<(), PlayError>
    ensures whole { OnOk result (O.written output.new ≡ with_text (O.written output.old) text.now) }
    ensures beginning { OnErr result (WritesBeginning (O.written output.old) (O.written output.new) text.now) }
{
    match write_all(output, text.as_bytes()) {
        Ok(()) => Ok(()),
        Err(_) => Err(PlayError::Write),
    }
}

/// Writes an entry in the log, and holds its answer.
fn write_entry<L: Sink>(texts: &Texts, log: &mut L, held: &mut Vec<u8>) -> Result<(), PlayError>
    ensures whole { OnOk result ((L.written log.new ≡ with_text (L.written log.old) (string_bytes texts.now.entry))
        × (Some held.new.items ≡ with_text (Some held.old.items) (string_bytes texts.now.answer))) }
    ensures some { OnErr result (WritesSome (string_bytes texts.now.entry) (string_bytes texts.now.answer)
        (L.written log.old) (L.written log.new) None None) }
{
    write_text(log, texts.entry.as_str())?;
    hold(held, texts.answer.as_str())
}

/// Reads a line, and writes its entry. What is to be answered is held.
fn take_turn<J: Tells, T: Tells, S: Source, L: Sink>(
    host: Host<'_>,
    instances: &mut Instances,
    lines: Lines<'_>,
    scribe: &J,
    teller: &T,
    input: &mut S,
    log: &mut L,
    held: &mut Vec<u8>,
    line: &mut Vec<u8>,
    texts: &mut Texts,
    right: &mut String,
) -> Result<Kind, PlayError>
    requires { host.node.0 < length (program_of (arc_value host.program.now)).nodes }
    ensures ok { (before : List Logged) → Keeps (program_of (arc_value host.entry.program.now)) host.entry.node.0 before instances.old
        → IfOk result (λ kind. WritesTurn kind (reads_seen lines.entry) (program_of (arc_value host.entry.program.now)) host.entry.node.0
        (J.spelling scribe.now) (T.spelling teller.now) before (S.left input.old) (S.left input.new)
        (L.written log.old) (L.written log.new) (Some held.old.items) (Some held.new.items) instances.new) }
    ensures err { (before : List Logged) → Keeps (program_of (arc_value host.entry.program.now)) host.entry.node.0 before instances.old
        → OnErr result (TurnFails (reads_seen lines.entry) (program_of (arc_value host.entry.program.now)) host.entry.node.0
        (J.spelling scribe.now) (T.spelling teller.now) before (S.left input.old)
        (L.written log.old) (L.written log.new) None None) }
{
    let kind = read_turn(
        host, instances, lines, scribe, teller, input, line, texts, right,
    )?;
    write_entry(texts, log, held)?;
    Ok(kind)
}

/// Takes each line on the instances, behind the entries that they have. What is kept is the instances, one line and its entry, however many
/// there were, and where the log is synced the answers to the lines that were read ahead.
fn host_lines<J: Tells, T: Tells, S: Source, L: Syncs, O: Sink>(
    host: Host<'_>,
    instances: &mut Instances,
    lines: Lines<'_>,
    scribe: &J,
    teller: &T,
    is_synced: bool,
    waiting: &Waiting,
    input: &mut S,
    log: &mut L,
    output: &mut O,
    line: &mut Vec<u8>,
    right: &mut String,
) -> Result<Score, HostError>
    requires { host.node.0 < length (program_of (arc_value host.program.now)).nodes }
    ensures all { (before : List Logged) → Keeps (program_of (arc_value host.entry.program.now)) host.entry.node.0 before instances.old
        → IfOk result (λ score. HasHosted (reads_seen lines.entry) (program_of (arc_value host.entry.program.now)) host.entry.node.0
        (J.spelling scribe.now) (T.spelling teller.now) before (S.left input.old) (S.left input.new)
        (L.written log.old) (L.written log.new) (O.written output.old) (O.written output.new) score) }
    ensures begun { (before : List Logged) → Keeps (program_of (arc_value host.entry.program.now)) host.entry.node.0 before instances.old
        → OnErr result (HasHostedSome (reads_seen lines.entry) (program_of (arc_value host.entry.program.now)) host.entry.node.0
        (J.spelling scribe.now) (T.spelling teller.now) before (S.left input.old)
        (L.written log.old) (L.written log.new) (O.written output.old) (O.written output.new)) }
    ensures safe { (before : List Logged) → Keeps (program_of (arc_value host.entry.program.now)) host.entry.node.0 before instances.old
        → is_synced ≡ true → AreSafe (reads_seen lines.entry) (program_of (arc_value host.entry.program.now)) host.entry.node.0
        (J.spelling scribe.now) (T.spelling teller.now) before (IsSafe L L.syncs L.written) (S.left input.old)
        (L.written log.old) (L.written log.new) (O.written output.old) (O.written output.new) }
    ensures stops { (before : List Logged) → Keeps (program_of (arc_value host.entry.program.now)) host.entry.node.0 before instances.old
        → IfErr result (StopsBy (reads_seen lines.entry)) }
{
    let mut texts = Texts {
        entry: String::new(host.alloc),
        answer: String::new(host.alloc),
    };
    let mut held = Vec::new(host.alloc);
    let mut entered = 0u64;
    let mut refused = 0u64;
    for turn in 0..u64::MAX {
        let kind = take_turn(
            host, instances, lines, scribe, teller, input, log, &mut held, line, &mut texts, right,
        )?;
        let is_due = are_due(kind, is_synced, waiting);
        settle(is_due, is_synced, log, output, &mut held)?;
        match kind {
            Kind::Called => entered += 1,
            Kind::Replayed => entered += 1,
            Kind::Noted => {}
            Kind::Denied => refused += 1,
            Kind::Wrong => return Err(HostError::Wrong(turn + 1)),
            Kind::NoEntry => return Err(HostError::Line(turn + 1)),
            Kind::Unfinished => return Ok(Score {
                entered,
                refused: refused + 1,
            }),
            Kind::Ended => return Ok(Score { entered, refused }),
        }
    }
    Err(HostError::Full)
}

/// Makes the call of each line on the instance that it names, and writes its entry before the next line is read; replays the entry of
/// each line that has one, of which nothing is written; and passes over notes. An instance is made where a line first names it. A line
/// that is none of these enters nothing, and is answered in its place with the reason. An entry that isn't the next of its instance, or
/// has another reply than the right one, ends the run: it is in `line`, and where its reply is wrong the line that would be right is
/// in `right`: the contract says what was done before an error, and not which error it is. `keys` are of the names' hash function.
pub fn host_many<T: Tells, S: Source, O: Sink>(
    alloc: Global,
    program: &Arc<Program>,
    node: NodeId,
    keys: RandomState,
    teller: &T,
    input: &mut S,
    output: &mut O,
    line: &mut Vec<u8>,
    right: &mut String,
) -> Result<Score, HostError>
    requires { node.0 < length (program_of (arc_value program.now)).nodes }
    ensures all { IfOk result (λ score. HasHosted everything (program_of (arc_value program.now)) node.0 no_spelling (T.spelling teller.now) []
        (S.left input.old) (S.left input.new) None None (O.written output.old) (O.written output.new) score) }
    ensures begun { OnErr result (HasHostedSome everything (program_of (arc_value program.now)) node.0 no_spelling (T.spelling teller.now) []
        (S.left input.old) None None (O.written output.old) (O.written output.new)) }
{
    let host = Host {
        alloc,
        program,
        node,
    };
    let mut instances = no_instances(alloc, keys, false);
    let silent = Silent;
    let mut nowhere = Nowhere;
    host_lines(
        host,
        &mut instances,
        Lines::All,
        &silent,
        teller,
        false,
        &Waiting::new(),
        input,
        &mut nowhere,
        output,
        line,
        right,
    )
}

/// Hosts instances whose answers are the lines of a log, which another run takes as its input.
pub fn host_log<S: Source, O: Sink>(
    alloc: Global,
    program: &Arc<Program>,
    node: NodeId,
    keys: RandomState,
    input: &mut S,
    output: &mut O,
    line: &mut Vec<u8>,
    right: &mut String,
) -> Result<Score, HostError>
    requires { node.0 < length (program_of (arc_value program.now)).nodes }
    ensures all { IfOk result (λ score. HasHosted everything (program_of (arc_value program.now)) node.0 no_spelling
        (log_spelling (names_of (program_of (arc_value program.now)))) []
        (S.left input.old) (S.left input.new) None None (O.written output.old) (O.written output.new) score) }
    ensures begun { OnErr result (HasHostedSome everything (program_of (arc_value program.now)) node.0 no_spelling
        (log_spelling (names_of (program_of (arc_value program.now)))) []
        (S.left input.old) None None (O.written output.old) (O.written output.new)) }
{
    let teller = LogLines {
        alloc,
        names: program.names(),
    };
    host_many(
        alloc, program, node, keys, &teller, input, output, line, right,
    )
}

/// Goes on in a log behind what was recovered of it: makes the call of each line on the instance that it names, of the caller that it names
/// or of this one, and answers it once the line of its entry is whole in the log, and where that is synced once it was synced with it: once
/// for all calls whose lines wait, that is, were read ahead. A line that is no call enters nothing, and is answered with the reason: no line
/// ends the run.
pub fn host_behind<T: Tells, S: Source, L: Syncs, O: Sink>(
    alloc: Global,
    program: &Arc<Program>,
    node: NodeId,
    recovered: Recovered,
    caller: Option<&str>,
    teller: &T,
    is_synced: bool,
    waiting: &Waiting,
    input: &mut S,
    log: &mut L,
    output: &mut O,
) -> Result<Score, HostError>
    requires { node.0 < length (program_of (arc_value program.now)).nodes }
    ensures all { (before : List Logged) → Keeps (program_of (arc_value program.now)) node.0 before recovered.instances
        → IfOk result (λ score. HasHosted (calls (option_map (λ t. t.now) caller.entry)) (program_of (arc_value program.now)) node.0
        (log_spelling (names_of (program_of (arc_value program.now)))) (T.spelling teller.now) before
        (S.left input.old) (S.left input.new) (L.written log.old) (L.written log.new) (O.written output.old) (O.written output.new) score) }
    ensures begun { (before : List Logged) → Keeps (program_of (arc_value program.now)) node.0 before recovered.instances
        → OnErr result (HasHostedSome (calls (option_map (λ t. t.now) caller.entry)) (program_of (arc_value program.now)) node.0
        (log_spelling (names_of (program_of (arc_value program.now)))) (T.spelling teller.now) before
        (S.left input.old) (L.written log.old) (L.written log.new) (O.written output.old) (O.written output.new)) }
    ensures safe { (before : List Logged) → Keeps (program_of (arc_value program.now)) node.0 before recovered.instances
        → is_synced ≡ true → AreSafe (calls (option_map (λ t. t.now) caller.entry)) (program_of (arc_value program.now)) node.0
        (log_spelling (names_of (program_of (arc_value program.now)))) (T.spelling teller.now) before (IsSafe L L.syncs L.written)
        (S.left input.old) (L.written log.old) (L.written log.new) (O.written output.old) (O.written output.new) }
    ensures lasts { (before : List Logged) → Keeps (program_of (arc_value program.now)) node.0 before recovered.instances
        → IfErr result (StopsBy (calls (option_map (λ t. t.now) caller.entry))) }
{
    let host = Host {
        alloc,
        program,
        node,
    };
    let names = program.names();
    let scribe = LogLines { alloc, names };
    let mut recovered = recovered;
    let mut line = Vec::new(alloc);
    let mut right = String::new(alloc);
    host_lines(
        host,
        &mut recovered.instances,
        Lines::Calls(caller),
        &scribe,
        teller,
        is_synced,
        waiting,
        input,
        log,
        output,
        &mut line,
        &mut right,
    )
}

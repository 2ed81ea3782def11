//! Auditing a log.

ghost use Rattle.std.specs.Prelude.{◌≡◌, ◌+◌, ◌++◌, ◌<◌, ◌∷◌, [], IfErr, IfOk, List, OnOk, codes, false, length, string_bytes, true};
ghost use Rattle.std.specs.Fmt.{decimal};
ghost use Rattle.std.specs.Arc.{arc_value};
ghost use Rattle.lus_lawful.specs.Errors.{BlamesIf, IsOutside};
ghost use Rattle.lus_live_instance.specs.MachineSpecs.Acceptance.{IsAccepted};
ghost use Rattle.lus_live_instance.specs.MachineSpecs.CodeSpecs.Codes.{program_of};
ghost use Rattle.lus_hosting.specs.Audits.{FindsInLog, FindsLine, HasAuditedLog, IsFound, IsNoLog, LogEntry, LogLine, Observes, SeesMore, wrong_log_text};
ghost use Rattle.lus_hosting.specs.Hosts.{Keeps};
ghost use Rattle.lus_hosting.specs.LastEntries.{IsEntryOf};
ghost use Rattle.lus_hosting.specs.Logs.{IsWord, Logged};
ghost use Rattle.lus_hosting.specs.Turns.{StandsBehind};
ghost use Rattle.lus_hosting.specs.declared.words.Words.TheVariants.{Entry as EntryWords};

use crate::host::Host;
use crate::instances::{Instances, no_instances, replay_on};
use crate::observer::LogObserver;
use crate::words::{Words, words_of};
use itoa::Buffer;
use lus_devices::Source;
use lus_lawful::AuditError;
use lus_lines::{Whole, read_whole_line};
use lus_live_instance::lus_machine::{NodeId, Program};
use lus_printable::push_printable;
use lus_replay::Verdict;
use lus_values::Memory;
use std::alloc::Global;
use std::collections::hash_map::RandomState;
use std::str::from_utf8;
use std::sync::Arc;

/// Whether a log is lawful, and what there is to say of it.
#[derive(Drop)]
pub struct LogReport {
    pub is_lawful: bool,
    pub text: Vec<u8>,
}

/// What was read where a line of a log begins.
#[derive(Clone, Copy, PartialEq, Eq)]
pub(crate) enum Found {
    /// An entry, and the right one.
    Right,
    /// A note.
    Noted,
    /// An entry that has another reply than the right one.
    Wrong,
    /// No line of a log.
    NoLine,
    /// What stands before the end in place of a line.
    Cut,
    /// The end.
    Over,
}

/// The program is one that was accepted.
fn is_accepted(program: &Program)
    ensures { IsAccepted (program_of program.now) }
{
    program.source();
}

/// Puts the line of an entry behind the name of its instance.
fn spell_behind(right: &mut String, instance: &str, entry: &str) -> Result<(), Memory>
    ensures { OnOk result (string_bytes right.new ≡ instance.now ++ 32 ∷ entry.now) }
{
    right.clear();
    right.push_str(instance)?;
    right.push_str(" ")?;
    right.push_str(entry)?;
    Ok(())
}

/// Replays the entry behind the name of an instance. Where its reply isn't the right one, the line of the log that would be right is in
/// `right`.
fn audit_entry(
    host: Host<'_>,
    instances: &mut Instances,
    instance: &str,
    entry: &str,
    right: &mut String,
) -> Result<Found, AuditError>
    requires { host.node.0 < length (program_of (arc_value host.program.now)).nodes }
    ensures found { (log : List Logged) → IsWord instance.now → StandsBehind entry.now (EntryWords instance.entry entry.entry)
        → Keeps (program_of (arc_value host.entry.program.now)) host.entry.node.0 log instances.old
        → IfOk result (λ found. IsFound found (program_of (arc_value host.entry.program.now)) host.entry.node.0 log
        (instance.now ++ 32 ∷ (entry.now ++ 10 ∷ [])) (string_bytes right.new) instances.new) }
    ensures outside { IfErr result IsOutside }
{
    let mut answer = String::new(host.alloc);
    let Ok(verdict) = replay_on(host, instances, instance, entry, &mut answer) else {
        return Err(AuditError::Memory);
    };
    match verdict {
        Verdict::Right => Ok(Found::Right),
        Verdict::Wrong => {
            spell_behind(right, instance, &answer)?;
            Ok(Found::Wrong)
        }
        Verdict::NoEntry => Ok(Found::NoLine),
    }
}

/// What a line is, which ends with its line feed.
fn audit_line(
    host: Host<'_>,
    instances: &mut Instances,
    line: &[u8],
    right: &mut String,
) -> Result<Found, AuditError>
    requires { host.node.0 < length (program_of (arc_value host.program.now)).nodes }
    ensures found { (log : List Logged) → Keeps (program_of (arc_value host.entry.program.now)) host.entry.node.0 log instances.old
        → IfOk result (λ found. IsFound found (program_of (arc_value host.entry.program.now)) host.entry.node.0 log line.now
        (string_bytes right.new) instances.new) }
    ensures outside { IfErr result IsOutside }
{
    let Ok(text) = from_utf8(line) else {
        return Ok(Found::NoLine);
    };
    let Some(text) = text.strip_suffix('\n') else {
        return Ok(Found::NoLine);
    };
    match words_of(text) {
        Words::Entry(instance, entry) => audit_entry(host, instances, instance, entry, right),
        Words::Note => Ok(Found::Noted),
        Words::Call(_, _, _) => Ok(Found::NoLine),
        Words::Short(_) => Ok(Found::NoLine),
        Words::Word => Ok(Found::NoLine),
        Words::Nameless => Ok(Found::NoLine),
    }
}

/// Reads the next line, and says what it is.
pub(crate) fn read_found<S: Source>(
    host: Host<'_>,
    instances: &mut Instances,
    source: &mut S,
    line: &mut Vec<u8>,
    right: &mut String,
) -> Result<Found, AuditError>
    requires { host.node.0 < length (program_of (arc_value host.program.now)).nodes }
    ensures found { (log : List Logged) → Keeps (program_of (arc_value host.entry.program.now)) host.entry.node.0 log instances.old
        → IfOk result (λ found. FindsLine found (program_of (arc_value host.entry.program.now)) host.entry.node.0 log
        (S.left source.old) (S.left source.new) line.new.items (string_bytes right.new) instances.new) }
    ensures outside { IfErr result IsOutside }
{
    match read_whole_line(source, line)? {
        Whole::Line => audit_line(host, instances, line, right),
        Whole::Unfinished => Ok(Found::Cut),
        Whole::End => Ok(Found::Over),
    }
}

/// Reports a lawful log of so many entries.
fn lawful_report(alloc: Global, entries: u64) -> Result<LogReport, Memory>
    ensures { IfOk result (λ r. (r.is_lawful ≡ true) × (r.text.items ≡ codes "entries " ++ decimal entries ++ codes " lawful\n")) }
{
    let mut text = Vec::new(alloc);
    text.extend_from_slice(b"entries ")?;
    text.extend_from_slice(Buffer::new().format(entries).as_bytes())?;
    text.extend_from_slice(b" lawful\n")?;
    Ok(LogReport {
        is_lawful: true,
        text,
    })
}

/// Reports the line of this number, which isn't the right one. Both lines end with their line feeds.
fn wrong_report(alloc: Global, number: u64, line: &[u8], right: &str) -> Result<LogReport, Memory>
    ensures { IfOk result (λ r. (r.is_lawful ≡ false) × (r.text.items ≡ wrong_log_text number line.now right.now)) }
{
    let mut text = Vec::new(alloc);
    text.extend_from_slice(b"line ")?;
    text.extend_from_slice(Buffer::new().format(number).as_bytes())?;
    text.extend_from_slice(b"\nwritten ")?;
    push_printable(alloc, &mut text, line)?;
    text.extend_from_slice(b"right   ")?;
    push_printable(alloc, &mut text, right.as_bytes())?;
    Ok(LogReport {
        is_lawful: false,
        text,
    })
}

/// Has the observer go on behind the right entry of the line of this number.
fn see_entry<O: LogObserver>(
    host: Host<'_>,
    instances: &Instances,
    line: u64,
    observer: &mut O,
) -> Result<(), AuditError>
    requires { host.node.0 < length (program_of (arc_value host.program.now)).nodes }
    ensures seen { let p = program_of (arc_value host.entry.program.now) in
        OnOk result ((lines : List LogLine) (l : Logged) → line ≡ length lines + 1 → IsEntryOf instances.now.last l
        → O.seen observer.old p host.entry.node.0 lines → O.seen observer.new p host.entry.node.0 (lines ++ LogEntry l ∷ [])) }
    ensures outside { IfErr result IsOutside }
{
    let entry = instances.last.as_ref();
    observer.see(host.alloc, host.program, host.node, line, entry)
}

/// Has the observer go on behind what was found, which begins on the line of this number.
fn observe<O: LogObserver>(
    host: Host<'_>,
    instances: &Instances,
    found: Found,
    line: u64,
    observer: &mut O,
) -> Result<(), AuditError>
    requires { host.node.0 < length (program_of (arc_value host.program.now)).nodes }
    ensures seen { let p = program_of (arc_value host.entry.program.now) in
        OnOk result ((lines : List LogLine) → line ≡ length lines + 1 → O.seen observer.old p host.entry.node.0 lines
        → SeesMore found instances.now.last (O.seen observer.new p host.entry.node.0) lines) }
    ensures outside { IfErr result IsOutside }
{
    match found {
        Found::Right => see_entry(host, instances, line, observer),
        Found::Wrong => see_entry(host, instances, line, observer),
        Found::Noted => {
            observer.pass();
            Ok(())
        }
        Found::NoLine | Found::Cut | Found::Over => Ok(()),
    }
}

/// Audits a log of instances of a node: each entry is replayed on a new instance of its name, up to the first whose reply isn't the right
/// one, and the right entries are observed meanwhile, also that of the line that isn't right; notes are passed over. It is an error of a line where that is none of a log, which no line is of a log
/// that can be read back: it is then in `line`. No more is kept than the instances, two lines and the observer. `keys` are of the names'
/// hash function.
pub fn audit_log<S: Source, O: LogObserver>(
    alloc: Global,
    program: &Arc<Program>,
    node: NodeId,
    keys: RandomState,
    source: &mut S,
    line: &mut Vec<u8>,
    observer: &mut O,
) -> Result<LogReport, AuditError>
    requires { node.0 < length (program_of (arc_value program.now)).nodes }
    ensures sound { let p = program_of (arc_value program.now) in
        IfOk result (λ r. HasAuditedLog p node.0 (Observes (O.seen observer.old p node.0) (O.seen observer.new p node.0)) r.is_lawful
        (S.left source.old) r.text.items) }
    ensures complete { IfOk result (λ r. FindsInLog (program_of (arc_value program.now)) node.0 r.is_lawful (S.left source.old) r.text.items) }
    ensures blames { IfErr result (BlamesIf (IsNoLog (program_of (arc_value program.now)) (S.left source.old))) }
{
    is_accepted(program);
    let host = Host {
        alloc,
        program,
        node,
    };
    let mut instances = no_instances(alloc, keys, observer.recalls());
    let mut right = String::new(alloc);
    let mut entries = 0u64;
    for lines in 0..u64::MAX {
        let found = read_found(host, &mut instances, source, line, &mut right)?;
        observe(host, &instances, found, lines + 1, observer)?;
        match found {
            Found::Right => entries += 1,
            Found::Noted => {}
            Found::Wrong => return Ok(wrong_report(alloc, lines + 1, line, &right)?),
            Found::NoLine => return Err(AuditError::Line(lines + 1)),
            Found::Cut => return Err(AuditError::Line(lines + 1)),
            Found::Over => return Ok(lawful_report(alloc, entries)?),
        }
    }
    Err(AuditError::Memory)
}

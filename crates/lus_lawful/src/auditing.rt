//! Audits.

ghost use Rattle.std.specs.Prelude.{◌≡◌, ◌+◌, ◌<◌, ◌++◌, ◌∷◌, [], IfErr, IfOk, List, OnOk, Some, codes, is_none, length, string_bytes};
ghost use Rattle.std.specs.Arc.{arc_value};
ghost use Rattle.lus_devices.specs.Devices.{with_front};
ghost use Rattle.lus_lines.specs.Lines.{IsWholeLine};
ghost use Rattle.lus_live_instance.specs.MachineSpecs.Acceptance.{IsAccepted};
ghost use Rattle.lus_live_instance.specs.MachineSpecs.CodeSpecs.Codes.{program_of};
ghost use Rattle.lus_live_instance.specs.MachineSpecs.Formals.{node_named};
ghost use Rattle.lus_lawful.specs.Audits.{Gathers, HasAudited, HasReplayedLawfully, TurnIs};
ghost use Rattle.lus_lawful.specs.Errors.{BlamesIf, IsOutside};
ghost use Rattle.lus_lawful.specs.Findings.{AreNone, Finds, FindsAll, FindsBehind, IsNone, IsNoneBehind};
ghost use Rattle.lus_lawful.specs.Journals.{Journal, entries_of, head_of, lawful_text};

use crate::error::AuditError;
use crate::head::{Head, begins_journals, read_head};
use crate::observed::new_observed;
use crate::observer::{Observer, Observers};
use crate::texts::{push_lawful, push_wrong};
use lus_devices::Source;
use lus_lines::{Whole, read_whole_line};
use lus_live_instance::lus_machine::{NodeId, Program};
use lus_replay::{Ending, Replayed, replay};
use std::alloc::Global;
use std::sync::Arc;

/// What there is to say of journals, and the number of the first line that isn't the right one, if there is one.
#[derive(Drop)]
pub struct Report {
    pub wrong: Option<u64>,
    pub text: Vec<u8>,
}

/// What was found of a journal.
#[derive(Clone, Copy)]
enum Turn {
    /// It is lawful, and ends behind so many lines of all. The first line of the next journal was read.
    Next(u64),
    /// It is lawful, and the last.
    Last,
    /// The line of this number isn't the right one.
    Wrong(u64),
}

/// The program is one that was accepted.
fn is_accepted(program: &Program)
    ensures { IsAccepted (program_of program.now) }
{
    program.source();
}

/// Replays the lines of a journal behind its first on a new instance of the node, which is observed.
fn replay_new<S: Source, O: Observer + Drop>(
    alloc: Global,
    program: &Arc<Program>,
    node: NodeId,
    source: &mut S,
    line: &mut Vec<u8>,
    right: &mut String,
    observer: O,
) -> Result<(Replayed, O), AuditError>
    requires within { node.0 < length (program_of (arc_value program.now)).nodes }
    requires begun { O.seen observer (program_of (arc_value program.now)) node.0 [] }
    ensures replayed { let p = program_of (arc_value program.now) in
        IfOk result (λ r. HasReplayedLawfully p node.0 (O.seen r.1 p node.0) r.0 (S.left source.old) (S.left source.new) line.new.items (string_bytes right.new)) }
    ensures outside { IfErr result IsOutside }
{
    let mut observed = new_observed(alloc, program, node, observer)?;
    let replayed = replay(alloc, &mut observed, program.names(), source, line, right)?;
    if observed.is_lost {
        return Err(AuditError::Memory);
    }
    Ok((replayed, observed.observer))
}

/// How many lines these are and so many further ones.
fn lines_behind(lines: u64, further: u64) -> Result<u64, AuditError>
    ensures sum { IfOk result (λ n. n ≡ lines + further) }
    ensures outside { IfErr result IsOutside }
{
    lines.checked_add(further).ok_or(AuditError::Memory)
}

/// How many lines these are, a journal's first and so many behind it.
fn lines_with(lines: u64, items: u64) -> Result<u64, AuditError>
    ensures sum { IfOk result (λ n. n ≡ lines + items + 1) }
    ensures outside { IfErr result IsOutside }
{
    lines_behind(lines_behind(lines, items)?, 1)
}

/// An observer of an instance of this name and node, whose journal begins behind so many lines.
fn begin_journal<O: Observers>(
    alloc: Global,
    program: &Arc<Program>,
    instance: &str,
    node: NodeId,
    lines: u64,
    observers: &mut O,
) -> Result<O::Observer, AuditError>
    requires { node.0 < length (program_of (arc_value program.now)).nodes }
    ensures new { IfOk result (λ o. O.Observer.seen o (program_of (arc_value program.now)) node.0 []) }
    ensures kept { let p = program_of (arc_value program.now) in
        OnOk result ((js : List Journal) → O.gathered observers.old p js → O.gathered observers.new p js) }
    ensures outside { IfErr result IsOutside }
{
    let line = lines_behind(lines, 1)?;
    let observer = observers.begin(alloc, program, instance, node, line)?;
    Ok(observer)
}

/// Gives back the observer of a lawful journal, whose last line has this number, and reports the journal.
fn pass_journal<O: Observers>(
    alloc: Global,
    program: &Arc<Program>,
    instance: &str,
    node: NodeId,
    observer: O::Observer,
    is_whole: bool,
    line: u64,
    report: &mut Vec<u8>,
    observers: &mut O,
) -> Result<(), AuditError>
    ensures reported { OnOk result (report.new.items ≡ report.old.items ++ lawful_text instance.now is_whole line) }
    ensures gathered { let p = program_of (arc_value program.now) in
        OnOk result ((js : List Journal) (j : Journal) → instance.now ≡ j.instance → node_named p j.node ≡ Some node.0
        → O.Observer.seen observer p node.0 (entries_of j) → O.gathered observers.old p js → O.gathered observers.new p (js ++ j ∷ [])) }
    ensures outside { IfErr result IsOutside }
{
    observers.end(alloc, program, instance, node, observer, is_whole)?;
    push_lawful(alloc, report, instance, is_whole, line)?;
    Ok(())
}

/// Audits a journal whose first line was read, behind so many lines, and reports on it. What ended it is then in `line`.
fn audit_journal<S: Source, O: Observers>(
    alloc: Global,
    program: &Arc<Program>,
    head: Head<'_>,
    node: NodeId,
    lines: u64,
    source: &mut S,
    line: &mut Vec<u8>,
    report: &mut Vec<u8>,
    observers: &mut O,
) -> Result<Turn, AuditError>
    requires { node_named (program_of (arc_value program.now)) head.node.now ≡ Some node.0 }
    ensures sound { let p = program_of (arc_value program.now) in
        IfOk result (λ turn. TurnIs turn p (Gathers (O.gathered observers.old p) (O.gathered observers.new p)) lines
        (with_front (head_of head.entry.instance.now head.entry.node.now ++ codes "\n") (S.left source.old)) (S.left source.new)
        line.new.items report.old.items report.new.items) }
    ensures complete { IfOk result (λ turn. FindsBehind turn (program_of (arc_value program.now)) lines
        head.entry.instance.now head.entry.node.now (S.left source.old) (S.left source.new)
        line.new.items report.old.items report.new.items) }
    ensures blames { IfErr result (BlamesIf (IsNoneBehind (program_of (arc_value program.now))
        head.entry.instance.now head.entry.node.now (S.left source.old))) }
{
    let mut right = String::new(alloc);
    let name = head.instance;
    let observer = begin_journal(alloc, program, name, node, lines, observers)?;
    let (replayed, seen) = replay_new(alloc, program, node, source, line, &mut right, observer)?;
    let behind = lines_with(lines, replayed.lines)?;
    let is_counted = replayed.is_counted;
    match replayed.ending {
        Ending::Next => {
            pass_journal(
                alloc, program, name, node, seen, is_counted, behind, report, observers,
            )?;
            Ok(Turn::Next(behind))
        }
        Ending::End => {
            pass_journal(
                alloc, program, name, node, seen, is_counted, behind, report, observers,
            )?;
            Ok(Turn::Last)
        }
        Ending::Cut => {
            pass_journal(
                alloc, program, name, node, seen, false, behind, report, observers,
            )?;
            Ok(Turn::Last)
        }
        Ending::Wrong => {
            let number = lines_behind(behind, 1)?;
            push_wrong(alloc, report, name, number, line, &right)?;
            Ok(Turn::Wrong(number))
        }
        Ending::NoEntry => Err(AuditError::Line(lines_behind(behind, 1)?)),
    }
}

/// Audits the journal whose first line this is, with its line feed, behind so many lines.
fn audit_behind<S: Source, O: Observers>(
    alloc: Global,
    program: &Arc<Program>,
    first: &[u8],
    lines: u64,
    source: &mut S,
    line: &mut Vec<u8>,
    report: &mut Vec<u8>,
    observers: &mut O,
) -> Result<Turn, AuditError>
    requires { IsAccepted (program_of (arc_value program.now)) }
    ensures sound { let p = program_of (arc_value program.now) in
        IfOk result (λ turn. TurnIs turn p (Gathers (O.gathered observers.old p) (O.gathered observers.new p)) lines
        (with_front first.now (S.left source.old)) (S.left source.new) line.new.items report.old.items report.new.items) }
    ensures complete { IfOk result (λ turn. Finds turn (program_of (arc_value program.now)) lines first.now
        (S.left source.old) (S.left source.new) line.new.items report.old.items report.new.items) }
    ensures blames { IfErr result (BlamesIf (IsNone (program_of (arc_value program.now)) first.now (S.left source.old))) }
{
    let number = lines_behind(lines, 1)?;
    let Some(head) = read_head(first) else {
        return Err(AuditError::Line(number));
    };
    match program.node(head.node) {
        Some(node) => audit_journal(
            alloc, program, head, node, lines, source, line, report, observers,
        ),
        None => Err(AuditError::Line(number)),
    }
}

/// Audits the journals of which the first line was read, one behind another, and says which line of all isn't the right one.
fn audit_all<S: Source, O: Observers>(
    alloc: Global,
    program: &Arc<Program>,
    first: Vec<u8>,
    source: &mut S,
    observers: &mut O,
    report: &mut Vec<u8>,
) -> Result<Option<u64>, AuditError>
    requires empty { report.old.items ≡ [] }
    requires accepted { IsAccepted (program_of (arc_value program.now)) }
    requires whole { IsWholeLine first.items }
    ensures sound { let p = program_of (arc_value program.now) in
        IfOk result (λ wrong. HasAudited p (Gathers (O.gathered observers.old p) (O.gathered observers.new p)) wrong
        (with_front first.items (S.left source.old)) report.new.items) }
    ensures complete { IfOk result (λ wrong. FindsAll (program_of (arc_value program.now)) (is_none wrong)
        (with_front first.items (S.left source.old)) report.new.items) }
    ensures blames { IfErr result (BlamesIf (AreNone (program_of (arc_value program.now))
        (with_front first.items (S.left source.old)))) }
{
    let mut first = first;
    let mut line = Vec::new(alloc);
    let mut lines = 0u64;
    for _journal in 0..u64::MAX {
        match audit_behind(
            alloc, program, &first, lines, source, &mut line, report, observers,
        )? {
            Turn::Next(behind) => {
                lines = behind;
                first = line;
                line = Vec::new(alloc);
            }
            Turn::Last => return Ok(None),
            Turn::Wrong(number) => return Ok(Some(number)),
        }
    }
    Err(AuditError::Memory)
}

/// Audits journals, one behind another: each is replayed on a new instance of its node, up to the first line that isn't right, and
/// observed meanwhile. One that ends early, without the number of its entries or within a line, is audited to its last whole line, and
/// the report says so; of one that ends within its first line it says nothing. No more is kept than an instance, two lines, the report and the observers. It is an error of a line where that is
/// none of a journal, which no line is of journals that can be read back.
pub fn audit<S: Source, O: Observers>(
    alloc: Global,
    program: &Arc<Program>,
    source: &mut S,
    observers: &mut O,
) -> Result<Report, AuditError>
    ensures sound { let p = program_of (arc_value program.now) in
        IfOk result (λ r. HasAudited p (Gathers (O.gathered observers.old p) (O.gathered observers.new p)) r.wrong (S.left source.old) r.text.items) }
    ensures complete { IfOk result (λ r. FindsAll (program_of (arc_value program.now)) (is_none r.wrong) (S.left source.old) r.text.items) }
    ensures blames { IfErr result (BlamesIf (AreNone (program_of (arc_value program.now)) (S.left source.old))) }
{
    is_accepted(program);
    let mut first = Vec::new(alloc);
    let mut text = Vec::new(alloc);
    match read_whole_line(source, &mut first)? {
        Whole::Line => {
            let wrong = audit_all(alloc, program, first, source, observers, &mut text)?;
            Ok(Report { wrong, text })
        }
        Whole::Unfinished => {
            if begins_journals(&first) {
                Ok(Report { wrong: None, text })
            } else {
                Err(AuditError::Line(1))
            }
        }
        Whole::End => Ok(Report { wrong: None, text }),
    }
}

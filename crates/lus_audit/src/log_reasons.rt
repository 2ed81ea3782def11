//! Why requests of a log were refused.

ghost use Rattle.std.specs.Prelude.{◌≡◌, ◌+◌, ◌<◌, ◌++◌, ◌∷◌, [], ℕ, IfOk, List, None, OnOk, Some, length, string_bytes, ⊤};
ghost use Rattle.std.specs.Bool.{Decides};
ghost use Rattle.indexmap.specs.IndexMap.{get_by_text};
ghost use Rattle.lus_cli.specs.CodeSpecs.Codes.{program_of};
ghost use Rattle.lus_hosting.specs.Audits.{LogEntry, LogLine};
ghost use Rattle.lus_hosting.specs.Logs.{Logged};
ghost use Rattle.lus_hosting.specs.LastEntries.{IsEntryOf};
ghost use Rattle.lus_printable.specs.Printable.{printable};
ghost use Rattle.lus_program.specs.Programs.{Program as PlainProgram};
ghost use Rattle.lus_windows.specs.Reasons.{Explains};
ghost use Rattle.lus_audit.specs.LogReasons.{Follows, HasExplained, IsRefused};

use indexmap::IndexMap;
use lus_hosting::lus_lawful::AuditError;
use lus_hosting::lus_live_instance::lus_machine::{NodeId, Program};
use lus_hosting::{LogObserver, NamedEntry};
use lus_printable::printable;
use lus_requests::{Entry, Reply};
use lus_values::Memory;
use lus_windows::Explainer;
use std::alloc::Global;
use std::collections::hash_map::RandomState;

/// What is kept of instances by their names, which strangers choose: the hash function has keys of its own.
pub(crate) type Explainers = IndexMap<String, Explainer, RandomState>;

/// The reasons of a log's refused entries so far, a line each, and what is kept of the instances that are followed for them. An instance
/// with a refused entry that isn't followed is only named: its reasons need its entries from the first on, so they take another audit.
#[derive(Drop)]
pub(crate) struct Explanations {
    followed: Explainers,
    pub(crate) unfollowed: Explainers,
    pub(crate) text: String,
    /// Whether each refused entry is of an instance that is followed.
    pub(crate) is_whole: bool,
    /// How many lines were seen.
    pub(crate) lines: u64,
}

/// What is kept of an instance of this name before its first entry.
fn explainer_of(
    alloc: Global,
    program: &Program,
    node: NodeId,
    instance: &str,
) -> Result<Explainer, Memory>
    requires { node.0 < length (program_of program.now).nodes }
    ensures { IfOk result (Explains (program_of program.now) node.0 (printable instance.now) []) }
{
    let shown = printable(alloc, instance.as_bytes())?;
    Explainer::new(alloc, program.source(), node.0, shown.as_str())
}

/// Names an instance, if it isn't named yet.
fn name_instance(
    explainers: &mut Explainers,
    alloc: Global,
    program: &Program,
    node: NodeId,
    instance: &str,
) -> Result<(), Memory>
    requires { node.0 < length (program_of program.now).nodes }
    ensures { let p = program_of program.now in
        OnOk result (Follows p node.0 [] (get_by_text explainers.old) → Follows p node.0 [] (get_by_text explainers.new)) }
{
    if explainers.contains_key(instance) {
        return Ok(());
    }
    let explainer = explainer_of(alloc, program, node, instance)?;
    let key = String::from_str(alloc, instance)?;
    explainers.insert(key, explainer)?;
    Ok(())
}

fn is_refused(reply: &Reply) -> bool
    ensures { Decides result (IsRefused reply.now) }
{
    matches!(reply, Reply::Refused(_))
}

impl Explanations {
    /// None yet, of a log of which these instances are to be followed.
    pub(crate) fn new(alloc: Global, followed: Explainers, keys: RandomState) -> Explanations
        ensures { (p : PlainProgram) (f : ℕ) → Follows p f [] (get_by_text followed) → HasExplained p f [] result }
    {
        Explanations {
            followed,
            unfollowed: IndexMap::with_hasher(alloc, keys),
            text: String::new(alloc),
            is_whole: true,
            lines: 0,
        }
    }

    /// Goes on behind an entry of an instance that isn't followed: names that where it was refused.
    fn pass_over(
        &mut self,
        alloc: Global,
        program: &Program,
        node: NodeId,
        named: &NamedEntry,
    ) -> Result<(), Memory>
        requires { node.0 < length (program_of program.now).nodes }
        ensures { let p = program_of program.now in
            OnOk result ((lines : List LogLine) (l : Logged) → IsEntryOf (Some named.now) l → get_by_text self.old.followed l.instance ≡ None
            → HasExplained p node.0 lines self.old → HasExplained p node.0 (lines ++ LogEntry l ∷ []) self.new) }
    {
        if !is_refused(&named.entry.reply) {
            return Ok(());
        }
        self.is_whole = false;
        let unfollowed = &mut self.unfollowed;
        name_instance(unfollowed, alloc, program, node, named.instance.as_str())
    }

    /// Goes on behind an entry of an instance that is followed, on the line of this number.
    fn follow(
        &mut self,
        alloc: Global,
        program: &Program,
        line: u64,
        named: &NamedEntry,
    ) -> Result<(), Memory>
        ensures { let p = program_of program.now in
            OnOk result ((f : ℕ) (lines : List LogLine) (l : Logged) → line ≡ length lines + 1 → IsEntryOf (Some named.now) l
            → HasExplained p f lines self.old → HasExplained p f (lines ++ LogEntry l ∷ []) self.new) }
    {
        let (source, names) = (program.source(), program.names());
        let Entry { request, reply, .. } = &named.entry;
        let text = &mut self.text;
        match self.followed.get_mut(named.instance.as_str()) {
            Some(explainer) => explainer.explain(alloc, source, names, line, request, reply, text),
            None => Err(Memory),
        }
    }

    /// Goes on behind an entry, on the line of this number.
    fn go_on(
        &mut self,
        alloc: Global,
        program: &Program,
        node: NodeId,
        line: u64,
        named: &NamedEntry,
    ) -> Result<(), Memory>
        requires { node.0 < length (program_of program.now).nodes }
        ensures { let p = program_of program.now in
            OnOk result ((lines : List LogLine) (l : Logged) → line ≡ length lines + 1 → IsEntryOf (Some named.now) l
            → HasExplained p node.0 lines self.old → HasExplained p node.0 (lines ++ LogEntry l ∷ []) self.new) }
    {
        if self.followed.contains_key(named.instance.as_str()) {
            self.follow(alloc, program, line, named)
        } else {
            self.pass_over(alloc, program, node, named)
        }
    }
}

impl LogObserver for Explanations {
    ghost seen = { λ e p f lines. HasExplained p f lines e };

    fn recalls(&self) -> bool {
        true
    }

    fn see(
        &mut self,
        alloc: Global,
        program: &Program,
        node: NodeId,
        line: u64,
        entry: Option<&NamedEntry>,
    ) -> Result<(), AuditError> {
        let Some(named) = entry else {
            return Err(AuditError::Memory);
        };
        self.lines = line;
        self.go_on(alloc, program, node, line, named)?;
        Ok(())
    }

    fn pass(&mut self) {
        self.lines = self.lines.saturating_add(1);
    }
}

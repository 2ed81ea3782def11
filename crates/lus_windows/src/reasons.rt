//! Reasons of refused requests, one behind another.

ghost use Rattle.std.specs.Prelude.{◌≡◌, ◌++◌, ◌∷◌, ◌<◌, ℕ, Bool, List, [], IfOk, MatchOption, OnOk, length, string_bytes};
ghost use Rattle.lus_values.specs.Lists.{Each};
ghost use Rattle.lus_values.specs.Names.{Names as PlainNames, Text};
ghost use Rattle.lus_values.specs.Text.{Begins};
ghost use Rattle.lus_program.specs.Programs.{Program as PlainProgram};
ghost use Rattle.lus_program.specs.Resolved.{Resolved};
ghost use Rattle.lus_program.specs.View.{program_seen};
ghost use Rattle.lus_requests.specs.declared.request.Entry.{Entry};
ghost use Rattle.lus_streams.specs.OnClock.{ProgramOnClocks};
ghost use Rattle.lus_simulation.specs.Lineages.{Lineage};
ghost use Rattle.lus_order.specs.Orders.{IsNarrow, NeedsVariables};
ghost use Rattle.lus_worlds.specs.Finding.{IsReady};
ghost use Rattle.lus_windows.specs.Finding.{FaultsAt, NoneRefused};
ghost use Rattle.lus_windows.specs.Reasons.{Explains, ExplainsNext, HasHead, HasNoted, SaysBehind, SaysRefused, SaysRows, TellsEntry, rows_in};
ghost use Rattle.lus_windows.specs.Windows.{IsReached, entry_by, orders_in};

use crate::faults::push_fault;
use crate::finding::{Found, find};
use crate::window::Window;
use itoa::Buffer;
use lus_program::Program;
use lus_refusals::{push_refusal, why_word};
use lus_requests::{Reply, Request, Why};
use lus_values::{Memory, Names, Row};
use std::alloc::Global;
use std::slice;

/// What is kept of an instance whose refused requests are explained as they come: its name, and what its entries left of its lineages.
#[derive(Drop)]
pub struct Explainer {
    instance: String,
    window: Window,
    picked: Vec<Row>,
}

/// The reasons of an instance's refused requests so far, a line each.
#[derive(Drop)]
pub struct Reasons {
    explainer: Explainer,
    line: u64,
    text: String,
}

/// Appends which of several rows it is.
fn push_row(text: &mut String, rows: &[Row], row: usize) -> Result<(), Memory>
    ensures { OnOk result (Begins (string_bytes text.old) (string_bytes text.new)) }
{
    if rows.len() > 1 {
        text.push_str("row ")?;
        text.push_str(Buffer::new().format((row as u64).saturating_add(1)))?;
        text.push_str(", ")?;
    }
    Ok(())
}

/// The first of these rows at which a part is at fault, behind what was reached, if one is found.
fn find_behind(
    alloc: Global,
    program: &Program,
    window: &Window,
    rows: &[Row],
) -> Result<Option<Found>, Memory>
    ensures { let p = program_seen program.now in
        let f = window.now.node in
        IfOk result (λ o. (sure : Bool) (l : Lineage) → IsReady p (orders_in window.now) f → IsReached sure p f l window.now.reached
        → MatchOption o (NoneRefused sure p f l rows.now) (λ g. FaultsAt p f l rows.now g.fault g.row)) }
{
    match &window.reached.moment {
        Some(moment) => find(alloc, program, &window.orders, window.node, rows, moment),
        None => Ok(None),
    }
}

/// Appends which of several rows has a fault, and the fault, behind so many instants.
fn push_found(
    text: &mut String,
    alloc: Global,
    program: &Program,
    names: &Names,
    node: u32,
    rows: &[Row],
    found: &Found,
    instants: u64,
) -> Result<(), Memory>
    ensures { OnOk result (SaysBehind names.now found.now.fault (string_bytes text.old) (string_bytes text.new)) }
{
    push_row(text, rows, found.row)?;
    let number = instants.saturating_add(found.row as u64).saturating_add(1);
    push_fault(text, alloc, program, names, node, &found.fault, number)
}

/// Appends which part is at fault at the first of these rows at which one is, behind what was reached; or that it can't be told.
fn push_rows(
    text: &mut String,
    alloc: Global,
    program: &Program,
    names: &Names,
    window: &Window,
    rows: &[Row],
) -> Result<(), Memory>
    ensures { let p = program_seen program.now in
        let f = window.now.node in
        OnOk result ((sure : Bool) (l : Lineage) → IsReady p (orders_in window.now) f → IsReached sure p f l window.now.reached → SaysRows p f names.now sure l rows.now (string_bytes text.old) (string_bytes text.new)) }
{
    match find_behind(alloc, program, window, rows)? {
        Some(found) => {
            let (node, instants) = (window.node, window.reached.instants);
            push_found(text, alloc, program, names, node, rows, &found, instants)
        }
        None => {
            text.push_str("which operation has no value can't be told")?;
            Ok(())
        }
    }
}

/// The rows of a request for instants.
fn rows_of(request: &Request) -> &[Row]
    ensures { result.now ≡ rows_in request.now }
{
    match request {
        Request::Step(inputs) => slice::from_ref(inputs),
        Request::Burst(rows) => rows.items(),
        Request::Reset | Request::Save(_) | Request::Restore(_) => &[],
    }
}

/// Appends on which line a request was refused, and for what.
fn push_head(text: &mut String, instance: &str, line: u64, why: Why) -> Result<(), Memory>
    ensures { OnOk result (HasHead instance.now line (string_bytes text.old) (string_bytes text.new)) }
{
    text.push_str(instance)?;
    text.push_str(" line ")?;
    text.push_str(Buffer::new().format(line))?;
    text.push_str(" refused ")?;
    text.push_str(why_word(why))?;
    text.push_str(": ")?;
    Ok(())
}

/// Appends why a request was refused, if not for a fault.
fn push_other(
    text: &mut String,
    alloc: Global,
    program: &Program,
    names: &Names,
    node: u32,
    request: &Request,
    why: Why,
) -> Result<(), Memory>
    ensures { OnOk result (Begins (string_bytes text.old) (string_bytes text.new)) }
{
    let mut reason = String::new(alloc);
    push_refusal(
        &mut reason,
        alloc,
        program,
        names,
        node as usize,
        request,
        why,
    )?;
    text.push_str(&reason)?;
    Ok(())
}

/// Appends why a request was refused, behind what was reached.
fn push_refused(
    text: &mut String,
    alloc: Global,
    program: &Program,
    names: &Names,
    window: &Window,
    request: &Request,
    why: Why,
) -> Result<(), Memory>
    ensures { let p = program_seen program.now in
        let f = window.now.node in
        OnOk result ((sure : Bool) (l : Lineage) → IsReady p (orders_in window.now) f → IsReached sure p f l window.now.reached → SaysRefused p f names.now sure l request.now why (string_bytes text.old) (string_bytes text.new)) }
{
    if let Why::Fault = why {
        push_rows(text, alloc, program, names, window, rows_of(request))
    } else {
        push_other(text, alloc, program, names, window.node, request, why)
    }
}

/// Appends the line of a request, which has this number, where that was refused.
fn push_entry(
    text: &mut String,
    alloc: Global,
    program: &Program,
    names: &Names,
    explainer: &Explainer,
    line: u64,
    request: &Request,
    reply: &Reply,
) -> Result<(), Memory>
    ensures { let p = program_seen program.now in
        let w = explainer.now.window in
        OnOk result ((sure : Bool) (l : Lineage) → IsReady p (orders_in w) w.node → IsReached sure p w.node l w.reached
        → TellsEntry p w.node names.now (string_bytes explainer.now.instance) line sure l request.now reply.now (string_bytes text.old) (string_bytes text.new)) }
{
    let Reply::Refused(why) = reply else {
        return Ok(());
    };
    let window = &explainer.window;
    push_head(text, &explainer.instance, line, *why)?;
    push_refused(text, alloc, program, names, window, request, *why)?;
    text.push_str("\n")?;
    Ok(())
}

impl Explainer {
    /// Before the first request of an instance of this name and node.
    pub fn new(
        alloc: Global,
        program: &Program,
        node: u32,
        instance: &str,
    ) -> Result<Explainer, Memory>
        requires resolved { Resolved (program_seen program.now) }
        requires node { node < length (program_seen program.now).nodes }
        requires needs { Each NeedsVariables (program_seen program.now).nodes }
        requires narrow { Each IsNarrow (program_seen program.now).nodes }
        ensures { IfOk result (Explains (program_seen program.now) node instance.now []) }
    {
        Ok(Explainer {
            instance: String::from_str(alloc, instance)?,
            window: Window::new(alloc, program, node)?,
            picked: Vec::new(alloc),
        })
    }

    /// Goes on behind an entry, the instance's next, whose line has this number: appends a line that says why, where it was refused. What
    /// is kept doesn't grow with the entries.
    pub fn explain(
        &mut self,
        alloc: Global,
        program: &Program,
        names: &Names,
        line: u64,
        request: &Request,
        reply: &Reply,
        text: &mut String,
    ) -> Result<(), Memory>
        requires clocks { ProgramOnClocks (program_seen program.now) }
        ensures { let p = program_seen program.now in
            OnOk result ((f : ℕ) (instance : Text) (h : List Entry) (c : ℕ) → Explains p f instance h self.old
            → ExplainsNext p f names.now instance line h (entry_by c request.now reply.now) (string_bytes text.old) (string_bytes text.new) self.new) }
    {
        push_entry(text, alloc, program, names, self, line, request, reply)?;
        self.picked.clear();
        let picked = &mut self.picked;
        self.window
            .follow(alloc, program, request, reply, &[], picked)
    }
}

impl Reasons {
    /// Before the first request of an instance of this name and node, whose journal's first line has this number in the file.
    pub fn new(
        alloc: Global,
        program: &Program,
        node: u32,
        instance: &str,
        line: u64,
    ) -> Result<Reasons, Memory>
        requires resolved { Resolved (program_seen program.now) }
        requires node { node < length (program_seen program.now).nodes }
        requires needs { Each NeedsVariables (program_seen program.now).nodes }
        requires narrow { Each IsNarrow (program_seen program.now).nodes }
        ensures { IfOk result (λ r. (names : PlainNames) → HasNoted (program_seen program.now) node names instance.now line [] r) }
    {
        Ok(Reasons {
            explainer: Explainer::new(alloc, program, node, instance)?,
            line,
            text: String::new(alloc),
        })
    }

    /// Goes on behind a line that is no entry.
    pub fn pass(&mut self)
        ensures { (p : PlainProgram) (f : ℕ) (names : PlainNames) (instance : Text) (first : ℕ) (h : List Entry)
            → HasNoted p f names instance first h self.old → HasNoted p f names instance first h self.new }
    {
        self.line = self.line.saturating_add(1);
    }

    /// The reasons so far, a line each.
    pub fn text(&self) -> &str
        ensures { result.now ≡ string_bytes self.now.text }
    {
        self.text.as_str()
    }

    /// Goes on behind an entry, the next of the journal: says why, where it was refused.
    pub fn note(
        &mut self,
        alloc: Global,
        program: &Program,
        names: &Names,
        request: &Request,
        reply: &Reply,
    ) -> Result<(), Memory>
        requires clocks { ProgramOnClocks (program_seen program.now) }
        ensures { let p = program_seen program.now in
            OnOk result ((f : ℕ) (instance : Text) (first : ℕ) (h : List Entry) (c : ℕ) → HasNoted p f names.now instance first h self.old
            → HasNoted p f names.now instance first (h ++ entry_by c request.now reply.now ∷ []) self.new) }
    {
        self.line = self.line.saturating_add(1);
        let text = &mut self.text;
        self.explainer
            .explain(alloc, program, names, self.line, request, reply, text)
    }
}

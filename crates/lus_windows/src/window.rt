//! What is kept of the lineages of an instance.

ghost use Rattle.std.specs.Prelude.{◌≡◌, ◌<◌, ◌++◌, ◌∷◌, ℕ, Bool, List, [], IfOk, IsTrue, MatchOption, None as Nothing, OnOk, length, map, replicate};
ghost use Rattle.lus_values.specs.Lists.{Each};
ghost use Rattle.lus_program.specs.Programs.{Program as PlainProgram};
ghost use Rattle.lus_program.specs.Resolved.{Resolved};
ghost use Rattle.lus_program.specs.View.{program_seen};
ghost use Rattle.lus_requests.specs.declared.request.Entry.{Entry};
ghost use Rattle.lus_order.specs.Orders.{IsNarrow, NeedsVariables};
ghost use Rattle.lus_simulation.specs.Lineages.{Lineage};
ghost use Rattle.lus_history.specs.Pasts.{Past, after};
ghost use Rattle.lus_history.specs.Replies.{slots as slot_count};
ghost use Rattle.lus_streams.specs.OnClock.{ProgramOnClocks};
ghost use Rattle.lus_worlds.specs.Finding.{IsReady};
ghost use Rattle.lus_worlds.specs.Worlds.{IsFurther};
ghost use Rattle.lus_windows.specs.Picks.{AppendsPicked, GoesOn, IsOver, accepted};
ghost use Rattle.lus_windows.specs.Windows.{HasFollowed, IsReached, KeepsPast, entry_by, has_slot, is_lost};

use crate::picks::{Pick, pick_row};
use lus_order::orders_of;
use lus_program::Program;
use lus_requests::{Reply, Request};
use lus_values::{Memory, Row};
use lus_worlds::{Moment, Stop, extend, keep, start};
use std::alloc::Global;
use std::slice;

/// How many slots an instance has.
const SLOTS: u64 = 8;

/// What is kept behind a lineage, if there are streams for it, and how many instants that has.
#[derive(Drop)]
pub(crate) struct Reached {
    pub(crate) moment: Option<Moment>,
    pub(crate) instants: u64,
}

/// What is kept behind an instance's lineage, and behind each that a slot saves.
#[derive(Drop)]
pub struct Window {
    pub(crate) node: u32,
    pub(crate) orders: Vec<Vec<u32>>,
    pub(crate) reached: Reached,
    saved: Vec<Option<Reached>>,
}

/// What is kept of a node before its first instant.
fn begin(alloc: Global, program: &Program, node: u32) -> Result<Reached, Memory>
    ensures { let p = program_seen program.now in
        IfOk result (λ r. (sure : Bool) → Resolved p → node < length p.nodes → IsReached sure p node [] r) }
{
    let moment = start(alloc, program, node)?;
    Ok(Reached {
        moment,
        instants: 0,
    })
}

/// A copy of what is kept.
fn copy_of(alloc: Global, reached: &Reached) -> Result<Reached, Memory>
    ensures { IfOk result (λ r. (sure : Bool) (p : PlainProgram) (f : ℕ) (l : Lineage) → IsReached sure p f l reached.now → IsReached sure p f l r) }
{
    let instants = reached.instants;
    match &reached.moment {
        Some(moment) => {
            let kept = keep(alloc, moment)?;
            Ok(Reached {
                moment: Some(kept),
                instants,
            })
        }
        None => Ok(Reached {
            moment: None,
            instants,
        }),
    }
}

/// The next instant behind what is kept, with these inputs, if there is one.
fn next(
    alloc: Global,
    program: &Program,
    orders: &[Vec<u32>],
    node: u32,
    inputs: &Row,
    reached: &Reached,
) -> Result<Option<Moment>, Memory>
    ensures { let p = program_seen program.now in
        IfOk result (λ o. MatchOption o (IsOver p node (map (λ order. order.items) orders.now) inputs.now reached.now)
        (λ m. MatchOption reached.now.moment ⊥ (λ old. IsReady p (map (λ order. order.items) orders.now) node → IsFurther p node inputs.now old m))) }
{
    let Some(old) = &reached.moment else {
        return Ok(None);
    };
    match extend(alloc, program, orders, node, inputs.items(), old) {
        Ok(next) => Ok(Some(next)),
        Err(Stop::Memory) => Err(Memory),
        Err(Stop::Fault(_)) => Ok(None),
        Err(Stop::Presence) => Ok(None),
    }
}

/// Goes on behind one instant more, whose inputs are these, and appends the picked entries of it; nothing is kept where there is none.
fn go_on(
    alloc: Global,
    program: &Program,
    orders: &[Vec<u32>],
    node: u32,
    inputs: &Row,
    picks: &[Pick],
    reached: &mut Reached,
    picked: &mut Vec<Row>,
) -> Result<(), Memory>
    ensures { OnOk result (GoesOn (program_seen program.now) node (map (λ order. order.items) orders.now) (inputs.now ∷ []) picks.now reached.old reached.new picked.old.items picked.new.items) }
{
    let instants = reached.instants.saturating_add(1);
    match next(alloc, program, orders, node, inputs, reached)? {
        Some(moment) => {
            let row = pick_row(alloc, &moment, picks)?;
            picked.push(row)?;
            *reached = Reached {
                moment: Some(moment),
                instants,
            };
            Ok(())
        }
        None => {
            *reached = Reached {
                moment: None,
                instants,
            };
            Ok(())
        }
    }
}

/// Goes on behind further instants, whose inputs are these, one behind another.
fn go_through(
    alloc: Global,
    program: &Program,
    orders: &[Vec<u32>],
    node: u32,
    rows: &[Row],
    picks: &[Pick],
    reached: &mut Reached,
    picked: &mut Vec<Row>,
) -> Result<(), Memory>
    ensures { OnOk result (GoesOn (program_seen program.now) node (map (λ order. order.items) orders.now) rows.now picks.now reached.old reached.new picked.old.items picked.new.items) }
{
    for inputs in rows {
        go_on(alloc, program, orders, node, inputs, picks, reached, picked)?;
    }
    Ok(())
}

/// The rows that an entry has an instance live through.
fn accepted_rows<'r>(request: &'r Request, reply: &Reply) -> &'r [Row]
    ensures { result.now ≡ accepted request.now reply.now }
{
    match (request, reply) {
        (Request::Step(inputs), Reply::Outputs(_)) => slice::from_ref(inputs),
        (Request::Burst(rows), Reply::Rows(_)) => rows.items(),
        _ => &[],
    }
}

/// Slots that save nothing.
fn empty_slots(alloc: Global) -> Result<Vec<Option<Reached>>, Memory>
    ensures { IfOk result (λ s. s.items ≡ replicate slot_count Nothing) }
{
    let mut slots = Vec::new(alloc);
    for _slot in 0..SLOTS {
        slots.push(None)?;
    }
    Ok(slots)
}

impl Window {
    /// Before the first entry of an instance of a node.
    pub fn new(alloc: Global, program: &Program, node: u32) -> Result<Window, Memory>
        requires resolved { Resolved (program_seen program.now) }
        requires node { node < length (program_seen program.now).nodes }
        requires needs { Each NeedsVariables (program_seen program.now).nodes }
        requires narrow { Each IsNarrow (program_seen program.now).nodes }
        ensures { IfOk result (λ w. HasFollowed (program_seen program.now) node [] w) }
    {
        let Ok(orders) = orders_of(alloc, program) else {
            return Err(Memory);
        };
        let reached = begin(alloc, program, node)?;
        let saved = empty_slots(alloc)?;
        Ok(Window {
            node,
            orders,
            reached,
            saved,
        })
    }

    /// Whether nothing is kept behind the lineage any more: there are no streams for it.
    pub fn is_lost(&self) -> bool
        ensures { result ≡ is_lost self.now }
    {
        self.reached.moment.is_none()
    }

    /// Has a slot save what is kept now.
    fn save(&mut self, alloc: Global, slot: u64) -> Result<(), Memory>
        ensures { OnOk result ((sure : Bool) (p : PlainProgram) (f : ℕ) (past : Past) → KeepsPast sure p f past self.old
            → KeepsPast sure p f (after past (Request.Save slot) Reply.Done) self.new) }
    {
        let slot = slot as usize;
        if slot >= self.saved.len() {
            return Ok(());
        }
        let reached = copy_of(alloc, &self.reached)?;
        self.saved[slot] = Some(reached);
        Ok(())
    }

    /// Goes back to what a slot saves.
    fn restore(&mut self, alloc: Global, slot: u64) -> Result<(), Memory>
        ensures { OnOk result ((sure : Bool) (p : PlainProgram) (f : ℕ) (past : Past) → (IsTrue sure → slot < slot_count) → KeepsPast sure p f past self.old
            → KeepsPast sure p f (after past (Request.Restore slot) Reply.Done) self.new) }
    {
        match self.saved.get(slot as usize) {
            Some(Some(reached)) => {
                let reached = copy_of(alloc, reached)?;
                self.reached = reached;
                Ok(())
            }
            Some(None) => Ok(()),
            None => {
                self.reached.moment = None;
                Ok(())
            }
        }
    }

    /// Goes on behind a request that was done.
    fn follow_done(
        &mut self,
        alloc: Global,
        program: &Program,
        request: &Request,
    ) -> Result<(), Memory>
        ensures { let p = program_seen program.now in
            OnOk result ((sure : Bool) (f : ℕ) (past : Past) → (IsTrue sure → IsTrue (has_slot request.now Reply.Done)) → KeepsPast sure p f past self.old
            → KeepsPast sure p f (after past request.now Reply.Done) self.new) }
    {
        match request {
            Request::Reset => {
                self.reached = begin(alloc, program, self.node)?;
                Ok(())
            }
            Request::Save(slot) => self.save(alloc, *slot),
            Request::Restore(slot) => self.restore(alloc, *slot),
            Request::Step(_) | Request::Burst(_) => Ok(()),
        }
    }

    /// Goes on behind an entry. The picked entries of each instant that it accepted are appended, a row each.
    pub fn follow(
        &mut self,
        alloc: Global,
        program: &Program,
        request: &Request,
        reply: &Reply,
        picks: &[Pick],
        picked: &mut Vec<Row>,
    ) -> Result<(), Memory>
        requires clocks { ProgramOnClocks (program_seen program.now) }
        ensures followed { let p = program_seen program.now in
            OnOk result ((f : ℕ) (h : List Entry) (c : ℕ) → HasFollowed p f h self.old → HasFollowed p f (h ++ entry_by c request.now reply.now ∷ []) self.new) }
        ensures picked { let p = program_seen program.now in
            OnOk result (AppendsPicked p self.old self.new request.now reply.now picks.now picked.old.items picked.new.items) }
    {
        if let Reply::Done = reply {
            return self.follow_done(alloc, program, request);
        }
        go_through(
            alloc,
            program,
            &self.orders,
            self.node,
            accepted_rows(request, reply),
            picks,
            &mut self.reached,
            picked,
        )
    }
}

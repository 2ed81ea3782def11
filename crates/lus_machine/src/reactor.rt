//! Reactors.

ghost use Rattle.std.specs.Prelude.{◌≡◌, ◌<◌, ◌++◌, ◌∷◌, [], length, replicate, None, IfOk, OnErr};
ghost use Rattle.std.specs.Arc.{arc_value};
ghost use Rattle.lus_history.specs.Replies.{slots as slot_count};
ghost use Rattle.lus_eval.specs.CodeSpecs.Codes.{program_of};
ghost use Rattle.lus_machine.specs.Machines.{IsLawful, entry};

use crate::answers::{SLOTS, answer, answer_twice};
use crate::program::Program;
use crate::trace::Trace;
use lus_eval::{Object, Saved};
use lus_program::NodeId;
use lus_requests::{Entry, Reply, Request};
use lus_values::Memory;
use std::alloc::Global;
use std::marker::Model;
use std::sync::Arc;

/// An instance of a node with what it saves. It stores no history: only proofs read that of its calls.
pub struct Reactor {
    alloc: Global,
    program: Arc<Program>,
    node: NodeId,
    object: Object,
    slots: Vec<Option<Saved>>,
    trace: Trace,
}

impl Model for Reactor {
    ghost use Rattle.std.specs.Coded.{codes};
    ghost use Rattle.std.specs.Arc.{arc_value};
    ghost use Rattle.lus_values.specs.Coded.{coded_row};
    ghost use Rattle.lus_history.specs.CodedPrograms.{coded_expression};
    ghost use Rattle.lus_eval.specs.CodeSpecs.Codes.{program_of};
    ghost use Rattle.lus_machine.specs.Machines.{Told, Lives};

    ghost Value = { Told };

    ghost coded = { Prim.hlevel (codes, coded_row, coded_expression) };

    ghost view = { λ r. record { program = program_of (arc_value r.program); node = r.node.0; history = r.trace.entries } };

    ghost invariant = { λ r. Lives (arc_value r.program) r.node.0 r.trace.entries r.object r.slots.items };
}

fn empty_slots(alloc: Global) -> Result<Vec<Option<Saved>>, Memory>
    ensures { IfOk result (λ s. s.items ≡ replicate slot_count None) }
{
    let mut slots = Vec::new(alloc);
    for _slot in 0..SLOTS {
        slots.push(None)?;
    }
    Ok(slots)
}

fn copy_slots(alloc: Global, slots: &[Option<Saved>]) -> Result<Vec<Option<Saved>>, Memory>
    ensures { IfOk result (λ copies. copies.items ≡ slots.now) }
{
    let mut copies = Vec::new(alloc);
    for slot in slots {
        copies.push(copy_slot(slot)?)?;
    }
    Ok(copies)
}

fn copy_slot(slot: &Option<Saved>) -> Result<Option<Saved>, Memory>
    ensures { IfOk result (λ copy. copy ≡ slot.now) }
{
    match slot {
        Some(saved) => Ok(Some(saved.copy()?)),
        None => Ok(None),
    }
}

impl Reactor {
    /// A reactor that was never called.
    pub fn new(alloc: Global, program: Arc<Program>, node: NodeId) -> Result<Reactor, Memory>
        requires { node.0 < length (program_of (arc_value program)).nodes }
        ensures value { IfOk result (λ r. r ≡ record { program = program_of (arc_value program); node = node.0; history = [] }) }
        ensures legal { IfOk result IsLawful }
    {
        let object = Object::fresh(alloc, program.code(), node)?;
        let slots = empty_slots(alloc)?;
        Ok(Reactor {
            alloc,
            program,
            node,
            object,
            slots,
            trace: Trace::new(),
        })
    }

    /// Answers a request, or leaves all as it was: every growth is made before anything changes.
    pub fn call(&mut self, caller: u32, request: &Request) -> Result<Reply, Memory>
        ensures ok { IfOk result (λ a. self.new ≡ record self.old { history = self.old.history ++ entry caller request.now a ∷ [] }) }
        ensures err { OnErr result (self.new ≡ self.old) }
        ensures legal { IsLawful self.new }
    {
        let reply = answer(
            self.alloc,
            self.program.code(),
            &mut self.object,
            &mut self.slots,
            request,
        )?;
        self.trace = self.trace.and(&caller, request, &reply);
        Ok(reply)
    }

    /// A reactor with the same history, which goes on by itself: what the one answers changes nothing of the other.
    pub fn copy(&self) -> Result<Reactor, Memory>
        ensures { IfOk result (λ r. r ≡ self.now) }
    {
        let program = self.program.clone()?;
        let object = self.object.copy()?;
        let slots = copy_slots(self.alloc, &self.slots)?;
        Ok(Reactor {
            alloc: self.alloc,
            program,
            node: self.node,
            object,
            slots,
            trace: self.trace.copy(),
        })
    }

    /// Answers a request and enters it with its reply, or makes no entry and leaves all as it was.
    pub(crate) fn call_entered(
        &mut self,
        caller: u32,
        request: &Request,
        entries: &mut Vec<Entry>,
    ) -> Result<Reply, Memory>
        ensures ok { IfOk result (λ a. self.new ≡ record self.old { history = self.old.history ++ entry caller request.now a ∷ [] }) }
        ensures entered { IfOk result (λ a. entries.new.items ≡ entries.old.items ++ entry caller request.now a ∷ []) }
        ensures err { OnErr result (self.new ≡ self.old) }
        ensures kept { OnErr result (entries.new.items ≡ entries.old.items) }
        ensures legal { IsLawful self.new }
    {
        let request_kept = request.copy(self.alloc)?;
        entries.reserve(1)?;
        let (reply, reply_kept) = answer_twice(
            self.alloc,
            self.program.code(),
            &mut self.object,
            &mut self.slots,
            request,
        )?;
        self.trace = self.trace.and(&caller, request, &reply);
        entries.push_reserved(Entry {
            caller,
            request: request_kept,
            reply: reply_kept,
        });
        Ok(reply)
    }
}

// By hand, so that crates above call it: what a derive drops is proved again in each of them.
impl Drop for Reactor {
    fn drop(self) {
        let Reactor {
            alloc: _,
            program: _,
            node: _,
            object: _,
            slots: _,
            trace: _,
        } = self;
    }
}

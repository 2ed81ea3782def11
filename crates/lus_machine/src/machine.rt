//! Machines.

ghost use Rattle.std.specs.Prelude.{◌≡◌, ◌<◌, ◌++◌, ◌∷◌, [], length, Err, IfOk, IfErr};
ghost use Rattle.std.specs.Arc.{arc_value};
ghost use Rattle.lus_eval.specs.CodeSpecs.Codes.{program_of};
ghost use Rattle.lus_machine.specs.Machines.{IsLegal, entry, full};

use crate::error::CallError;
use crate::program::Program;
use crate::reactor::Reactor;
use lus_program::NodeId;
use lus_requests::{Entry, Reply, Request};
use lus_values::Memory;
use std::alloc::Global;
use std::marker::Model;
use std::sync::Arc;

/// The most entries of a history.
const FULL: usize = 4294967295;

/// An instance of a node, with the history of its calls.
pub struct Machine {
    reactor: Reactor,
    entries: Vec<Entry>,
}

impl Model for Machine {
    ghost use Rattle.std.specs.Coded.{codes};
    ghost use Rattle.lus_values.specs.Coded.{coded_row};
    ghost use Rattle.lus_history.specs.CodedPrograms.{coded_expression};
    ghost use Rattle.lus_machine.specs.Machines.{Told, IsStored};

    ghost Value = { Told };

    ghost coded = { Prim.hlevel (codes, coded_row, coded_expression) };

    ghost view = { λ m. m.reactor };

    ghost invariant = { λ m. IsStored m.reactor m.entries.items };
}

impl Machine {
    /// A machine that was never called.
    pub fn new(alloc: Global, program: Arc<Program>, node: NodeId) -> Result<Machine, Memory>
        requires { node.0 < length (program_of (arc_value program)).nodes }
        ensures { IfOk result (λ m. m ≡ record { program = program_of (arc_value program); node = node.0; history = [] }) }
    {
        let reactor = Reactor::new(alloc, program, node)?;
        Ok(Machine {
            reactor,
            entries: Vec::new(alloc),
        })
    }

    /// Answers a request and enters it with its reply, or makes no entry and leaves all as it was: room for the entry is taken
    /// first, a step whose outputs can't be kept is undone without memory, and a burst is tried by a copy of the object.
    pub fn call(&mut self, caller: u32, request: &Request) -> Result<Reply, CallError>
        ensures ok { IfOk result (λ a. self.new ≡ record self.old { history = self.old.history ++ entry caller request.now a ∷ [] }) }
        ensures err { IfErr result (λ e. self.new ≡ self.old) }
        ensures at_limit { length self.old.history ≡ full → result ≡ Err CallError.Full }
        ensures only_full { IfErr result (λ e. e ≡ CallError.Full → length self.old.history ≡ full) }
        ensures legal { IsLegal self.new }
    {
        if self.entries.len() >= FULL {
            return Err(CallError::Full);
        }
        let Ok(reply) = self
            .reactor
            .call_entered(caller, request, &mut self.entries)
        else {
            return Err(CallError::Memory);
        };
        Ok(reply)
    }

    /// The entries so far, the oldest first.
    pub fn history(&self) -> &[Entry]
        ensures value { result.now ≡ self.now.history }
        ensures legal { IsLegal self.now }
    {
        &self.entries
    }

    /// The entries, with which the machine is given up.
    pub fn into_history(self) -> Vec<Entry>
        ensures { result.items ≡ self.history }
    {
        let Machine {
            reactor: _,
            entries,
        } = self;
        entries
    }
}

// By hand, so that crates above call it: what a derive drops is proved again in each of them.
impl Drop for Machine {
    fn drop(self) {
        let Machine {
            reactor: _,
            entries: _,
        } = self;
    }
}

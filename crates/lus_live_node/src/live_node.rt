//! Instances whose entries are handed out.

ghost use Rattle.std.specs.Prelude.{◌≡◌, ◌<◌, [], length, Some, None, IfOk, IfErr, OnErr, MatchOption, string_bytes};
ghost use Rattle.std.specs.Arc.{arc_value};
ghost use Rattle.std.specs.Option.{option_map};
ghost use Rattle.lus_machine.specs.CodeSpecs.Codes.{program_of};
ghost use Rattle.lus_machine.specs.Machines.{IsLawful};
ghost use Rattle.lus_requests.specs.declared.request.Reply.{Reply as ReplyType};
ghost use Rattle.lus_live_node.specs.LiveNodes.{Enters, IsReplayed, IsTried, last_line, most_counted};

use lus_devices::push_line;
use lus_live_instance::Instance;
use lus_machine::{CallError, NodeId, Program, Reactor};
use lus_replay::{Verdict, replay_line};
use lus_requests::{Entry, Request};
use lus_values::Memory;
use std::alloc::Global;
use std::marker::Model;
use std::sync::Arc;

/// An instance of a node that keeps the last entry alone: what it takes doesn't grow with its calls. Who wants a journal asks for
/// the line of each entry before the next.
pub struct LiveNode {
    program: Arc<Program>,
    reactor: Reactor,
    entries: u64,
    last: Option<Entry>,
}

impl Model for LiveNode {
    ghost use Rattle.std.specs.Arc.{arc_value};
    ghost use Rattle.std.specs.Coded.{codes};
    ghost use Rattle.lus_values.specs.Coded.{coded_row};
    ghost use Rattle.lus_machine.specs.HistorySpecs.CodedPrograms.{coded_expression};
    ghost use Rattle.lus_machine.specs.CodeSpecs.Codes.{program_of};
    ghost use Rattle.lus_live_node.specs.LiveNodes.{Live, Keeps};

    ghost Value = { Live };

    ghost coded = { Prim.hlevel (codes, coded_row, coded_expression) };

    ghost view = { λ l. record { instance = l.reactor; last = l.last } };

    ghost invariant = { λ l. Keeps (program_of (arc_value l.program)) l.entries l.reactor l.last };
}

impl LiveNode {
    /// An instance that was never called.
    pub fn new(alloc: Global, program: &Arc<Program>, node: NodeId) -> Result<LiveNode, Memory>
        requires { node.0 < length (program_of (arc_value program.now)).nodes }
        ensures fresh { IfOk result (λ l. l ≡ record { instance = record { program = program_of (arc_value program.now); node = node.0; history = [] }; last = None }) }
        ensures lawful { IfOk result (λ l. IsLawful l.instance) }
    {
        let reactor = Reactor::new(alloc, program.clone()?, node)?;
        Ok(LiveNode {
            program: program.clone()?,
            reactor,
            entries: 0,
            last: None,
        })
    }

    /// Answers a request, and keeps its entry until the next; or leaves all as it was.
    pub fn call(&mut self, request: Request) -> Result<(), CallError>
        ensures entered { IfOk result (λ _. (reply : ReplyType) × Enters self.old self.new request reply) }
        ensures lawful { IsLawful self.new.instance }
        ensures kept { OnErr result (self.new ≡ self.old) }
        ensures full { IfErr result (λ e. e ≡ CallError.Full → length self.old.instance.history ≡ most_counted) }
    {
        if self.entries == u64::MAX {
            return Err(CallError::Full);
        }
        let Ok(reply) = self.reactor.call(0, &request) else {
            return Err(CallError::Memory);
        };
        let entry = Entry {
            caller: 0,
            request,
            reply,
        };
        self.entries += 1;
        self.last = Some(entry);
        Ok(())
    }

    /// Makes the entry of a line of a journal, with its line feed, where the line is right: one that asks a request and tells the reply
    /// that this instance gives. Otherwise, and after an error, all is as it was. The entry isn't kept: who gave the line has it.
    pub fn replay(&mut self, alloc: Global, line: &[u8]) -> Result<Verdict, CallError>
        ensures replayed { IfOk result (λ verdict. IsReplayed verdict line.now self.old self.new) }
        ensures lawful { IsLawful self.new.instance }
        ensures kept { OnErr result (self.new ≡ self.old) }
        ensures full { IfErr result (λ e. e ≡ CallError.Full → length self.old.instance.history ≡ most_counted) }
    {
        if self.entries == u64::MAX {
            return Err(CallError::Full);
        }
        let Ok((verdict, reactor)) = self.try_line(alloc, line) else {
            return Err(CallError::Memory);
        };
        match verdict {
            Verdict::Right => {
                self.reactor = reactor;
                self.entries += 1;
                self.last = None;
                Ok(Verdict::Right)
            }
            Verdict::Wrong | Verdict::NoEntry => Ok(verdict),
        }
    }

    // The line is tried on a copy, so that a call whose reply is another one changes nothing.
    fn try_line(&self, alloc: Global, line: &[u8]) -> Result<(Verdict, Reactor), Memory>
        requires { length self.now.instance.history < most_counted }
        ensures { IfOk result (λ r. IsTried r.0 line.now self.now.instance r.1) }
    {
        let mut trial = Instance {
            reactor: self.reactor.copy()?,
        };
        let mut right = String::new(alloc);
        let names = self.program.names();
        let verdict = replay_line(alloc, &mut trial, names, self.entries + 1, line, &mut right)?;
        let Instance { reactor } = trial;
        Ok((verdict, reactor))
    }

    /// How many entries were made.
    pub fn count(&self) -> u64
        ensures { result ≡ length self.now.instance.history }
    {
        self.entries
    }

    /// The last entry, where a call made it.
    pub fn last(&self) -> Option<&Entry>
        ensures { MatchOption result (self.now.last ≡ None) (λ e. self.now.last ≡ Some e.now) }
    {
        self.last.as_ref()
    }

    /// The line of the last entry in the journal of this instance, its caller having this name, where a call made it.
    pub fn last_line(&self, alloc: Global, caller: &str) -> Result<Option<String>, Memory>
        ensures { IfOk result (λ line. option_map string_bytes line ≡ last_line caller.now self.now) }
    {
        let Some(entry) = &self.last else {
            return Ok(None);
        };
        let callers = [String::from_str(alloc, caller)?];
        let mut line = String::new(alloc);
        push_line(
            &mut line,
            self.program.names(),
            &callers,
            self.entries,
            entry,
        )?;
        Ok(Some(line))
    }
}

// By hand, so that crates above call it: what a derive drops is proved again in each of them.
impl Drop for LiveNode {
    fn drop(self) {
        let LiveNode {
            program: _,
            reactor: _,
            entries: _,
            last: _,
        } = self;
    }
}

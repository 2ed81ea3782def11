//! What goes on beside an audit, entry by entry.

ghost use Rattle.std.specs.Prelude.{◌≡◌, ◌<◌, ◌++◌, ◌∷◌, [], ℕ, List, Some, length, IfOk, OnOk, ⊤};
ghost use Rattle.lus_live_instance.specs.MachineSpecs.CodeSpecs.Codes.{program_of};
ghost use Rattle.lus_live_instance.specs.MachineSpecs.Formals.{node_named};
ghost use Rattle.lus_program.specs.Programs.{Program as PlainProgram};
ghost use Rattle.lus_play.specs.Plays.{entry_of};
ghost use Rattle.lus_requests.specs.declared.request.Entry.{Entry};
ghost use Rattle.lus_lawful.specs.Journals.{Journal, entries_of};

use lus_live_instance::lus_machine::{NodeId, Program};
use lus_requests::{Reply, Request};
use lus_values::Memory;
use std::alloc::Global;

/// What goes on behind the entries of a journal as they are replayed.
pub trait Observer {
    ghost use Rattle.std.specs.Prelude.{ℕ, List};
    ghost use Rattle.lus_program.specs.Programs.{Program as PlainProgram};
    ghost use Rattle.lus_requests.specs.declared.request.Entry.{Entry};

    // It has seen these entries of an instance of this node of a program.
    ghost seen: { Self → PlainProgram → ℕ → List Entry → Type 0 };

    /// Goes on behind an entry, the next of the journal.
    fn see(
        &mut self,
        alloc: Global,
        program: &Program,
        node: NodeId,
        request: &Request,
        reply: &Reply,
    ) -> Result<(), Memory>
        ensures { OnOk result ((h : List Entry) → seen self.old (program_of program.now) node.0 h
            → seen self.new (program_of program.now) node.0 (h ++ entry_of request.now reply.now ∷ [])) };

    /// Goes on behind a line that is no entry.
    fn pass(&mut self)
        ensures { (p : PlainProgram) (f : ℕ) (h : List Entry) → seen self.old p f h → seen self.new p f h };
}

/// Gives each journal of a file an observer, and takes it back at the journal's end. An observer of a journal with a wrong line doesn't
/// come back.
pub trait Observers {
    ghost use Rattle.std.specs.Prelude.{List};
    ghost use Rattle.lus_program.specs.Programs.{Program as PlainProgram};
    ghost use Rattle.lus_lawful.specs.Journals.{Journal};

    /// What observes one journal.
    type Observer: Observer + Drop;

    // These journals of a program's nodes were observed.
    ghost gathered: { Self → PlainProgram → List Journal → Type 0 };

    /// An observer of an instance of this name and node, whose journal's first line has this number in the file.
    fn begin(
        &mut self,
        alloc: Global,
        program: &Program,
        instance: &str,
        node: NodeId,
        line: u64,
    ) -> Result<Self::Observer, Memory>
        requires { node.0 < length (program_of program.now).nodes }
        ensures new { IfOk result (λ o. Self.Observer.seen o (program_of program.now) node.0 []) }
        ensures kept { OnOk result ((js : List Journal) → gathered self.old (program_of program.now) js
            → gathered self.new (program_of program.now) js) };

    /// Takes back the observer of a lawful journal. One that isn't whole doesn't end with the number of its entries, or bytes without a
    /// line feed stand behind its last line.
    fn end(
        &mut self,
        alloc: Global,
        program: &Program,
        instance: &str,
        node: NodeId,
        observer: Self::Observer,
        is_whole: bool,
    ) -> Result<(), Memory>
        ensures { let p = program_of program.now in
            OnOk result ((js : List Journal) (j : Journal) → instance.now ≡ j.instance → node_named p j.node ≡ Some node.0
            → Self.Observer.seen observer p node.0 (entries_of j) → gathered self.old p js → gathered self.new p (js ++ j ∷ [])) };
}

/// Observes nothing.
#[derive(Clone, Copy)]
pub struct Unobserved;

impl Observer for Unobserved {
    ghost seen = { λ o p f h. ⊤ };

    fn see(
        &mut self,
        _alloc: Global,
        _program: &Program,
        _node: NodeId,
        _request: &Request,
        _reply: &Reply,
    ) -> Result<(), Memory> {
        Ok(())
    }

    fn pass(&mut self) {}
}

impl Observers for Unobserved {
    type Observer = Unobserved;

    ghost gathered = { λ o p js. ⊤ };

    fn begin(
        &mut self,
        _alloc: Global,
        _program: &Program,
        _instance: &str,
        _node: NodeId,
        _line: u64,
    ) -> Result<Unobserved, Memory> {
        Ok(Unobserved)
    }

    fn end(
        &mut self,
        _alloc: Global,
        _program: &Program,
        _instance: &str,
        _node: NodeId,
        _observer: Unobserved,
        _is_whole: bool,
    ) -> Result<(), Memory> {
        Ok(())
    }
}

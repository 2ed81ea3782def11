//! What goes on beside the audit of a log, line by line.

ghost use Rattle.std.specs.Prelude.{◌≡◌, ◌+◌, ◌<◌, ◌++◌, ◌∷◌, [], ℕ, IfErr, List, OnOk, length, option_map, ⊤};
ghost use Rattle.lus_lawful.specs.Errors.{IsOutside};
ghost use Rattle.lus_live_instance.specs.MachineSpecs.CodeSpecs.Codes.{program_of};
ghost use Rattle.lus_program.specs.Programs.{Program as PlainProgram};
ghost use Rattle.lus_hosting.specs.Audits.{LogEntry, LogLine, LogNote};
ghost use Rattle.lus_hosting.specs.Logs.{Logged};
ghost use Rattle.lus_hosting.specs.LastEntries.{IsEntryOf};

use crate::named_entry::NamedEntry;
use lus_lawful::{AuditError, Unobserved};
use lus_live_instance::lus_machine::{NodeId, Program};
use std::alloc::Global;

/// What goes on behind the lines of a log as they are replayed.
pub trait LogObserver {
    ghost use Rattle.std.specs.Prelude.{ℕ, List};
    ghost use Rattle.lus_program.specs.Programs.{Program as PlainProgram};
    ghost use Rattle.lus_hosting.specs.Audits.{LogLine};

    // It has seen these lines of a log of instances of this node of a program.
    ghost seen: { Self → PlainProgram → ℕ → List LogLine → Type 0 };

    /// Whether the entries are to be recalled for it.
    fn recalls(&self) -> bool;

    /// Goes on behind the right entry of the line of this number. There is none where it isn't to be recalled, or there was no memory for it.
    fn see(
        &mut self,
        alloc: Global,
        program: &Program,
        node: NodeId,
        line: u64,
        entry: Option<&NamedEntry>,
    ) -> Result<(), AuditError>
        requires { node.0 < length (program_of program.now).nodes }
        ensures seen { OnOk result ((lines : List LogLine) (l : Logged) → line ≡ length lines + 1
            → IsEntryOf (option_map (λ e. e.now) entry.entry) l → seen self.old (program_of program.now) node.0 lines
            → seen self.new (program_of program.now) node.0 (lines ++ LogEntry l ∷ [])) }
        ensures outside { IfErr result IsOutside };

    /// Goes on behind a note.
    fn pass(&mut self)
        ensures { (p : PlainProgram) (f : ℕ) (lines : List LogLine) (t : List ℕ) → seen self.old p f lines
            → seen self.new p f (lines ++ LogNote t ∷ []) };
}

impl LogObserver for Unobserved {
    ghost seen = { λ o p f lines. ⊤ };

    fn recalls(&self) -> bool {
        false
    }

    fn see(
        &mut self,
        _alloc: Global,
        _program: &Program,
        _node: NodeId,
        _line: u64,
        _entry: Option<&NamedEntry>,
    ) -> Result<(), AuditError> {
        Ok(())
    }

    fn pass(&mut self) {}
}

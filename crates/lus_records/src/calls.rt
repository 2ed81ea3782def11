//! Lines as calls of a node.

ghost use Rattle.std.specs.Prelude.{◌≡◌, map, string_bytes};
ghost use Rattle.lus_program.specs.View.{program_seen, variable_of};
ghost use Rattle.lus_records.specs.Records.{step_in};

use crate::steps::{explain, step_in};
use indexmap::IndexSet;
use lus_devices::{Sink, write_all};
use lus_play::Calls;
use lus_program::{NodeId, Program, Variable};
use lus_refusals::note_of;
use lus_requests::{Entry, Request};
use lus_values::{Memory, Names};
use std::alloc::Global;

/// Reads a line under a head as a step of a node with these inputs, of a program with these names of constructors.
#[derive(Drop)]
pub struct RecordCalls<'p> {
    pub alloc: Global,
    pub program: &'p Program,
    pub names: &'p Names,
    pub node: NodeId,
    pub inputs: &'p [Variable],
    pub head: IndexSet<String>,
}

impl Calls for RecordCalls<'_> {
    ghost reads = { λ c line o. o
        ≡ step_in (program_seen c.program.now) c.names.now (map variable_of c.inputs.now) (map string_bytes c.head.keys) line };

    fn read(&self, line: &[u8]) -> Result<Option<Request>, Memory> {
        step_in(
            self.alloc,
            self.program,
            self.names,
            self.inputs,
            &self.head,
            line,
        )
    }

    fn explain<F: Sink>(&self, line: &[u8], faults: &mut F) {
        explain(
            self.alloc,
            self.program,
            self.names,
            self.inputs,
            &self.head,
            line,
            faults,
        );
    }

    /// That a step is refused no record says.
    fn remark<F: Sink>(&self, line: u64, entry: &Entry, faults: &mut F) {
        let node = self.node.0 as usize;
        if let Ok(note) = note_of(self.alloc, self.program, self.names, node, line, entry) {
            let _ = write_all(faults, note.as_bytes());
        }
    }

    /// The head is the first line of all.
    fn first_line(&self) -> u64 {
        2
    }
}

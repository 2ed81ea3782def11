//! Replies as records.

ghost use Rattle.std.specs.Prelude.{map};
ghost use Rattle.lus_program.specs.View.{program_seen, variable_of};
ghost use Rattle.lus_records.specs.Outputs.{reply_record};

use crate::outputs::push_reply;
use lus_play::Speaks;
use lus_program::{Program, Variable};
use lus_requests::Entry;
use lus_values::{Memory, Names};
use std::alloc::Global;

/// Spells the reply of an entry as a record of these outputs, of a program with these names of constructors.
#[derive(Drop)]
pub struct RecordReplies<'p> {
    pub alloc: Global,
    pub program: &'p Program,
    pub names: &'p Names,
    pub outputs: &'p [Variable],
}

impl Speaks for RecordReplies<'_> {
    ghost says = { λ s _ e. reply_record (program_seen s.program.now) s.names.now (map variable_of s.outputs.now) e.reply };

    fn push(&self, text: &mut String, _number: u64, entry: &Entry) -> Result<(), Memory> {
        push_reply(
            self.alloc,
            text,
            self.program,
            self.names,
            self.outputs,
            &entry.reply,
        )
    }
}

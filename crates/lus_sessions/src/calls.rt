//! Lines of JSON as calls of a node.

ghost use Rattle.std.specs.Prelude.{IfOk, string_bytes};
ghost use Rattle.lus_program.specs.View.{program_seen};
ghost use Rattle.lus_lines.specs.Lines.{IsPlain};
ghost use Rattle.lus_sessions.specs.Calls.{IsCallTo};

use lus_devices::{Sink, write_all};
use lus_play::Calls;
use lus_program::{NodeId, Program};
use lus_refusals::lus_culprits::{explain_call, general_sentence};
use lus_refusals::note_of;
use lus_requests::{Entry, Request};
use lus_scripts::{ScriptRefusal, read_request};
use lus_values::{Memory, Names};
use std::alloc::Global;

/// Reads a line as a call of a node of a program with these names of constructors.
#[derive(Drop)]
pub struct JsonCalls<'p> {
    pub alloc: Global,
    pub program: &'p Program,
    pub names: &'p Names,
    pub node: NodeId,
}

impl JsonCalls<'_> {
    /// What is wrong with a line that is no call: which input, field, constructor or kind of call.
    pub fn culprit(&self, line: &[u8]) -> Result<String, Memory>
        ensures { IfOk result (λ t. IsPlain (string_bytes t)) }
    {
        explain_call(self.alloc, self.program, self.names, self.node, line)
    }

    /// What is wrong with a line that is no call, in a general sentence without a line feed.
    pub fn reason(&self, line: &[u8]) -> &'static str
        ensures { IsPlain result.now }
    {
        match read_request(self.alloc, self.program, self.names, self.node, line) {
            Err(ScriptRefusal::Json) => "it is no value of JSON",
            Err(ScriptRefusal::Memory) => "out of memory",
            _ => general_sentence(line),
        }
    }
}

impl Calls for JsonCalls<'_> {
    ghost reads = { λ c line o. IsCallTo (program_seen c.program.now) c.names.now c.node.0 line o };

    fn read(&self, line: &[u8]) -> Result<Option<Request>, Memory> {
        match read_request(self.alloc, self.program, self.names, self.node, line) {
            Ok(request) => Ok(Some(request)),
            Err(ScriptRefusal::Memory) => Err(Memory),
            Err(_) => Ok(None),
        }
    }

    fn explain<F: Sink>(&self, line: &[u8], faults: &mut F) {
        match self.culprit(line) {
            Ok(sentence) => {
                let _ = write_all(faults, sentence.as_bytes());
            }
            Err(Memory) => {
                let _ = write_all(faults, b"out of memory");
            }
        }
    }

    fn remark<F: Sink>(&self, line: u64, entry: &Entry, faults: &mut F) {
        let node = self.node.0 as usize;
        if let Ok(note) = note_of(self.alloc, self.program, self.names, node, line, entry) {
            let _ = write_all(faults, note.as_bytes());
        }
    }
}

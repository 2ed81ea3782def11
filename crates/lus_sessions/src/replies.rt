//! How replies are told.

ghost use Rattle.std.specs.Prelude.{map};
ghost use Rattle.lus_program.specs.View.{program_seen, variable_of};
ghost use Rattle.lus_sessions.specs.Calls.{reply_line};

use lus_play::Speaks;
use lus_program::{Program, Variable};
use lus_replies::push_reply;
use lus_requests::Entry;
use lus_values::{Memory, Names};

/// Spells the reply of an entry as an object of JSON, on a line of its own.
#[derive(Drop)]
pub struct JsonReplies<'p> {
    pub program: &'p Program,
    pub names: &'p Names,
    pub outputs: &'p [Variable],
}

impl Speaks for JsonReplies<'_> {
    ghost says = { λ s _ e. reply_line (program_seen s.program.now) s.names.now (map variable_of s.outputs.now) e };

    fn push(&self, text: &mut String, _number: u64, entry: &Entry) -> Result<(), Memory> {
        push_reply(
            text,
            self.program,
            self.names,
            self.outputs,
            &entry.request,
            &entry.reply,
        )?;
        text.push_str("\n")?;
        Ok(())
    }
}

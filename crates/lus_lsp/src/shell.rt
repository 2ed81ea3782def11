//! The command.

ghost use Rattle.lus_editing.specs.Conversations.{WritesFrames};

use crate::front::Front;
use lus_devices::{Sink, Source};
use lus_editing::{ConversationError, converse};
use lus_reports::lus_cli::{Fault, tell};
use std::alloc::Global;

/// Whether the words are those of the command: `--stdio` alone.
fn are_taken(words: &[String]) -> bool {
    match words {
        [word] => word.as_str() == "--stdio",
        _ => false,
    }
}

/// Why a conversation ended short, as a command tells it.
fn fault_of(error: ConversationError) -> Fault {
    match error {
        ConversationError::Input(_) => Fault::File,
        ConversationError::Output => Fault::Output,
        ConversationError::Memory => Fault::Memory,
    }
}

/// Serves an editor over two devices until it says that the process is to end, or its input ends, and gives the status: 0 where the
/// editor shut the server down before, 1 where it didn't, 2 for words that the command doesn't take, 3 where the input ends in a
/// message or a device fails, and 4 out of memory. The output is given messages in their frames, each whole but for the last where a
/// write failed.
pub fn command<I: Source, O: Sink, F: Sink>(
    alloc: Global,
    words: &[String],
    input: &mut I,
    output: &mut O,
    faults: &mut F,
) -> u8
    ensures { WritesFrames (O.written output.old) (O.written output.new) }
{
    if !are_taken(words) {
        return tell(faults, Fault::Words);
    }
    match converse(alloc, &Front, input, output) {
        Ok(status) => status,
        Err(error) => tell(faults, fault_of(error)),
    }
}

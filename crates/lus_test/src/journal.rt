//! The run of a table as a journal.

use crate::problem::Problem;
use lus_cli::Fault;
use lus_devices::{Journal, Sink, WriteError, write_journals};
use lus_live_instance::lus_machine::{Entry, Names, Reply, Request};
use lus_values::Memory;
use std::alloc::Global;

/// The caller of each entry.
const CALLER: &str = "user";

/// The entries of a run.
fn entries_of(alloc: Global, steps: &[Request], replies: &[Reply]) -> Result<Vec<Entry>, Memory> {
    let mut entries = Vec::new(alloc);
    for (step, reply) in steps.iter().zip(replies) {
        entries.push(Entry {
            caller: 0,
            request: step.copy(alloc)?,
            reply: reply.copy(alloc)?,
        })?;
    }
    Ok(entries)
}

/// Writes the journal of a run of an instance that is named like its node.
pub(crate) fn write_journal<O: Sink>(
    alloc: Global,
    names: &Names,
    node: &str,
    steps: &[Request],
    replies: &[Reply],
    output: &mut O,
) -> Result<(), Problem> {
    let entries = entries_of(alloc, steps, replies)?;
    let mut callers = Vec::new(alloc);
    callers.push(String::from_str(alloc, CALLER)?)?;
    let journal = Journal {
        instance: node,
        node,
        entries: &entries,
    };
    match write_journals(alloc, output, names, &callers, &[journal]) {
        Ok(()) => Ok(()),
        Err(WriteError::Write) => Err(Problem::Fault(Fault::Output)),
        Err(WriteError::Memory) => Err(Problem::Fault(Fault::Memory)),
    }
}

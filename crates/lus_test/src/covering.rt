//! Which branches of `if` and `merge` the runs of tables take.

use crate::branches::Sources;
use crate::testing::Tested;
use crate::words::Mode;
use lus_cli::Fault;
use lus_coverage::Coverage;
use lus_devices::{Sink, write_all};
use lus_live_instance::lus_machine::{NodeId, Program};
use lus_values::Memory;
use std::alloc::Global;
use std::sync::Arc;

/// No branch is taken yet, where branches are told.
pub(crate) fn begin_coverage(
    alloc: Global,
    program: &Arc<Program>,
    mode: Mode,
) -> Result<Option<Coverage<'_>>, Memory> {
    if mode.is_covered {
        Ok(Some(Coverage::new(alloc, program.source())?))
    } else {
        Ok(None)
    }
}

/// Counts the branches that a run takes, where that is wanted.
pub(crate) fn cover(
    coverage: &mut Option<Coverage<'_>>,
    node: NodeId,
    tested: &Tested,
) -> Result<(), Memory> {
    match coverage {
        Some(coverage) => coverage.follow(node.0, &tested.steps, &tested.replies),
        None => Ok(()),
    }
}

/// Tells the branches that were taken, where that is wanted. Fails where the output does, or memory is out.
pub(crate) fn tell_coverage<O: Sink>(
    alloc: Global,
    file: &str,
    program: &Arc<Program>,
    coverage: &Option<Coverage<'_>>,
    mode: Mode,
    output: &mut O,
) -> Result<(), Fault> {
    let Some(coverage) = coverage else {
        return Ok(());
    };
    let sources = Sources {
        alloc,
        file,
        program: program.source(),
        names: program.names(),
    };
    let Ok(text) = sources.text(coverage, mode.is_json) else {
        return Err(Fault::Memory);
    };
    match write_all(output, text.as_bytes()) {
        Ok(()) => Ok(()),
        Err(_) => Err(Fault::Output),
    }
}

//! A run of a node.

ghost use Rattle.std.specs.Prelude.{◌<◌, length, IfOk};
ghost use Rattle.std.specs.Arc.{arc_value};
ghost use Rattle.lus_live_instance.specs.MachineSpecs.CodeSpecs.Codes.{program_of};
ghost use Rattle.lus_test.specs.Tables.{IsRun};

use lus_live_instance::lus_machine::{NodeId, Program, Reactor, Reply, Request};
use lus_values::Memory;
use std::alloc::Global;
use std::sync::Arc;

/// The replies of a new instance of a node to these requests, one behind another.
pub fn replies_to(
    alloc: Global,
    program: &Arc<Program>,
    node: NodeId,
    requests: &[Request],
) -> Result<Vec<Reply>, Memory>
    requires { node.0 < length (program_of (arc_value program.now)).nodes }
    ensures { IfOk result (λ v. IsRun (program_of (arc_value program.now)) node.0 requests.now v.items) }
{
    let mut reactor = Reactor::new(alloc, program.clone()?, node)?;
    let mut replies = Vec::new(alloc);
    for request in requests {
        let reply = reactor.call(0, request)?;
        replies.push(reply)?;
    }
    Ok(replies)
}

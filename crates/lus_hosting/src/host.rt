//! A node of a program, whose instances are hosted.

ghost use Rattle.std.specs.Prelude.{◌≡◌, ◌<◌, IfOk, length, string_bytes};
ghost use Rattle.std.specs.Arc.{arc_value};
ghost use Rattle.lus_lines.specs.Lines.{IsPlain};
ghost use Rattle.lus_live_instance.specs.MachineSpecs.CodeSpecs.Codes.{program_of};
ghost use Rattle.lus_live_instance.specs.MachineSpecs.Constructors.{names_of};
ghost use Rattle.lus_sessions.specs.Calls.{IsCallTo};

use lus_live_instance::lus_machine::{NodeId, Program};
use lus_play::Calls;
use lus_requests::Request;
use lus_sessions::JsonCalls;
use lus_values::Memory;
use std::alloc::Global;
use std::sync::Arc;

/// A node of a program, whose instances are hosted.
#[derive(Clone, Copy)]
pub(crate) struct Host<'p> {
    pub(crate) alloc: Global,
    pub(crate) program: &'p Arc<Program>,
    pub(crate) node: NodeId,
}

/// The call that a text is, if it is one.
pub(crate) fn read_call(host: Host<'_>, call: &str) -> Result<Option<Request>, Memory>
    ensures { IfOk result (λ o. IsCallTo (program_of (arc_value host.entry.program.now)) (names_of (program_of (arc_value host.entry.program.now)))
        host.entry.node.0 call.now o) }
{
    let calls = JsonCalls {
        alloc: host.alloc,
        program: host.program.source(),
        names: host.program.names(),
        node: host.node,
    };
    calls.read(call.as_bytes())
}

/// What is wrong with a text that is no call.
pub(crate) fn no_call(host: Host<'_>, call: &str) -> Result<String, Memory>
    ensures { IfOk result (λ t. IsPlain (string_bytes t)) }
{
    let calls = JsonCalls {
        alloc: host.alloc,
        program: host.program.source(),
        names: host.program.names(),
        node: host.node,
    };
    calls.culprit(call.as_bytes())
}

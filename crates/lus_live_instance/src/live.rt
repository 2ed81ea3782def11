//! An instance of a program's node.

ghost use Rattle.std.specs.Prelude.{◌≡◌, ◌<◌, [], length, IfOk};
ghost use Rattle.std.specs.Arc.{arc_value};
ghost use Rattle.lus_machine.specs.CodeSpecs.Codes.{program_of};
ghost use Rattle.lus_live_instance.specs.Lives.{IsLive};

use lus_machine::{NodeId, Program, Reactor};
use lus_play::Reacts;
use lus_requests::{Reply, Request};
use lus_values::Memory;
use std::alloc::Global;
use std::sync::Arc;

/// An instance of a node. It stores no history.
#[derive(Drop)]
pub struct Instance {
    pub reactor: Reactor,
}

impl Reacts for Instance {
    ghost history = { λ l. l.reactor.history };

    ghost is_of = { λ l p f. IsLive p f l.reactor };

    fn call(&mut self, request: &Request) -> Result<Reply, Memory> {
        self.reactor.call(0, request)
    }
}

/// An instance that was never called.
pub fn new_instance(alloc: Global, program: &Arc<Program>, node: NodeId) -> Result<Instance, Memory>
    requires { node.0 < length (program_of (arc_value program.now)).nodes }
    ensures empty { IfOk result (λ l. l.reactor.history ≡ []) }
    ensures live { IfOk result (λ l. IsLive (program_of (arc_value program.now)) node.0 l.reactor) }
{
    let reactor = Reactor::new(alloc, program.clone()?, node)?;
    Ok(Instance { reactor })
}

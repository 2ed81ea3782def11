//! An instance that is observed while it is replayed.

ghost use Rattle.std.specs.Prelude.{◌≡◌, ◌<◌, [], length, IfOk};
ghost use Rattle.std.specs.Arc.{arc_value};
ghost use Rattle.lus_live_instance.specs.MachineSpecs.CodeSpecs.Codes.{program_of};
ghost use Rattle.lus_lawful.specs.Observed.{IsObserved};

use crate::observer::Observer;
use lus_live_instance::lus_machine::{NodeId, Program};
use lus_live_instance::{Instance, new_instance};
use lus_play::Reacts;
use lus_requests::{Reply, Request};
use lus_values::Memory;
use std::alloc::Global;
use std::sync::Arc;

/// An instance of a node, with what observes it, and whether there was no memory for that.
#[derive(Drop)]
pub(crate) struct Observed<O> {
    pub(crate) alloc: Global,
    pub(crate) instance: Instance,
    pub(crate) program: Arc<Program>,
    pub(crate) node: NodeId,
    pub(crate) observer: O,
    pub(crate) is_lost: bool,
}

/// An instance that was never called, with what is to observe it.
pub(crate) fn new_observed<O: Observer + Drop>(
    alloc: Global,
    program: &Arc<Program>,
    node: NodeId,
    observer: O,
) -> Result<Observed<O>, Memory>
    requires within { node.0 < length (program_of (arc_value program.now)).nodes }
    requires begun { O.seen observer (program_of (arc_value program.now)) node.0 [] }
    ensures empty { IfOk result (λ e. e.instance.reactor.history ≡ []) }
    ensures observed { let p = program_of (arc_value program.now) in
        IfOk result (λ e. IsObserved p node.0 (O.seen e.observer p node.0) e.instance.reactor (program_of (arc_value e.program)) e.node.0 e.is_lost) }
{
    let instance = new_instance(alloc, program, node)?;
    let program = program.clone()?;
    Ok(Observed {
        alloc,
        instance,
        program,
        node,
        observer,
        is_lost: false,
    })
}

impl<O: Observer> Reacts for Observed<O> {
    ghost history = { λ e. e.instance.reactor.history };

    ghost is_of = { λ e p f. IsObserved p f (O.seen e.observer p f) e.instance.reactor (program_of (arc_value e.program)) e.node.0 e.is_lost };

    fn call(&mut self, request: &Request) -> Result<Reply, Memory> {
        let reply = self.instance.call(request)?;
        let seen = self
            .observer
            .see(self.alloc, &self.program, self.node, request, &reply);
        match seen {
            Ok(()) => Ok(reply),
            Err(_) => {
                self.is_lost = true;
                Ok(reply)
            }
        }
    }

    fn pass(&mut self) {
        self.observer.pass();
    }
}

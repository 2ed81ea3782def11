//! Instances of nodes.

ghost use Rattle.std.specs.Prelude.{◌≡◌, ◌↔◌, ◌<◌, IsTrue, suc, IfOk, OnErr, OnOk, length};
ghost use Rattle.lus_classes.specs.States.{WithinDepth};
ghost use Rattle.lus_classes.specs.View.{classes_of};
ghost use Rattle.lus_running.specs.Fits.{FitsPresence, OfClass};
ghost use Rattle.lus_running.specs.Instances.{HasFormals, HasRowsOfClass, IsBack, IsCopy, IsFresh, IsReset, KeepsSame, LeavesBehind};
ghost use Rattle.lus_running.specs.Instances.{TakesStep, seen};
ghost use Rattle.lus_running.specs.Settings.{RunsClasses};

use crate::error::StepError;
use crate::holding::Holding;
use crate::rows::Rows;
use crate::running::Running;
use lus_orders::Setting;
use lus_values::{Memory, Row};
use std::alloc::Global;

/// What an instance of a node keeps.
#[derive(Drop)]
pub struct Instance {
    pub alloc: Global,
    pub node: u32,
    pub holding: Holding,
}

impl Instance {
    /// An instance of a node at its start.
    pub fn fresh(alloc: Global, on: &Running<'_>, node: u32) -> Result<Instance, Memory>
        requires within { node < length on.now.classes.now }
        requires code { RunsClasses on.now.classes.now on.now.emitted.now }
        ensures start { IfOk result (λ o. IsFresh on.now.classes.now on.now.emitted.now node (seen o)) }
        ensures node { IfOk result (λ o. o.node ≡ node) }
        ensures shaped { IfOk result (λ o. HasRowsOfClass on.now.classes.now on.now.emitted.now (seen o)) }
    {
        let words = Rows::fresh(alloc, &on.emitted[node as usize])?;
        Ok(Instance {
            alloc,
            node,
            holding: Holding::Words(words),
        })
    }

    /// As it was when it was fresh; takes no memory.
    pub fn reset(&mut self)
        ensures { IsReset (seen self.old) (seen self.new) }
    {
        self.holding.reset();
    }

    /// An instance of the same state.
    pub fn copy(&self) -> Result<Instance, Memory>
        ensures { IfOk result (λ o. IsCopy (seen self.now) (seen o)) }
    {
        match self.holding.copy(self.alloc) {
            Ok(holding) => Ok(Instance {
                alloc: self.alloc,
                node: self.node,
                holding,
            }),
            Err(_) => Err(Memory),
        }
    }

    /// Whether the rows are as long as the code of the node's class wants them.
    pub fn is_shaped(&self, on: &Running<'_>) -> bool
        ensures { IsTrue result ↔ HasRowsOfClass on.now.classes.now on.now.emitted.now (seen self.now) }
    {
        let node = self.node as usize;
        match (on.classes.get(node), on.emitted.get(node)) {
            (Some(_), Some(code)) => self.holding.is_long(code),
            _ => false,
        }
    }

    /// One more instant: so many outputs, with the cells of the last instant left behind as those for the next one; or the
    /// instance as it was.
    pub fn step(&mut self, on: &Running<'_>, inputs: &Row, outputs: usize) -> Result<Row, StepError>
        requires code { RunsClasses on.now.classes.now on.now.emitted.now }
        requires shaped { HasRowsOfClass on.now.classes.now on.now.emitted.now (seen self.old) }
        requires depth { WithinDepth (classes_of on.now.classes.now) (suc on.now.depth) self.old.node }
        requires formals { OfClass on.now.classes.now self.old.node (HasFormals outputs inputs.now) }
        requires presence { OfClass on.now.classes.now self.old.node (λ c. FitsPresence c inputs.now) }
        ensures step { TakesStep on.now.classes.now on.now.emitted.now on.now.depth outputs (seen self.old) inputs.now
            result (seen self.new) }
        ensures node { self.new.node ≡ self.old.node }
        ensures shaped { HasRowsOfClass on.now.classes.now on.now.emitted.now (seen self.new) }
        ensures err { OnErr result (KeepsSame (seen self.old) (seen self.new)) }
        ensures behind { OnOk result (LeavesBehind (seen self.old) (seen self.new)) }
    {
        let setting = Setting {
            alloc: self.alloc,
            classes: on.emitted,
            class: &on.emitted[self.node as usize],
            depth: on.depth,
        };
        match self.holding.step(&setting, inputs, outputs) {
            Ok(Some(found)) => Ok(found),
            Ok(None) => Err(StepError::Fault),
            // A step is made on entries where words meet a structure, so that it never stops there.
            Err(_) => Err(StepError::Memory),
        }
    }

    /// As it was before the step that was its last call; takes no memory.
    pub fn go_back(&mut self)
        ensures { IsBack (seen self.old) (seen self.new) }
    {
        self.holding.go_back();
    }
}

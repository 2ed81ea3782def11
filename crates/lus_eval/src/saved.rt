//! What is saved of objects.

ghost use Rattle.std.specs.Prelude.{◌≡◌, IfOk};
ghost use Rattle.lus_eval.specs.Objects.{IsEven, kept_by};

use lus_running::{Instance, SavedInstance};
use lus_values::Memory;
use std::marker::Model;

/// What an object keeps at an instant: its cells alone, without the rows on which it makes its steps.
#[derive(Drop)]
pub struct Saved {
    instance: SavedInstance,
}

impl Model for Saved {
    ghost use Rattle.std.specs.Coded.{codes};
    ghost use Rattle.lus_values.specs.Coded.{coded_value};
    ghost use Rattle.lus_eval.specs.Objects.{Kept, saved_by};

    ghost Value = { Kept };

    ghost coded = { Prim.hlevel (codes, coded_value) };

    ghost view = { λ s. saved_by s.instance };
}

impl Saved {
    /// What an instance keeps.
    pub(crate) fn of(instance: &Instance) -> Result<Saved, Memory>
        ensures { IfOk result (λ s. s ≡ kept_by instance.now) }
    {
        let instance = SavedInstance::of(instance)?;
        Ok(Saved { instance })
    }

    /// The same once more.
    pub fn copy(&self) -> Result<Saved, Memory>
        ensures { IfOk result (λ s. s ≡ self.now) }
    {
        let instance = self.instance.copy()?;
        Ok(Saved { instance })
    }

    /// An instance that keeps it.
    pub(crate) fn instance(&self) -> Result<Instance, Memory>
        ensures kept { IfOk result (λ o. kept_by o ≡ self.now) }
        ensures even { IfOk result IsEven }
    {
        self.instance.instance()
    }
}

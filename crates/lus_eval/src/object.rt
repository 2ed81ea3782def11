//! Objects.

ghost use Rattle.std.specs.Prelude.{ℕ, ◌≡◌, ◌↔◌, ◌<◌, [], IsTrue, length, IfOk, IfErr, OnErr};
ghost use Rattle.lus_code.specs.SimulationSpecs.Fitting.{has_shape, has_presence};
ghost use Rattle.lus_code.specs.SimulationSpecs.Lineages.{Lineage};
ghost use Rattle.lus_code.specs.Codes.{ProgramCode, program_of};
ghost use Rattle.lus_code.specs.Correct.{IsCorrect};
ghost use Rattle.lus_eval.specs.Objects.{IsFault, IsReset, IsObjectOf, MakesStep, ObjectLived};

use crate::copying::row_twice;
use crate::running::running;
use crate::saved::Saved;
use crate::shape::row_fits;
use crate::stepping::step_instance;
use lus_code::Code;
use lus_program::NodeId;
use lus_running::{Instance, StepError, fits_presence};
use lus_values::{Memory, Row};
use std::alloc::Global;
use std::marker::Model;

/// What an instance of a node keeps from one instant to the next.
#[derive(Drop)]
pub struct Object {
    instance: Instance,
}

impl Model for Object {
    ghost use Rattle.std.specs.Coded.{codes};
    ghost use Rattle.lus_values.specs.Coded.{coded_value};
    ghost use Rattle.lus_eval.specs.Objects.{Kept, kept_by, IsEven};

    ghost Value = { Kept };

    ghost coded = { Prim.hlevel (codes, coded_value) };

    ghost view = { λ o. kept_by o.instance };

    ghost invariant = { λ o. IsEven o.instance };
}

impl Object {
    /// An object of a node at its start, which has lived through nothing.
    pub fn fresh(alloc: Global, code: &Code, node: NodeId) -> Result<Object, Memory>
        requires { node.0 < length (program_of code.now).nodes }
        ensures { IfOk result (λ o. ObjectLived code.now node.0 o []) }
    {
        let instance = Instance::fresh(alloc, &running(code), node.0)?;
        Ok(Object { instance })
    }

    /// Whether the object's rows are as long as those of its node in this code, and so no longer than the node's state cells.
    pub fn shaped(&self, code: &Code) -> bool
        ensures { IsTrue result ↔ IsObjectOf code.now self.now }
    {
        self.instance.is_shaped(&running(code))
    }

    /// Whether there are as many inputs as the node has, each a value of its type or absent.
    pub fn fits_shape(&self, code: &Code, inputs: &Row) -> bool
        requires { IsObjectOf code.now self.now }
        ensures { result ≡ has_shape (program_of code.now) self.now.node inputs.now }
    {
        // There are as many nodes as classes, and the node of a shaped object has a class.
        let _classes = code.classes();
        let program = code.program();
        let node = &program.nodes[self.instance.node as usize];
        let variables = &node.variables[..node.inputs as usize];
        row_fits(inputs.items(), variables, program)
    }

    /// Whether each input is present exactly where its clock is.
    pub fn fits_presence(&self, code: &Code, inputs: &Row) -> bool
        requires { IsObjectOf code.now self.now }
        ensures { result ≡ has_presence (program_of code.now) self.now.node inputs.now }
    {
        let class = &code.classes()[self.instance.node as usize];
        fits_presence(class, inputs.items())
    }

    /// One more instant: its outputs, or a fault where the source has no streams for these inputs. After an error the object is
    /// as it was: the step is made in rows beside those that are kept, and they change places once the outputs are there. Words
    /// that have become entries before, where a structure came up, stay entries, which keep the same.
    pub fn step(&mut self, code: &Code, inputs: &Row) -> Result<Row, StepError>
        requires shaped { IsObjectOf code.now self.old }
        requires shape { IsTrue (has_shape (program_of code.now) self.old.node inputs.now) }
        requires presence { IsTrue (has_presence (program_of code.now) self.old.node inputs.now) }
        ensures ok { IfOk result (λ outputs. MakesStep code.now self.old self.new inputs.now outputs) }
        ensures fault { IfErr result (λ e. e ≡ StepError.Fault → IsFault code.now self.old inputs.now) }
        ensures err { OnErr result (self.new ≡ self.old) }
    {
        step_instance(&mut self.instance, code, inputs)
    }

    /// One more instant as `step` makes it, with its outputs twice, neither in more memory than it needs. After an
    /// error the object is as it was. The outputs are copied behind the step: where there is memory for them only once, the rows
    /// before the step, which still are beside the new ones, change places with these again, which takes no memory.
    pub fn step_twice(&mut self, code: &Code, inputs: &Row) -> Result<(Row, Row), StepError>
        requires shaped { IsObjectOf code.now self.old }
        requires shape { IsTrue (has_shape (program_of code.now) self.old.node inputs.now) }
        requires presence { IsTrue (has_presence (program_of code.now) self.old.node inputs.now) }
        ensures ok { IfOk result (λ both. MakesStep code.now self.old self.new inputs.now both.0) }
        ensures same { IfOk result (λ both. both.1 ≡ both.0) }
        ensures fault { IfErr result (λ e. e ≡ StepError.Fault → IsFault code.now self.old inputs.now) }
        ensures err { OnErr result (self.new ≡ self.old) }
    {
        let outputs = step_instance(&mut self.instance, code, inputs)?;
        match row_twice(self.instance.alloc, outputs) {
            Ok(both) => Ok(both),
            Err(Memory) => {
                self.instance.go_back();
                Err(StepError::Memory)
            }
        }
    }

    /// As it was when it was fresh: whatever inputs it has lived through, or whatever it keeps as an object of some code, it has
    /// lived through none. Takes no memory.
    pub fn reset(&mut self)
        ensures back { IsReset self.old self.new }
        ensures lived { (code : ProgramCode) (f : ℕ) (lineage : Lineage)
            → ObjectLived code f self.old lineage → ObjectLived code f self.new [] }
        ensures fits { (code : ProgramCode) → IsCorrect code → IsObjectOf code self.old → ObjectLived code self.old.node self.new [] }
    {
        self.instance.reset();
    }

    /// An equal object.
    pub fn copy(&self) -> Result<Object, Memory>
        ensures { IfOk result (λ o. o ≡ self.now) }
    {
        let instance = self.instance.copy()?;
        Ok(Object { instance })
    }

    /// What the object keeps, without the rows on which it makes its steps.
    pub fn save(&self) -> Result<Saved, Memory>
        ensures { IfOk result (λ s. s ≡ self.now) }
    {
        Saved::of(&self.instance)
    }

    /// An object that keeps what was saved.
    pub fn restored(saved: &Saved) -> Result<Object, Memory>
        ensures { IfOk result (λ o. o ≡ saved.now) }
    {
        let instance = saved.instance()?;
        Ok(Object { instance })
    }
}

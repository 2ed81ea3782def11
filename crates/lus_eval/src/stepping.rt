//! Steps of instances in terms of the source's streams.

ghost use Rattle.std.specs.Prelude.{◌≡◌, IsTrue, IfOk, IfErr, OnErr, OnOk};
ghost use Rattle.lus_code.specs.SimulationSpecs.Fitting.{has_shape, has_presence};
ghost use Rattle.lus_code.specs.Codes.{program_of};
ghost use Rattle.lus_running.specs.Instances.{LeavesBehind, seen};
ghost use Rattle.lus_eval.specs.Objects.{IsEven, IsFault, IsObjectOf, MakesStep, kept_by};

use crate::running::running;
use lus_code::Code;
use lus_running::{Instance, StepError};
use lus_values::Row;

/// One more instant: its outputs, with the cells of the last instant left behind as those for the next one, or a fault where the
/// source has no streams for these inputs. After an error the instance is as it was.
pub(crate) fn step_instance(
    instance: &mut Instance,
    code: &Code,
    inputs: &Row,
) -> Result<Row, StepError>
    requires even { IsEven instance.old }
    requires shaped { IsObjectOf code.now (kept_by instance.old) }
    requires shape { IsTrue (has_shape (program_of code.now) instance.old.node inputs.now) }
    requires presence { IsTrue (has_presence (program_of code.now) instance.old.node inputs.now) }
    ensures ok { IfOk result (λ outputs. MakesStep code.now (kept_by instance.old) (kept_by instance.new) inputs.now outputs) }
    ensures fault { IfErr result (λ e. e ≡ StepError.Fault → IsFault code.now (kept_by instance.old) inputs.now) }
    ensures err { OnErr result (kept_by instance.new ≡ kept_by instance.old) }
    ensures even { IsEven instance.new }
    ensures behind { OnOk result (LeavesBehind (seen instance.old) (seen instance.new)) }
{
    let on = running(code);
    let node = &code.program().nodes[instance.node as usize];
    instance.step(&on, inputs, node.outputs as usize)
}

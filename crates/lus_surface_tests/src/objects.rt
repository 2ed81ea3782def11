//! `lus_eval`.

ghost use Rattle.lus_eval.specs.Objects.{IsObjectOf};

use lus_eval::lus_code::Code;
use lus_eval::{Object, StepError};
use lus_syntax::NodeId;
use lus_values::{Memory, Row};
use std::alloc::Global;

/// An object of a node at its start, where the code has this node.
pub fn fresh_object(alloc: Global, code: &Code, node: NodeId) -> Option<Result<Object, Memory>> {
    let nodes: u32 = code.nodes();
    if node.0 < nodes {
        Some(Object::fresh(alloc, code, node))
    } else {
        None
    }
}

/// What an object gives at one more instant, where the inputs fit its node.
fn step_fitting(object: &mut Object, code: &Code, inputs: &Row) -> Option<Result<Row, StepError>>
    requires { IsObjectOf code.now object.old }
{
    if !object.fits_shape(code, inputs) {
        return None;
    }
    if !object.fits_presence(code, inputs) {
        return None;
    }
    let outputs: Result<Row, StepError> = object.step(code, inputs);
    Some(outputs)
}

/// What a copy of an object gives at one more instant, where the inputs fit its node. The object itself is then as it was made.
pub fn step_object(
    object: &mut Object,
    code: &Code,
    inputs: &Row,
) -> Result<Option<Result<Row, StepError>>, Memory> {
    let mut copied: Object = object.copy()?;
    object.reset();
    if copied.shaped(code) {
        Ok(step_fitting(&mut copied, code, inputs))
    } else {
        Ok(None)
    }
}

/// The state cells of a node, where the code has it.
pub fn state_cells(code: &Code, node: NodeId) -> Option<u32> {
    if node.0 < code.nodes() {
        Some(code.cells(node))
    } else {
        None
    }
}

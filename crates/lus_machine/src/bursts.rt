//! Rows tried as steps, one behind another.

ghost use Rattle.std.specs.Prelude.{◌≡◌, ◌∷◌, [], IfOk, IfErr, OnErr};
ghost use Rattle.lus_eval.specs.Objects.{IsObjectOf};
ghost use Rattle.lus_machine.specs.Bursts.{AreRefused, GoesThrough};
ghost use Rattle.lus_machine.specs.declared.bursts.NoOutputs.TheVariants.{Memory as OfMemory};

use lus_eval::lus_code::Code;
use lus_eval::{Object, StepError};
use lus_requests::{Rows, Why};
use lus_values::{Memory, Row};
use std::alloc::{AllocFailed, Global};

/// The most rows of a burst.
pub(crate) const MOST_ROWS: usize = 1000;

/// Why rows have no outputs.
#[derive(Clone, Copy)]
pub(crate) enum NoOutputs {
    /// One of them is refused, and none before it.
    Refused(Why),
    Memory,
}

impl<T: Drop> From<AllocFailed<T>> for NoOutputs {
    ghost from_gives = { λ _ e. e ≡ OfMemory };

    fn from(_error: AllocFailed<T>) -> NoOutputs {
        NoOutputs::Memory
    }
}

/// Tries a row as a step. After an error the object is as it was.
pub(crate) fn step_row(code: &Code, object: &mut Object, row: &Row) -> Result<Row, NoOutputs>
    requires { IsObjectOf code.now object.old }
    ensures ok { IfOk result (λ o. GoesThrough code.now object.old (row.now ∷ []) (o ∷ []) object.new) }
    ensures refused { IfErr result (AreRefused code.now object.old (row.now ∷ [])) }
    ensures err { OnErr result (object.new ≡ object.old) }
{
    if !object.fits_shape(code, row) {
        return Err(NoOutputs::Refused(Why::Shape));
    }
    if !object.fits_presence(code, row) {
        return Err(NoOutputs::Refused(Why::Presence));
    }
    match object.step(code, row) {
        Ok(outputs) => Ok(outputs),
        Err(StepError::Fault) => Err(NoOutputs::Refused(Why::Fault)),
        Err(StepError::Memory) => Err(NoOutputs::Memory),
    }
}

/// Tries rows as steps, one behind another, until one has no outputs. The object goes as far as the rows before that one.
pub(crate) fn step_rows(
    alloc: Global,
    code: &Code,
    object: &mut Object,
    rows: &[Row],
) -> Result<Rows, NoOutputs>
    requires { IsObjectOf code.now object.old }
    ensures ok { IfOk result (λ outputs. GoesThrough code.now object.old rows.now outputs object.new) }
    ensures refused { IfErr result (AreRefused code.now object.old rows.now) }
{
    let mut outputs = Vec::new(alloc);
    for row in rows {
        let given = step_row(code, object, row)?;
        outputs.push(given)?;
    }
    Ok(Rows::new(outputs))
}

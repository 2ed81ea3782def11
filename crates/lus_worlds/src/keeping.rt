//! Copies of what is kept.

ghost use Rattle.std.specs.Prelude.{◌≡◌, IfOk};
ghost use Rattle.lus_worlds.specs.Moments.{kept_by, kept_of};

use crate::moment::Moment;
use lus_values::{Memory, Row};
use std::alloc::Global;

/// A copy of what is kept behind an instant, without the instant itself.
#[cycle(keep)]
pub fn keep(alloc: Global, moment: &Moment) -> Result<Moment, Memory>
    ensures { IfOk result (λ m. kept_of m ≡ kept_of moment.now) }
{
    let kept = moment.kept.copy(alloc)?;
    let called = keep_all(alloc, &moment.called)?;
    Ok(Moment {
        present: false,
        row: Row::new(Vec::new(alloc)),
        kept,
        fault: None,
        called,
    })
}

/// Copies of what is kept behind instants.
#[cycle(keep)]
fn keep_all(alloc: Global, moments: &[Moment]) -> Result<Vec<Moment>, Memory>
    ensures { IfOk result (λ ms. kept_by ms.items ≡ kept_by moments.now) }
{
    let mut copies = Vec::new(alloc);
    for moment in moments {
        let moment_copy = keep(alloc, moment)?;
        copies.push(moment_copy)?;
    }
    Ok(copies)
}

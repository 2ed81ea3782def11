//! The row on which an instant begins.

ghost use Rattle.std.specs.Prelude.{◌≡◌, IfOk, length, map};
ghost use Rattle.lus_values.specs.View.{entry_of};
ghost use Rattle.lus_orders.specs.Classes.{begun};

use lus_instructions::{Held, Stop};
use lus_orders::empty;
use lus_values::Value;
use std::alloc::Global;

/// A row that begins with inputs, and is empty behind.
pub fn begin<T: Held>(alloc: Global, inputs: &[Option<Value>], own: &mut [T]) -> Result<(), Stop>
    ensures { IfOk result (λ _. map T.entry own.new ≡ begun (length own.old) (map entry_of inputs.now)) }
{
    empty(own);
    for place in 0..own.len() {
        if place >= inputs.len() {
            return Ok(());
        }
        let held = T::of_seen(alloc, inputs[place].see())?;
        own[place] = held;
    }
    Ok(())
}

//! Whether inputs fit a class.

ghost use Rattle.std.specs.Prelude.{◌↔◌, IsTrue, map};
ghost use Rattle.lus_values.specs.View.{entry_of};
ghost use Rattle.lus_running.specs.Fits.{FitsLook, FitsPresence, InputsTestInputs};

use crate::presence::is_present;
use lus_instructions::Class;
use lus_values::Value;

/// Whether an input is present exactly where the newest test of its clock holds, if it has one.
fn fits_look(class: &Class, inputs: &[Option<Value>], variable: usize) -> bool
    ensures { IsTrue result ↔ FitsLook class.now (map entry_of inputs.now) variable }
{
    let is_there = variable < inputs.len() && inputs[variable].is_some();
    is_there == is_present(class, inputs, variable)
}

/// Whether each input is present exactly where its clock is. Where each passes its one look, the older tests of a clock hold
/// wherever the newest does.
pub fn fits_presence(class: &Class, inputs: &[Option<Value>]) -> bool
    requires { InputsTestInputs class.now }
    ensures { IsTrue result ↔ FitsPresence class.now (map entry_of inputs.now) }
{
    for variable in 0..class.inputs as usize {
        if !fits_look(class, inputs, variable) {
            return false;
        }
    }
    true
}

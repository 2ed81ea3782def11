//! Steps that give variables what their equations say.

ghost use Rattle.std.specs.Prelude.{◌≡◌, IfOk, OnOk, map};
ghost use Rattle.lus_program.specs.View.{expression_of};
ghost use Rattle.lus_streams.specs.Equations.{place_in};
ghost use Rattle.lus_classes.specs.View.{taken};
ghost use Rattle.lus_values.specs.Lists.{Each};
ghost use Rattle.lus_translation.specs.Making.{GivesAny, calls_made};
ghost use Rattle.lus_translation.specs.Forms.{answers_form, given_cells, turn_cells};
ghost use Rattle.lus_translation.specs.Building.{AddsCells, Adds, MakesCalls, given_from, turn_calls_from, turn_from};

use crate::code::code_of;
use crate::firsts::Firsts;
use crate::numbers::number_of;
use lus_clocks::inputs_at;
use lus_instructions::{Cell, Step, Target};
use lus_program::{Equation, Expr, Form, Program, Test};
use lus_values::Memory;
use std::alloc::Global;

/// The steps so far, with the cells that they keep.
#[derive(Drop)]
pub struct Built {
    pub steps: Vec<Step>,
    pub cells: Vec<Cell>,
}

/// Where a variable stands first on a left side, if it does.
fn place_of(targets: &[u32], variable: u32) -> Option<usize>
    ensures { result ≡ place_in variable targets.now 0 }
{
    for (place, target) in targets.iter().enumerate() {
        if variable == *target {
            return Some(place);
        }
    }
    None
}

/// The variables that a call gives, each with the output that it is behind the inputs of the called node; of others none.
fn targets_of(
    alloc: Global,
    targets: &[u32],
    inputs: u32,
    variables: &[u32],
) -> Result<Vec<Target>, Memory>
    ensures { IfOk result (λ ts. (number : _) → map (taken number) ts.items ≡ answers_form number inputs targets.now variables.now) }
{
    let mut found = Vec::with_capacity(alloc, variables.len())?;
    for variable in variables {
        if let Some(output) = place_of(targets, *variable) {
            let Some(place) = (inputs as usize).checked_add(output) else {
                return Err(Memory);
            };
            found.push(Target {
                variable: *variable,
                place: number_of(place)?,
            })?;
        }
    }
    Ok(found)
}

/// Gives variables a right side on a clock, which is no call.
fn give_right(
    alloc: Global,
    right: &Expr,
    clock: &[Test],
    firsts: &Firsts,
    variables: &[u32],
    built: &mut Built,
) -> Result<(), Memory>
    ensures steps { let given = given_from built.old firsts.now (expression_of right.now) clock.now variables.now in
        OnOk result (Adds built.old built.new given) }
    ensures cells { OnOk result (AddsCells built.old built.new (given_cells (expression_of right.now) clock.now variables.now)) }
    ensures given { OnOk result (Each GivesAny built.old.steps.items → Each GivesAny built.new.steps.items) }
    ensures made { OnOk result (MakesCalls built.new (calls_made built.old.steps.items)) }
{
    for variable in variables {
        let code = code_of(alloc, right, clock, firsts, &mut built.cells)?;
        built.steps.push(Step::Give(*variable, code))?;
    }
    Ok(())
}

/// Gives variables of an equation, on its clock, what its right side is; a call of it has this number, and is made where it
/// gives any.
pub fn give_turn(
    alloc: Global,
    program: &Program,
    equation: &Equation,
    clock: &[Test],
    firsts: &Firsts,
    number: u32,
    variables: &[u32],
    built: &mut Built,
) -> Result<(), Memory>
    ensures steps { let given = turn_from program.now built.old firsts.now number equation.now clock.now variables.now in
        OnOk result (Adds built.old built.new given) }
    ensures cells { OnOk result (AddsCells built.old built.new (turn_cells (expression_of equation.now.right) clock.now variables.now)) }
    ensures given { OnOk result (Each GivesAny built.old.steps.items → Each GivesAny built.new.steps.items) }
    ensures made { OnOk result (MakesCalls built.new (turn_calls_from program.now built.old number equation.now variables.now)) }
{
    match &equation.right.form {
        Form::Call(called, _) => {
            let inputs = inputs_at(program, *called);
            let targets = targets_of(alloc, &equation.targets, inputs, variables)?;
            if targets.is_empty() {
                return Ok(());
            }
            built.steps.push(Step::Call(number, targets))?;
            Ok(())
        }
        _ => give_right(alloc, &equation.right, clock, firsts, variables, built),
    }
}

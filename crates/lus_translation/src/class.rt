//! The class of a node whose equations have their turns.

ghost use Rattle.std.specs.Prelude.{◌≡◌, Some, [], IfOk, OnOk, length};
ghost use Rattle.lus_program.specs.View.{node_of};
ghost use Rattle.lus_values.specs.Lists.{Each};
ghost use Rattle.lus_classes.specs.Parts.{ArePartsOf};
ghost use Rattle.lus_translation.specs.Making.{GivesAny, calls_made};
ghost use Rattle.lus_translation.specs.Newest.{HasNewest};
ghost use Rattle.lus_translation.specs.NextPart.{KeepsOwn};
ghost use Rattle.lus_translation.specs.Forms.{equation_cells};
ghost use Rattle.lus_translation.specs.Building.{Adds, AddsCells, MakesCalls, cells_in_turn, cells_in_turns, class_calls, class_from};
ghost use Rattle.lus_translation.specs.Building.{calls_for, calls_in_turn, calls_in_turns, steps_for, steps_in_turn, steps_in_turns};

use crate::calls::{calls_of, clock_of_equation, numbers_of, tests_of};
use crate::firsts::{Firsts, firsts_of};
use crate::flat_code::parts_of;
use crate::steps::{Built, give_turn};
use crate::turn::Turn;
use lus_instructions::{Class, Part};
use lus_program::{Equation, Node, Program};
use lus_values::Memory;
use std::alloc::Global;

/// Makes the steps of an equation's variables.
fn make_equation(
    alloc: Global,
    program: &Program,
    node: &Node,
    firsts: &Firsts,
    equation: &Equation,
    number: u32,
    variables: &[u32],
    built: &mut Built,
) -> Result<(), Memory>
    ensures steps { let made = steps_for program.now node.now built.old firsts.now number equation.now variables.now in
        OnOk result (Adds built.old built.new made) }
    ensures cells { OnOk result (AddsCells built.old built.new (equation_cells (node_of node.now) (Some equation.now) variables.now)) }
    ensures given { OnOk result (Each GivesAny built.old.steps.items → Each GivesAny built.new.steps.items) }
    ensures made { OnOk result (MakesCalls built.new (calls_for program.now built.old number equation.now variables.now)) }
{
    let clock = clock_of_equation(alloc, node, equation)?;
    give_turn(
        alloc, program, equation, &clock, firsts, number, variables, built,
    )?;
    Ok(())
}

/// Makes the steps of a turn; past the last equation there are none.
fn make_turn(
    alloc: Global,
    program: &Program,
    node: &Node,
    firsts: &Firsts,
    numbers: &[u32],
    turn: &Turn,
    built: &mut Built,
) -> Result<(), Memory>
    requires { length numbers.now ≡ length node.now.equations.items }
    ensures steps { OnOk result (Adds built.old built.new (steps_in_turn program.now node.now numbers.now built.old firsts.now turn.now)) }
    ensures cells { OnOk result (AddsCells built.old built.new (cells_in_turn program.now node.now numbers.now turn.now)) }
    ensures given { OnOk result (Each GivesAny built.old.steps.items → Each GivesAny built.new.steps.items) }
    ensures made { OnOk result (MakesCalls built.new (calls_in_turn program.now node.now numbers.now built.old turn.now)) }
{
    match node.equations.get(turn.equation) {
        Some(equation) => {
            let number = numbers[turn.equation];
            make_equation(
                alloc,
                program,
                node,
                firsts,
                equation,
                number,
                &turn.variables,
                built,
            )
        }
        None => Ok(()),
    }
}

/// Makes the steps of all turns.
fn make_turns(
    alloc: Global,
    program: &Program,
    node: &Node,
    firsts: &Firsts,
    numbers: &[u32],
    turns: &[Turn],
    built: &mut Built,
) -> Result<(), Memory>
    requires { length numbers.now ≡ length node.now.equations.items }
    ensures steps { let made = steps_in_turns program.now node.now numbers.now built.old firsts.now turns.now in
        OnOk result (Adds built.old built.new made) }
    ensures cells { OnOk result (AddsCells built.old built.new (cells_in_turns program.now node.now numbers.now turns.now)) }
    ensures given { OnOk result (Each GivesAny built.old.steps.items → Each GivesAny built.new.steps.items) }
    ensures made { OnOk result (MakesCalls built.new (calls_in_turns program.now node.now numbers.now built.old turns.now)) }
{
    for turn in turns {
        make_turn(alloc, program, node, firsts, numbers, turn, built)?;
    }
    Ok(())
}

/// The class of a node whose equations have these turns, and the parts that make its steps. Of its clocks the class keeps the newest
/// tests.
pub fn class_with(
    alloc: Global,
    program: &Program,
    node: &Node,
    turns: &[Turn],
) -> Result<(Class, Vec<Part>), Memory>
    ensures form { IfOk result (λ made. HasNewest (node_of node.now) made.0 (class_from program.now node.now turns.now)) }
    ensures outputs { IfOk result (λ made. made.0.outputs ≡ node.now.outputs) }
    ensures parts { IfOk result (λ made. KeepsOwn made.0 → ArePartsOf made.0 made.1.items) }
    ensures given { IfOk result (λ made. Each GivesAny made.0.steps.items) }
    ensures calls { IfOk result (λ made. calls_made made.0.steps.items ≡ class_calls program.now node.now turns.now) }
{
    let mut built = Built {
        steps: Vec::new(alloc),
        cells: Vec::new(alloc),
    };
    let numbers = numbers_of(alloc, node)?;
    let firsts = firsts_of(alloc, node)?;
    make_turns(alloc, program, node, &firsts, &numbers, turns, &mut built)?;
    let tests = tests_of(alloc, node)?;
    let parts = parts_of(alloc, &tests, &built.steps)?;
    let calls = calls_of(alloc, program, node)?;
    let class = Class {
        inputs: node.inputs,
        outputs: node.outputs,
        tests,
        steps: built.steps,
        cells: built.cells,
        firsts: firsts.tests(alloc)?,
        calls,
    };
    Ok((class, parts))
}

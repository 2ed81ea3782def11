//! Classes.

ghost use Rattle.std.specs.Prelude.{◌≡◌, None};
ghost use Rattle.lus_values.specs.Lists.{item};

use crate::formula::{Atom, Formula};
use crate::instruction::Instruction;
use lus_values::Test;

/// A variable that a call gives, and the variable of the called node that it gives.
#[derive(Clone, Copy, PartialEq, Eq, Debug)]
pub struct Target {
    pub variable: u32,
    pub place: u32,
}

/// How variables are given their values where their clocks are present.
#[derive(Drop)]
pub enum Step {
    /// A variable and its formula.
    Give(u32, Formula),
    /// A call and the variables that it gives.
    Call(u32, Vec<Target>),
}

/// Some of the steps of a class, as they are run.
#[derive(Drop)]
pub enum Part {
    /// Instructions that make steps each of which gives a variable, and where their temporaries end.
    Code(Vec<Instruction>, u32),
    /// The call of a step, by the step's place.
    Call(u32),
}

/// A cell keeps what its operand held at the last instant of its clock.
#[derive(Drop)]
pub struct Cell {
    /// The newest test of its clock.
    pub test: Option<Test>,
    pub operand: Atom,
}

/// What is passed to an input of a called node, on the clock of that input.
#[derive(Drop)]
pub struct Argument {
    /// The newest test of its clock.
    pub test: Option<Test>,
    pub atom: Atom,
}

/// A call of a node, which runs where the base is present.
#[derive(Drop)]
pub struct Call {
    pub node: u32,
    /// The newest test of the base.
    pub base: Option<Test>,
    pub arguments: Vec<Argument>,
}

/// The class of a node. A clock is kept by its newest test: the older ones are those of the test's variable.
#[derive(Drop)]
pub struct Class {
    pub inputs: u32,
    pub outputs: u32,
    /// The newest test of each variable's clock.
    pub tests: Vec<Option<Test>>,
    /// In the order in which they are made.
    pub steps: Vec<Step>,
    pub cells: Vec<Cell>,
    /// The newest test of each first-flag's clock.
    pub firsts: Vec<Option<Test>>,
    pub calls: Vec<Call>,
}

/// The newest test of a variable's clock.
pub fn test_of(tests: &[Option<Test>], variable: u32) -> Option<Test>
    ensures { result ≡ item None tests.now variable }
{
    match tests.get(variable as usize) {
        Some(test) => *test,
        None => None,
    }
}

//! Classes whose code calls.

use crate::order::Order;
use lus_instructions::{Argument, Instruction};
use lus_values::Test;

/// A place that is given what stands in a frame, where a test holds.
#[derive(Clone, Copy, Drop)]
pub struct Target {
    pub variable: u32,
    pub test: Option<Test>,
    pub place: u32,
}

/// A call: which node, which test has to hold, which cells are the called node's, what is passed and what is taken out.
#[derive(Drop)]
pub struct Call {
    pub node: u32,
    pub base: Option<Test>,
    pub cells: u32,
    pub length: u32,
    pub arguments: Vec<Argument>,
    pub targets: Vec<Target>,
}

/// The code of a class, with the instructions in it that aren't located, how many of its places are variables, which come first, how
/// many are its own, how many the frames of its calls need behind them, and how many cells it has with those of its calls.
#[derive(Drop)]
pub struct Class {
    pub variables: u32,
    pub own: usize,
    pub behind: usize,
    pub cells: u32,
    pub code: Vec<Order>,
    pub others: Vec<Instruction>,
    pub calls: Vec<Call>,
}

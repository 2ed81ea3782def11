//! A journal's table with the names of its rows.

use lus_diagrams::Column;

/// What a signal's values are: truth values, numbers of 64 bits, or texts.
#[derive(Clone, Copy)]
pub enum SignalKind {
    Truth,
    Number,
    Text,
}

/// Whether a signal is an input, an output, or another variable of the node or of one that it calls.
#[derive(Clone, Copy)]
pub enum Side {
    Input,
    Output,
    Local,
}

impl Side {
    pub fn word(self) -> &'static str {
        match self {
            Side::Input => "input",
            Side::Output => "output",
            Side::Local => "local",
        }
    }
}

/// A part of a signal that is no structure: its name, the places of the fields that lead to it from the signal's value, and its kind.
#[derive(Drop)]
pub struct Lane {
    pub name: String,
    pub way: Vec<u32>,
    pub kind: SignalKind,
}

/// A variable. Its name is behind those of the nodes that lead to it, as `regulator.sum`; its label says its clock too. It has a lane
/// for each part of it that is no structure, which is itself where it is none.
#[derive(Drop)]
pub struct Signal {
    pub side: Side,
    pub name: String,
    pub label: String,
    pub kind: SignalKind,
    pub lanes: Vec<Lane>,
}

/// Whether a signal is no input or output.
pub(crate) fn is_local(signal: &Signal) -> bool {
    matches!(signal.side, Side::Local)
}

/// Which journal it is, and on which line of its file it begins, counted from 1. One that ends early has the number of its last whole
/// line.
#[derive(Drop)]
pub struct Heading {
    pub instance: String,
    pub node: String,
    pub line: u64,
    pub ends_early: Option<u64>,
}

/// A refused call: how many accepted instants stand before it, and its line.
#[derive(Drop)]
pub struct Refusal {
    pub behind: u64,
    pub line: Vec<u8>,
}

/// What is drawn of a journal: the signals that its node's inputs and outputs are, those that its rows are, the columns of its table, and
/// the calls that were refused.
#[derive(Drop)]
pub struct Trace {
    pub heading: Heading,
    pub formals: Vec<Signal>,
    pub signals: Vec<Signal>,
    pub columns: Vec<Column>,
    pub refusals: Vec<Refusal>,
}

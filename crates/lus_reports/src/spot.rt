//! Places in scripts.

use std::fmt;

/// A place in scripts, by the lists and the keys on the way to it. Entries of lists are numbered from 0.
#[derive(Clone, Copy)]
pub enum Spot {
    /// The scripts themselves.
    Scripts,
    /// `instances`
    Instances,
    /// `instances[2]`
    Instance(usize),
    /// `instances[2].name`
    OfInstance(usize, &'static str),
    /// `callers`
    Callers,
    /// `callers[1]`
    Caller(usize),
    /// `callers[1].name`
    OfCaller(usize, &'static str),
    /// `callers[1].calls[7]`
    Call(usize, usize),
    /// `callers[1].calls[7].on`
    OfCall(usize, usize, &'static str),
    /// `callers[1].calls[7].step[0]`
    Item(usize, usize, usize),
    /// `callers[1].calls[7].burst[2]`
    Row(usize, usize, usize),
    /// `callers[1].calls[7].burst[2][0]`
    ItemOfRow(usize, usize, usize, usize),
}

impl fmt::Display for Spot {
    fn fmt<W: fmt::Write>(&self, f: &mut fmt::Formatter<W>) -> fmt::Result {
        match self {
            Spot::Scripts => f.write_str("scripts"),
            Spot::Instances => f.write_str("instances"),
            Spot::Instance(at) => write!(f, "instances[{at}]"),
            Spot::OfInstance(at, key) => write!(f, "instances[{at}].{key}"),
            Spot::Callers => f.write_str("callers"),
            Spot::Caller(at) => write!(f, "callers[{at}]"),
            Spot::OfCaller(at, key) => write!(f, "callers[{at}].{key}"),
            Spot::Call(caller, at) => write!(f, "callers[{caller}].calls[{at}]"),
            Spot::OfCall(caller, at, key) => write!(f, "callers[{caller}].calls[{at}].{key}"),
            Spot::Item(caller, at, item) => {
                write!(f, "callers[{caller}].calls[{at}].step[{item}]")
            }
            Spot::Row(caller, at, row) => {
                write!(f, "callers[{caller}].calls[{at}].burst[{row}]")
            }
            Spot::ItemOfRow(caller, at, row, item) => {
                write!(f, "callers[{caller}].calls[{at}].burst[{row}][{item}]")
            }
        }
    }
}

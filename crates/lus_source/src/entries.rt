//! What names of each space stand for.

use lus_program::Kind;
use lus_syntax::NodeKind;

/// A variable or a field, by its place among its node's variables or its structure's fields.
#[derive(Clone, Copy, PartialEq, Eq, Debug)]
pub struct Placed {
    pub place: u32,
    pub kind: Kind,
}

/// A constructor, by the places of its type and of itself.
#[derive(Clone, Copy, PartialEq, Eq, Debug)]
pub struct Constructor {
    pub enumeration: u32,
    pub place: u32,
}

/// What a call needs of a node: its place, and the types of its inputs and outputs.
#[derive(Drop)]
pub struct Signature {
    pub place: u32,
    pub kind: NodeKind,
    pub inputs: Vec<Kind>,
    pub outputs: Vec<Kind>,
}

//! Tests of which clocks are made.

/// A variable holds a constructor, by their places; of `bool`, 0 is false and 1 is true.
#[derive(Clone, Copy, PartialEq, Eq, Debug)]
pub struct Test {
    pub variable: u32,
    pub constructor: u32,
}

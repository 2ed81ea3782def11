//! How operators mix.

/// How an operator mixes with the others of its rule.
#[derive(Clone, Copy)]
pub enum Mixing {
    Implication,
    Or,
    Xor,
    Comparison,
    Free,
}

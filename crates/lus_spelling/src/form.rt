//! What parts belong to.

/// A call's arguments or an operator's operands, a structure's fields, or a merge's branches.
#[derive(Clone, Copy)]
pub enum Form {
    Call,
    Structure,
    Merge,
}

//! What a name stands as.

/// What a declaration declares.
#[derive(Clone, Copy, Debug, PartialEq, Eq)]
pub enum Declared {
    Type,
    Constructor,
    Field,
    Constant,
    Node,
    Input,
    Output,
    Local,
}

/// What a name stands as, by the tokens round it.
#[derive(Clone, Copy, PartialEq, Eq)]
pub(crate) enum Role {
    Declares(Declared),
    Type,
    Called,
    /// The constructor of a test, of a branch or of a constant.
    Label,
    /// A variable on the left of an equation.
    Left,
    /// The variable of a test or of a merge.
    Tested,
    /// A variable, a constant or a constructor.
    Value,
    /// Behind a dot, or before a field's value.
    Field,
}

/// A name where it stands: its token, counted from 0, and what it stands as. Of a type that other names are declared with it has the
/// first of these, of a field the name whose type has it, and of a branch's label the merged variable, as places among all mentions.
#[derive(Clone, Copy)]
pub(crate) struct Mention {
    pub token: usize,
    pub role: Role,
    pub of: Option<usize>,
}

//! Branches.

use lus_program::Form;
use lus_syntax::Place;
use lus_values::Operator;

/// Which operand of an `if` or of a `merge` a branch is.
#[derive(Clone, Copy, Debug, PartialEq, Eq)]
pub enum Choice {
    /// What an `if` gives where its condition is true.
    Then,
    /// What an `if` gives where its condition is false.
    Else,
    /// What a merge by the variable of this number gives where that holds the constructor of this number; of a truth value 0 is false,
    /// and 1 true.
    Merge(u32, u32),
}

/// A branch in the text of a node: the node's number, the place of the branch's first token in the source, and at how many instants it
/// was taken.
#[derive(Clone, Copy, Debug, PartialEq, Eq)]
pub struct Branch {
    pub node: u32,
    pub place: Place,
    pub choice: Choice,
    pub taken: u64,
}

/// Which branch the operand at a place of an expression is, if it is one.
pub(crate) fn choice_at(form: &Form, place: usize) -> Option<Choice> {
    match form {
        Form::Operate(Operator::If, _) => match place {
            1 => Some(Choice::Then),
            2 => Some(Choice::Else),
            _ => None,
        },
        Form::Merge(variable, _) => match u32::try_from(place) {
            Ok(constructor) => Some(Choice::Merge(*variable, constructor)),
            Err(_) => None,
        },
        _ => None,
    }
}

/// How many operands an expression has.
pub(crate) fn width(form: &Form) -> usize {
    match form {
        Form::Literal(_) | Form::Variable(_) => 0,
        Form::Pre(_) | Form::When(_, _) => 1,
        Form::Arrow(_, _) => 2,
        Form::Operate(_, operands) => operands.len(),
        Form::Merge(_, branches) => branches.len(),
        Form::Call(_, arguments) => arguments.len(),
    }
}

//! Operators, which work instant by instant on operands of one clock.

ghost use Rattle.std.specs.Prelude.{◌≡◌};
ghost use Rattle.lus_values.specs.Operators.{shape as shape_of_op};

/// An operator whose result is a number or a truth value.
#[derive(Clone, Copy, PartialEq, Eq, Debug)]
pub enum Op {
    Negate,
    Add,
    Subtract,
    Multiply,
    /// Rounds toward zero.
    Divide,
    /// The language's `mod`: what `Divide` leaves, so never of another sign than the first operand.
    Remainder,
    Not,
    And,
    Or,
    Xor,
    Implies,
    Equal,
    NotEqual,
    Less,
    AtMost,
    Greater,
    AtLeast,
    /// At most one of its operands, of which there is one or more, is true.
    AtMostOne,
    /// None of its operands, of which there is one or more, is true.
    Nor,
}

/// What an operator takes, and of which type its result is.
#[derive(Clone, Copy)]
pub enum Shape {
    /// A number, and gives one.
    Int,
    /// Two numbers, and gives one.
    Ints,
    /// Two numbers, and gives a truth value.
    Comparison,
    /// A truth value, and gives one.
    Bool,
    /// Two truth values, and gives one.
    Bools,
    /// Two values of one type, and gives a truth value.
    Alike,
    /// One truth value or more, and gives one.
    Count,
}

impl Op {
    /// What the operator takes and gives.
    pub fn shape(self) -> Shape
        ensures { result ≡ shape_of_op self }
    {
        let (shape, _) = self.shape_and_sign();
        shape
    }

    /// How the operator is written in a source; one that has two ways as the word.
    pub fn sign(self) -> &'static str {
        let (_, sign) = self.shape_and_sign();
        sign
    }

    fn shape_and_sign(self) -> (Shape, &'static str)
        ensures { result.0 ≡ shape_of_op self }
    {
        match self {
            Op::Negate => (Shape::Int, "-"),
            Op::Add => (Shape::Ints, "+"),
            Op::Subtract => (Shape::Ints, "-"),
            Op::Multiply => (Shape::Ints, "*"),
            Op::Divide => (Shape::Ints, "div"),
            Op::Remainder => (Shape::Ints, "mod"),
            Op::Not => (Shape::Bool, "not"),
            Op::And => (Shape::Bools, "and"),
            Op::Or => (Shape::Bools, "or"),
            Op::Xor => (Shape::Bools, "xor"),
            Op::Implies => (Shape::Bools, "=>"),
            Op::Equal => (Shape::Alike, "="),
            Op::NotEqual => (Shape::Alike, "<>"),
            Op::Less => (Shape::Comparison, "<"),
            Op::AtMost => (Shape::Comparison, "<="),
            Op::Greater => (Shape::Comparison, ">"),
            Op::AtLeast => (Shape::Comparison, ">="),
            Op::AtMostOne => (Shape::Count, "#"),
            Op::Nor => (Shape::Count, "nor"),
        }
    }
}

/// An operator of the language, whatever its result.
#[derive(Clone, Copy, PartialEq, Eq, Debug)]
pub enum Operator {
    Compute(Op),
    /// A condition and two branches.
    If,
    /// The structure type's number; the operands are its fields, in declared order.
    Structure(u32),
    /// The field's place in its structure.
    Field(u32),
}

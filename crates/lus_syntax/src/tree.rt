//! The tree of a source, in the order and the words of the grammar.

use crate::token::Span;
use lus_values::Op;

/// A name where it stands.
#[derive(Drop)]
pub struct Name {
    pub text: String,
    pub span: Span,
}

/// `bool`, `int`, or a declared type's name.
#[derive(Drop)]
pub enum TypeName {
    Bool(Span),
    Int(Span),
    Declared(Name),
}

/// Fields of one type.
#[derive(Drop)]
pub struct Fields {
    pub names: Vec<Name>,
    pub type_name: TypeName,
}

/// What a type's name stands for.
#[derive(Drop)]
pub enum Definition {
    Alias(TypeName),
    Enumeration(Vec<Name>),
    Structure(Vec<Fields>),
}

#[derive(Drop)]
pub struct TypeDeclaration {
    pub name: Name,
    pub definition: Definition,
}

/// The right side of a constant.
#[derive(Drop)]
pub enum Literal {
    Number(i64, Span),
    /// The minus, and the number after it.
    Negative(Span, i64, Span),
    Truth(bool, Span),
    Constructor(Name),
}

#[derive(Drop)]
pub struct Constant {
    pub name: Name,
    pub type_name: Option<TypeName>,
    pub value: Literal,
}

/// A constructor, or a truth value.
#[derive(Drop)]
pub enum Label {
    Constructor(Name),
    Truth(bool, Span),
}

/// When a clock ticks.
#[derive(Drop)]
pub enum Test {
    /// `c`
    Holds(Name),
    /// `not c` or `not (c)`, with the place of the word.
    Fails(Span, Name),
    /// `A(c)`, `true(c)` or `false(c)`
    Is(Label, Name),
}

/// Variables of one type on one clock.
#[derive(Drop)]
pub struct Group {
    pub names: Vec<Name>,
    pub type_name: TypeName,
    pub test: Option<Test>,
}

/// An operator before its operand.
#[derive(Clone, Copy, PartialEq, Eq)]
pub enum Prefix {
    Not,
    Pre,
    Negate,
}

/// An operator between its operands.
#[derive(Clone, Copy, PartialEq, Eq)]
pub enum Infix {
    Fby,
    Arrow,
    /// One whose result is computed from the values of both sides: `div` and `/` are one, and `mod` is what it leaves.
    Compute(Op),
}

/// An operator before a list of operands.
#[derive(Clone, Copy, PartialEq, Eq)]
pub enum ListOperator {
    /// The symbol `#`: at most one operand is true.
    AtMostOne,
    /// The word `nor`: no operand is true.
    Nor,
}

/// What stands before the value of a part.
#[derive(Drop)]
pub enum Lead {
    /// An argument, or an operand of a list.
    Plain,
    /// A field's name.
    Field(Name),
    /// A branch's parenthesis and label.
    Branch(Span, Box<Label>),
}

/// An argument of a call, an operand of a list, a field's value of a structure, or a branch of a merge.
#[cycle(tree)]
#[derive(Drop)]
pub struct Part {
    pub lead: Lead,
    pub value: Expr,
}

/// An expression. A form that begins with a token of its own has that token's span. What only few forms have is boxed, since
/// each form takes the room of the largest.
#[cycle(tree)]
#[derive(Drop)]
pub enum Expr {
    Number(i64, Span),
    Truth(bool, Span),
    Name(Name),
    Call(Box<Name>, Vec<Part>),
    Structure(Box<Name>, Vec<Part>),
    Merge(Span, Box<Name>, Vec<Part>),
    Variadic(ListOperator, Span, Vec<Part>),
    Field(Box<Expr>, Name),
    Parentheses(Span, Box<Expr>),
    When(Box<Expr>, Box<Test>),
    Unary(Prefix, Span, Box<Expr>),
    Binary(Infix, Box<Expr>, Box<Expr>),
    If(Span, Box<Expr>, Box<Expr>, Box<Expr>),
}

/// The variables on the left are what the right side gives.
#[derive(Drop)]
pub struct Equation {
    pub left: Vec<Name>,
    pub right: Expr,
}

/// A function is a node without memory.
#[derive(Clone, Copy, PartialEq, Eq)]
pub enum NodeKind {
    Node,
    Function,
}

#[derive(Drop)]
pub struct Node {
    pub kind: NodeKind,
    pub name: Name,
    pub inputs: Vec<Group>,
    pub outputs: Vec<Group>,
    pub locals: Vec<Group>,
    pub equations: Vec<Equation>,
}

/// A node, by its place from 0 among the nodes of its source.
#[derive(Clone, Copy, PartialEq, Eq, Debug)]
pub struct NodeId(pub u32);

/// The declarations of a source, each kind in the order in which they stand.
#[derive(Drop)]
pub struct Tree {
    pub types: Vec<TypeDeclaration>,
    pub constants: Vec<Constant>,
    pub nodes: Vec<Node>,
}

//! Tokens, the tree of a source, and refusals.
#![tactic(auto)]

mod fault;
mod gap;
mod kind;
mod laws;
mod lexer;
mod limits;
mod place;
mod refusal;
mod table;
mod text;
mod token;
mod tree;

pub use kind::WORDS;
pub use laws::{one_reading, places_in_words};
pub use lexer::lex;
pub use limits::{
    MOST_BYTES, MOST_CALLS_DEEP, MOST_CELLS, MOST_CONSTRUCTORS, MOST_DECLARATIONS, MOST_DEPTH,
    MOST_FIELDS, MOST_LEAVES, MOST_NESTING, MOST_PARTS, MOST_VARIABLES,
};
pub use place::place_behind;
pub use refusal::{Cycle, Refusal, RefusalNumber};
pub use token::{Place, Span, Symbol, Token, TokenKind, Word};
pub use tree::{
    Constant, Definition, Equation, Expr, Fields, Group, Infix, Label, Lead, ListOperator, Literal,
    Name, Node, NodeId, NodeKind, Part, Prefix, Test, Tree, TypeDeclaration, TypeName,
};

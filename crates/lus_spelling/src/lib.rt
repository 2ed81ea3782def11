//! Which tokens spell which tree, and the reading that finds it.
#![tactic(auto)]

ghost use Rattle.std.specs.Prelude.{◌≡◌, List};
ghost use Rattle.lus_syntax.specs.Lexemes.{Lexeme};
ghost use Rattle.lus_syntax.specs.Trees.{Tree as PlainTree};
ghost use Rattle.lus_spelling.specs.Declarations.{SpellsProgram};

mod form;
mod mixing;
mod shape;

pub use form::Form;
pub use mixing::Mixing;
pub use shape::primary_shape;

/// Tokens spell at most one tree.
#[tactic(auto, using(crate::proofs::CompleteDeclarations::one_tree))]
pub fn one_tree()
    ensures { (ts : List Lexeme) (t u : PlainTree) → SpellsProgram t ts → SpellsProgram u ts → t ≡ u }
{}

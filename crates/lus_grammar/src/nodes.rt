//! Equations and nodes.

ghost use Rattle.std.specs.Prelude.{◌≡◌};
ghost use Rattle.lus_syntax.specs.Trees as plain;
ghost use Rattle.lus_syntax.specs.Limits.{most_depth};
ghost use Rattle.lus_syntax.specs.View.{tokens_seen, names_seen, equation_seen, node_seen};
ghost use Rattle.lus_grammar.specs.Answers.{Gives, read_as, all_read_as};
ghost use Rattle.lus_spelling.specs.ReadingDeclarations.{at_equation, left_at, ended, equation_at, body_at, node_at};

use crate::expressions::inside;
use crate::fault::{Parsed, Tokens};
use crate::front::{expect_symbol, expect_word, identifier, skip_symbol, symbol};
use crate::lists::{Items, in_turns};
use crate::operators::Rule;
use crate::types::names;
use crate::variables::{inputs, locals, outputs};
use lus_syntax::{Equation, MOST_DEPTH, Name, Node, NodeKind, Symbol, TokenKind, Word};
use std::alloc::Global;

/// The variables on the left, in parentheses or not.
#[tactic(auto, unfolding(lus_spelling::specs::ReadingDeclarations::left_at))]
fn left(alloc: Global, tokens: Tokens<'_>) -> Parsed<'_, Vec<Name>>
    ensures { Gives (λ x. (names_seen x.0.items, tokens_seen x.1.now)) result (left_at (tokens_seen tokens.now)) }
{
    match symbol(Symbol::Open, tokens) {
        None => names(alloc, tokens),
        Some((_, rest)) => {
            let (names, rest) = names(alloc, rest)?;
            let rest = expect_symbol(Symbol::Close, rest)?;
            Ok((names, rest))
        }
    }
}

/// Equations, each with its semicolon.
struct EquationList;

impl Items for EquationList {
    type Item = Equation;

    ghost Seen = { plain.Equation };

    ghost seen = { equation_seen };

    ghost next = { at_equation };

    ghost item = { equation_at most_depth };

    fn next(tokens: Tokens<'_>) -> Option<Tokens<'_>> {
        match tokens.first()?.kind {
            TokenKind::Identifier(_) | TokenKind::Punctuation(Symbol::Open) => Some(tokens),
            _ => None,
        }
    }

    #[tactic(auto, unfolding(lus_spelling::specs::ReadingDeclarations::equation_at))]
    fn item(alloc: Global, tokens: Tokens<'_>) -> Parsed<'_, Equation> {
        let (left, rest) = left(alloc, tokens)?;
        let rest = expect_symbol(Symbol::Equal, rest)?;
        let (right, _, rest) = inside(alloc, Rule::Whole, MOST_DEPTH, rest)?;
        let rest = expect_symbol(Symbol::Semicolon, rest)?;
        let right = Box::into_inner(right);
        Ok((Equation { left, right }, rest))
    }
}

/// The tokens after what may follow `tel`.
fn after_end(tokens: Tokens<'_>) -> Tokens<'_>
    ensures { tokens_seen result.now ≡ ended (tokens_seen tokens.now) }
{
    if let Some((_, rest)) = symbol(Symbol::Semicolon, tokens) {
        return rest;
    }
    skip_symbol(Symbol::Dot, tokens)
}

/// The equations of a node, from `let` to its end.
#[tactic(auto, unfolding(lus_spelling::specs::ReadingDeclarations::body_at))]
fn body(alloc: Global, tokens: Tokens<'_>) -> Parsed<'_, Vec<Equation>>
    ensures { Gives (all_read_as equation_seen) result (body_at most_depth (tokens_seen tokens.now)) }
{
    let rest = expect_word(Word::Let, tokens)?;
    let (equations, rest) = in_turns::<EquationList>(alloc, Vec::new(alloc), rest)?;
    let rest = expect_word(Word::Tel, rest)?;
    Ok((equations, after_end(rest)))
}

/// What stands after `node` or `function`.
#[tactic(auto, unfolding(lus_spelling::specs::ReadingDeclarations::node_at))]
pub fn node(alloc: Global, kind: NodeKind, tokens: Tokens<'_>) -> Parsed<'_, Node>
    ensures { Gives (read_as node_seen) result (node_at most_depth kind (tokens_seen tokens.now)) }
{
    let (name, rest) = identifier(alloc, tokens)?;
    let (inputs, rest) = inputs(alloc, rest)?;
    let (outputs, rest) = outputs(alloc, rest)?;
    let (locals, rest) = locals(alloc, rest)?;
    let (equations, rest) = body(alloc, rest)?;
    let node = Node {
        kind,
        name,
        inputs,
        outputs,
        locals,
        equations,
    };
    Ok((node, rest))
}

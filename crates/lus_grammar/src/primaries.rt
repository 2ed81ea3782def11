//! Truth values, fields, and the test after an expression.

ghost use Rattle.std.specs.Prelude.{◌≡◌, ◌≤◌, ◌+◌, suc, IfOk};
ghost use Rattle.lus_syntax.specs.Limits.{most_depth};
ghost use Rattle.lus_syntax.specs.View.{tokens_seen, expression_seen};
ghost use Rattle.lus_spelling.specs.Reading.{found, dots_at, truth_on, sampled_at};
ghost use Rattle.lus_grammar.specs.Answers.{Gives, tree_read};

use crate::fault::{ParseError, Read, Tokens};
use crate::front::{begun, identifier, symbol, test};
use crate::trees;
use lus_syntax::{Expr, Span, Symbol, Word};
use std::alloc::Global;

pub fn truth(alloc: Global, word: Word, span: Span, left: usize, rest: Tokens<'_>) -> Read<'_>
    ensures within { IfOk result (λ x. x.1 ≡ 1) }
    ensures exact { Gives tree_read result (truth_on word span (tokens_seen rest.now)) }
{
    match word {
        Word::True => Ok((Box::new(alloc, Expr::Truth(true, span))?, 1, rest)),
        Word::False => Ok((Box::new(alloc, Expr::Truth(false, span))?, 1, rest)),
        _ => Err(ParseError::Syntax(left)),
    }
}

/// The fields after an expression.
pub fn dots(alloc: Global, limit: u32, left: Box<Expr>, depth: u32, tokens: Tokens<'_>) -> Read<'_>
    requires limit { limit ≤ most_depth }
    requires depth { depth ≤ limit + 1 }
    ensures within { IfOk result (λ x. x.1 ≤ limit + 1) }
    ensures exact { Gives tree_read result (dots_at (suc limit) limit (found (expression_seen left.value) depth (tokens_seen tokens.now))) }
{
    let mut depth = depth;
    let (mut left, mut rest) = begun(left, tokens);
    while let Some((_, after)) = symbol(Symbol::Dot, rest) {
        let (name, after) = identifier(alloc, after)?;
        if depth > limit {
            return Err(ParseError::Deep(rest.len()));
        }
        left = trees::field(alloc, left, name)?;
        depth = depth + 1;
        rest = after;
    }
    Ok((left, depth, rest))
}

/// The test after an expression and `when`.
pub fn sampled(
    alloc: Global,
    limit: u32,
    left: Box<Expr>,
    depth: u32,
    tokens: Tokens<'_>,
) -> Read<'_>
    requires limit { limit ≤ most_depth }
    requires depth { depth ≤ limit + 1 }
    ensures within { IfOk result (λ x. x.1 ≤ limit + 1) }
    ensures exact { Gives tree_read result (sampled_at limit (expression_seen left.value) depth (tokens_seen tokens.now)) }
{
    let (test, rest) = test(alloc, tokens)?;
    if depth > limit {
        return Err(ParseError::Deep(tokens.len()));
    }
    Ok((trees::when(alloc, left, test)?, depth + 1, rest))
}

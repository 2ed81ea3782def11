//! Expressions. The functions of the grammar's cycle stand together; they hold trees in boxes alone, since they are
//! entered once for each rule at each depth.

ghost use Rattle.std.specs.Prelude.{◌≤◌, ◌<◌, ◌+◌, suc, [], length, Some, Ok, IfOk};
ghost use Rattle.lus_syntax.specs.Limits.{most_depth};
ghost use Rattle.lus_syntax.specs.View.{tokens_seen, name_seen, expression_seen};
ghost use Rattle.lus_spelling.specs.Expressions.{Whole, Arrow, Else, Primary, Dotted, Atom};
ghost use Rattle.lus_spelling.specs.Reading.{found, two_on, merge_on, refuse, operands_at, part_at, parts_at, name_at};
ghost use Rattle.lus_spelling.specs.Reading.{parentheses_at, plain_at, branches_at, read};
ghost use Rattle.lus_grammar.specs.Rules.{level_of, head_level, rule_level};
ghost use Rattle.lus_grammar.specs.Answers.{Gives, tree_read, part_read, parts_read};

use crate::fault::{ParseError, Read, Tokens};
use crate::front::{begun, expect_symbol, expect_word, identifier, name, symbol, word};
use crate::openings::nothing_left;
use crate::operators::{
    Chain, Head, Rule, after_prefix, entry, infix, list_operator, operand, prefix, without_prefix,
};
use crate::parts::{lead, tail, turn};
use crate::primaries::{dots, sampled, truth};
use crate::trees;
use lus_spelling::{Form, primary_shape};
use lus_syntax::{Expr, Infix, ListOperator, Name, Part, Span, Symbol, Token, TokenKind, Word};
use std::alloc::Global;

/// Parts, the greatest depth among them, and the tokens after what closes them.
type Parts<'a> = Result<(Vec<Part>, u32, Tokens<'a>), ParseError>;

/// An expression by a rule, as a part, which may have the depth `limit`.
#[cycle(parser)]
#[tactic(auto, unfolding(lus_spelling::specs::Reading::read))]
pub fn inside(alloc: Global, rule: Rule, limit: u32, tokens: Tokens<'_>) -> Read<'_>
    requires { limit ≤ most_depth }
    ensures within { IfOk result (λ x. x.1 ≤ limit) }
    ensures exact { Gives tree_read result (read limit (rule_level rule) (tokens_seen tokens.now)) }
{
    if limit == 0 {
        return Err(nothing_left(entry(rule), tokens));
    }
    by_rule(alloc, rule, limit - 1, tokens)
}

#[cycle(parser)]
fn by_rule(alloc: Global, rule: Rule, limit: u32, tokens: Tokens<'_>) -> Read<'_>
    requires { limit ≤ most_depth }
    ensures within { IfOk result (λ x. x.1 ≤ limit + 1) }
    ensures exact { Gives tree_read result (read (suc limit) (rule_level rule) (tokens_seen tokens.now)) }
{
    match rule {
        Rule::Whole => whole(alloc, limit, tokens),
        Rule::Arrow => arrow(alloc, limit, tokens),
        Rule::Else => otherwise(alloc, limit, tokens),
        Rule::Joined(chain) => joined(alloc, chain, limit, tokens),
        Rule::Prefixed(head) => prefixed(alloc, head, limit, tokens),
        Rule::Primary => primary(alloc, limit, tokens),
    }
}

#[cycle(parser)]
#[tactic(auto, unfolding(lus_spelling::specs::Reading::read, lus_spelling::specs::Reading::read_whole, lus_spelling::specs::Reading::whole_at))]
fn whole(alloc: Global, limit: u32, tokens: Tokens<'_>) -> Read<'_>
    requires { limit ≤ most_depth }
    ensures within { IfOk result (λ x. x.1 ≤ limit + 1) }
    ensures exact { Gives tree_read result (read (suc limit) Whole (tokens_seen tokens.now)) }
{
    let (left, depth, rest) = arrow(alloc, limit, tokens)?;
    if let Some((_, after)) = word(Word::Fby, rest) {
        if !primary_shape(&*left) {
            return Err(ParseError::Syntax(rest.len()));
        }
        return with_right(alloc, Infix::Fby, Rule::Primary, limit, left, depth, after);
    }
    if let Some((_, after)) = word(Word::When, rest) {
        if !primary_shape(&*left) {
            return Err(ParseError::Syntax(rest.len()));
        }
        return sampled(alloc, limit, left, depth, after);
    }
    Ok((left, depth, rest))
}

#[cycle(parser)]
#[tactic(auto, unfolding(lus_spelling::specs::Reading::read, lus_spelling::specs::Reading::read_arrow, lus_spelling::specs::Reading::choice_at, lus_spelling::specs::Reading::arrow_at))]
fn arrow(alloc: Global, limit: u32, tokens: Tokens<'_>) -> Read<'_>
    requires { limit ≤ most_depth }
    ensures within { IfOk result (λ x. x.1 ≤ limit + 1) }
    ensures exact { Gives tree_read result (read (suc limit) Arrow (tokens_seen tokens.now)) }
{
    if let Some((span, rest)) = word(Word::If, tokens) {
        return branches(alloc, limit, span, rest);
    }
    let (left, depth, rest) = joined(alloc, Chain::Implication, limit, tokens)?;
    match symbol(Symbol::Arrow, rest) {
        None => Ok((left, depth, rest)),
        Some((_, after)) => {
            with_right(alloc, Infix::Arrow, Rule::Arrow, limit, left, depth, after)
        }
    }
}

/// What stands after `else`.
#[cycle(parser)]
#[tactic(auto, unfolding(lus_spelling::specs::Reading::read, lus_spelling::specs::Reading::read_else, lus_spelling::specs::Reading::choice_at))]
fn otherwise(alloc: Global, limit: u32, tokens: Tokens<'_>) -> Read<'_>
    requires { limit ≤ most_depth }
    ensures within { IfOk result (λ x. x.1 ≤ limit + 1) }
    ensures exact { Gives tree_read result (read (suc limit) Else (tokens_seen tokens.now)) }
{
    match word(Word::If, tokens) {
        Some((span, rest)) => branches(alloc, limit, span, rest),
        None => joined(alloc, Chain::Implication, limit, tokens),
    }
}

/// What stands after an `if`.
#[cycle(parser)]
#[tactic(auto, unfolding(lus_spelling::specs::Reading::branches_at))]
fn branches(alloc: Global, limit: u32, span: Span, tokens: Tokens<'_>) -> Read<'_>
    requires { limit ≤ most_depth }
    ensures within { IfOk result (λ x. x.1 ≤ limit + 1) }
    ensures exact { Gives tree_read result (branches_at (read limit Whole) (read limit Else) span (tokens_seen tokens.now)) }
{
    let (condition, first_depth, rest) = inside(alloc, Rule::Whole, limit, tokens)?;
    let rest = expect_word(Word::Then, rest)?;
    let (yes, second_depth, rest) = inside(alloc, Rule::Whole, limit, rest)?;
    let rest = expect_word(Word::Else, rest)?;
    let (no, third_depth, rest) = inside(alloc, Rule::Else, limit, rest)?;
    let depth = first_depth.max(second_depth.max(third_depth)) + 1;
    Ok((trees::choice(alloc, span, condition, yes, no)?, depth, rest))
}

#[cycle(parser)]
fn joined(alloc: Global, chain: Chain, limit: u32, tokens: Tokens<'_>) -> Read<'_>
    requires { limit ≤ most_depth }
    ensures within { IfOk result (λ x. x.1 ≤ limit + 1) }
    ensures exact { Gives tree_read result (read (suc limit) (level_of chain) (tokens_seen tokens.now)) }
{
    let rule = operand(chain);
    let (mut left, mut depth, mut rest) = by_rule(alloc, rule, limit, tokens)?;
    while let Some((operator, after)) = infix(chain, &*left, rest) {
        let (tree, deeper, after) = with_right(alloc, operator, rule, limit, left, depth, after)?;
        left = tree;
        depth = deeper;
        rest = after;
    }
    Ok((left, depth, rest))
}

/// The tree of an operator, its left operand, and the right one that stands after it.
#[cycle(parser)]
fn with_right(
    alloc: Global,
    operator: Infix,
    rule: Rule,
    limit: u32,
    left: Box<Expr>,
    depth: u32,
    tokens: Tokens<'_>,
) -> Read<'_>
    requires limit { limit ≤ most_depth }
    requires depth { depth ≤ limit + 1 }
    ensures within { IfOk result (λ x. x.1 ≤ limit + 1) }
    ensures deeper { IfOk result (λ x. depth < x.1) }
    ensures exact { let left = found (expression_seen left.value) depth [] in
        Gives tree_read result (two_on limit operator (read limit (rule_level rule)) (λ f. Ok f) left (tokens_seen tokens.now)) }
{
    let (right, right_depth, rest) = inside(alloc, rule, limit, tokens)?;
    if depth > limit {
        return Err(ParseError::Deep(tokens.len() + 1));
    }
    let tree = trees::binary(alloc, operator, left, right)?;
    Ok((tree, depth.max(right_depth) + 1, rest))
}

#[cycle(parser)]
#[tactic(auto, using(crate::proofs::Steps::prefixed_is))]
fn prefixed(alloc: Global, head: Head, limit: u32, tokens: Tokens<'_>) -> Read<'_>
    requires { limit ≤ most_depth }
    ensures within { IfOk result (λ x. x.1 ≤ limit + 1) }
    ensures exact { Gives tree_read result (read (suc limit) (head_level head) (tokens_seen tokens.now)) }
{
    match prefix(head, tokens) {
        None => by_rule(alloc, without_prefix(head), limit, tokens),
        Some((operator, span, rest)) => {
            let rule = Rule::Prefixed(after_prefix(head));
            let (inner, depth, rest) = inside(alloc, rule, limit, rest)?;
            Ok((trees::unary(alloc, operator, span, inner)?, depth + 1, rest))
        }
    }
}

#[cycle(parser)]
#[tactic(auto, unfolding(lus_spelling::specs::Reading::read, lus_spelling::specs::Reading::read_primary, lus_spelling::specs::Reading::primary_at))]
fn primary(alloc: Global, limit: u32, tokens: Tokens<'_>) -> Read<'_>
    requires { limit ≤ most_depth }
    ensures within { IfOk result (λ x. x.1 ≤ limit + 1) }
    ensures exact { Gives tree_read result (read (suc limit) Primary (tokens_seen tokens.now)) }
{
    match word(Word::Merge, tokens) {
        None => dotted(alloc, limit, tokens),
        Some((span, rest)) => merge(alloc, limit, span, rest),
    }
}

/// What stands after `merge`.
#[cycle(parser)]
#[tactic(auto, unfolding(lus_spelling::specs::Reading::listed_at))]
fn merge(alloc: Global, limit: u32, span: Span, tokens: Tokens<'_>) -> Read<'_>
    requires { limit ≤ most_depth }
    ensures within { IfOk result (λ x. x.1 ≤ limit + 1) }
    ensures exact { Gives tree_read result (merge_on (read limit Whole) refuse [] (Some (span, tokens_seen tokens.now))) }
{
    let (name, rest) = identifier(alloc, tokens)?;
    let (branches, depth, rest) = parts(alloc, Form::Merge, limit, rest)?;
    Ok((trees::merge(alloc, span, name, branches)?, depth + 1, rest))
}

#[cycle(parser)]
#[tactic(auto, unfolding(lus_spelling::specs::Reading::read, lus_spelling::specs::Reading::read_dotted, lus_spelling::specs::Reading::dotted_at))]
fn dotted(alloc: Global, limit: u32, tokens: Tokens<'_>) -> Read<'_>
    requires { limit ≤ most_depth }
    ensures within { IfOk result (λ x. x.1 ≤ limit + 1) }
    ensures exact { Gives tree_read result (read (suc limit) Dotted (tokens_seen tokens.now)) }
{
    let (left, depth, rest) = atom(alloc, limit, tokens)?;
    dots(alloc, limit, left, depth, rest)
}

#[cycle(parser)]
#[tactic(auto, unfolding(lus_spelling::specs::Reading::read, lus_spelling::specs::Reading::read_atom, lus_spelling::specs::Reading::atom_at))]
fn atom(alloc: Global, limit: u32, tokens: Tokens<'_>) -> Read<'_>
    requires { limit ≤ most_depth }
    ensures within { IfOk result (λ x. x.1 ≤ limit + 1) }
    ensures exact { Gives tree_read result (read (suc limit) Atom (tokens_seen tokens.now)) }
{
    match list_operator(tokens) {
        None => plain(alloc, limit, tokens),
        Some((operator, span, rest)) => operands(alloc, limit, operator, span, rest),
    }
}

/// The operands after an operator before a list.
#[cycle(parser)]
#[tactic(auto, unfolding(lus_spelling::specs::Reading::operands_at, lus_spelling::specs::Reading::listed_at))]
fn operands(
    alloc: Global,
    limit: u32,
    operator: ListOperator,
    span: Span,
    tokens: Tokens<'_>,
) -> Read<'_>
    requires { limit ≤ most_depth }
    ensures within { IfOk result (λ x. x.1 ≤ limit + 1) }
    ensures exact { Gives tree_read result (operands_at (read limit Whole) operator span (tokens_seen tokens.now)) }
{
    let rest = expect_symbol(Symbol::Open, tokens)?;
    let (operands, depth, rest) = parts(alloc, Form::Call, limit, rest)?;
    Ok((
        trees::variadic(alloc, operator, span, operands)?,
        depth + 1,
        rest,
    ))
}

/// An atom that begins with no operator.
#[cycle(parser)]
#[tactic(auto, unfolding(lus_spelling::specs::Reading::plain_at))]
fn plain(alloc: Global, limit: u32, tokens: Tokens<'_>) -> Read<'_>
    requires { limit ≤ most_depth }
    ensures within { IfOk result (λ x. x.1 ≤ limit + 1) }
    ensures exact { Gives tree_read result (plain_at (read limit Whole) (tokens_seen tokens.now)) }
{
    let [Token { kind, span }, rest @ ..] = tokens else {
        return Err(ParseError::Syntax(0));
    };
    match *kind {
        TokenKind::Number(number) => Ok((Box::new(alloc, Expr::Number(number, *span))?, 1, rest)),
        TokenKind::Identifier(text) => named(alloc, limit, name(alloc, text, *span)?, rest),
        TokenKind::Keyword(word) => truth(alloc, word, *span, tokens.len(), rest),
        TokenKind::Punctuation(_) => parentheses(alloc, limit, tokens),
    }
}

/// A name, and what belongs to it.
#[cycle(parser)]
#[tactic(auto, unfolding(lus_spelling::specs::Reading::name_at, lus_spelling::specs::Reading::listed_at))]
fn named(alloc: Global, limit: u32, name: Name, tokens: Tokens<'_>) -> Read<'_>
    requires { limit ≤ most_depth }
    ensures within { IfOk result (λ x. x.1 ≤ limit + 1) }
    ensures exact { Gives tree_read result (name_at (read limit Whole) (name_seen name) (tokens_seen tokens.now)) }
{
    if let Some((_, rest)) = symbol(Symbol::Open, tokens) {
        if let Some((_, after)) = symbol(Symbol::Close, rest) {
            return Ok((trees::call(alloc, name, Vec::new(alloc))?, 1, after));
        }
        let (arguments, depth, after) = parts(alloc, Form::Call, limit, rest)?;
        return Ok((trees::call(alloc, name, arguments)?, depth + 1, after));
    }
    if let Some((_, rest)) = symbol(Symbol::OpenBrace, tokens) {
        let (fields, depth, after) = parts(alloc, Form::Structure, limit, rest)?;
        return Ok((trees::structure(alloc, name, fields)?, depth + 1, after));
    }
    Ok((Box::new(alloc, Expr::Name(name))?, 1, tokens))
}

/// The parts of a call, a list, a structure or a merge.
#[cycle(parser)]
fn parts(alloc: Global, form: Form, limit: u32, tokens: Tokens<'_>) -> Parts<'_>
    requires { limit ≤ most_depth }
    ensures within { IfOk result (λ x. x.1 ≤ limit) }
    ensures exact { let ts = tokens_seen tokens.now in
        Gives parts_read result (parts_at (length ts + 1) form (read limit Whole) [] 0 ts) }
{
    let mut found = Vec::with_capacity(alloc, 1)?;
    let (mut deepest, mut rest) = begun(0u32, tokens);
    let count = tokens.len() + 1;
    for _ in 0..count {
        let (item, depth, after) = part(alloc, form, limit, rest)?;
        found.push(item)?;
        deepest = deepest.max(depth);
        let (goes_on, after) = turn(form, after)?;
        if !goes_on {
            return Ok((found, deepest, after));
        }
        rest = after;
    }
    Err(ParseError::Syntax(rest.len()))
}

#[cycle(parser)]
#[tactic(auto, unfolding(lus_spelling::specs::Reading::part_at))]
fn part(
    alloc: Global,
    form: Form,
    limit: u32,
    tokens: Tokens<'_>,
) -> Result<(Part, u32, Tokens<'_>), ParseError>
    requires { limit ≤ most_depth }
    ensures within { IfOk result (λ x. x.1 ≤ limit) }
    ensures exact { Gives part_read result (part_at form (read limit Whole) (tokens_seen tokens.now)) }
{
    let (lead, rest) = lead(alloc, form, tokens)?;
    let (value, depth, rest) = inside(alloc, Rule::Whole, limit, rest)?;
    let rest = tail(form, rest)?;
    let value = Box::into_inner(value);
    Ok((Part { lead, value }, depth, rest))
}

#[cycle(parser)]
#[tactic(auto, unfolding(lus_spelling::specs::Reading::parentheses_at))]
fn parentheses(alloc: Global, limit: u32, tokens: Tokens<'_>) -> Read<'_>
    requires { limit ≤ most_depth }
    ensures within { IfOk result (λ x. x.1 ≤ limit + 1) }
    ensures exact { Gives tree_read result (parentheses_at (read limit Whole) (tokens_seen tokens.now)) }
{
    match symbol(Symbol::Open, tokens) {
        None => Err(ParseError::Syntax(tokens.len())),
        Some((span, rest)) => {
            let (inner, depth, rest) = inside(alloc, Rule::Whole, limit, rest)?;
            let rest = expect_symbol(Symbol::Close, rest)?;
            Ok((trees::parentheses(alloc, span, inner)?, depth + 1, rest))
        }
    }
}

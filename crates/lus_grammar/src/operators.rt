//! Operators, and how they mix.

ghost use Rattle.std.specs.Prelude.{◌≡◌, option_map};
ghost use Rattle.lus_syntax.specs.Lexemes.{Sign, Keyword};
ghost use Rattle.lus_syntax.specs.View.{kind_seen, tokens_seen, expression_seen};
ghost use Rattle.lus_spelling.specs.Expressions.{joined_at, infix_of, mixing_of, mixes, may_join, prefix_of, list_operator_of};
ghost use Rattle.lus_spelling.specs.Reading.{entry, infix_at, list_operator_at, prefix_at};
ghost use Rattle.lus_grammar.specs.Rules.{entry_of, level_of, operand_of, head_level, head_operand, head_other, rule_level};

use crate::fault::Tokens;
use crate::openings::Entry;
use lus_spelling::Mixing;
use lus_syntax::{Expr, Infix, ListOperator, Prefix, Span, Symbol, TokenKind, Word};
use lus_values::Op;

/// The rules that read operands and operators between them.
#[derive(Clone, Copy, PartialEq, Eq)]
pub enum Chain {
    Implication,
    Disjunction,
    Conjunction,
    Comparison,
    Sum,
    Term,
}

/// The rules that read operators before an operand.
#[derive(Clone, Copy)]
pub enum Head {
    Negation,
    Negated,
    Signed,
}

/// The rules that read expressions.
#[derive(Clone, Copy)]
pub enum Rule {
    Whole,
    Arrow,
    Else,
    Joined(Chain),
    Prefixed(Head),
    Primary,
}

fn mixing_of(operator: Infix) -> Mixing
    ensures { result ≡ mixing_of operator }
{
    match operator {
        Infix::Compute(Op::Implies) => Mixing::Implication,
        Infix::Compute(Op::Or) => Mixing::Or,
        Infix::Compute(Op::Xor) => Mixing::Xor,
        Infix::Compute(
            Op::Equal | Op::NotEqual | Op::Less | Op::AtMost | Op::Greater | Op::AtLeast,
        ) => Mixing::Comparison,
        _ => Mixing::Free,
    }
}

fn may_mix(before: Mixing, after: Mixing) -> bool
    ensures { result ≡ mixes before after }
{
    match (before, after) {
        (Mixing::Implication, Mixing::Implication) => false,
        (Mixing::Or, Mixing::Xor) => false,
        (Mixing::Xor, Mixing::Or) => false,
        (Mixing::Comparison, Mixing::Comparison) => false,
        _ => true,
    }
}

/// Whether an operator may stand after a left operand.
fn joins(operator: Infix, left: &Expr) -> bool
    ensures { result ≡ may_join operator (expression_seen left.now) }
{
    match left {
        Expr::Binary(before, _, _) => may_mix(mixing_of(*before), mixing_of(operator)),
        _ => true,
    }
}

fn infix_symbol(symbol: Symbol) -> Option<(Chain, Op)>
    ensures { option_map (λ x. (level_of x.0, x.1)) result ≡ joined_at (Sign symbol) }
{
    match symbol {
        Symbol::Implies => Some((Chain::Implication, Op::Implies)),
        Symbol::Equal => Some((Chain::Comparison, Op::Equal)),
        Symbol::NotEqual => Some((Chain::Comparison, Op::NotEqual)),
        Symbol::Less => Some((Chain::Comparison, Op::Less)),
        Symbol::AtMost => Some((Chain::Comparison, Op::AtMost)),
        Symbol::Greater => Some((Chain::Comparison, Op::Greater)),
        Symbol::AtLeast => Some((Chain::Comparison, Op::AtLeast)),
        Symbol::Plus => Some((Chain::Sum, Op::Add)),
        Symbol::Minus => Some((Chain::Sum, Op::Subtract)),
        Symbol::Star => Some((Chain::Term, Op::Multiply)),
        Symbol::Slash => Some((Chain::Term, Op::Divide)),
        _ => None,
    }
}

fn infix_word(word: Word) -> Option<(Chain, Op)>
    ensures { option_map (λ x. (level_of x.0, x.1)) result ≡ joined_at (Keyword word) }
{
    match word {
        Word::Or => Some((Chain::Disjunction, Op::Or)),
        Word::Xor => Some((Chain::Disjunction, Op::Xor)),
        Word::And => Some((Chain::Conjunction, Op::And)),
        Word::Div => Some((Chain::Term, Op::Divide)),
        Word::Mod => Some((Chain::Term, Op::Remainder)),
        _ => None,
    }
}

fn infix_of(chain: Chain, kind: &TokenKind) -> Option<Infix>
    ensures { result ≡ infix_of (level_of chain) (kind_seen kind.now) }
{
    let (found, operator) = match *kind {
        TokenKind::Punctuation(symbol) => infix_symbol(symbol)?,
        TokenKind::Keyword(word) => infix_word(word)?,
        TokenKind::Identifier(_) | TokenKind::Number(_) => return None,
    };
    if found == chain {
        Some(Infix::Compute(operator))
    } else {
        None
    }
}

/// An operator of the rule at the front that may stand after `left`, and the tokens after it.
pub fn infix<'a>(chain: Chain, left: &Expr, tokens: Tokens<'a>) -> Option<(Infix, Tokens<'a>)>
    ensures { option_map (λ x. (x.0, tokens_seen x.1.now)) result
        ≡ infix_at (level_of chain) (expression_seen left.now) (tokens_seen tokens.now) }
{
    let (first, rest) = tokens.split_first()?;
    let operator = infix_of(chain, &first.kind)?;
    if joins(operator, left) {
        Some((operator, rest))
    } else {
        None
    }
}

fn prefix_of(head: Head, kind: &TokenKind) -> Option<Prefix>
    ensures { result ≡ prefix_of (head_level head) (kind_seen kind.now) }
{
    match (head, *kind) {
        (Head::Negation | Head::Negated, TokenKind::Keyword(Word::Not)) => Some(Prefix::Not),
        (Head::Signed, TokenKind::Keyword(Word::Pre)) => Some(Prefix::Pre),
        (Head::Signed, TokenKind::Punctuation(Symbol::Minus)) => Some(Prefix::Negate),
        _ => None,
    }
}

/// An operator before an operand, its span, and the tokens after it.
pub fn prefix(head: Head, tokens: Tokens<'_>) -> Option<(Prefix, Span, Tokens<'_>)>
    ensures { option_map (λ x. (x.0, x.1, tokens_seen x.2.now)) result ≡ prefix_at (head_level head) (tokens_seen tokens.now) }
{
    let (first, rest) = tokens.split_first()?;
    Some((prefix_of(head, &first.kind)?, first.span, rest))
}

fn list_operator_of(kind: &TokenKind) -> Option<ListOperator>
    ensures { result ≡ list_operator_of (kind_seen kind.now) }
{
    match *kind {
        TokenKind::Punctuation(Symbol::Sharp) => Some(ListOperator::AtMostOne),
        TokenKind::Keyword(Word::Nor) => Some(ListOperator::Nor),
        _ => None,
    }
}

/// An operator before a list of operands, its span, and the tokens after it.
pub fn list_operator(tokens: Tokens<'_>) -> Option<(ListOperator, Span, Tokens<'_>)>
    ensures { option_map (λ x. (x.0, x.1, tokens_seen x.2.now)) result ≡ list_operator_at (tokens_seen tokens.now) }
{
    let (first, rest) = tokens.split_first()?;
    Some((list_operator_of(&first.kind)?, first.span, rest))
}

/// The rule for what stands after an operator before an operand.
pub fn after_prefix(head: Head) -> Head
    ensures { result ≡ head_operand head }
{
    match head {
        Head::Negation | Head::Negated => Head::Negated,
        Head::Signed => Head::Signed,
    }
}

/// The rule of a chain's operands.
pub fn operand(chain: Chain) -> Rule
    ensures { rule_level result ≡ operand_of chain }
{
    match chain {
        Chain::Implication => Rule::Joined(Chain::Disjunction),
        Chain::Disjunction => Rule::Joined(Chain::Conjunction),
        Chain::Conjunction => Rule::Prefixed(Head::Negation),
        Chain::Comparison => Rule::Joined(Chain::Sum),
        Chain::Sum => Rule::Joined(Chain::Term),
        Chain::Term => Rule::Prefixed(Head::Signed),
    }
}

/// The rule for what stands where no operator does.
pub fn without_prefix(head: Head) -> Rule
    ensures { rule_level result ≡ head_other head }
{
    match head {
        Head::Negation => Rule::Joined(Chain::Comparison),
        Head::Negated => Rule::Prefixed(Head::Signed),
        Head::Signed => Rule::Primary,
    }
}

/// What an expression by a rule may begin with.
pub fn entry(rule: Rule) -> Entry
    ensures { entry_of result ≡ entry (rule_level rule) }
{
    match rule {
        Rule::Whole | Rule::Arrow | Rule::Else => Entry::Choice,
        Rule::Joined(Chain::Implication | Chain::Disjunction | Chain::Conjunction) =>
            Entry::Negation,
        Rule::Prefixed(Head::Negation | Head::Negated) => Entry::Negation,
        Rule::Joined(Chain::Comparison | Chain::Sum | Chain::Term) => Entry::Signed,
        Rule::Prefixed(Head::Signed) => Entry::Signed,
        Rule::Primary => Entry::Primary,
    }
}

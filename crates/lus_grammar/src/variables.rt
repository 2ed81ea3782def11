//! Declarations of variables.

ghost use Rattle.std.specs.Prelude.{List, map, option_map};
ghost use Rattle.lus_syntax.specs.declared.token.Symbol.TheVariants.{Close};
ghost use Rattle.lus_syntax.specs.declared.token.Word.TheVariants.{Var};
ghost use Rattle.lus_syntax.specs.Lexemes.{Keyword};
ghost use Rattle.lus_syntax.specs.Trees as plain;
ghost use Rattle.lus_syntax.specs.View.{tokens_seen, test_seen, group_seen};
ghost use Rattle.lus_grammar.specs.Answers.{Gives, read_as, all_read_as};
ghost use Rattle.lus_spelling.specs.ReadingDeclarations.{several_at, after, further, at_name, clock_at, group_at, variables_at, inputs_at, outputs_at, local_at, locals_at};

use crate::fault::{Parsed, Tokens};
use crate::front::{at_name, expect_symbol, expect_word, further, skip_symbol, symbol, test, word};
use crate::lists::{Items, Turns, in_turns, several};
use crate::types::fields;
use lus_syntax::{Fields, Group, Symbol, Test, Word};
use std::alloc::Global;

/// A clock that may be written.
#[tactic(auto, unfolding(lus_spelling::specs::ReadingDeclarations::clock_at))]
fn clock(alloc: Global, tokens: Tokens<'_>) -> Parsed<'_, Option<Test>>
    ensures { Gives (λ x. (option_map test_seen x.0, tokens_seen x.1.now)) result (clock_at (tokens_seen tokens.now)) }
{
    match word(Word::When, tokens) {
        None => Ok((None, tokens)),
        Some((_, rest)) => {
            let (test, rest) = test(alloc, rest)?;
            Ok((Some(test), rest))
        }
    }
}

/// Variables of one type on one clock.
#[tactic(auto, unfolding(lus_spelling::specs::ReadingDeclarations::group_at))]
fn group(alloc: Global, tokens: Tokens<'_>) -> Parsed<'_, Group>
    ensures { Gives (read_as group_seen) result (group_at (tokens_seen tokens.now)) }
{
    let (Fields { names, type_name }, rest) = fields(alloc, tokens)?;
    let (test, rest) = clock(alloc, rest)?;
    let group = Group {
        names,
        type_name,
        test,
    };
    Ok((group, rest))
}

/// Groups with semicolons between.
struct ParameterList;

impl Items for ParameterList {
    type Item = Group;

    ghost Seen = { plain.Group };

    ghost seen = { group_seen };

    ghost next = { further Close };

    ghost item = { group_at };

    fn next(tokens: Tokens<'_>) -> Option<Tokens<'_>> {
        further(Symbol::Close, tokens)
    }

    fn item(alloc: Global, tokens: Tokens<'_>) -> Parsed<'_, Group> {
        group(alloc, tokens)
    }
}

/// Groups, and a last semicolon that may stand.
#[tactic(auto, unfolding(lus_spelling::specs::ReadingDeclarations::variables_at))]
fn variables(alloc: Global, tokens: Tokens<'_>) -> Parsed<'_, Vec<Group>>
    ensures { Gives (all_read_as group_seen) result (variables_at (tokens_seen tokens.now)) }
{
    let (groups, rest) = several::<ParameterList>(alloc, Vec::new(alloc), tokens)?;
    Ok((groups, skip_symbol(Symbol::Semicolon, rest)))
}

/// The inputs of a node, in parentheses.
#[tactic(auto, unfolding(lus_spelling::specs::ReadingDeclarations::inputs_at))]
pub fn inputs(alloc: Global, tokens: Tokens<'_>) -> Parsed<'_, Vec<Group>>
    ensures { Gives (all_read_as group_seen) result (inputs_at (tokens_seen tokens.now)) }
{
    let rest = expect_symbol(Symbol::Open, tokens)?;
    if let Some((_, rest)) = symbol(Symbol::Close, rest) {
        return Ok((Vec::new(alloc), rest));
    }
    let (groups, rest) = variables(alloc, rest)?;
    let rest = expect_symbol(Symbol::Close, rest)?;
    Ok((groups, rest))
}

/// `returns`, the outputs of a node in parentheses, and a semicolon that may stand.
#[tactic(auto, unfolding(lus_spelling::specs::ReadingDeclarations::outputs_at))]
pub fn outputs(alloc: Global, tokens: Tokens<'_>) -> Parsed<'_, Vec<Group>>
    ensures { Gives (all_read_as group_seen) result (outputs_at (tokens_seen tokens.now)) }
{
    let rest = expect_word(Word::Returns, tokens)?;
    let rest = expect_symbol(Symbol::Open, rest)?;
    let (groups, rest) = variables(alloc, rest)?;
    let rest = expect_symbol(Symbol::Close, rest)?;
    Ok((groups, skip_symbol(Symbol::Semicolon, rest)))
}

/// Groups, each with its semicolon: what stands after `var`.
struct LocalList;

impl Items for LocalList {
    type Item = Group;

    ghost Seen = { plain.Group };

    ghost seen = { group_seen };

    ghost next = { at_name };

    ghost item = { local_at };

    fn next(tokens: Tokens<'_>) -> Option<Tokens<'_>> {
        at_name(tokens)
    }

    #[tactic(auto, unfolding(lus_spelling::specs::ReadingDeclarations::local_at))]
    fn item(alloc: Global, tokens: Tokens<'_>) -> Parsed<'_, Group> {
        let (group, rest) = group(alloc, tokens)?;
        let rest = expect_symbol(Symbol::Semicolon, rest)?;
        Ok((group, rest))
    }
}

/// Sections of locals, each after a `var`.
struct Sections;

impl Turns for Sections {
    type Found = Vec<Group>;

    ghost Seen = { List plain.Group };

    ghost seen = { λ found. map group_seen found.items };

    ghost begins = { after (Keyword Var) };

    ghost turn = { several_at at_name local_at };

    fn begins(tokens: Tokens<'_>) -> Option<Tokens<'_>> {
        let (_, rest) = word(Word::Var, tokens)?;
        Some(rest)
    }

    fn turn(alloc: Global, found: Vec<Group>, tokens: Tokens<'_>) -> Parsed<'_, Vec<Group>> {
        several::<LocalList>(alloc, found, tokens)
    }
}

/// The locals of a node, in any number of sections.
pub fn locals(alloc: Global, tokens: Tokens<'_>) -> Parsed<'_, Vec<Group>>
    ensures { Gives (all_read_as group_seen) result (locals_at (tokens_seen tokens.now)) }
{
    in_turns::<Sections>(alloc, Vec::new(alloc), tokens)
}

//! Whole sources.

ghost use Rattle.std.specs.Prelude.{◌≡◌, ◌≢◌, ◌≤◌, IfOk, IfErr};
ghost use Rattle.lus_syntax.specs.Trees as plain;
ghost use Rattle.lus_syntax.specs.Limits.{most_depth};
ghost use Rattle.lus_syntax.specs.View.{tokens_seen, tree_seen};
ghost use Rattle.lus_spelling.specs.Declarations.{SpellsProgram, tree_depth};
ghost use Rattle.lus_grammar.specs.Answers.{Gives, read_as, Numbered, Answers, RefusedRightly, ReadsAll};
ghost use Rattle.lus_spelling.specs.ReadingDeclarations.{at_token, more_node, declaration_at, program_at};

use crate::constants::ConstantList;
use crate::fault::{ParseError, Parsed, Tokens};
use crate::lists::{Turns, in_turns, several};
use crate::nodes::node;
use crate::types::TypeList;
use lus_syntax::{NodeKind, Place, Refusal, RefusalNumber, Token, TokenKind, Tree, Word};
use std::alloc::Global;

/// A node behind the declarations that were found before.
fn with_node(alloc: Global, kind: NodeKind, mut found: Tree, tokens: Tokens<'_>) -> Parsed<'_, Tree>
    ensures { Gives (read_as tree_seen) result (more_node most_depth kind (tree_seen found) (tokens_seen tokens.now)) }
{
    let (next, rest) = node(alloc, kind, tokens)?;
    found.nodes.push(next)?;
    Ok((found, rest))
}

/// The declarations of a source.
struct Declarations;

impl Turns for Declarations {
    type Found = Tree;

    ghost Seen = { plain.Tree };

    ghost seen = { tree_seen };

    ghost begins = { at_token };

    ghost turn = { declaration_at most_depth };

    fn begins(tokens: Tokens<'_>) -> Option<Tokens<'_>> {
        match tokens {
            [] => None,
            [_, ..] => Some(tokens),
        }
    }

    #[tactic(auto, unfolding(lus_spelling::specs::ReadingDeclarations::declaration_at))]
    fn turn(alloc: Global, found: Tree, tokens: Tokens<'_>) -> Parsed<'_, Tree> {
        let Some((first, rest)) = tokens.split_first() else {
            return Err(ParseError::Syntax(0));
        };
        match first.kind {
            TokenKind::Keyword(Word::Type) => {
                let (types, rest) = several::<TypeList>(alloc, found.types, rest)?;
                Ok((Tree { types, ..found }, rest))
            }
            TokenKind::Keyword(Word::Const) => {
                let (constants, rest) = several::<ConstantList>(alloc, found.constants, rest)?;
                Ok((Tree { constants, ..found }, rest))
            }
            TokenKind::Keyword(Word::Node) => with_node(alloc, NodeKind::Node, found, rest),
            TokenKind::Keyword(Word::Function) => with_node(alloc, NodeKind::Function, found, rest),
            _ => Err(ParseError::Syntax(tokens.len())),
        }
    }
}

/// The tree of a whole source.
#[tactic(auto, unfolding(lus_spelling::specs::ReadingDeclarations::program_at))]
fn program(alloc: Global, tokens: Tokens<'_>) -> Result<Tree, ParseError>
    ensures { Gives tree_seen result (program_at most_depth (tokens_seen tokens.now)) }
{
    let empty = Tree {
        types: Vec::new(alloc),
        constants: Vec::new(alloc),
        nodes: Vec::new(alloc),
    };
    let (tree, _) = in_turns::<Declarations>(alloc, empty, tokens)?;
    Ok(tree)
}

/// Where the last `left` tokens begin, or the tokens end.
fn place(left: usize, tokens: &[Token]) -> Place {
    let index = tokens.len().saturating_sub(left);
    match (tokens.get(index), tokens.last()) {
        (Some(token), _) => token.span.start,
        (None, Some(last)) => last.span.end(),
        (None, None) => Place::START,
    }
}

fn refusal_at(number: RefusalNumber, left: usize, tokens: &[Token]) -> Refusal
    requires { number ≢ RefusalNumber.Memory }
    ensures { result.number ≡ number }
{
    let place = place(left, tokens);
    Refusal::new(number, place.line, place.column)
}

fn refusal(error: ParseError, tokens: &[Token]) -> Refusal
    ensures { Numbered error result.number }
{
    match error {
        ParseError::Memory => Refusal::memory(),
        ParseError::Syntax(left) => refusal_at(RefusalNumber::Syntax, left, tokens),
        ParseError::Deep(left) => refusal_at(RefusalNumber::Limit, left, tokens),
    }
}

/// The one tree that the tokens spell, if no right side is deeper than 100.
///
/// Where the tokens spell no tree, `Syntax` stands at the start of the first token that no continuation admits, or at
/// the end of the last token (line 1, column 1 where there are none). `Limit` stands at a token of a right side that is
/// too deep.
pub fn parse(alloc: Global, tokens: &[Token]) -> Result<Tree, Refusal>
    ensures exact { Answers tree_seen result (program_at most_depth (tokens_seen tokens.now)) }
    ensures spelled { IfOk result (λ t. SpellsProgram (tree_seen t) (tokens_seen tokens.now)
        × (tree_depth (tree_seen t) ≤ most_depth)) }
    ensures refused { IfErr result (λ e. RefusedRightly most_depth (tokens_seen tokens.now) e.number) }
    ensures parsed { ReadsAll most_depth (tokens_seen tokens.now) result }
{
    match program(alloc, tokens) {
        Ok(tree) => Ok(tree),
        Err(error) => Err(refusal(error, tokens)),
    }
}

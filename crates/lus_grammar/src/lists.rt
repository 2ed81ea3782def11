//! What is read in turns, such as lists.

ghost use Rattle.std.specs.Prelude.{◌≡◌, List, Option, length, map, option_map, suc};
ghost use Rattle.lus_syntax.specs.Lexemes.{Lexeme};
ghost use Rattle.lus_syntax.specs.View.{tokens_seen};
ghost use Rattle.lus_spelling.specs.ReadingDeclarations.{Reads, push_at, repeat_at, several_at};
ghost use Rattle.lus_grammar.specs.Answers.{Gives, read_as, all_read_as};

use crate::fault::{ParseError, Parsed, Tokens};
use crate::front::begun;
use std::alloc::Global;

/// What is read in turns, as long as another one begins.
pub trait Turns {
    type Found: Drop;

    ghost Seen: { Type 0 };

    ghost seen: { Self.Found → Seen };

    ghost begins: { List Lexeme → Option (List Lexeme) };

    ghost turn: { Seen → List Lexeme → Reads Seen };

    /// Where another turn begins, if one does.
    fn begins(tokens: Tokens<'_>) -> Option<Tokens<'_>>
        ensures { option_map (λ x. tokens_seen x.now) result ≡ begins (tokens_seen tokens.now) };

    /// What was found before, and in one turn more.
    fn turn(alloc: Global, found: Self::Found, tokens: Tokens<'_>) -> Parsed<'_, Self::Found>
        ensures { Gives (read_as seen) result (turn (seen found) (tokens_seen tokens.now)) };
}

/// A kind of list: what its items are, and where another one begins.
pub trait Items {
    type Item: Drop;

    ghost Seen: { Type 0 };

    ghost seen: { Self.Item → Seen };

    ghost next: { List Lexeme → Option (List Lexeme) };

    ghost item: { List Lexeme → Reads Seen };

    /// Where the next item begins, if there is one.
    fn next(tokens: Tokens<'_>) -> Option<Tokens<'_>>
        ensures { option_map (λ x. tokens_seen x.now) result ≡ next (tokens_seen tokens.now) };

    /// The item at the front.
    fn item(alloc: Global, tokens: Tokens<'_>) -> Parsed<'_, Self::Item>
        ensures { Gives (read_as seen) result (item (tokens_seen tokens.now)) };
}

impl<T: Items> Turns for T {
    type Found = Vec<T::Item>;

    ghost Seen = { List T.Seen };

    ghost seen = { λ found. map T.seen found.items };

    ghost begins = { T.next };

    ghost turn = { push_at T.next T.item };

    fn begins(tokens: Tokens<'_>) -> Option<Tokens<'_>> {
        T::next(tokens)
    }

    fn turn(
        alloc: Global,
        mut found: Vec<T::Item>,
        tokens: Tokens<'_>,
    ) -> Parsed<'_, Vec<T::Item>> {
        let (item, rest) = T::item(alloc, tokens)?;
        found.push(item)?;
        Ok((found, rest))
    }
}

/// All turns, behind what was found before: at most as many as there are tokens.
pub fn in_turns<T: Turns>(
    alloc: Global,
    found: T::Found,
    tokens: Tokens<'_>,
) -> Parsed<'_, T::Found>
    ensures { Gives (read_as T.seen) result
        (repeat_at T.begins T.turn (suc (length (tokens_seen tokens.now))) (T.seen found) (tokens_seen tokens.now)) }
{
    let (mut found, mut rest) = begun(found, tokens);
    let count = tokens.len() + 1;
    for _ in 0..count {
        let Some(after) = T::begins(rest) else {
            return Ok((found, rest));
        };
        let (more, after) = T::turn(alloc, found, after)?;
        found = more;
        rest = after;
    }
    Err(ParseError::Syntax(rest.len()))
}

/// One item and more, behind those that were found before.
#[tactic(auto, unfolding(lus_spelling::specs::ReadingDeclarations::several_at))]
pub fn several<T: Items>(
    alloc: Global,
    found: Vec<T::Item>,
    tokens: Tokens<'_>,
) -> Parsed<'_, Vec<T::Item>>
    ensures { Gives (all_read_as T.seen) result (several_at T.next T.item (map T.seen found.items) (tokens_seen tokens.now)) }
{
    let (found, rest) = T::turn(alloc, found, tokens)?;
    in_turns::<T>(alloc, found, rest)
}

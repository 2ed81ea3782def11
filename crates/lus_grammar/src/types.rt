//! Names, and declarations of types.

ghost use Rattle.lus_syntax.specs.declared.token.Symbol.TheVariants.{CloseBrace, Comma};
ghost use Rattle.lus_syntax.specs.Lexemes.{Sign};
ghost use Rattle.lus_syntax.specs.Trees as plain;
ghost use Rattle.lus_syntax.specs.View.{tokens_seen, name_seen, names_seen, type_name_seen, fields_seen, definition_seen, type_seen};
ghost use Rattle.lus_grammar.specs.Answers.{Gives, read_as};
ghost use Rattle.lus_spelling.specs.Reading.{identifier_at};
ghost use Rattle.lus_spelling.specs.ReadingDeclarations.{after, further, at_name, names_at, type_name_at, fields_at, enumeration_at, structure_at, definition_at, type_at};

use crate::fault::{ParseError, Parsed, Tokens};
use crate::front::{at_name, expect_symbol, further, identifier, name, skip_symbol, symbol, word};
use crate::lists::{Items, several};
use lus_syntax::{
    Definition, Fields, Name, Symbol, Token, TokenKind, TypeDeclaration, TypeName, Word,
};
use std::alloc::Global;

/// Names with commas between.
struct NameList;

impl Items for NameList {
    type Item = Name;

    ghost Seen = { plain.Named };

    ghost seen = { name_seen };

    ghost next = { after (Sign Comma) };

    ghost item = { identifier_at };

    fn next(tokens: Tokens<'_>) -> Option<Tokens<'_>> {
        let (_, rest) = symbol(Symbol::Comma, tokens)?;
        Some(rest)
    }

    fn item(alloc: Global, tokens: Tokens<'_>) -> Parsed<'_, Name> {
        identifier(alloc, tokens)
    }
}

/// One name or more, with commas between.
pub fn names(alloc: Global, tokens: Tokens<'_>) -> Parsed<'_, Vec<Name>>
    ensures { Gives (λ x. (names_seen x.0.items, tokens_seen x.1.now)) result (names_at (tokens_seen tokens.now)) }
{
    several::<NameList>(alloc, Vec::with_capacity(alloc, 1)?, tokens)
}

/// `bool`, `int` or a name.
#[tactic(auto, unfolding(lus_spelling::specs::ReadingDeclarations::type_name_at))]
pub fn type_name(alloc: Global, tokens: Tokens<'_>) -> Parsed<'_, TypeName>
    ensures { Gives (read_as type_name_seen) result (type_name_at (tokens_seen tokens.now)) }
{
    let Some((&Token { kind, span }, rest)) = tokens.split_first() else {
        return Err(ParseError::Syntax(0));
    };
    match kind {
        TokenKind::Keyword(Word::Bool) => Ok((TypeName::Bool(span), rest)),
        TokenKind::Keyword(Word::Int) => Ok((TypeName::Int(span), rest)),
        TokenKind::Identifier(text) => Ok((TypeName::Declared(name(alloc, text, span)?), rest)),
        _ => Err(ParseError::Syntax(tokens.len())),
    }
}

/// Names and their type.
#[tactic(auto, unfolding(lus_spelling::specs::ReadingDeclarations::fields_at))]
pub fn fields(alloc: Global, tokens: Tokens<'_>) -> Parsed<'_, Fields>
    ensures { Gives (read_as fields_seen) result (fields_at (tokens_seen tokens.now)) }
{
    let (names, rest) = names(alloc, tokens)?;
    let rest = expect_symbol(Symbol::Colon, rest)?;
    let (type_name, rest) = type_name(alloc, rest)?;
    Ok((Fields { names, type_name }, rest))
}

/// Fields with semicolons between.
struct FieldsList;

impl Items for FieldsList {
    type Item = Fields;

    ghost Seen = { plain.Fields };

    ghost seen = { fields_seen };

    ghost next = { further CloseBrace };

    ghost item = { fields_at };

    fn next(tokens: Tokens<'_>) -> Option<Tokens<'_>> {
        further(Symbol::CloseBrace, tokens)
    }

    fn item(alloc: Global, tokens: Tokens<'_>) -> Parsed<'_, Fields> {
        fields(alloc, tokens)
    }
}

/// What stands after `enum`.
#[tactic(auto, unfolding(lus_spelling::specs::ReadingDeclarations::enumeration_at))]
fn enumeration(alloc: Global, tokens: Tokens<'_>) -> Parsed<'_, Definition>
    ensures { Gives (read_as definition_seen) result (enumeration_at (tokens_seen tokens.now)) }
{
    let rest = expect_symbol(Symbol::OpenBrace, tokens)?;
    let (names, rest) = names(alloc, rest)?;
    let rest = expect_symbol(Symbol::CloseBrace, rest)?;
    Ok((Definition::Enumeration(names), rest))
}

/// What may stand after `struct`.
#[tactic(auto, unfolding(lus_spelling::specs::ReadingDeclarations::structure_at))]
fn structure(alloc: Global, tokens: Tokens<'_>) -> Parsed<'_, Definition>
    ensures { Gives (read_as definition_seen) result (structure_at (tokens_seen tokens.now)) }
{
    let rest = expect_symbol(Symbol::OpenBrace, tokens)?;
    let (fields, rest) = several::<FieldsList>(alloc, Vec::new(alloc), rest)?;
    let rest = expect_symbol(Symbol::CloseBrace, skip_symbol(Symbol::Semicolon, rest))?;
    Ok((Definition::Structure(fields), rest))
}

/// What a type's name stands for.
#[tactic(auto, unfolding(lus_spelling::specs::ReadingDeclarations::definition_at))]
fn definition(alloc: Global, tokens: Tokens<'_>) -> Parsed<'_, Definition>
    ensures { Gives (read_as definition_seen) result (definition_at (tokens_seen tokens.now)) }
{
    if let Some((_, rest)) = word(Word::Enum, tokens) {
        return enumeration(alloc, rest);
    }
    if let Some((_, rest)) = word(Word::Struct, tokens) {
        return structure(alloc, rest);
    }
    if let Some(_) = symbol(Symbol::OpenBrace, tokens) {
        return structure(alloc, tokens);
    }
    let (type_name, rest) = type_name(alloc, tokens)?;
    Ok((Definition::Alias(type_name), rest))
}

/// What stands after `type`.
pub struct TypeList;

impl Items for TypeList {
    type Item = TypeDeclaration;

    ghost Seen = { plain.TypeDeclaration };

    ghost seen = { type_seen };

    ghost next = { at_name };

    ghost item = { type_at };

    fn next(tokens: Tokens<'_>) -> Option<Tokens<'_>> {
        at_name(tokens)
    }

    #[tactic(auto, unfolding(lus_spelling::specs::ReadingDeclarations::type_at))]
    fn item(alloc: Global, tokens: Tokens<'_>) -> Parsed<'_, TypeDeclaration> {
        let (name, rest) = identifier(alloc, tokens)?;
        let rest = expect_symbol(Symbol::Equal, rest)?;
        let (definition, rest) = definition(alloc, rest)?;
        let rest = expect_symbol(Symbol::Semicolon, rest)?;
        Ok((TypeDeclaration { name, definition }, rest))
    }
}

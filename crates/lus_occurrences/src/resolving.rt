//! The declarations that names stand for.

ghost use Rattle.std.specs.Prelude.{IfOk, IfSome, IsTrue, OnOk};
ghost use Rattle.std.specs.List.{All};
ghost use Rattle.lus_occurrences.specs.Occurrences.{Declares, StandsFor};

use crate::names::{Declaration, Occurrence, Use};
use crate::role::{Declared, Mention, Role};
use crate::scopes::{Scopes, name_at};
use lus_syntax::Token;
use std::alloc::{AllocError, Global};

/// The declaration that a name stands for which declares nothing. It stands in a node, or in none, and the names before it stand for
/// these declarations.
fn declaration_of(
    scopes: &Scopes<'_>,
    before: &[Option<usize>],
    node: Option<usize>,
    mention: Mention,
    text: &str,
) -> Option<usize> {
    match mention.role {
        Role::Declares(_) => None,
        Role::Type => scopes.type_named(text),
        Role::Called => scopes.node_named(text),
        Role::Label => scopes.value_named(text),
        Role::Left | Role::Tested => scopes.variable_named(node, text),
        Role::Value => match scopes.variable_named(node, text) {
            Some(declaration) => Some(declaration),
            None => scopes.value_named(text),
        },
        Role::Field => {
            let owner = before.get(mention.of?).copied().flatten()?;
            scopes.field_named(scopes.type_of(owner)?, text)
        }
    }
}

/// How a name is used.
fn use_of(role: Role) -> Use {
    match role {
        Role::Declares(_) => Use::Declaration,
        Role::Left => Use::Definition,
        _ => Use::Reference,
    }
}

/// The name of the declaration at a place, if there is one.
fn declared_name<'t>(
    tokens: &[Token<'t>],
    declarations: &[Declaration],
    place: usize,
) -> Option<&'t str>
    ensures { IfSome result (λ name. Declares tokens.now declarations.now place name.now) }
{
    let declaration = declarations.get(place)?;
    name_at(tokens, declaration.token)
}

/// Whether a name is that of the declaration which it is to stand for.
fn stands_for(tokens: &[Token<'_>], declarations: &[Declaration], occurrence: Occurrence) -> bool
    ensures { IsTrue result → StandsFor tokens.now declarations.now occurrence }
{
    match (
        name_at(tokens, occurrence.token),
        declared_name(tokens, declarations, occurrence.declaration),
    ) {
        (Some(name), Some(other)) => name == other,
        _ => false,
    }
}

/// Adds a name, if it is that of the declaration which it is to stand for.
fn push_occurrence(
    occurrences: &mut Vec<Occurrence>,
    tokens: &[Token<'_>],
    declarations: &[Declaration],
    occurrence: Occurrence,
) -> Result<(), AllocError>
    requires { All (StandsFor tokens.now declarations.now) occurrences.old.items }
    ensures { OnOk result (All (StandsFor tokens.now declarations.now) occurrences.new.items) }
{
    if stands_for(tokens, declarations, occurrence) {
        occurrences.push(occurrence)?;
    }
    Ok(())
}

/// The names that stand for declarations, in the order of the text.
pub(crate) fn resolved(
    alloc: Global,
    scopes: &Scopes<'_>,
    tokens: &[Token<'_>],
    mentions: &[Mention],
) -> Result<Vec<Occurrence>, AllocError>
    ensures { IfOk result (λ found. All (StandsFor tokens.now scopes.now.declarations.items) found.items) }
{
    let mut occurrences = Vec::new(alloc);
    let mut before = Vec::new(alloc);
    let mut node = None;
    let declarations = scopes.declarations.as_slice();
    for (place, mention) in mentions.iter().enumerate() {
        let declared = scopes.of_mentions.get(place).copied().flatten();
        if mention.role == Role::Declares(Declared::Node) {
            node = declared;
        }
        let text = name_at(tokens, mention.token).unwrap_or("");
        let found = match declared {
            Some(declaration) => Some(declaration),
            None => declaration_of(scopes, &before, node, *mention, text),
        };
        before.push(found)?;
        if let Some(declaration) = found {
            let occurrence = Occurrence {
                token: mention.token,
                declaration,
                usage: use_of(mention.role),
            };
            push_occurrence(&mut occurrences, tokens, declarations, occurrence)?;
        }
    }
    Ok(occurrences)
}

//! The declarations of a source by their names.

ghost use Rattle.std.specs.Prelude.{IfSome};
ghost use Rattle.lus_occurrences.specs.Occurrences.{Spells};

use crate::names::Declaration;
use crate::role::{Declared, Mention, Role};
use indexmap::IndexMap;
use lus_syntax::{Token, TokenKind};
use std::alloc::{AllocError, Global};

/// The name that the token at a place is, if it is one.
pub(crate) fn name_at<'t>(tokens: &[Token<'t>], place: usize) -> Option<&'t str>
    ensures { IfSome result (λ name. Spells tokens.now place name.now) }
{
    match tokens.get(place)?.kind {
        TokenKind::Identifier(name) => Some(name),
        _ => None,
    }
}

/// So many passes lead through 2 ^ 10 aliases, and a source has no more than 1000 types.
const ALIAS_PASSES: u32 = 10;

/// Declarations by their names. Types, nodes and values have a space each, and so have the fields of each type and the variables of
/// each node. Of two that have one name in one space the first has it.
#[derive(Drop)]
pub(crate) struct Scopes<'t> {
    pub declarations: Vec<Declaration>,
    /// The declaration of each mention that is one.
    pub of_mentions: Vec<Option<usize>>,
    /// Of what is declared with a type, and of an alias, the token that names it.
    type_tokens: Vec<Option<usize>>,
    /// The type of each declaration, as far as it is known: of a type itself, or what it stands for.
    pub kinds: Vec<Option<usize>>,
    types: IndexMap<&'t str, usize>,
    nodes: IndexMap<&'t str, usize>,
    values: IndexMap<&'t str, usize>,
    fields: IndexMap<(usize, &'t str), usize>,
    variables: IndexMap<(usize, &'t str), usize>,
    /// The first output of each node that has one.
    outputs: IndexMap<usize, usize>,
    /// The newest declarations of a type and of a node.
    type_here: Option<usize>,
    node_here: Option<usize>,
}

/// Gives a name to a declaration, unless another one has it.
fn give_name<'t>(
    names: &mut IndexMap<&'t str, usize>,
    text: &'t str,
    declaration: usize,
) -> Result<(), AllocError> {
    if names.get(&text).is_none() {
        let _before = names.insert(text, declaration)?;
    }
    Ok(())
}

/// Gives a name to a declaration within another one, unless a third one has it.
fn give_name_within<'t>(
    names: &mut IndexMap<(usize, &'t str), usize>,
    owner: Option<usize>,
    text: &'t str,
    declaration: usize,
) -> Result<(), AllocError> {
    let Some(owner) = owner else {
        return Ok(());
    };
    if names.get(&(owner, text)).is_none() {
        let _before = names.insert((owner, text), declaration)?;
    }
    Ok(())
}

impl<'t> Scopes<'t> {
    /// Gives its name to a declaration, and says what it is part of.
    fn enter(
        &mut self,
        text: &'t str,
        declared: Declared,
        place: usize,
    ) -> Result<Option<usize>, AllocError> {
        match declared {
            Declared::Type => {
                give_name(&mut self.types, text, place)?;
                self.type_here = Some(place);
                Ok(None)
            }
            Declared::Node => {
                give_name(&mut self.nodes, text, place)?;
                self.node_here = Some(place);
                Ok(None)
            }
            Declared::Constant => {
                give_name(&mut self.values, text, place)?;
                Ok(None)
            }
            Declared::Constructor => {
                give_name(&mut self.values, text, place)?;
                Ok(self.type_here)
            }
            Declared::Field => {
                give_name_within(&mut self.fields, self.type_here, text, place)?;
                Ok(self.type_here)
            }
            Declared::Input | Declared::Output | Declared::Local => {
                give_name_within(&mut self.variables, self.node_here, text, place)?;
                Ok(self.node_here)
            }
        }
    }

    /// Adds the declaration of a name, and gives its place.
    fn declare(
        &mut self,
        text: &'t str,
        token: usize,
        declared: Declared,
    ) -> Result<usize, AllocError> {
        let place = self.declarations.len();
        let owner = self.enter(text, declared, place)?;
        if let (Declared::Output, Some(node)) = (declared, owner)
            && self.outputs.get(&node).is_none()
        {
            let _before = self.outputs.insert(node, place)?;
        }
        self.declarations.push(Declaration {
            token,
            declared,
            owner,
        })?;
        self.type_tokens.push(None)?;
        Ok(place)
    }

    /// Gives a type to what is declared from a mention on.
    fn give_type(&mut self, first: usize, token: usize) {
        for mention in first..self.of_mentions.len() {
            if let Some(place) = self.of_mentions.get(mention).copied().flatten()
                && let Some(type_token) = self.type_tokens.get_mut(place)
            {
                *type_token = Some(token);
            }
        }
    }

    /// The type that a declaration is declared with, perhaps an alias, or the type that it declares.
    fn declared_type(&self, tokens: &[Token<'_>], place: usize) -> Option<usize> {
        match self.type_tokens.get(place).copied().flatten() {
            Some(token) => self.type_named(name_at(tokens, token)?),
            None if self.declarations.get(place)?.declared == Declared::Type => Some(place),
            None => None,
        }
    }

    /// Finds the types of all declarations. Each pass leads through twice as many aliases as the one before.
    fn find_types(&mut self, tokens: &[Token<'_>]) -> Result<(), AllocError> {
        for place in 0..self.declarations.len() {
            let declared_type = self.declared_type(tokens, place);
            self.kinds.push(declared_type)?;
        }
        for _pass in 0..ALIAS_PASSES {
            for place in 0..self.kinds.len() {
                let next = match self.kind_of(place) {
                    Some(of) => self.kind_of(of),
                    None => None,
                };
                if let Some(kind) = self.kinds.get_mut(place) {
                    *kind = next;
                }
            }
        }
        Ok(())
    }

    fn kind_of(&self, declaration: usize) -> Option<usize> {
        self.kinds.get(declaration).copied().flatten()
    }

    /// The type of what a declaration declares: of a node that of its first output, and of a type itself.
    pub fn type_of(&self, declaration: usize) -> Option<usize> {
        match self.outputs.get(&declaration) {
            Some(output) => self.kind_of(*output),
            None => self.kind_of(declaration),
        }
    }

    pub fn type_named(&self, text: &str) -> Option<usize> {
        self.types.get(&text).copied()
    }

    pub fn node_named(&self, text: &str) -> Option<usize> {
        self.nodes.get(&text).copied()
    }

    /// A constant or a constructor.
    pub fn value_named(&self, text: &str) -> Option<usize> {
        self.values.get(&text).copied()
    }

    /// A variable of a node.
    pub fn variable_named(&self, node: Option<usize>, text: &str) -> Option<usize> {
        self.variables.get(&(node?, text)).copied()
    }

    pub fn field_named(&self, owner: usize, text: &str) -> Option<usize> {
        self.fields.get(&(owner, text)).copied()
    }
}

/// The declarations among the names of a source.
pub(crate) fn scopes_of<'t>(
    alloc: Global,
    tokens: &[Token<'t>],
    mentions: &[Mention],
) -> Result<Scopes<'t>, AllocError> {
    let mut scopes = Scopes {
        declarations: Vec::new(alloc),
        of_mentions: Vec::new(alloc),
        type_tokens: Vec::new(alloc),
        kinds: Vec::new(alloc),
        types: IndexMap::new(alloc),
        nodes: IndexMap::new(alloc),
        values: IndexMap::new(alloc),
        fields: IndexMap::new(alloc),
        variables: IndexMap::new(alloc),
        outputs: IndexMap::new(alloc),
        type_here: None,
        node_here: None,
    };
    for mention in mentions {
        let declaration = match (mention.role, mention.of) {
            (Role::Declares(declared), _) => {
                let text = name_at(tokens, mention.token).unwrap_or("");
                Some(scopes.declare(text, mention.token, declared)?)
            }
            (Role::Type, Some(first)) => {
                scopes.give_type(first, mention.token);
                None
            }
            _ => None,
        };
        scopes.of_mentions.push(declaration)?;
    }
    scopes.find_types(tokens)?;
    Ok(scopes)
}

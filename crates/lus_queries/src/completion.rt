//! Names that can be written at a place.

use crate::comments::{can_name, comment_of};
use crate::context::{Wanted, context_at};
use crate::outline::push_detail;
use crate::places::{Spot, lines_of};
use indexmap::IndexSet;
use lus_diagnostics::push_string;
use lus_occurrences::{Declared, Kind, Names, Opening, Slot, names_of};
use lus_syntax::{Symbol, Token, TokenKind, WORDS, Word};
use std::alloc::{AllocError, Global};

/// The protocol's number of a kind of name.
fn item_kind(declared: Declared) -> u8 {
    match declared {
        Declared::Node => 3,
        Declared::Type => 22,
        Declared::Constant => 21,
        Declared::Constructor => 20,
        Declared::Field => 5,
        Declared::Input | Declared::Output | Declared::Local => 6,
    }
}

/// The protocol's number of a word of the language.
const WORD_KIND: u8 = 14;

/// The rank of words, behind all names.
const WORD_RANK: u8 = 4;

/// The fields that a text declares.
fn fields_of(alloc: Global, names: &Names<'_>) -> Result<Vec<usize>, AllocError> {
    let mut fields = Vec::new(alloc);
    for (place, declaration) in names.declarations.iter().enumerate() {
        if declaration.declared == Declared::Field {
            fields.push(place)?;
        }
    }
    Ok(fields)
}

/// Whether a declaration that is in scope can be named where such a name stands.
fn is_fit(names: &Names<'_>, slot: Slot, place: usize, declared: Declared) -> bool {
    match (slot, declared) {
        (Slot::Type, Declared::Type) => true,
        (Slot::Left, Declared::Output | Declared::Local) => true,
        (Slot::Tested, Declared::Input | Declared::Output | Declared::Local) => {
            names.kind_of(place) != Some(Kind::Int)
        }
        (Slot::Tested | Slot::Label(None), Declared::Constructor) => true,
        (Slot::Label(None), Declared::Constant) => true,
        (Slot::Label(Some(variable)), Declared::Constructor) => match names.kind_of(variable) {
            Some(kind) => names.kind_of(place) == Some(kind),
            None => true,
        },
        (Slot::Field(None), Declared::Field) => true,
        (Slot::Field(Some(of)), Declared::Field) => match names.declarations.get(place) {
            Some(field) => field.owner == Some(of),
            None => false,
        },
        (Slot::Value, Declared::Type) => match names.kind_of(place) {
            Some(Kind::Declared(of)) => names.is_structure(of),
            _ => false,
        },
        (Slot::Value, Declared::Field) => false,
        (Slot::Value, _) => true,
        _ => false,
    }
}

/// Whether a word can stand where such a name stands.
fn is_word_fit(names: &Names<'_>, slot: Slot, word: Word) -> bool {
    match word {
        Word::Node | Word::Function | Word::Type | Word::Const => slot == Slot::New,
        Word::Returns | Word::Var | Word::Let => matches!(slot, Slot::New | Slot::Type),
        Word::Tel => matches!(slot, Slot::New | Slot::Left),
        Word::Enum | Word::Struct | Word::Bool | Word::Int => slot == Slot::Type,
        Word::When => matches!(slot, Slot::Type | Slot::Value),
        Word::Not => matches!(slot, Slot::Tested | Slot::Value),
        Word::True | Word::False => match slot {
            Slot::Label(Some(variable)) => !matches!(
                names.kind_of(variable),
                Some(Kind::Declared(_))
            ),
            Slot::Label(None) | Slot::Tested | Slot::Value => true,
            _ => false,
        },
        _ => slot == Slot::Value,
    }
}

/// The place where a name is written, and what is wanted there.
#[derive(Clone, Copy)]
struct Offer<'a, 't> {
    alloc: Global,
    source: &'a str,
    names: &'a Names<'t>,
    slot: Slot,
    wanted: Wanted<'t>,
    /// Whether calls are written with their inputs.
    has_calls: bool,
}

fn is_variable(declared: Declared) -> bool {
    matches!(
        declared,
        Declared::Input | Declared::Output | Declared::Local
    )
}

/// How early a name stands in an expression: first those of the type that is wanted, and of these first those on the clock.
fn rank_of(names: &Names<'_>, wanted: Wanted<'_>, place: usize, declared: Declared) -> u8 {
    let is_of_kind = wanted.kind.is_none() || names.kind_of(place) == wanted.kind;
    let is_on_clock = !is_variable(declared) || names.clock_of(place) == wanted.clock;
    match (is_of_kind, is_on_clock) {
        (true, true) => 0,
        (true, false) => 1,
        (false, true) => 2,
        (false, false) => 3,
    }
}

/// Appends what a call of a node is written as: its inputs are places to go to.
fn push_call(text: &mut String, names: &Names<'_>, node: usize) -> Result<(), AllocError> {
    let name = names.name(node);
    write!(text, ",\"insertTextFormat\":2,\"insertText\":\"{name}(")?;
    let mut number = 0usize;
    let mut place = node;
    for declaration in names.declarations.get(node..).unwrap_or(&[]) {
        if declaration.declared == Declared::Input && declaration.owner == Some(node) {
            text.push_str(if number > 0 { ", " } else { "" })?;
            number = number.saturating_add(1);
            let input = names.name(place);
            write!(text, "${{{number}:{input}}}")?;
        } else if place > node {
            break;
        }
        place = place.saturating_add(1);
    }
    text.push_str(")\"")
}

/// Appends what a name or a word begins with, behind others or as the first.
fn push_label(text: &mut String, label: &str, kind: u8, rank: u8) -> Result<(), AllocError> {
    text.push_str(if text.len() > 1 {
        ",{\"label\":\""
    } else {
        "{\"label\":\""
    })?;
    text.push_str(label)?;
    write!(text, "\",\"kind\":{kind},\"sortText\":\"{rank}\"")
}

impl Offer<'_, '_> {
    /// Appends a name with what tells it and what is said above it.
    fn push_name(
        self,
        text: &mut String,
        place: usize,
        declared: Declared,
    ) -> Result<(), AllocError> {
        let Offer { source, names, .. } = self;
        let rank = match self.slot {
            Slot::Value => rank_of(names, self.wanted, place, declared),
            _ => 0,
        };
        push_label(text, names.name(place), item_kind(declared), rank)?;
        text.push_str(",\"detail\":\"")?;
        push_detail(text, source, names, place)?;
        let said = comment_of(self.alloc, source, names, place)?;
        if said.is_empty() {
            text.push_str("\"")?;
        } else {
            text.push_str("\",\"documentation\":")?;
            push_string(self.alloc, text, said.as_str())?;
        }
        if self.has_calls && declared == Declared::Node {
            push_call(text, names, place)?;
        }
        text.push_str("}")
    }

    /// Appends the words of the language that can stand here.
    fn push_words(self, text: &mut String) -> Result<(), AllocError> {
        for (word, meaning) in WORDS {
            if let Some(meaning) = meaning
                && is_word_fit(self.names, self.slot, *meaning)
            {
                push_label(text, word, WORD_KIND, WORD_RANK)?;
                text.push_str("}")?;
            }
        }
        Ok(())
    }
}

/// The declarations whose names may stand at a byte.
fn candidates(
    alloc: Global,
    names: &Names<'_>,
    slot: Slot,
    byte: usize,
) -> Result<Vec<usize>, AllocError> {
    match slot {
        Slot::Field(_) => fields_of(alloc, names),
        _ => names.in_scope(alloc, byte),
    }
}

/// Those of some declarations that can be named at a place, variables before what they hide: each name once, and none that is taken.
fn fits(
    alloc: Global,
    names: &Names<'_>,
    opening: &Opening<'_>,
    found: &[usize],
) -> Result<Vec<(usize, Declared)>, AllocError> {
    let mut seen = IndexSet::new(alloc);
    let mut fits = Vec::new(alloc);
    for name in &opening.taken {
        let _is_new = seen.insert(*name)?;
    }
    for are_variables in [true, false] {
        for place in found {
            if let Some(declaration) = names.declarations.get(*place)
                && is_variable(declaration.declared) == are_variables
                && is_fit(names, opening.slot, *place, declaration.declared)
                && seen.insert(names.name(*place))?
            {
                fits.push((*place, declaration.declared))?;
            }
        }
    }
    Ok(fits)
}

/// Whether a parenthesis stands behind the name at a place, which is a token or would stand before it.
fn is_called(tokens: &[Token<'_>], token: usize, byte: usize) -> bool {
    let behind = match tokens.get(token) {
        Some(here) if here.span.start.byte < byte => token.saturating_add(1),
        _ => token,
    };
    match tokens.get(behind) {
        Some(next) => matches!(next.kind, TokenKind::Punctuation(Symbol::Open)),
        None => false,
    }
}

/// What can be written at a spot (`CompletionItem`), by what stands before it: behind a dot and in a structure the fields of its type, in a
/// merge the constructors of its variable, on the left of an equation the variables without one, behind a colon types, in an expression
/// variables, constants, constructors and calls, those of the type and the clock of the place first; and the words that can stand there.
/// Nothing in a comment. Calls are snippets with their inputs where `has_snippets`.
pub fn completions(
    alloc: Global,
    source: &str,
    at: Spot,
    has_snippets: bool,
) -> Result<String, AllocError> {
    let byte = lines_of(alloc, source)?.byte_at(at);
    let names = names_of(alloc, source)?;
    let mut text = String::from_str(alloc, "[")?;
    if can_name(alloc, source, &names.tokens, byte)? {
        let opening = names.opening_at(alloc, byte)?;
        let (wanted, _) = context_at(alloc, &names, opening.token)?;
        let offer = Offer {
            alloc,
            source,
            names: &names,
            slot: opening.slot,
            wanted,
            has_calls: has_snippets && !is_called(&names.tokens, opening.token, byte),
        };
        let found = candidates(alloc, &names, opening.slot, byte)?;
        for (place, declared) in &fits(alloc, &names, &opening, &found)? {
            offer.push_name(&mut text, *place, *declared)?;
        }
        offer.push_words(&mut text)?;
    }
    text.push_str("]")?;
    Ok(text)
}

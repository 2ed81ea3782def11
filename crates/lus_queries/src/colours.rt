//! The colours of a text (semantic tokens).

use crate::places::{START, Spot, past};
use lus_edits::piece_len;
use lus_occurrences::{Declared, Names, Occurrence, Use, names_of};
use lus_syntax::{Symbol, Token, TokenKind, Word};
use std::alloc::{AllocError, Global};

/// What a part of a text is. The numbers are places in the legend that the server gives.
#[derive(Clone, Copy)]
enum Colour {
    Keyword,
    Type,
    Constructor,
    Field,
    Variable,
    Input,
    Node,
    Operator,
    Number,
    Comment,
}

impl Colour {
    fn number(self) -> u8 {
        match self {
            Colour::Keyword => 0,
            Colour::Type => 1,
            Colour::Constructor => 2,
            Colour::Field => 3,
            Colour::Variable => 4,
            Colour::Input => 5,
            Colour::Node => 6,
            Colour::Operator => 7,
            Colour::Number => 8,
            Colour::Comment => 9,
        }
    }
}

/// The first bit of the legend's modifiers: a name is declared here.
const DECLARATION: u8 = 1;

/// The second: the name is that of a constant.
const READ_ONLY: u8 = 2;

fn colour_of_word(word: Word) -> Colour {
    match word {
        Word::Bool | Word::Int => Colour::Type,
        Word::Not | Word::And | Word::Or | Word::Xor | Word::Nor | Word::Div | Word::Mod =>
            Colour::Operator,
        _ => Colour::Keyword,
    }
}

/// The colour of a symbol; what only sets apart has none.
fn colour_of_symbol(symbol: Symbol) -> Option<Colour> {
    match symbol {
        Symbol::Open
        | Symbol::Close
        | Symbol::OpenBrace
        | Symbol::CloseBrace
        | Symbol::Comma
        | Symbol::Semicolon
        | Symbol::Colon
        | Symbol::Dot => None,
        _ => Some(Colour::Operator),
    }
}

fn colour_of_name(declared: Declared) -> Colour {
    match declared {
        Declared::Type => Colour::Type,
        Declared::Constructor => Colour::Constructor,
        Declared::Field => Colour::Field,
        Declared::Node => Colour::Node,
        Declared::Input => Colour::Input,
        Declared::Constant | Declared::Output | Declared::Local => Colour::Variable,
    }
}

/// The modifiers of a name that stands for something declared.
fn modifiers_of(usage: Use, declared: Declared) -> u8 {
    let declaration = if usage == Use::Declaration {
        DECLARATION
    } else {
        0
    };
    let read_only = if declared == Declared::Constant {
        READ_ONLY
    } else {
        0
    };
    declaration | read_only
}

/// The colour and the modifiers of a token, which is that of a declared name or not.
fn colour_of(
    names: &Names<'_>,
    token: &Token<'_>,
    occurrence: Option<Occurrence>,
) -> Option<(Colour, u8)> {
    match token.kind {
        TokenKind::Identifier(_) => {
            let occurrence = occurrence?;
            let declared = names.declarations.get(occurrence.declaration)?.declared;
            Some((
                colour_of_name(declared),
                modifiers_of(occurrence.usage, declared),
            ))
        }
        TokenKind::Number(_) => Some((Colour::Number, 0)),
        TokenKind::Keyword(word) => Some((colour_of_word(word), 0)),
        TokenKind::Punctuation(symbol) => Some((colour_of_symbol(symbol)?, 0)),
    }
}

/// Where the next character stands, where the last part begins that has a colour, and the numbers of these parts.
#[derive(Drop)]
struct Painter {
    at: Spot,
    last: Spot,
    data: String,
}

impl Painter {
    /// Appends the part between a spot of this line and here: how many lines and characters it begins behind the last one, how long it
    /// is, its colour and its modifiers.
    fn paint(&mut self, from: Spot, colour: Colour, modifiers: u8) -> Result<(), AllocError> {
        let length = self.at.character.saturating_sub(from.character);
        if length == 0 {
            return Ok(());
        }
        let lines = from.line.saturating_sub(self.last.line);
        let characters = if lines == 0 {
            from.character.saturating_sub(self.last.character)
        } else {
            from.character
        };
        let comma = if self.data.is_empty() { "" } else { "," };
        let number = colour.number();
        write!(
            self.data,
            "{comma}{lines},{characters},{length},{number},{modifiers}"
        )?;
        self.last = from;
        Ok(())
    }

    /// Paints a comment of so many bytes, line by line.
    fn comment(&mut self, text: &[u8], length: usize) -> Result<(), AllocError> {
        let mut from = self.at;
        let mut rest = text;
        for _painted in 0..length {
            let Some((byte, behind)) = rest.split_first() else {
                break;
            };
            let next = past(self.at, *byte, behind);
            if next.line > self.at.line {
                self.paint(from, Colour::Comment, 0)?;
                from = next;
            }
            self.at = next;
            rest = behind;
        }
        self.paint(from, Colour::Comment, 0)
    }

    /// Paints the comments of what stands between two tokens.
    fn gap(&mut self, gap: &[u8]) -> Result<(), AllocError> {
        let mut rest = gap;
        while let Some(length) = piece_len(rest) {
            let (piece, after) = rest.split_at(length);
            match piece {
                [byte] => self.at = past(self.at, *byte, after),
                _ => self.comment(rest, length)?,
            }
            rest = after;
        }
        Ok(())
    }

    /// Paints a token of so many characters.
    fn token(&mut self, length: usize, painted: Option<(Colour, u8)>) -> Result<(), AllocError> {
        let from = self.at;
        self.at.character = self.at.character.saturating_add(length);
        match painted {
            Some((colour, modifiers)) => self.paint(from, colour, modifiers),
            None => Ok(()),
        }
    }
}

/// The colours of a text's words, names, numbers, operators and comments (`SemanticTokens`).
pub fn semantic_tokens(alloc: Global, source: &str) -> Result<String, AllocError> {
    let names = names_of(alloc, source)?;
    let bytes = source.as_bytes();
    let mut painter = Painter {
        at: START,
        last: START,
        data: String::new(alloc),
    };
    let mut at = 0;
    let mut next = 0usize;
    for (place, token) in names.tokens.iter().enumerate() {
        painter.gap(bytes.get(at..token.span.start.byte).unwrap_or(b""))?;
        let found = names.occurrences.get(next).copied();
        let occurrence = found.filter(|occurrence| occurrence.token == place);
        if occurrence.is_some() {
            next = next.saturating_add(1);
        }
        painter.token(token.span.length, colour_of(&names, token, occurrence))?;
        at = token.span.end().byte;
    }
    painter.gap(bytes.get(at..).unwrap_or(b""))?;
    let Painter { data, .. } = painter;
    format!(in alloc; "{{\"data\":[{data}]}}")
}

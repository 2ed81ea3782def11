//! What a token's text stands for.

ghost use Rattle.std.specs.Prelude.{◌≡◌, true, pos, option_map};
ghost use Rattle.lus_syntax.specs.Texts.{words, symbols, look_up, is_text, is_number, number_within, meaning};
ghost use Rattle.lus_syntax.specs.Reading.{Gives};

use crate::refusal::RefusalNumber;
use crate::table::look_up;
use crate::text::begins_name;
use crate::token::{Symbol, TokenKind, Word};
use std::str;

/// The words of the language, and those that are reserved.
pub static WORDS: &[(&str, Option<Word>)] = &[
    ("node", Some(Word::Node)),
    ("function", Some(Word::Function)),
    ("returns", Some(Word::Returns)),
    ("var", Some(Word::Var)),
    ("let", Some(Word::Let)),
    ("tel", Some(Word::Tel)),
    ("type", Some(Word::Type)),
    ("const", Some(Word::Const)),
    ("enum", Some(Word::Enum)),
    ("struct", Some(Word::Struct)),
    ("bool", Some(Word::Bool)),
    ("int", Some(Word::Int)),
    ("true", Some(Word::True)),
    ("false", Some(Word::False)),
    ("not", Some(Word::Not)),
    ("and", Some(Word::And)),
    ("or", Some(Word::Or)),
    ("xor", Some(Word::Xor)),
    ("if", Some(Word::If)),
    ("then", Some(Word::Then)),
    ("else", Some(Word::Else)),
    ("div", Some(Word::Div)),
    ("mod", Some(Word::Mod)),
    ("pre", Some(Word::Pre)),
    ("fby", Some(Word::Fby)),
    ("when", Some(Word::When)),
    ("merge", Some(Word::Merge)),
    ("nor", Some(Word::Nor)),
    ("real", None),
    ("current", None),
    ("assert", None),
    ("extern", None),
    ("unsafe", None),
    ("condact", None),
    ("package", None),
    ("model", None),
    ("with", None),
    ("include", None),
    ("operator", None),
];

// The symbols. A longer one stands before a shorter one.
pub(crate) static SYMBOLS: &[(&str, Symbol)] = &[
    ("<>", Symbol::NotEqual),
    ("<=", Symbol::AtMost),
    (">=", Symbol::AtLeast),
    ("->", Symbol::Arrow),
    ("=>", Symbol::Implies),
    ("(", Symbol::Open),
    (")", Symbol::Close),
    ("{", Symbol::OpenBrace),
    ("}", Symbol::CloseBrace),
    (",", Symbol::Comma),
    (";", Symbol::Semicolon),
    (":", Symbol::Colon),
    (".", Symbol::Dot),
    ("=", Symbol::Equal),
    ("<", Symbol::Less),
    (">", Symbol::Greater),
    ("+", Symbol::Plus),
    ("-", Symbol::Minus),
    ("*", Symbol::Star),
    ("/", Symbol::Slash),
    ("#", Symbol::Sharp),
];

#[tactic(auto, unfolding(crate::specs::Texts::words))]
fn word_of(text: &str) -> Option<Option<Word>>
    ensures { result ≡ look_up text.now words }
{
    look_up(WORDS, text)
}

#[tactic(auto, unfolding(crate::specs::Texts::symbols))]
fn symbol_of(text: &str) -> Option<Symbol>
    ensures { result ≡ look_up text.now symbols }
{
    look_up(SYMBOLS, text)
}

// The number that the digits write, within its limit.
fn number_of(text: &str) -> Option<i64>
    requires { is_number text.now ≡ true }
    ensures { result ≡ option_map pos (number_within text.now) }
{
    text.parse::<i64>().ok()
}

/// What the text of a token stands for.
pub(crate) fn kind_of(bytes: &[u8]) -> Result<TokenKind<'_>, RefusalNumber>
    requires { is_text bytes.now ≡ true }
    ensures { Gives result (meaning bytes.now) }
{
    kind_of_text(str::from_utf8(bytes).unwrap())
}

#[tactic(auto, unfolding(crate::specs::Texts::meaning))]
fn kind_of_text(text: &str) -> Result<TokenKind<'_>, RefusalNumber>
    requires { is_text text.now ≡ true }
    ensures { Gives result (meaning text.now) }
{
    let first = text.as_bytes()[0];
    if begins_name(first) {
        match word_of(text) {
            None => Ok(TokenKind::Identifier(text)),
            Some(None) => Err(RefusalNumber::Unsupported),
            Some(Some(word)) => Ok(TokenKind::Keyword(word)),
        }
    } else if first.is_ascii_digit() {
        match number_of(text) {
            None => Err(RefusalNumber::Limit),
            Some(number) => Ok(TokenKind::Number(number)),
        }
    } else {
        match symbol_of(text) {
            None => Err(RefusalNumber::Lexical),
            Some(symbol) => Ok(TokenKind::Punctuation(symbol)),
        }
    }
}

//! Texts and their tokens. That each word and symbol is one is seen by the programs of `rows/` and of examples/.

use lus_syntax::{Place, Span, Symbol, Token, TokenKind, lex};
use std::test::Fail;

fn is_symbol(token: &Token, wanted: Symbol) -> bool {
    match token.kind {
        TokenKind::Punctuation(symbol) => symbol == wanted,
        _ => false,
    }
}

/// Whether a token is this name, or the number that is written so.
fn is_plain(token: &Token, wanted: &str) -> bool {
    match &token.kind {
        TokenKind::Identifier(name) => *name == wanted,
        TokenKind::Number(number) => wanted.parse::<i64>() == Ok(*number),
        _ => false,
    }
}

fn are_plain(tokens: &[Token], wanted: &[&str]) -> bool {
    tokens.len() == wanted.len()
        && tokens
            .iter()
            .zip(wanted.iter())
            .all(|(token, text)| is_plain(token, text))
}

/// Texts and their names and numbers.
static CASES: [(&str, &[&str]); 8] = [
    ("nodes Node _1", &["nodes", "Node", "_1"]),
    ("pre_", &["pre_"]),
    ("1a", &["1", "a"]),
    ("007 9223372036854775807", &["7", "9223372036854775807"]),
    ("a-->b\nc", &["a", "c"]),
    ("a(* ( * /* **)b/*(* é */c", &["a", "b", "c"]),
    ("\t\r\n\u{c} ", &[]),
    ("", &[]),
];

#[test]
fn the_longest_text_is_the_token(rt: HostRuntime) -> Result<(), Fail> {
    for (text, wanted) in &CASES {
        assert!(rt; are_plain(&lex(rt.alloc(), text)?, wanted), "at {text}");
    }
    Ok(())
}

/// Whether a symbol stands between the number 1 and this name or number.
fn is_between(tokens: &[Token], symbol: Symbol, last: &str) -> bool {
    match tokens {
        [one, between, other] => {
            is_plain(one, "1") && is_symbol(between, symbol) && is_plain(other, last)
        }
        _ => false,
    }
}

#[test]
fn symbols_stand_between_names_and_numbers(rt: HostRuntime) -> Result<(), Fail> {
    assert!(rt; is_between(&lex(rt.alloc(), "1.5")?, Symbol::Dot, "5"));
    assert!(rt; is_between(&lex(rt.alloc(), "1-x --")?, Symbol::Minus, "x"));
    Ok(())
}

/// Whether the first of three tokens has this span.
fn is_first_at(tokens: &[Token], start: Place, end: Place) -> bool {
    match tokens {
        [first, _, _] => first.span == Span { start, length: 2 } && first.span.end() == end,
        _ => false,
    }
}

#[test]
fn a_span_is_the_slice_of_its_token(rt: HostRuntime) -> Result<(), Fail> {
    let start = Place {
        byte: 10,
        line: 2,
        column: 5,
    };
    let end = Place {
        byte: 12,
        line: 2,
        column: 7,
    };
    assert!(rt; is_first_at(&lex(rt.alloc(), "(* é\n *) ab <> c")?, start, end));
    Ok(())
}

//! Values as words and back.

use lus_grammar::parse;
use lus_instructions::words::Word;
use lus_program::Kind;
use lus_syntax::{Refusal, lex};
use lus_types::check_types;
use lus_values::Value;
use lus_words::{Layout, lay_out, push_entry, push_value, read_entry};
use std::alloc::Global;
use std::test::Fail;

/// A structure of a number and a truth value.
const PAIRS: &str =
    "type p = struct {a: int; b: bool}; node f(x: p) returns (y: p); let y = x; tel";

/// How many words the one structure of a text has, if it is laid out as one.
fn words_of_a_pair(alloc: Global) -> Result<Option<usize>, Refusal> {
    let typed = check_types(alloc, parse(alloc, &lex(alloc, PAIRS)?)?)?;
    Ok(match lay_out(alloc, typed.sound(), Kind::Struct(0))? {
        Layout::Word(_) => None,
        Layout::Parts(parts) => Some(parts.len()),
    })
}

#[test]
fn a_structure_has_the_words_of_its_fields(rt: HostRuntime) -> Result<(), Fail> {
    assert!(rt; matches!(words_of_a_pair(rt.alloc()), Ok(Some(2))));
    Ok(())
}

#[test]
fn entries_are_words_and_read_back(rt: HostRuntime) -> Result<(), Fail> {
    let alloc = rt.alloc();
    let layout = Layout::Word(Kind::Int);
    let mut row = Vec::new(alloc);
    push_value(&layout, &Value::Int(5), &mut row)?;
    push_entry(&layout, &None, &mut row)?;
    assert!(rt; matches!(row.as_slice(), [Word::Int(5), Word::Absent]));
    let read = read_entry(alloc, &layout, &[Word::Int(5)])?;
    assert!(rt; matches!(read, Some(Value::Int(5))));
    Ok(())
}

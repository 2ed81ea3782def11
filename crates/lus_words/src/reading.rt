//! Words become values.

ghost use Rattle.std.specs.Prelude.{◌≡◌, ◌+◌, ◌≤◌, IfOk, OnOk, drop, length, map, unwrap_or};
ghost use Rattle.lus_values.specs.Values.{nil, struct};
ghost use Rattle.lus_values.specs.View.{entry_of, value_of};
ghost use Rattle.lus_instructions.specs.Words.{entry_in};
ghost use Rattle.lus_words.specs.Encoded.{all_read, decode, read};
ghost use Rattle.lus_words.specs.Layouts.{layouts_of, size, sizes};
ghost use Rattle.lus_words.specs.View.{layout_of};

use crate::layout::Layout;
use lus_instructions::words::{Word, is_absent, is_nil};
use lus_values::{Memory, Value};
use std::alloc::Global;

/// The value that a word is, nil where it has none.
fn value_with(word: Word) -> Value
    ensures { value_of result ≡ unwrap_or (entry_in word) nil }
{
    match word {
        Word::Bool(truth) => Value::Bool(truth),
        Word::Int(number) => Value::Int(number),
        Word::Enum(enumeration, constructor) => Value::Enum(enumeration, constructor),
        Word::Nil => Value::Nil,
        Word::Absent => Value::Nil,
    }
}

/// The value that the words from a place on are; goes behind them.
#[cycle(read)]
fn read_value(
    alloc: Global,
    layout: &Layout,
    words: &[Word],
    place: &mut usize,
) -> Result<Value, Memory>
    requires { place.old + size (layout_of layout.now) ≤ length words.now }
    ensures value { IfOk result (λ v. value_of v ≡ read (layout_of layout.now) (drop place.old (map entry_in words.now))) }
    ensures behind { OnOk result (place.new ≡ place.old + size (layout_of layout.now)) }
{
    match layout {
        Layout::Word(_) => {
            let word = words[*place];
            *place += 1;
            Ok(value_with(word))
        }
        Layout::Parts(parts) => read_structure(alloc, parts, words, place),
    }
}

/// The structure that the words from a place on are; goes behind them.
#[cycle(read)]
fn read_structure(
    alloc: Global,
    parts: &[Layout],
    words: &[Word],
    place: &mut usize,
) -> Result<Value, Memory>
    requires { place.old + sizes (layouts_of (map layout_of parts.now)) ≤ length words.now }
    ensures value { let fields = all_read (layouts_of (map layout_of parts.now)) (drop place.old (map entry_in words.now)) in
        IfOk result (λ v. value_of v ≡ struct fields) }
    ensures behind { OnOk result (place.new ≡ place.old + sizes (layouts_of (map layout_of parts.now))) }
{
    let mut fields = Vec::new(alloc);
    for part in parts {
        let field = read_value(alloc, part, words, place)?;
        fields.push(field)?;
    }
    Ok(Value::Struct(fields))
}

/// The entry that the first words are.
pub fn read_entry(alloc: Global, layout: &Layout, words: &[Word]) -> Result<Option<Value>, Memory>
    requires { size (layout_of layout.now) ≤ length words.now }
    ensures { IfOk result (λ e. entry_of e ≡ decode (layout_of layout.now) (map entry_in words.now)) }
{
    let Some(word) = words.first() else {
        return Ok(None);
    };
    if is_absent(*word) {
        return Ok(None);
    }
    if is_nil(*word) {
        return Ok(Some(Value::Nil));
    }
    let mut place = 0;
    let value = read_value(alloc, layout, words, &mut place)?;
    Ok(Some(value))
}

//! Values become words.

ghost use Rattle.std.specs.Prelude.{◌≡◌, ◌++◌, OnOk, Some, map, replicate};
ghost use Rattle.lus_values.specs.Values.{fields_of};
ghost use Rattle.lus_values.specs.View.{entry_of, value_of};
ghost use Rattle.lus_instructions.specs.Words.{entry_in};
ghost use Rattle.lus_words.specs.Encoded.{all_words, encode, words};
ghost use Rattle.lus_words.specs.Fitting.{AllFit, EntryFits, Fits, IsWord};
ghost use Rattle.lus_words.specs.Layouts.{layouts_of, size, sizes};
ghost use Rattle.lus_words.specs.View.{layout_of};

use crate::layout::Layout;
use lus_instructions::words::Word;
use lus_values::{Memory, Value};

/// The word that a value is that is no structure.
fn word_of(value: &Value) -> Word
    requires { IsWord (value_of value.now) }
    ensures { entry_in result ≡ Some (value_of value.now) }
{
    match value {
        Value::Bool(truth) => Word::Bool(*truth),
        Value::Int(number) => Word::Int(*number),
        Value::Enum(enumeration, constructor) => Word::Enum(*enumeration, *constructor),
        Value::Struct(_) => Word::Nil,
        Value::Nil => Word::Nil,
    }
}

/// Appends one word in each place of a layout.
fn push_all(layout: &Layout, word: Word, row: &mut Vec<Word>) -> Result<(), Memory>
    ensures { let more = replicate (size (layout_of layout.now)) (entry_in word) in
        OnOk result (map entry_in row.new.items ≡ map entry_in row.old.items ++ more) }
{
    match layout {
        Layout::Word(_) => row.push(word)?,
        Layout::Parts(parts) => {
            for part in parts {
                push_all(part, word, row)?;
            }
        }
    }
    Ok(())
}

/// Appends the words of a value.
#[cycle(push)]
pub fn push_value(layout: &Layout, value: &Value, row: &mut Vec<Word>) -> Result<(), Memory>
    requires { Fits (layout_of layout.now) (value_of value.now) }
    ensures { let more = words (layout_of layout.now) (value_of value.now) in
        OnOk result (map entry_in row.new.items ≡ map entry_in row.old.items ++ more) }
{
    match layout {
        Layout::Word(_) => {
            row.push(word_of(value))?;
            Ok(())
        }
        Layout::Parts(parts) => match value {
            Value::Struct(fields) => push_fields(parts, fields, row),
            _ => push_all(layout, Word::Nil, row),
        },
    }
}

/// Appends the words of fields.
#[cycle(push)]
fn push_fields(parts: &[Layout], fields: &[Value], row: &mut Vec<Word>) -> Result<(), Memory>
    requires { AllFit (layouts_of (map layout_of parts.now)) (fields_of (map value_of fields.now)) }
    ensures { let more = all_words (layouts_of (map layout_of parts.now)) (fields_of (map value_of fields.now)) in
        OnOk result (map entry_in row.new.items ≡ map entry_in row.old.items ++ more) }
{
    for (part, field) in parts.iter().zip(fields) {
        push_value(part, field, row)?;
    }
    Ok(())
}

/// Appends the words of an entry.
pub fn push_entry(layout: &Layout, entry: &Option<Value>, row: &mut Vec<Word>) -> Result<(), Memory>
    requires { EntryFits (layout_of layout.now) (entry_of entry.now) }
    ensures { let more = encode (layout_of layout.now) (entry_of entry.now) in
        OnOk result (map entry_in row.new.items ≡ map entry_in row.old.items ++ more) }
{
    match entry {
        Some(value) => push_value(layout, value, row),
        None => push_all(layout, Word::Absent, row),
    }
}

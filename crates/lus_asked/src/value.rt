//! Values as a journal spells them, each taken off the front of a text.

ghost use Rattle.std.specs.Prelude.{◌≡◌, IfOk, codes, map, option_map};
ghost use Rattle.lus_values.specs.View.{value_of};
ghost use Rattle.lus_asked.specs.Reading.{list_at, named, scalar, scalar_at, value_at, word_value};
ghost use Rattle.lus_values.specs.Names.{numbers_of};

use crate::number::{begins_number, integer};
use crate::piece::{Separation, after, ascii, separate, split_word};
use lus_values::{Memory, Names, Value};
use std::alloc::Global;

/// A constructor, or `nil` where none has this name.
fn named(names: &Names, word: &str) -> Option<Value>
    ensures { option_map value_of result ≡ named (numbers_of names.now word.now) word.now }
{
    match names.find(word) {
        Some((enumeration, constructor)) => Some(Value::Enum(enumeration, constructor)),
        None if word == "nil" => Some(Value::Nil),
        None => None,
    }
}

/// A value that is no structure.
#[tactic(auto, unfolding(crate::specs::Reading::scalar))]
fn scalar(names: &Names, word: &str) -> Option<Value>
    ensures { option_map value_of result ≡ scalar names.now word.now }
{
    if begins_number(word.as_bytes()) {
        return Some(Value::Int(integer(word)?));
    }
    if word == "true" {
        return Some(Value::Bool(true));
    }
    if word == "false" {
        return Some(Value::Bool(false));
    }
    named(names, word)
}

/// A value that is no structure, and what stands behind it.
#[tactic(auto, unfolding(crate::specs::Reading::scalar_at))]
fn take_scalar<'a>(names: &Names, text: &'a [u8]) -> Option<(Value, &'a [u8])>
    ensures { option_map (λ p. (value_of p.0, p.1.now)) result ≡ scalar_at names.now text.now }
{
    let (word, rest) = split_word(text);
    let value = scalar(names, ascii(word)?)?;
    Some((value, rest))
}

/// The value that a word spells: a number, a truth value, the name of a constructor, or `nil`.
pub fn read_word(names: &Names, word: &[u8]) -> Option<Value>
    ensures { option_map value_of result ≡ word_value names.now word.now }
{
    scalar(names, ascii(word)?)
}

/// A value in which structures nest at most this many levels, and what stands behind it.
#[cycle(values)]
pub(crate) fn take_value<'a>(
    alloc: Global,
    names: &Names,
    levels: usize,
    text: &'a [u8],
) -> Result<Option<(Value, &'a [u8])>, Memory>
    ensures { IfOk result (λ o. option_map (λ p. (value_of p.0, p.1.now)) o ≡ value_at levels names.now text.now) }
{
    let Some(inner) = after(b"{", text) else {
        return Ok(take_scalar(names, text));
    };
    if levels == 0 {
        return Ok(None);
    }
    match take_fields(alloc, names, levels - 1, inner)? {
        Some((fields, rest)) => Ok(Some((Value::Struct(fields), rest))),
        None => Ok(None),
    }
}

/// The fields of a structure, of which the brace that begins it is read, and what stands behind it.
#[cycle(values)]
fn take_fields<'a>(
    alloc: Global,
    names: &Names,
    levels: usize,
    text: &'a [u8],
) -> Result<Option<(Vec<Value>, &'a [u8])>, Memory>
    ensures { IfOk result (λ o. option_map (λ p. (map value_of p.0.items, p.1.now)) o
        ≡ list_at (value_at levels names.now) (codes "}") (codes "; ") text.now) }
{
    let mut fields = Vec::new(alloc);
    if let Some(rest) = after(b"}", text) {
        return Ok(Some((fields, rest)));
    }
    let mut left = text;
    let most = text.len();
    for _ in 0..most {
        let Some((field, behind)) = take_value(alloc, names, levels, left)? else {
            return Ok(None);
        };
        fields.push(field)?;
        match separate(b"}", b"; ", behind) {
            Separation::End(rest) => return Ok(Some((fields, rest))),
            Separation::Item(later) => left = later,
            Separation::Neither => return Ok(None),
        }
    }
    Ok(None)
}

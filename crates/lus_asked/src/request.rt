//! Requests as a journal spells them, each taken off the front of a text.

ghost use Rattle.std.specs.Prelude.{◌≡◌, IfOk, map, option_map};
ghost use Rattle.lus_values.specs.View.{entry_of};
ghost use Rattle.lus_asked.specs.Reading.{inner_row_at, item_at, other_at, request_at, row_at, rows_at, slot_at};

use crate::number::natural;
use crate::piece::{Separation, after, ascii, separate, split_word};
use crate::value::take_value;
use lus_requests::{Request, Rows};
use lus_values::{Memory, Names, Row, Value};
use std::alloc::Global;

/// The most structures in one another that a value is read with: types nest no deeper.
const MOST_LEVELS: usize = 64;

/// An item of a row, and what stands behind it.
#[tactic(auto, unfolding(crate::specs::Reading::item_at))]
fn take_item<'a>(
    alloc: Global,
    names: &Names,
    text: &'a [u8],
) -> Result<Option<(Option<Value>, &'a [u8])>, Memory>
    ensures { IfOk result (λ o. option_map (λ p. (entry_of p.0, p.1.now)) o ≡ item_at names.now text.now) }
{
    let (word, rest) = split_word(text);
    if word == b"-".as_slice() {
        return Ok(Some((None, rest)));
    }
    match take_value(alloc, names, MOST_LEVELS, text)? {
        Some((value, behind)) => Ok(Some((Some(value), behind))),
        None => Ok(None),
    }
}

/// The items of a row, of which the parenthesis that begins it is read, and what stands behind it.
fn take_items<'a>(
    alloc: Global,
    names: &Names,
    text: &'a [u8],
) -> Result<Option<(Vec<Option<Value>>, &'a [u8])>, Memory>
    ensures { IfOk result (λ o. option_map (λ p. (map entry_of p.0.items, p.1.now)) o ≡ inner_row_at names.now text.now) }
{
    let mut items = Vec::new(alloc);
    if let Some(rest) = after(b")", text) {
        return Ok(Some((items, rest)));
    }
    let mut left = text;
    let most = text.len();
    for _ in 0..most {
        let Some((item, behind)) = take_item(alloc, names, left)? else {
            return Ok(None);
        };
        items.push(item)?;
        match separate(b")", b", ", behind) {
            Separation::End(rest) => return Ok(Some((items, rest))),
            Separation::Item(later) => left = later,
            Separation::Neither => return Ok(None),
        }
    }
    Ok(None)
}

/// A row in parentheses, and what stands behind it.
#[tactic(auto, unfolding(crate::specs::Reading::row_at))]
fn take_row<'a>(
    alloc: Global,
    names: &Names,
    text: &'a [u8],
) -> Result<Option<(Row, &'a [u8])>, Memory>
    ensures { IfOk result (λ o. option_map (λ p. (p.0, p.1.now)) o ≡ row_at names.now text.now) }
{
    let Some(inner) = after(b"(", text) else {
        return Ok(None);
    };
    match take_items(alloc, names, inner)? {
        Some((items, rest)) => Ok(Some((Row::new(items), rest))),
        None => Ok(None),
    }
}

/// The rows of a burst, of which the parenthesis that begins them is read, and what stands behind it.
fn take_rows<'a>(
    alloc: Global,
    names: &Names,
    text: &'a [u8],
) -> Result<Option<(Vec<Row>, &'a [u8])>, Memory>
    ensures { IfOk result (λ o. option_map (λ p. (p.0.items, p.1.now)) o ≡ rows_at names.now text.now) }
{
    let mut rows = Vec::new(alloc);
    if let Some(rest) = after(b")", text) {
        return Ok(Some((rows, rest)));
    }
    let mut left = text;
    let most = text.len();
    for _ in 0..most {
        let Some((row, behind)) = take_row(alloc, names, left)? else {
            return Ok(None);
        };
        rows.push(row)?;
        match separate(b")", b", ", behind) {
            Separation::End(rest) => return Ok(Some((rows, rest))),
            Separation::Item(later) => left = later,
            Separation::Neither => return Ok(None),
        }
    }
    Ok(None)
}

/// The number of a slot, and what stands behind it.
#[tactic(auto, unfolding(crate::specs::Reading::slot_at))]
fn take_slot(text: &[u8]) -> Option<(u64, &[u8])>
    ensures { option_map (λ p. (p.0, p.1.now)) result ≡ slot_at text.now }
{
    let (word, rest) = split_word(text);
    let slot = natural(ascii(word)?)?;
    Some((slot, rest))
}

/// A request that has no values, and what stands behind it.
#[tactic(auto, unfolding(crate::specs::Reading::other_at))]
fn take_other(text: &[u8]) -> Option<(Request, &[u8])>
    ensures { option_map (λ p. (p.0, p.1.now)) result ≡ other_at text.now }
{
    if let Some(rest) = after(b"reset", text) {
        return Some((Request::Reset, rest));
    }
    if let Some(slot) = after(b"save ", text) {
        let (slot, rest) = take_slot(slot)?;
        return Some((Request::Save(slot), rest));
    }
    let (slot, rest) = take_slot(after(b"restore ", text)?)?;
    Some((Request::Restore(slot), rest))
}

/// A request, and what stands behind it.
#[tactic(auto, unfolding(crate::specs::Reading::request_at))]
pub(crate) fn take_request<'a>(
    alloc: Global,
    names: &Names,
    text: &'a [u8],
) -> Result<Option<(Request, &'a [u8])>, Memory>
    ensures { IfOk result (λ o. option_map (λ p. (p.0, p.1.now)) o ≡ request_at names.now text.now) }
{
    if let Some(row) = after(b"step(", text) {
        return match take_items(alloc, names, row)? {
            Some((items, rest)) => Ok(Some((Request::Step(Row::new(items)), rest))),
            None => Ok(None),
        };
    }
    if let Some(rows) = after(b"burst(", text) {
        return match take_rows(alloc, names, rows)? {
            Some((rows, rest)) => Ok(Some((Request::Burst(Rows::new(rows)), rest))),
            None => Ok(None),
        };
    }
    Ok(take_other(text))
}

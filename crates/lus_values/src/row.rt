//! Rows: the entries of several variables at one instant.

ghost use Rattle.std.specs.Prelude.{◌≡◌, ◌∷◌, [], IfOk, map};
ghost use Rattle.lus_values.specs.View.{entry_of};
ghost use Rattle.lus_values.specs.Rows.{items_in};

use crate::memory::Memory;
use crate::value::{Value, copy};
use std::alloc::Global;
use std::marker::Model;
use std::slice;

/// The entries of a row. One alone takes no memory of its own.
#[derive(Drop)]
pub enum Items {
    One(Option<Value>),
    Many(Vec<Option<Value>>),
}

/// The entries of variables in their order; an absent one is `None`.
#[derive(Drop)]
pub struct Row {
    items: Items,
}

impl Model for Row {
    ghost use Rattle.std.specs.Prelude.{List, Option};
    ghost use Rattle.lus_values.specs.Values.{Value as PlainValue};
    ghost use Rattle.lus_values.specs.Coded.{coded_row};
    ghost use Rattle.lus_values.specs.Rows.{items_in};

    ghost Value = { List (Option PlainValue) };

    ghost coded = { coded_row };

    ghost view = { λ r. items_in r.items };
}

impl Row {
    pub fn new(items: Vec<Option<Value>>) -> Row
        ensures { result ≡ map entry_of items.items }
    {
        Row {
            items: Items::Many(items),
        }
    }

    /// A row of one entry. No memory is taken.
    pub fn one(entry: Option<Value>) -> Row
        ensures { result ≡ entry_of entry ∷ [] }
    {
        Row {
            items: Items::One(entry),
        }
    }

    pub fn items(&self) -> &[Option<Value>]
        ensures { map entry_of result.now ≡ self.now }
    {
        match &self.items {
            Items::One(entry) => slice::from_ref(entry),
            Items::Many(entries) => entries.as_slice(),
        }
    }

    /// The entries themselves, as the row has them. No memory is taken.
    pub fn into_items(self) -> Items
        ensures { items_in result ≡ self }
    {
        self.items
    }

    /// An equal row.
    pub fn copy(&self, alloc: Global) -> Result<Row, Memory>
        ensures { IfOk result (λ r. r ≡ self.now) }
    {
        match &self.items {
            Items::One(entry) => Ok(Row::one(copy_entry(alloc, entry)?)),
            Items::Many(entries) => Ok(Row::new(copy_entries(alloc, entries)?)),
        }
    }
}

/// Equal entries, in their order.
fn copy_entries(alloc: Global, entries: &[Option<Value>]) -> Result<Vec<Option<Value>>, Memory>
    ensures { IfOk result (λ v. map entry_of v.items ≡ map entry_of entries.now) }
{
    let mut copies = Vec::new(alloc);
    for entry in entries {
        let entry_copy = copy_entry(alloc, entry)?;
        copies.push(entry_copy)?;
    }
    Ok(copies)
}

/// An equal entry.
pub fn copy_entry(alloc: Global, entry: &Option<Value>) -> Result<Option<Value>, Memory>
    ensures { IfOk result (λ e. entry_of e ≡ entry_of entry.now) }
{
    match entry {
        Some(value) => {
            let value_copy = copy(alloc, value)?;
            Ok(Some(value_copy))
        }
        None => Ok(None),
    }
}

//! Several rows, one behind another.

ghost use Rattle.std.specs.Prelude.{◌≡◌, IfOk};

use lus_values::{Memory, Row};
use std::alloc::Global;
use std::marker::Model;

/// Rows in their order, as the inputs of a burst or its outputs.
#[derive(Drop)]
pub struct Rows {
    items: Vec<Row>,
}

impl Model for Rows {
    ghost use Rattle.std.specs.Prelude.{List};
    ghost use Rattle.std.specs.Coded.{coded_list};
    ghost use Rattle.lus_values.specs.Values.{Row as PlainRow};
    ghost use Rattle.lus_values.specs.Coded.{coded_row};

    ghost Value = { List PlainRow };

    ghost coded = { coded_list coded_row };

    ghost view = { λ r. r.items.items };
}

impl Rows {
    pub fn new(items: Vec<Row>) -> Rows
        ensures { result ≡ items.items }
    {
        Rows { items }
    }

    pub fn items(&self) -> &[Row]
        ensures { result.now ≡ self.now }
    {
        self.items.as_slice()
    }

    /// The rows, of which there is no list then. No memory is taken.
    pub fn into_items(self) -> Vec<Row>
        ensures { result.items ≡ self }
    {
        let Rows { items } = self;
        items
    }

    /// Equal rows.
    pub fn copy(&self, alloc: Global) -> Result<Rows, Memory>
        ensures { IfOk result (λ r. r ≡ self.now) }
    {
        let mut items = Vec::new(alloc);
        for row in &self.items {
            let row_copy = row.copy(alloc)?;
            items.push(row_copy)?;
        }
        Ok(Rows { items })
    }
}

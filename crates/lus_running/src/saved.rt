//! What is saved of instances.

ghost use Rattle.std.specs.Prelude.{◌≡◌, ℕ, IfOk};
ghost use Rattle.lus_running.specs.Instances.{IsSavedOf, Keeps, cells_in, seen, seen_in};

use crate::copying::cells_again;
use crate::holding::Holding;
use crate::instance::Instance;
use crate::rows::Rows;
use lus_instructions::Stop;
use lus_instructions::words::Word;
use lus_values::{Memory, Value};
use std::alloc::Global;

/// The cells of an instance, of the kind of its rows.
#[derive(Drop)]
pub enum SavedCells {
    Words(Vec<Word>),
    Entries(Vec<Option<Value>>),
}

impl SavedCells {
    /// The cells of rows.
    fn of(alloc: Global, holding: &Holding) -> Result<SavedCells, Stop>
        ensures { IfOk result (λ o. cells_in o ≡ (seen_in 0 holding.now).cells) }
    {
        match holding {
            Holding::Words(rows) => Ok(SavedCells::Words(cells_again(alloc, &rows.cells)?)),
            Holding::Entries(rows) => Ok(SavedCells::Entries(cells_again(alloc, &rows.cells)?)),
        }
    }

    /// The same cells.
    fn copy(&self, alloc: Global) -> Result<SavedCells, Stop>
        ensures { IfOk result (λ o. cells_in o ≡ cells_in self.now) }
    {
        match self {
            SavedCells::Words(cells) => Ok(SavedCells::Words(cells_again(alloc, cells)?)),
            SavedCells::Entries(cells) => Ok(SavedCells::Entries(cells_again(alloc, cells)?)),
        }
    }

    /// Rows that keep these cells, with so many places in the row.
    fn holding(&self, alloc: Global, places: usize) -> Result<Holding, Stop>
        ensures { IfOk result (λ o. (g : ℕ) → Keeps g (cells_in self.now) places (seen_in g o)) }
    {
        match self {
            SavedCells::Words(cells) => Ok(Holding::Words(Rows::keeping(alloc, cells, places)?)),
            SavedCells::Entries(cells) => Ok(Holding::Entries(Rows::keeping(
                alloc, cells, places,
            )?)),
        }
    }
}

/// What is saved of an instance: its cells alone. The rows on which it makes its steps are made anew.
#[derive(Drop)]
pub struct SavedInstance {
    pub alloc: Global,
    pub node: u32,
    pub cells: SavedCells,
    /// How many places the row has.
    pub places: usize,
}

impl SavedInstance {
    /// What an instance keeps.
    pub fn of(instance: &Instance) -> Result<SavedInstance, Memory>
        ensures { IfOk result (λ o. IsSavedOf (seen instance.now) o) }
    {
        match SavedCells::of(instance.alloc, &instance.holding) {
            Ok(cells) => Ok(SavedInstance {
                alloc: instance.alloc,
                node: instance.node,
                cells,
                places: instance.holding.places(),
            }),
            Err(_) => Err(Memory),
        }
    }

    /// The same once more.
    pub fn copy(&self) -> Result<SavedInstance, Memory>
        ensures node { IfOk result (λ o. o.node ≡ self.now.node) }
        ensures cells { IfOk result (λ o. cells_in o.cells ≡ cells_in self.now.cells) }
        ensures places { IfOk result (λ o. o.places ≡ self.now.places) }
    {
        match self.cells.copy(self.alloc) {
            Ok(cells) => Ok(SavedInstance {
                alloc: self.alloc,
                node: self.node,
                cells,
                places: self.places,
            }),
            Err(_) => Err(Memory),
        }
    }

    /// An instance that keeps it.
    pub fn instance(&self) -> Result<Instance, Memory>
        ensures { IfOk result (λ o. Keeps self.now.node (cells_in self.now.cells) self.now.places (seen o)) }
    {
        match self.cells.holding(self.alloc, self.places) {
            Ok(holding) => Ok(Instance {
                alloc: self.alloc,
                node: self.node,
                holding,
            }),
            Err(_) => Err(Memory),
        }
    }
}

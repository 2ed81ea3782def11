//! The count of every node's cells.

ghost use Rattle.std.specs.Prelude.{◌≢◌, ◌≤◌, IfOk, IfErr, OnOk};
ghost use Rattle.lus_values.specs.Lists.{item};
ghost use Rattle.lus_syntax.specs.declared.refusal.RefusalNumber.TheVariants as numbers;
ghost use Rattle.lus_syntax.specs.Limits.{most_cells};
ghost use Rattle.lus_program.specs.Programs.{node_at};
ghost use Rattle.lus_program.specs.View.{program_seen};
ghost use Rattle.lus_program.specs.Refusals.{RefusesFor};
ghost use Rattle.lus_program.specs.Resolved.{program_uses};
ghost use Rattle.lus_program.specs.Leaves.{AreTheLeaves};
ghost use Rattle.lus_cells.specs.Cells.{AreStateCells, FitsCells, HaveLeaves, NamesTooMany, node_cells as cells_of_node};

use crate::weights::node_cells;
use lus_graph::{Rule, along};
use lus_program::Sound;
use lus_syntax::{MOST_CELLS, Refusal, RefusalNumber};
use std::alloc::Global;

/// Each node has its cells, by those of the nodes that it calls.
#[derive(Drop)]
struct Cells<'a> {
    sound: &'a Sound,
    leaves: &'a [u32],
    ghost are: { AreTheLeaves (program_seen sound.now) leaves.now },
}

impl<'a> Rule<u32> for Cells<'a> {
    ghost uses = { λ c. program_uses (program_seen c.sound.now) };

    ghost nothing = { λ c. 0 };

    ghost step = { λ c at f. cells_of_node (program_seen c.sound.now) (item 1 c.leaves.now) at (node_at (program_seen c.sound.now) f) };

    ghost fits = { λ c n. n ≤ most_cells };

    fn find(&self, thing: usize, table: &[u32]) -> Option<u32> {
        let program = self.sound.program();
        let count = node_cells(program, &program.nodes[thing], self.leaves, table);
        if count <= MOST_CELLS {
            Some(count)
        } else {
            None
        }
    }
}

/// The state cells of each node, in the program's order. A program with a node that has more than 100,000 is refused at that
/// node's name. Linear in the source.
pub fn cells_of_nodes(alloc: Global, sound: &Sound) -> Result<Vec<u32>, Refusal>
    ensures ok { IfOk result (λ cells. AreStateCells (program_seen sound.now) cells.items) }
    ensures leaves { OnOk result (HaveLeaves (program_seen sound.now)) }
    ensures refused { IfErr result (RefusesFor numbers.Limit (FitsCells (program_seen sound.now))) }
    ensures placed { IfErr result (λ e. e.number ≢ numbers.Memory → NamesTooMany sound.now e.line e.column) }
{
    let program = sound.program();
    let leaves = sound.leaves();
    let none = vec![in alloc; 0u32; program.nodes.len()]?;
    match along(&Cells { sound, leaves }, sound.nodes(), none) {
        Ok(cells) => Ok(cells),
        Err(place) => {
            let name = program.nodes[place].place;
            Err(Refusal::new(RefusalNumber::Limit, name.line, name.column))
        }
    }
}

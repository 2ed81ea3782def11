//! Programs compared.

ghost use Rattle.std.specs.Prelude.{◌≡◌, IsTrue};
ghost use Rattle.lus_program.specs.View.{program_seen};
ghost use Rattle.lus_same.specs.Nameless.{nameless};

use crate::nodes::same_nodes;
use crate::types::same_types;
use lus_program::Program;

/// Whether two programs are one but for the names of their types, constructors, fields, nodes and variables.
pub fn same_programs(left: &Program, right: &Program) -> bool
    ensures { IsTrue result → nameless (program_seen left.now) ≡ nameless (program_seen right.now) }
{
    same_types(&left.types, &right.types) && same_nodes(&left.nodes, &right.nodes)
}

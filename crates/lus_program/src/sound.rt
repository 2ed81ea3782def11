//! Sound programs.

ghost use Rattle.std.specs.Prelude.{◌≡◌};
ghost use Rattle.lus_graph.specs.Ways.{HasNoWayBack, IsOrder};
ghost use Rattle.lus_program.specs.View.{program_seen};
ghost use Rattle.lus_program.specs.Leaves.{AreTheLeaves};
ghost use Rattle.lus_program.specs.Literals.{HasDeclaredLiterals};
ghost use Rattle.lus_program.specs.Resolved.{Resolved, program_uses};
ghost use Rattle.lus_program.specs.NamedKinds.{KindsAreNamedRight};
ghost use Rattle.lus_program.specs.Sound.{AreFound, HaveFields, HaveOrder, IsLimited, type_uses};

use crate::node::Program;
use std::marker::Model;

/// A program that keeps the rules of names, recursion, limits and types, with what was found of it on the way. Contracts see
/// it as that program.
pub struct Sound {
    program: Program,
    nodes: Vec<usize>,
    leaves: Vec<u32>,
}

impl Model for Sound {
    ghost use Rattle.std.specs.Coded.{codes};
    ghost use Rattle.lus_program.specs.contracts.expr.Expr as program_expr;
    ghost use Rattle.lus_program.specs.declared.node.Program.{Program as StoredProgram};
    ghost use Rattle.lus_program.specs.View.{program_seen};
    ghost use Rattle.lus_program.specs.Sound.{AreFound};

    ghost Value = { StoredProgram };

    ghost coded = { Prim.hlevel (codes, program_expr.the_row.coded) };

    ghost view = { λ t. t.program };

    ghost invariant = { λ t. AreFound (program_seen t.program) t.nodes.items t.leaves.items };
}

impl Sound {
    /// A program that keeps the rules, its nodes each behind those that it calls, and the leaves of its types.
    pub fn new(program: Program, nodes: Vec<usize>, leaves: Vec<u32>) -> Sound
        requires { AreFound (program_seen program) nodes.items leaves.items }
        ensures { result ≡ program }
    {
        Sound {
            program,
            nodes,
            leaves,
        }
    }

    /// The program.
    pub fn program(&self) -> &Program
        ensures same { result.now ≡ self.now }
        ensures resolved { Resolved (program_seen result.now) }
        ensures literals { HasDeclaredLiterals (program_seen result.now) }
        ensures kinds { KindsAreNamedRight (program_seen result.now) }
        ensures types { HaveOrder (type_uses (program_seen result.now)) }
        ensures loopless { HasNoWayBack (type_uses (program_seen result.now)) }
        ensures fields { HaveFields (program_seen result.now) }
        ensures limited { IsLimited (program_seen result.now) }
    {
        &self.program
    }

    /// The places of its nodes, each behind those of the nodes that it calls.
    pub fn nodes(&self) -> &[usize]
        ensures { IsOrder (program_uses (program_seen self.now)) result.now }
    {
        &self.nodes
    }

    /// The leaves of its declared types, one by one.
    pub fn leaves(&self) -> &[u32]
        ensures { AreTheLeaves (program_seen self.now) result.now }
    {
        &self.leaves
    }
}

// By hand, so that crates above call it: what a derive drops is proved again in each of them.
impl Drop for Sound {
    fn drop(self) {
        let Sound {
            program: _,
            nodes: _,
            leaves: _,
        } = self;
    }
}

//! The code of a program, and its translation from a normal form.

ghost use Rattle.std.specs.Prelude.{◌≡◌, ◌≢◌, ◌<◌, length, IfOk, IfErr, OnOk};
ghost use Rattle.lus_values.specs.Lists.{item};
ghost use Rattle.lus_syntax.specs.declared.refusal.RefusalNumber.TheVariants as numbers;
ghost use Rattle.lus_program.specs.View.{program_seen};
ghost use Rattle.lus_program.specs.Refusals.{RefusesFor};
ghost use Rattle.lus_program.specs.Sound.{IsLimited};
ghost use Rattle.lus_simulation.specs.Checked.{IsChecked};
ghost use Rattle.lus_normal.specs.Parts.{HasFewParts};
ghost use Rattle.lus_cells.specs.Cells.{AreStateCells, FitsCells, NamesTooMany};
ghost use Rattle.lus_code.specs.Codes.{program_of};
ghost use Rattle.lus_code.specs.Correct.{IsCorrect};

use crate::classes::classes_of_nodes;
use lus_cells::cells_of_nodes;
use lus_instructions::Class;
use lus_normal::Normal;
use lus_order::Ordered;
use lus_orders::Class as Emitted;
use lus_program::{NodeId, Program, Sound};
use lus_syntax::Refusal;
use std::alloc::Global;
use std::marker::Model;

/// The code of a program: a class for each of its nodes, with the code that makes its instants.
pub struct Code {
    source: Ordered,
    classes: Vec<Class>,
    emitted: Vec<Emitted>,
    cells: Vec<u32>,
}

impl Model for Code {
    ghost use Rattle.std.specs.Coded.{codes};
    ghost use Rattle.lus_program.specs.contracts.expr.Expr as program_expr;
    ghost use Rattle.lus_instructions.specs.contracts.formula.Formula as formula;
    ghost use Rattle.lus_values.specs.contracts.value.Value as value;
    ghost use Rattle.lus_code.specs.Codes.{ProgramCode};
    ghost use Rattle.lus_code.specs.Correct.{IsCorrect};

    ghost Value = { ProgramCode };

    ghost coded = { Prim.hlevel (codes, program_expr.the_row.coded, formula.the_row.coded, value.the_row.coded) };

    ghost view = { λ c. record { source = c.source; classes = c.classes.items; emitted = c.emitted.items; cells = c.cells.items } };

    ghost invariant = { λ c. IsCorrect (record { source = c.source; classes = c.classes.items; emitted = c.emitted.items; cells = c.cells.items }) };
}

impl Code {
    /// The program that was translated, with its orders.
    pub fn source(&self) -> &Ordered
        ensures same { result.now ≡ self.now.source }
    {
        &self.source
    }

    /// The program that was translated.
    pub fn program(&self) -> &Program
        ensures same { result.now ≡ self.now.source.program }
        ensures checked { IsChecked (program_seen result.now) }
    {
        self.source.program()
    }

    /// The class of each node, by the node's place.
    pub fn classes(&self) -> &[Class]
        ensures same { result.now ≡ self.now.classes }
        ensures correct { IsCorrect self.now }
    {
        &self.classes
    }

    /// The code of each class, by the node's place: it makes the class's instants.
    pub fn emitted(&self) -> &[Emitted]
        ensures { result.now ≡ self.now.emitted }
    {
        &self.emitted
    }

    /// How many nodes there are.
    pub fn nodes(&self) -> u32
        ensures { result ≡ length (program_of self.now).nodes }
    {
        self.source.program().nodes.len() as u32
    }

    /// The state cells of a node: for each `pre` and each `fby` the leaves of its type, one for each `->` and each `fby`, and
    /// for each call those of the called node, but at least one.
    pub fn cells(&self, node: NodeId) -> u32
        requires { node.0 < length (program_of self.now).nodes }
        ensures same { result ≡ item 0 self.now.cells node.0 }
        ensures exact { AreStateCells (program_of self.now) self.now.cells }
    {
        self.cells[node.0 as usize]
    }
}

/// The sound program that a normal form is made of, whose checks the passes after it have made.
fn sound_of(normal: &Normal) -> &Sound
    ensures same { result.now ≡ normal.now.source.program }
    ensures checked { IsChecked (program_seen normal.now.source.program) }
    ensures limited { IsLimited (program_seen normal.now.source.program) }
    ensures few { HasFewParts (program_seen normal.now.source.program) }
{
    let source = normal.source();
    let _program = source.program();
    let sound = source.initialised().clocked().sound();
    let _program = sound.program();
    sound
}

/// Translates a program in normal form. A program with a node that has more than 100,000 state cells is refused at that node's
/// name.
pub fn translate(alloc: Global, normal: Normal) -> Result<Code, Refusal>
    ensures same { IfOk result (λ c. c.source ≡ normal.source) }
    ensures correct { IfOk result IsCorrect }
    ensures ok { OnOk result (FitsCells (program_seen normal.source.program)) }
    ensures refused { IfErr result (RefusesFor numbers.Limit (FitsCells (program_seen normal.source.program))) }
    ensures placed { IfErr result (λ e. e.number ≢ numbers.Memory → NamesTooMany normal.source.program e.line e.column) }
{
    let sound = sound_of(&normal);
    let cells = cells_of_nodes(alloc, sound)?;
    let coded = classes_of_nodes(alloc, normal.program(), normal.orders(), sound.nodes())?;
    let source = normal.into_source();
    Ok(Code {
        source,
        classes: coded.classes,
        emitted: coded.emitted,
        cells,
    })
}

// By hand, so that crates above call it: what a derive drops is proved again in each of them.
impl Drop for Code {
    fn drop(self) {
        let Code {
            source: _,
            classes: _,
            emitted: _,
            cells: _,
        } = self;
    }
}

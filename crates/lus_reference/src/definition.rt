//! What defines a variable at an instant.

ghost use Rattle.std.specs.Prelude.{◌≡◌, ℕ, IfOk, map};
ghost use Rattle.lus_program.specs.View.{expression_of, node_of, program_seen};
ghost use Rattle.lus_values.specs.View.{entry_of};
ghost use Rattle.lus_streams.specs.Equations.{node_parts};
ghost use Rattle.lus_parts.specs.Parts.{part_of};
ghost use Rattle.lus_reference.specs.Given.{IsDefinedAt, IsValueAt, callee};
ghost use Rattle.lus_reference.specs.Placed.{place_of};

use crate::counting::{Counts, count};
use crate::entries::entry_at;
use crate::places::Place;
use crate::value::output_at;
use crate::values::values_at;
use lus_parts::Part;
use lus_program::{Expr, Form, Node, Program};
use lus_values::{Memory, Row, Value};
use std::alloc::Global;

/// The node that an expression calls, if it is a call.
pub fn callee(expr: &Expr) -> Option<u32>
    ensures { result ≡ callee (expression_of expr.now) }
{
    match &expr.form {
        Form::Call(called, _) => Some(*called),
        _ => None,
    }
}

/// The value of an expression, if it has one, from the parts of its node, where it stands at a place, and from what is kept of them.
fn value_at(
    alloc: Global,
    program: &Program,
    row: &[Option<Value>],
    rows: &[Row],
    expr: &Expr,
    parts: &[Part<'_>],
    place: usize,
    kept: &[Option<Value>],
) -> Result<Option<Value>, Memory>
    ensures { IfOk result (λ v. IsValueAt (program_seen program.now) (map entry_of row.now) rows.now (expression_of expr.now) (map part_of parts.now) place (map entry_of kept.now) (entry_of v)) }
{
    let size = count(expr, Counts { parts: 0, calls: 0 })?;
    let values = values_at(alloc, program, row, rows, parts, place, size.parts, kept)?;
    entry_at(alloc, &values, 0)
}

/// The value by its definition of a variable with this place, if it has one, at an instant at which its clock is present: from the
/// entries of variables at the instant, from what is kept of the parts of the node, and from the rows of the called nodes.
pub fn define(
    alloc: Global,
    program: &Program,
    row: &[Option<Value>],
    node: &Node,
    parts: &[Part<'_>],
    place: Option<Place>,
    kept: &[Option<Value>],
    rows: &[Row],
) -> Result<Option<Value>, Memory>
    requires { map part_of parts.now ≡ node_parts (program_seen program.now) (node_of node.now) }
    ensures { IfOk result (λ v. (x : ℕ) → place ≡ place_of node.now x → IsDefinedAt (program_seen program.now) (map entry_of row.now) (node_of node.now) x (map entry_of kept.now) rows.now (entry_of v)) }
{
    let Some(at) = place else {
        return Ok(None);
    };
    match node.equations.get(at.equation) {
        Some(equation) => match callee(&equation.right) {
            Some(called) => output_at(alloc, program, called, at.calls, at.target, rows),
            None => value_at(
                alloc,
                program,
                row,
                rows,
                &equation.right,
                parts,
                at.parts,
                kept,
            ),
        },
        None => Ok(None),
    }
}

//! What was found so far of an instant of a node.

ghost use Rattle.std.specs.Prelude.{◌≡◌, ◌<◌, ◌+◌, ◌++◌, ℕ, [], IfOk, IsTrue, MatchOption, OnOk, false, is_some, length, map, slice_set, true};
ghost use Rattle.lus_program.specs.Programs.{all_calls, all_numbered, calls, numbered};
ghost use Rattle.lus_program.specs.View.{expression_of, node_of, operands_of, program_seen};
ghost use Rattle.lus_streams.specs.Equations.{node_parts};
ghost use Rattle.lus_parts.specs.Parts.{part_of};
ghost use Rattle.lus_reference.specs.Placed.{place_of};
ghost use Rattle.lus_worlds.specs.Finding.{IsFoundBy, has_run, row_so_far, unless};
ghost use Rattle.lus_worlds.specs.Moments.{row_in};
ghost use Rattle.lus_worlds.specs.Turns.{all_calls_in_turn, below, calls_in_turn, turns_of};
ghost use Rattle.lus_values.specs.Lists.{Each, item};
ghost use Rattle.lus_values.specs.View.{entry_of};

use crate::following::meant;
use crate::moment::Moment;
use lus_parts::{Part, clock_of};
use lus_program::{Expr, Form, Node, Program};
use lus_reference::{Place, entry_at, is_on};
use lus_values::{Memory, Row, Value};
use std::alloc::Global;

/// The entries of a node's variables, the instants of the nodes that it calls, and their rows; what isn't found yet is absent.
#[derive(Drop)]
pub struct Found {
    pub row: Vec<Option<Value>>,
    pub rows: Vec<Row>,
    pub called: Vec<Option<Moment>>,
}

impl Found {
    /// Nothing but the inputs.
    pub fn begin(
        alloc: Global,
        variables: usize,
        inputs: &[Option<Value>],
        calls: usize,
    ) -> Result<Found, Memory>
        ensures count { IfOk result (λ o. length o.called.items ≡ calls) }
        ensures blank { IfOk result (λ o. Each (λ m. m ≡ None) o.called.items) }
        ensures width { IfOk result (λ o. length o.row.items ≡ variables) }
        ensures inputs { IfOk result (λ o. (x : ℕ) → x < variables → item None (map entry_of o.row.items) x ≡ item None (map entry_of inputs.now) x) }
        ensures rows { IfOk result (λ o. o.rows.items ≡ map row_so_far o.called.items) }
    {
        let mut row = Vec::new(alloc);
        for index in 0..variables {
            row.push(entry_at(alloc, inputs, index)?)?;
        }
        let mut rows = Vec::new(alloc);
        let mut called = Vec::new(alloc);
        for _call in 0..calls {
            rows.push(Row::new(Vec::new(alloc)))?;
            called.push(None)?;
        }
        Ok(Found { row, rows, called })
    }

    /// One more entry.
    fn set(&mut self, variable: usize, entry: Option<Value>)
        ensures called { self.new.called ≡ self.old.called }
        ensures rows { self.new.rows ≡ self.old.rows }
        ensures row { map entry_of self.new.row.items ≡ slice_set (map entry_of self.old.row.items) variable (entry_of entry) }
    {
        if let Some(place) = self.row.get_mut(variable) {
            *place = entry;
        }
    }

    /// Finds a variable by its equation, which has this place; an input is given.
    pub fn find_variable(
        &mut self,
        alloc: Global,
        program: &Program,
        node: &Node,
        parts: &[Part<'_>],
        variable: u32,
        place: Option<Place>,
        present: bool,
        kept: &[Option<Value>],
    ) -> Result<(), Memory>
        requires place { place ≡ place_of node.now variable }
        requires parts { map part_of parts.now ≡ node_parts (program_seen program.now) (node_of node.now) }
        ensures called { OnOk result (self.new.called ≡ self.old.called) }
        ensures rows { OnOk result (self.new.rows ≡ self.old.rows) }
        ensures row { OnOk result (IsFoundBy (program_seen program.now) (node_of node.now) variable present (map entry_of kept.now) self.old.rows.items (map entry_of self.old.row.items) (map entry_of self.new.row.items)) }
    {
        if variable < node.inputs {
            return Ok(());
        }
        let clock = clock_of(alloc, &node.variables, variable)?;
        let on = is_on(&clock, present, &self.row);
        let value = meant(
            alloc, program, &self.row, node, parts, place, on, kept, &self.rows,
        )?;
        self.set(variable as usize, value);
        Ok(())
    }

    /// Whether a call ran.
    pub fn has(&self, call: usize) -> bool
        ensures { IsTrue result → has_run self.now.called.items call ≡ true }
    {
        matches!(self.called.get(call), Some(Some(_)))
    }

    /// One more call ran.
    pub fn add(&mut self, alloc: Global, call: usize, moment: Moment) -> Result<(), Memory>
        requires { call < length self.old.called.items }
        ensures called { OnOk result (self.new.called.items ≡ slice_set self.old.called.items call (Some moment)) }
        ensures row { OnOk result (self.new.row ≡ self.old.row) }
        ensures rows { OnOk result (self.new.rows.items ≡ slice_set self.old.rows.items call (row_in moment)) }
    {
        let row = moment.row.copy(alloc)?;
        if call < self.rows.len() {
            self.rows[call] = row;
        }
        self.called[call] = Some(moment);
        Ok(())
    }
}

/// The instants of all calls, if all ran.
pub fn all_called(alloc: Global, called: Vec<Option<Moment>>) -> Result<Option<Vec<Moment>>, Memory>
    ensures { IfOk result (λ o. MatchOption o ((c : ℕ) × (has_run called.items c ≡ false)) (λ all. map (λ m. Some m) all.items ≡ called.items)) }
{
    let mut all = Vec::new(alloc);
    for moment in called {
        match moment {
            Some(moment) => all.push(moment)?,
            None => return Ok(None),
        }
    }
    Ok(Some(all))
}

/// Appends the numbers of the calls of an expression, a call behind those in its arguments, which are numbered from a number on; of
/// none where they are held back, as the operand of a `pre` is. Returns the next call's number.
#[cycle(calls)]
pub fn push_calls(
    expr: &Expr,
    number: usize,
    held: bool,
    found: &mut Vec<usize>,
) -> Result<usize, Memory>
    ensures next { IfOk result (λ n. n ≡ number + calls (expression_of expr.now)) }
    ensures found { OnOk result (found.new.items ≡ found.old.items ++ unless held (calls_in_turn (numbered number (expression_of expr.now)))) }
{
    match &expr.form {
        Form::Literal(_) => Ok(number),
        Form::Variable(_) => Ok(number),
        Form::Operate(_, operands) => push_all_calls(operands, number, held, found),
        Form::Pre(operand) => push_calls(operand, number, true, found),
        Form::Arrow(first, later) => {
            let next = push_calls(first, number, held, found)?;
            push_calls(later, next, held, found)
        }
        Form::When(_, operand) => push_calls(operand, number, held, found),
        Form::Merge(_, branches) => push_all_calls(branches, number, held, found),
        Form::Call(_, arguments) => match number.checked_add(1) {
            Some(next) => {
                let after = push_all_calls(arguments, next, held, found)?;
                if !held {
                    found.push(number)?;
                }
                Ok(after)
            }
            None => Err(Memory),
        },
    }
}

/// Appends the numbers of the calls of operands.
#[cycle(calls)]
fn push_all_calls(
    operands: &[Expr],
    number: usize,
    held: bool,
    found: &mut Vec<usize>,
) -> Result<usize, Memory>
    ensures next { IfOk result (λ n. n ≡ number + all_calls (operands_of operands.now)) }
    ensures found { OnOk result (found.new.items ≡ found.old.items ++ unless held (all_calls_in_turn (all_numbered number (operands_of operands.now)))) }
{
    let mut next = number;
    for operand in operands {
        let after = push_calls(operand, next, held, found)?;
        next = after;
    }
    Ok(next)
}

/// The calls outside of `pre` on the right side at this place, each behind those in its arguments.
pub fn calls_of(alloc: Global, node: &Node, place: Option<Place>) -> Result<Vec<usize>, Memory>
    ensures { IfOk result (λ cs. (x : ℕ) → place ≡ place_of node.now x → cs.items ≡ turns_of (node_of node.now) x) }
{
    let mut calls = Vec::new(alloc);
    match place {
        Some(at) => match node.equations.get(at.equation) {
            Some(equation) => {
                push_calls(&equation.right, at.calls, false, &mut calls)?;
                Ok(calls)
            }
            None => Ok(calls),
        },
        None => Ok(calls),
    }
}

/// The numbers of so many calls, the last first: so each stands behind those in its arguments.
pub fn last_first(alloc: Global, count: usize) -> Result<Vec<usize>, Memory>
    ensures { IfOk result (λ cs. cs.items ≡ below count) }
{
    let mut calls = Vec::new(alloc);
    for behind in 0..count {
        calls.push(count - 1 - behind)?;
    }
    Ok(calls)
}

/// The order of a node's variables; past the last node there is none.
pub fn order_at(orders: &[Vec<u32>], node: u32) -> &[u32]
    ensures { result.now ≡ item [] (map (λ order. order.items) orders.now) node }
{
    match orders.get(node as usize) {
        Some(order) => order,
        None => &[],
    }
}

//! The first-flags of a node: what marks a first instant on one clock shares one.

ghost use Rattle.std.specs.Prelude.{◌≡◌, [], IfOk, OnOk, map};
ghost use Rattle.lus_program.specs.View.{expression_of, node_of, operands_of};
ghost use Rattle.lus_streams.specs.Clocks.{branch_clock};
ghost use Rattle.lus_translation.specs.Firsts.{first_seen, place_of, with_all, with_one};
ghost use Rattle.lus_translation.specs.Forms.{all_kept_firsts, flags_of, kept_firsts, one_clock};
ghost use Rattle.lus_translation.specs.Newest.{newest as newest_of};

use crate::calls::clock_of_equation;
use crate::clock::{newest, with_test};
use crate::numbers::number_of;
use indexmap::IndexSet;
use lus_program::{Expr, Form, Node, Test};
use lus_values::Memory;
use std::alloc::Global;
use std::marker::Model;

/// The newest tests of the clocks that have a first-flag, each once, in the order of their flags. Contracts see them as a list.
#[derive(Drop)]
pub struct Firsts {
    tests: IndexSet<Option<(u32, u32)>>,
}

impl Model for Firsts {
    ghost use Rattle.std.specs.Prelude.{List, Option, map};
    ghost use Rattle.lus_values.specs.declared.test.Test.{Test as PlainTest};
    ghost use Rattle.lus_translation.specs.Firsts.{first_seen};

    ghost Value = { List (Option PlainTest) };

    ghost view = { λ f. map first_seen f.tests.keys };
}

fn key_of(test: Option<Test>) -> Option<(u32, u32)>
    ensures { first_seen result ≡ test }
{
    match test {
        Some(test) => Some((test.variable, test.constructor)),
        None => None,
    }
}

fn test_of(key: Option<(u32, u32)>) -> Option<Test>
    ensures { result ≡ first_seen key }
{
    match key {
        Some((variable, constructor)) => Some(Test {
            variable,
            constructor,
        }),
        None => None,
    }
}

impl Firsts {
    /// No first-flags.
    pub fn new(alloc: Global) -> Firsts
        ensures { result ≡ [] }
    {
        Firsts {
            tests: IndexSet::new(alloc),
        }
    }

    /// Adds a first-flag for clocks with this newest test, unless there is one.
    pub fn add(&mut self, test: Option<Test>) -> Result<(), Memory>
        ensures { OnOk result (self.new ≡ with_one self.old test) }
    {
        self.tests.insert(key_of(test))?;
        Ok(())
    }

    /// Where a newest test stands; past the others, if it doesn't.
    pub fn place(&self, test: Option<Test>) -> usize
        ensures { result ≡ place_of test self.now }
    {
        match self.tests.get_index_of(&key_of(test)) {
            Some(place) => place,
            None => self.tests.len(),
        }
    }

    /// The newest tests, in the order of their flags.
    pub fn tests(&self, alloc: Global) -> Result<Vec<Option<Test>>, Memory>
        ensures { IfOk result (λ ts. ts.items ≡ self.now) }
    {
        let keys = self.tests.as_slice();
        let mut tests = Vec::with_capacity(alloc, keys.len())?;
        for key in keys {
            tests.push(test_of(*key))?;
        }
        Ok(tests)
    }
}

/// Adds those that an expression on a clock wants.
#[cycle(firsts)]
fn add_firsts(alloc: Global, expr: &Expr, clock: &[Test], firsts: &mut Firsts) -> Result<(), Memory>
    ensures { OnOk result (firsts.new ≡ with_all firsts.old (map newest_of (kept_firsts (expression_of expr.now) clock.now))) }
{
    match &expr.form {
        Form::Operate(_, operands) => add_of_operands(alloc, operands, clock, firsts),
        Form::Arrow(first, later) => {
            firsts.add(newest(clock))?;
            add_firsts(alloc, first, clock, firsts)?;
            add_firsts(alloc, later, clock, firsts)?;
            Ok(())
        }
        Form::Merge(variable, branches) => {
            add_of_branches(alloc, *variable, branches, clock, firsts)
        }
        Form::Literal(_) => Ok(()),
        Form::Variable(_) => Ok(()),
        Form::Pre(_) => Ok(()),
        Form::When(_, _) => Ok(()),
        Form::Call(_, _) => Ok(()),
    }
}

/// Adds those that the operands of an operator want.
#[cycle(firsts)]
fn add_of_operands(
    alloc: Global,
    operands: &[Expr],
    clock: &[Test],
    firsts: &mut Firsts,
) -> Result<(), Memory>
    ensures { let ks = all_kept_firsts (operands_of operands.now) (one_clock clock.now) 0 in
        OnOk result (firsts.new ≡ with_all firsts.old (map newest_of ks)) }
{
    for operand in operands {
        add_firsts(alloc, operand, clock, firsts)?;
    }
    Ok(())
}

/// Adds those that the branches of a merge by a variable want.
#[cycle(firsts)]
fn add_of_branches(
    alloc: Global,
    variable: u32,
    branches: &[Expr],
    clock: &[Test],
    firsts: &mut Firsts,
) -> Result<(), Memory>
    ensures { let ks = all_kept_firsts (operands_of branches.now) (branch_clock variable clock.now) 0 in
        OnOk result (firsts.new ≡ with_all firsts.old (map newest_of ks)) }
{
    for (constructor, branch) in branches.iter().enumerate() {
        let constructor = number_of(constructor)?;
        let clock = with_test(
            alloc,
            Test {
                variable,
                constructor,
            },
            clock,
        )?;
        add_firsts(alloc, branch, &clock, firsts)?;
    }
    Ok(())
}

/// The first-flags of a node.
pub fn firsts_of(alloc: Global, node: &Node) -> Result<Firsts, Memory>
    ensures { IfOk result (λ fs. fs ≡ flags_of (node_of node.now) node.now.equations.items) }
{
    let mut firsts = Firsts::new(alloc);
    for equation in &node.equations {
        let clock = clock_of_equation(alloc, node, equation)?;
        add_firsts(alloc, &equation.right, &clock, &mut firsts)?;
    }
    Ok(firsts)
}

//! The least flags that meet the equations of a node's locals: all false at first, and raised until nothing changes. Inputs and
//! outputs have flag false throughout.

ghost use Rattle.std.specs.Prelude.{◌≡◌, ◌+◌, IfOk};
ghost use Rattle.lus_program.specs.View.{node_of};
ghost use Rattle.lus_clocks.specs.Raising.{flags_in, given, all_given, raised_count, AreFalse, AreGiven, AreLowered, IsNext, AreLeast};

use crate::flag::flag_of;
use lus_program::{Equation, Node};
use lus_values::Memory;
use std::alloc::Global;

/// Gives these variables one flag; those past the table are left out.
fn give(flags: &mut Vec<bool>, variables: &[u32], flag: bool)
    ensures { flags.new.items ≡ given flags.old.items variables.now flag }
{
    for variable in variables {
        let place = *variable as usize;
        if place < flags.len() {
            flags[place] = flag;
        }
    }
}

/// Gives the variables on the left of equations the flags of their right sides, of each the first that has it there.
fn give_all(flags: &[bool], equations: &[Equation], next: &mut Vec<bool>)
    ensures { next.new.items ≡ all_given (flags_in flags.now) equations.now next.old.items }
{
    let mut left = equations.len();
    while left > 0 {
        left -= 1;
        let equation = &equations[left];
        give(next, &equation.targets, flag_of(flags, &equation.right));
    }
}

/// So many flags, all false.
fn all_false(alloc: Global, count: usize) -> Result<Vec<bool>, Memory>
    ensures { IfOk result (λ flags. AreFalse count flags.items) }
{
    let mut flags = Vec::new(alloc);
    for _flag in 0..count {
        flags.push(false)?;
    }
    Ok(flags)
}

/// The flags that the equations give under these, of each variable by the first that has it on the left.
pub fn given_flags(
    alloc: Global,
    equations: &[Equation],
    flags: &[bool],
) -> Result<Vec<bool>, Memory>
    ensures { IfOk result (λ given. AreGiven equations.now flags.now given.items) }
{
    let mut given = all_false(alloc, flags.len())?;
    give_all(flags, equations, &mut given);
    Ok(given)
}

/// Makes the first flags false.
fn lower(flags: &mut Vec<bool>, count: usize)
    ensures { AreLowered count flags.old.items flags.new.items }
{
    for place in 0..count {
        if place < flags.len() {
            flags[place] = false;
        }
    }
}

/// The flags that the equations give under these to the locals, which stand after so many inputs and outputs.
fn next_flags(
    alloc: Global,
    equations: &[Equation],
    formals: usize,
    flags: &[bool],
) -> Result<Vec<bool>, Memory>
    ensures { IfOk result (λ next. IsNext formals equations.now flags.now next.items) }
{
    let mut next = given_flags(alloc, equations, flags)?;
    lower(&mut next, formals);
    Ok(next)
}

/// How many variables are inputs or outputs.
pub fn count_formals(node: &Node) -> usize
    ensures { result ≡ (node_of node.now).inputs + (node_of node.now).outputs }
{
    node.inputs as usize + node.outputs as usize
}

/// How many flags are true.
fn count_raised(flags: &[bool]) -> usize
    ensures { result ≡ raised_count flags.now }
{
    let mut count = 0;
    for flag in flags {
        if *flag {
            count += 1;
        }
    }
    count
}

/// The least flags of a node that meet the equations of its locals. Inputs and outputs have flag false.
///
/// A round reads each equation once; there are at most as many rounds as variables, and one more.
pub fn least_flags(alloc: Global, node: &Node) -> Result<Vec<bool>, Memory>
    ensures { IfOk result (λ flags. AreLeast (node_of node.now) node.now.equations.items flags.items) }
{
    let formals = count_formals(node);
    let mut flags = all_false(alloc, node.variables.len())?;
    loop {
        let next = next_flags(alloc, &node.equations, formals, &flags)?;
        if count_raised(&next) == count_raised(&flags) {
            return Ok(flags);
        }
        flags = next;
    }
}

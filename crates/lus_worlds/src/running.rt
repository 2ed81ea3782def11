//! Instants of nodes, each with those of the nodes that it calls.

ghost use Rattle.std.specs.Prelude.{◌≡◌, ◌<◌, ◌∷◌, [], Bool, IfOk, MatchOption, OnOk, length, map};
ghost use Rattle.lus_values.specs.View.{entry_of};
ghost use Rattle.lus_parts.specs.Parts.{part_of};
ghost use Rattle.lus_program.specs.View.{node_of, operands_of, program_seen};
ghost use Rattle.lus_reference.specs.Placed.{ArePlaces};
ghost use Rattle.lus_streams.specs.Equations.{node_parts};
ghost use Rattle.lus_worlds.specs.Finding.{call_places, CallsHere, Finds, FindsAll, IsOther, IsPrepared, RunsInTurn, RunsNode};
ghost use Rattle.lus_worlds.specs.Moments.{moments_in};

use crate::calling::sites_of;
use crate::closing::close;
use crate::finding::{Found, all_called, calls_of, last_first, order_at};
use crate::following::place_at;
use crate::moment::Moment;
use crate::passing::pass_at;
use lus_parts::{Part, parts_of};
use lus_program::{Expr, Form, Node, Program};
use lus_reference::{Place, places_of};
use lus_values::{Memory, Value};
use std::alloc::Global;

/// An instant of a node behind what is kept, with this base and these inputs, if there is one: whichever is sought is found.
#[cycle(attempt)]
pub fn attempt(
    alloc: Global,
    program: &Program,
    orders: &[Vec<u32>],
    number: u32,
    present: bool,
    inputs: &[Option<Value>],
    old: &Moment,
) -> Result<Option<Moment>, Memory>
    ensures { let p = program_seen program.now in
        IfOk result (λ o. IsPrepared p (map (λ order. order.items) orders.now) → number < length p.nodes → Finds p number present (map entry_of inputs.now) old.now o) }
{
    match program.nodes.get(number as usize) {
        Some(node) => {
            let order = order_at(orders, number);
            let parts = parts_of(alloc, program, node)?;
            let places = places_of(alloc, node)?;
            let sites = sites_of(alloc, &parts)?;
            let mut found = Found::begin(alloc, node.variables.len(), inputs, old.called.len())?;
            find(
                alloc, program, orders, node, &parts, &places, &sites, order, present, old,
                &mut found,
            )?;
            match all_called(alloc, found.called)? {
                Some(called) => {
                    let moment = close(
                        alloc, program, number, node, &parts, present, found.row, called, old,
                    )?;
                    Ok(Some(moment))
                }
                None => Ok(None),
            }
        }
        None => Ok(None),
    }
}

/// Finds the variables of a node in their order, each after the calls of its right side, and then the calls that are left.
#[cycle(attempt)]
fn find(
    alloc: Global,
    program: &Program,
    orders: &[Vec<u32>],
    node: &Node,
    parts: &[Part<'_>],
    places: &[Option<Place>],
    sites: &[usize],
    order: &[u32],
    present: bool,
    old: &Moment,
    found: &mut Found,
) -> Result<(), Memory>
    requires parts { map part_of parts.now ≡ node_parts (program_seen program.now) (node_of node.now) }
    requires places { ArePlaces node.now places.now }
    requires sites { sites.now ≡ call_places parts.now 0 }
    requires count { length found.old.called.items ≡ length (moments_in old.now) }
    ensures count { OnOk result (length found.new.called.items ≡ length (moments_in old.now)) }
    ensures all { OnOk result (FindsAll (program_seen program.now) (map (λ order. order.items) orders.now) present old.now (node_of node.now) order.now found.old found.new) }
{
    for variable in order {
        if *variable as usize >= places.len() {
            continue;
        }
        let place = place_at(places, *variable);
        let calls = calls_of(alloc, node, place)?;
        run_calls(
            alloc, program, orders, parts, sites, present, old, &calls, found,
        )?;
        found.find_variable(
            alloc,
            program,
            node,
            parts,
            *variable,
            place,
            present,
            old.kept.items(),
        )?;
    }
    let left = last_first(alloc, old.called.len())?;
    run_calls(
        alloc, program, orders, parts, sites, present, old, &left, found,
    )
}

/// Runs those of these calls that did not run yet.
#[cycle(attempt)]
fn run_calls(
    alloc: Global,
    program: &Program,
    orders: &[Vec<u32>],
    parts: &[Part<'_>],
    sites: &[usize],
    present: bool,
    old: &Moment,
    calls: &[usize],
    found: &mut Found,
) -> Result<(), Memory>
    requires sites { sites.now ≡ call_places parts.now 0 }
    requires count { length found.old.called.items ≡ length (moments_in old.now) }
    ensures count { OnOk result (length found.new.called.items ≡ length (moments_in old.now)) }
    ensures run { OnOk result (RunsInTurn (program_seen program.now) (map (λ order. order.items) orders.now) present old.now parts.now calls.now found.old found.new) }
{
    for call in calls {
        run_call(
            alloc, program, orders, parts, sites, present, old, *call, found,
        )?;
    }
    Ok(())
}

/// Runs a call, if it did not run yet.
#[cycle(attempt)]
fn run_call(
    alloc: Global,
    program: &Program,
    orders: &[Vec<u32>],
    parts: &[Part<'_>],
    sites: &[usize],
    present: bool,
    old: &Moment,
    call: usize,
    found: &mut Found,
) -> Result<(), Memory>
    requires sites { sites.now ≡ call_places parts.now 0 }
    requires count { length found.old.called.items ≡ length (moments_in old.now) }
    ensures count { OnOk result (length found.new.called.items ≡ length (moments_in old.now)) }
    ensures runs { OnOk result (RunsInTurn (program_seen program.now) (map (λ order. order.items) orders.now) present old.now parts.now (call ∷ []) found.old found.new) }
{
    if found.has(call) {
        return Ok(());
    }
    if call >= sites.len() {
        return Ok(());
    }
    let place = sites[call];
    if place >= parts.len() {
        return Ok(());
    }
    let part = &parts[place];
    match call_at(part, call) {
        Some((called, arguments)) => {
            let passed = pass_at(
                alloc,
                program,
                present,
                &found.row,
                &found.rows,
                part,
                called,
                arguments,
                parts,
                place + 1,
                old.kept.items(),
            )?;
            run_node(
                alloc,
                program,
                orders,
                called,
                passed.on,
                &passed.inputs,
                old,
                call,
                found,
            )
        }
        None => Ok(()),
    }
}

/// The node and the arguments of the call with this number, if it stands at this part.
fn call_at<'a>(part: &'a Part<'_>, call: usize) -> Option<(u32, &'a [Expr])>
    ensures { MatchOption result (IsOther call (part_of part.now)) (λ o. CallsHere call part.now o.0 (operands_of o.1.now)) }
{
    if part.number != call {
        return None;
    }
    match &part.expr.form {
        Form::Call(called, arguments) => {
            let given: &[Expr] = arguments;
            Some((*called, given))
        }
        _ => None,
    }
}

/// Runs the node of a call.
#[cycle(attempt)]
fn run_node(
    alloc: Global,
    program: &Program,
    orders: &[Vec<u32>],
    called: u32,
    on: bool,
    inputs: &[Option<Value>],
    old: &Moment,
    call: usize,
    found: &mut Found,
) -> Result<(), Memory>
    requires { length found.old.called.items ≡ length (moments_in old.now) }
    ensures count { OnOk result (length found.new.called.items ≡ length (moments_in old.now)) }
    ensures runs { OnOk result ((present : Bool) → RunsNode (program_seen program.now) (map (λ order. order.items) orders.now) present old.now call called on (map entry_of inputs.now) found.old found.new) }
{
    match old.called.get(call) {
        Some(own) => match attempt(alloc, program, orders, called, on, inputs, own)? {
            Some(moment) => found.add(alloc, call, moment),
            None => Ok(()),
        },
        None => Ok(()),
    }
}

//! Where an item of a step, or of a row of a burst, is no value.

use crate::check::Check;
use crate::failed_check::FailedCheck;
use crate::form::{items_at, text_at};
use crate::known::place_named;
use crate::spot::Spot;
use lus_cli::lus_host::{Formal, Program};
use lus_culprits::{Scope, push_placed, refused_place, sentence};
use lus_scripts::as_list;
use lus_values::Memory;
use serde_json::Value;
use std::alloc::Global;

/// The inputs of the node of the instance that has this name.
fn inputs_of<'p>(program: &'p Program, instances: &[Value], on: Option<&str>) -> &'p [Formal] {
    let Some(instance) = instance_named(instances, on) else {
        return &[];
    };
    match text_at(instance, "node") {
        Some(node) => inputs_named(program, node),
        None => &[],
    }
}

fn instance_named<'v>(instances: &'v [Value], on: Option<&str>) -> Option<&'v Value> {
    instances.get(place_named(instances, on)?)
}

fn inputs_named<'p>(program: &'p Program, node: &str) -> &'p [Formal] {
    match program.node(node) {
        Some(node) if program.has(node) => program.inputs(node),
        _ => &[],
    }
}

/// The place of the first item of a list that is no value, and what is wrong with it.
fn wrong_item(scope: Scope<'_>, items: &[Value]) -> Result<Option<(usize, String)>, Memory> {
    let Some(place) = refused_place(scope, items)? else {
        return Ok(None);
    };
    let mut text = String::new(scope.alloc);
    push_placed(&mut text, scope, items, place)?;
    let culprit = sentence(scope.alloc, &text, "it is no value of the input")?;
    Ok(Some((place, culprit)))
}

/// The first item of a row of a burst that is no value.
fn wrong_rows(
    scope: Scope<'_>,
    caller: usize,
    call: usize,
    rows: &[Value],
) -> Result<Option<FailedCheck>, Memory> {
    for (row, listed) in rows.iter().enumerate() {
        let listed = as_list(listed).unwrap_or(&[]);
        if let Some((item, culprit)) = wrong_item(scope, listed)? {
            let spot = Spot::ItemOfRow(caller, call, row, item);
            return Ok(Some(FailedCheck::of(spot, Check::Value, culprit)));
        }
    }
    Ok(None)
}

/// The first item of what a call asks that is no value.
fn wrong_call(
    alloc: Global,
    program: &Program,
    instances: &[Value],
    caller: usize,
    place: usize,
    call: &Value,
) -> Result<Option<FailedCheck>, Memory> {
    let scope = Scope {
        alloc,
        program: program.source(),
        names: program.names(),
        inputs: inputs_of(program, instances, text_at(call, "on")),
    };
    match wrong_item(scope, items_at(call, "step"))? {
        Some((item, culprit)) => {
            let spot = Spot::Item(caller, place, item);
            Ok(Some(FailedCheck::of(spot, Check::Value, culprit)))
        }
        None => wrong_rows(scope, caller, place, items_at(call, "burst")),
    }
}

fn wrong_calls(
    alloc: Global,
    program: &Program,
    instances: &[Value],
    caller: usize,
    calls: &[Value],
) -> Result<Option<FailedCheck>, Memory> {
    for (place, call) in calls.iter().enumerate() {
        let failed = wrong_call(alloc, program, instances, caller, place, call)?;
        if failed.is_some() {
            return Ok(failed);
        }
    }
    Ok(None)
}

/// The first item of a step or of a burst that is no value.
pub(crate) fn wrong_value(
    alloc: Global,
    program: &Program,
    scripts: &Value,
) -> Result<Option<FailedCheck>, Memory> {
    let instances = items_at(scripts, "instances");
    for (place, caller) in items_at(scripts, "callers").iter().enumerate() {
        let calls = items_at(caller, "calls");
        let failed = wrong_calls(alloc, program, instances, place, calls)?;
        if failed.is_some() {
            return Ok(failed);
        }
    }
    Ok(None)
}

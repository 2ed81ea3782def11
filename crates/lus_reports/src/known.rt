//! Where scripts pass a limit, name something twice, or name what there isn't.

use crate::check::Check;
use crate::failed_check::FailedCheck;
use crate::form::{items_at, text_at};
use crate::spot::Spot;
use lus_cli::lus_host::Program;
use lus_culprits::{node_names, push_unknown, sentence};
use lus_scripts::{MOST_CALLERS, MOST_CALLS, MOST_INSTANCES};
use lus_values::Memory;
use serde_json::Value;
use std::alloc::Global;

fn too_many_calls(callers: &[Value]) -> Option<FailedCheck> {
    for (place, caller) in callers.iter().enumerate() {
        if items_at(caller, "calls").len() > MOST_CALLS {
            return Some(FailedCheck::at(Spot::OfCaller(place, "calls"), Check::Calls));
        }
    }
    None
}

/// The first limit that scripts pass.
pub(crate) fn too_many(scripts: &Value) -> Option<FailedCheck> {
    if items_at(scripts, "instances").len() > MOST_INSTANCES {
        return Some(FailedCheck::at(Spot::Instances, Check::Instances));
    }
    let callers = items_at(scripts, "callers");
    if callers.len() > MOST_CALLERS {
        return Some(FailedCheck::at(Spot::Callers, Check::Callers));
    }
    too_many_calls(callers)
}

/// The place of the first of these that has the name.
pub(crate) fn place_named(named: &[Value], name: Option<&str>) -> Option<usize> {
    for (place, value) in named.iter().enumerate() {
        if text_at(value, "name") == name {
            return Some(place);
        }
    }
    None
}

/// The place of the first whose name stands before it.
fn doubled(named: &[Value]) -> Option<usize> {
    for (place, value) in named.iter().enumerate() {
        match place_named(named, text_at(value, "name")) {
            Some(first) if first < place => return Some(place),
            _ => {}
        }
    }
    None
}

/// The first name of an instance, or else of a caller, that stands twice.
pub(crate) fn doubled_name(scripts: &Value) -> Option<FailedCheck> {
    if let Some(place) = doubled(items_at(scripts, "instances")) {
        return Some(FailedCheck::at(Spot::OfInstance(place, "name"), Check::Double));
    }
    let place = doubled(items_at(scripts, "callers"))?;
    Some(FailedCheck::at(Spot::OfCaller(place, "name"), Check::Double))
}

/// The first instance whose node the program doesn't have, and its place.
fn unknown_node<'v>(program: &Program, instances: &'v [Value]) -> Option<(usize, &'v Value)> {
    for (place, instance) in instances.iter().enumerate() {
        let node = text_at(instance, "node")?;
        if program.node(node).is_none() {
            return Some((place, instance));
        }
    }
    None
}

/// The first call on an instance that there isn't, and its place.
fn unknown_on<'v>(instances: &[Value], calls: &'v [Value]) -> Option<(usize, &'v Value)> {
    for (place, call) in calls.iter().enumerate() {
        if place_named(instances, text_at(call, "on")).is_none() {
            return Some((place, call));
        }
    }
    None
}

/// The names of instances.
fn instance_names<'v>(alloc: Global, instances: &'v [Value]) -> Result<Vec<&'v str>, Memory> {
    let mut names = Vec::new(alloc);
    for instance in instances {
        if let Some(name) = text_at(instance, "name") {
            names.push(name)?;
        }
    }
    Ok(names)
}

/// What is wrong with a call on an instance that there isn't.
fn no_instance(alloc: Global, instances: &[Value], call: &Value) -> Result<String, Memory> {
    let on = text_at(call, "on").unwrap_or("");
    let names = instance_names(alloc, instances)?;
    let known = "; their instances are ";
    let mut text = String::new(alloc);
    push_unknown(
        &mut text,
        alloc,
        "the scripts have no instance ",
        on,
        known,
        &names,
    )?;
    sentence(alloc, &text, "the scripts have no such instance")
}

/// The first call on an instance that there isn't.
fn unknown_instance(
    alloc: Global,
    instances: &[Value],
    callers: &[Value],
) -> Result<Option<FailedCheck>, Memory> {
    for (place, caller) in callers.iter().enumerate() {
        if let Some((at, call)) = unknown_on(instances, items_at(caller, "calls")) {
            let spot = Spot::OfCall(place, at, "on");
            let culprit = no_instance(alloc, instances, call)?;
            return Ok(Some(FailedCheck::of(spot, Check::On, culprit)));
        }
    }
    Ok(None)
}

/// What is wrong with an instance of a node that the program doesn't have.
fn no_node(alloc: Global, program: &Program, instance: &Value) -> Result<String, Memory> {
    let node = text_at(instance, "node").unwrap_or("");
    let names = node_names(alloc, program.source())?;
    let known = "; its nodes are ";
    let mut text = String::new(alloc);
    push_unknown(
        &mut text,
        alloc,
        "the program has no node ",
        node,
        known,
        &names,
    )?;
    sentence(alloc, &text, "the program has no such node")
}

/// The first name of a node or of an instance that there isn't.
pub(crate) fn unknown_name(
    alloc: Global,
    program: &Program,
    scripts: &Value,
) -> Result<Option<FailedCheck>, Memory> {
    let instances = items_at(scripts, "instances");
    if let Some((place, instance)) = unknown_node(program, instances) {
        let spot = Spot::OfInstance(place, "node");
        let culprit = no_node(alloc, program, instance)?;
        return Ok(Some(FailedCheck::of(spot, Check::Node, culprit)));
    }
    unknown_instance(alloc, instances, items_at(scripts, "callers"))
}

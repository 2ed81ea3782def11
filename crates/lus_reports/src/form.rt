//! Where the form of scripts is broken, values of steps aside.

use crate::check::Check;
use crate::failed_check::FailedCheck;
use crate::spot::Spot;
use lus_scripts::{as_list, is_name, two_members};
use serde_json::Value;

/// The items of a list.
fn items(value: Option<&Value>) -> Option<&[Value]> {
    as_list(value?)
}

/// The items of the list at a key, and none where there is no list.
pub(crate) fn items_at<'v>(value: &'v Value, key: &str) -> &'v [Value] {
    items(value.get(key)).unwrap_or(&[])
}

/// The string at a key.
pub(crate) fn text_at<'v>(value: &'v Value, key: &str) -> Option<&'v str> {
    value.get(key)?.as_str()
}

/// Whether a value is an object with exactly these two keys.
fn has_keys(value: &Value, first: &str, second: &str) -> bool {
    two_members(value, first, second).is_some()
}

/// Whether the string at `name` is a name.
fn has_name(value: &Value) -> bool {
    match text_at(value, "name") {
        Some(name) => is_name(name),
        None => false,
    }
}

/// What is wrong with an instance by itself.
fn wrong_instance(place: usize, instance: &Value) -> Option<FailedCheck> {
    if !has_keys(instance, "name", "node") {
        return Some(FailedCheck::at(Spot::Instance(place), Check::Instance));
    }
    if !has_name(instance) {
        return Some(FailedCheck::at(Spot::OfInstance(place, "name"), Check::Name));
    }
    if text_at(instance, "node").is_none() {
        return Some(FailedCheck::at(Spot::OfInstance(place, "node"), Check::Text));
    }
    None
}

/// The key and the check, unless it holds.
fn unless(holds: bool, key: &'static str, check: Check) -> Option<(&'static str, Check)> {
    if holds { None } else { Some((key, check)) }
}

/// What is wrong with what a call asks, by the first of the keys that is there.
fn wrong_ask(call: &Value) -> Option<(&'static str, Check)> {
    if let Some(items) = call.get("step") {
        return unless(items.is_array(), "step", Check::List);
    }
    if let Some(flag) = call.get("reset") {
        return unless(flag.as_bool() == Some(true), "reset", Check::Reset);
    }
    if let Some(slot) = call.get("save") {
        return unless(slot.as_u64().is_some(), "save", Check::Slot);
    }
    if let Some(slot) = call.get("restore") {
        return unless(slot.as_u64().is_some(), "restore", Check::Slot);
    }
    let rows = call.get("burst")?;
    unless(rows.is_array(), "burst", Check::List)
}

/// Whether a value is an object with `on` and one of the keys of what is asked.
fn has_call_keys(call: &Value) -> bool {
    has_keys(call, "on", "step")
        || has_keys(call, "on", "reset")
        || has_keys(call, "on", "save")
        || has_keys(call, "on", "restore")
        || has_keys(call, "on", "burst")
}

/// The first row of a burst that is no list.
fn wrong_row(caller: usize, place: usize, call: &Value) -> Option<FailedCheck> {
    for (row, items) in items_at(call, "burst").iter().enumerate() {
        if !items.is_array() {
            return Some(FailedCheck::at(Spot::Row(caller, place, row), Check::List));
        }
    }
    None
}

/// What is wrong with a call by itself.
fn wrong_call(caller: usize, place: usize, call: &Value) -> Option<FailedCheck> {
    if !has_call_keys(call) {
        return Some(FailedCheck::at(Spot::Call(caller, place), Check::Call));
    }
    if text_at(call, "on").is_none() {
        return Some(FailedCheck::at(Spot::OfCall(caller, place, "on"), Check::Text));
    }
    match wrong_ask(call) {
        Some((key, check)) => Some(FailedCheck::at(Spot::OfCall(caller, place, key), check)),
        None => wrong_row(caller, place, call),
    }
}

fn wrong_calls(caller: usize, calls: &[Value]) -> Option<FailedCheck> {
    for (place, call) in calls.iter().enumerate() {
        let failed = wrong_call(caller, place, call);
        if failed.is_some() {
            return failed;
        }
    }
    None
}

/// What is wrong with a caller by itself.
fn wrong_caller(place: usize, caller: &Value) -> Option<FailedCheck> {
    if !has_keys(caller, "name", "calls") {
        return Some(FailedCheck::at(Spot::Caller(place), Check::Caller));
    }
    if !has_name(caller) {
        return Some(FailedCheck::at(Spot::OfCaller(place, "name"), Check::Name));
    }
    match items(caller.get("calls")) {
        Some(calls) => wrong_calls(place, calls),
        None => Some(FailedCheck::at(Spot::OfCaller(place, "calls"), Check::List)),
    }
}

fn wrong_instances(instances: &[Value]) -> Option<FailedCheck> {
    for (place, instance) in instances.iter().enumerate() {
        let failed = wrong_instance(place, instance);
        if failed.is_some() {
            return failed;
        }
    }
    None
}

fn wrong_callers(callers: &[Value]) -> Option<FailedCheck> {
    for (place, caller) in callers.iter().enumerate() {
        let failed = wrong_caller(place, caller);
        if failed.is_some() {
            return failed;
        }
    }
    None
}

/// The first place at which the form of scripts is broken.
pub(crate) fn wrong_form(scripts: &Value) -> Option<FailedCheck> {
    if !has_keys(scripts, "instances", "callers") {
        return Some(FailedCheck::at(Spot::Scripts, Check::Scripts));
    }
    let Some(instances) = items(scripts.get("instances")) else {
        return Some(FailedCheck::at(Spot::Instances, Check::List));
    };
    let Some(callers) = items(scripts.get("callers")) else {
        return Some(FailedCheck::at(Spot::Callers, Check::List));
    };
    wrong_instances(instances).or(wrong_callers(callers))
}

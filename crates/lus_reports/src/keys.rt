//! Which keys of an object of scripts are wrong.

use crate::check::Check;
use crate::failed_check::FailedCheck;
use crate::form::items_at;
use crate::spot::Spot;
use lus_culprits::{push_call_keys, push_keys, sentence};
use lus_values::Memory;
use serde_json::Value;
use std::alloc::Global;

/// The object at a place, where its keys are checked.
fn object_at(scripts: &Value, spot: Spot) -> Option<&Value> {
    match spot {
        Spot::Scripts => Some(scripts),
        Spot::Instance(at) => items_at(scripts, "instances").get(at),
        Spot::Caller(at) => items_at(scripts, "callers").get(at),
        Spot::Call(caller, at) => {
            let caller = items_at(scripts, "callers").get(caller)?;
            items_at(caller, "calls").get(at)
        }
        _ => None,
    }
}

/// What is wrong with the keys of an object: nothing, where that isn't known.
fn wrong_keys(alloc: Global, object: &Value, check: Check) -> Result<Option<String>, Memory> {
    let mut text = String::new(alloc);
    match check {
        Check::Scripts => push_keys(&mut text, alloc, object, &["instances", "callers"])?,
        Check::Instance => push_keys(&mut text, alloc, object, &["name", "node"])?,
        Check::Caller => push_keys(&mut text, alloc, object, &["name", "calls"])?,
        Check::Call => push_call_keys(&mut text, alloc, object)?,
        _ => {}
    }
    if text.is_empty() {
        return Ok(None);
    }
    Ok(Some(sentence(alloc, &text, "it has another key")?))
}

/// A failed check, with the key that is wrong where it is about keys.
pub(crate) fn with_keys(
    alloc: Global,
    scripts: &Value,
    failed: FailedCheck,
) -> Result<FailedCheck, Memory> {
    let Some(object) = object_at(scripts, failed.spot) else {
        return Ok(failed);
    };
    let culprit = wrong_keys(alloc, object, failed.check)?;
    Ok(FailedCheck { culprit, ..failed })
}

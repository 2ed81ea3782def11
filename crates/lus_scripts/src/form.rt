//! The form of scripts, before names are looked up and the values of steps are read.

ghost use Rattle.std.specs.Prelude.{◌≡◌, ◌⊎◌, IfErr, IfOk, Some, None, Err, map, option_map, codes};
ghost use Rattle.std.specs.List.{list_all};
ghost use Rattle.serde_json.specs.View.{view};
ghost use Rattle.lus_scripts.specs.Forms.{as_list, ask_of, burst_of, call_form, caller_form, callers_form, calls_form, each, form_of, instance_form, instances_form, is_letter, is_list, is_name, is_name_byte, members_count, name_of, reset_of, slot_of, starts_with_letter, two_members};
ghost use Rattle.lus_scripts.specs.View.{ask_seen, call_seen, caller_seen, form_seen, instance_seen};

use crate::limits::MOST_NAME_BYTES;
use crate::refusal::ScriptRefusal;
use serde_json::Value;
use std::alloc::Global;

/// What a call asks of its instance.
#[derive(Clone, Copy)]
pub(crate) enum Ask<'v> {
    Step(&'v [Value]),
    Reset,
    Save(u64),
    Restore(u64),
    /// Lists of values, a row each.
    Burst(&'v [Value]),
}

/// A call on an instance that is named.
#[derive(Clone, Copy)]
pub(crate) struct CallForm<'v> {
    pub on: &'v str,
    pub ask: Ask<'v>,
}

#[derive(Clone, Copy)]
pub(crate) struct InstanceForm<'v> {
    pub name: &'v str,
    pub node: &'v str,
}

#[derive(Drop)]
pub(crate) struct CallerForm<'v> {
    pub name: &'v str,
    pub calls: Vec<CallForm<'v>>,
}

#[derive(Drop)]
pub(crate) struct Form<'v> {
    pub instances: Vec<InstanceForm<'v>>,
    pub callers: Vec<CallerForm<'v>>,
}

/// The items of a list.
pub fn as_list(value: &Value) -> Option<&[Value]>
    ensures { option_map (λ items. map view items.now) result ≡ as_list (view value.now) }
{
    let items = value.as_array()?;
    Some(items.as_slice())
}

/// How many members an object has, and 0 of any other value.
pub(crate) fn member_count(value: &Value) -> usize
    ensures { result ≡ members_count (view value.now) }
{
    match value.as_object() {
        Some(members) => members.len(),
        None => 0,
    }
}

/// The values of an object with exactly these two keys.
pub fn two_members<'v>(
    value: &'v Value,
    first: &str,
    second: &str,
) -> Option<(&'v Value, &'v Value)>
    ensures { option_map (λ p. (view p.0.now, view p.1.now)) result ≡ two_members first.now second.now (view value.now) }
{
    if member_count(value) != 2 {
        return None;
    }
    match (value.get(first), value.get(second)) {
        (Some(first), Some(second)) => Some((first, second)),
        _ => None,
    }
}

fn is_letter(byte: u8) -> bool
    ensures { result ≡ is_letter byte }
{
    (65 <= byte && byte <= 90) || ((97 <= byte && byte <= 122) || byte == 95)
}

fn is_name_byte(byte: u8) -> bool
    ensures { result ≡ is_name_byte byte }
{
    is_letter(byte) || (48 <= byte && byte <= 57)
}

fn has_name_bytes(bytes: &[u8]) -> bool
    ensures { result ≡ list_all is_name_byte bytes.now }
{
    bytes.iter().all(|byte| is_name_byte(*byte))
}

fn starts_with_letter(bytes: &[u8]) -> bool
    ensures { result ≡ starts_with_letter bytes.now }
{
    match bytes {
        [first, ..] => is_letter(*first),
        [] => false,
    }
}

/// Whether a text is a name: a letter or `_`, and then letters, digits and `_`, of no more bytes than a name may have.
pub fn is_name(text: &str) -> bool
    ensures { result ≡ is_name text.now }
{
    let bytes = text.as_bytes();
    starts_with_letter(bytes) && (has_name_bytes(bytes) && bytes.len() <= MOST_NAME_BYTES)
}

fn read_name(value: &Value) -> Option<&str>
    ensures { option_map (λ t. t.now) result ≡ name_of (view value.now) }
{
    let text = value.as_str()?;
    if is_name(text) { Some(text) } else { None }
}

fn read_reset(value: &Value) -> Option<Ask<'_>>
    ensures { option_map ask_seen result ≡ reset_of (view value.now) }
{
    match value.as_bool() {
        Some(true) => Some(Ask::Reset),
        _ => None,
    }
}

fn is_list(value: &Value) -> bool
    ensures { result ≡ is_list (view value.now) }
{
    as_list(value).is_some()
}

fn are_lists(values: &[Value]) -> bool
    ensures { result ≡ list_all (λ v. is_list (view v)) values.now }
{
    values.iter().all(|value| is_list(value))
}

fn read_burst(value: &Value) -> Option<Ask<'_>>
    ensures { option_map ask_seen result ≡ burst_of (view value.now) }
{
    let rows = as_list(value)?;
    if are_lists(rows) {
        Some(Ask::Burst(rows))
    } else {
        None
    }
}

/// What a call asks, by the first of the keys that is there.
pub(crate) fn read_ask(call: &Value) -> Option<Ask<'_>>
    ensures { option_map ask_seen result ≡ ask_of (view call.now) }
{
    if let Some(items) = call.get("step") {
        return Some(Ask::Step(as_list(items)?));
    }
    if let Some(flag) = call.get("reset") {
        return read_reset(flag);
    }
    if let Some(slot) = call.get("save") {
        return Some(Ask::Save(slot.as_u64()?));
    }
    if let Some(slot) = call.get("restore") {
        return Some(Ask::Restore(slot.as_u64()?));
    }
    read_burst(call.get("burst")?)
}

fn read_call(call: &Value) -> Option<CallForm<'_>>
    ensures { option_map call_seen result ≡ call_form (view call.now) }
{
    if member_count(call) != 2 {
        return None;
    }
    let on = call.get("on")?;
    match (on.as_str(), read_ask(call)) {
        (Some(on), Some(ask)) => Some(CallForm { on, ask }),
        _ => None,
    }
}

fn read_calls<'v>(alloc: Global, calls: &'v [Value]) -> Result<Vec<CallForm<'v>>, ScriptRefusal>
    ensures ok { IfOk result (λ v. each call_form (map view calls.now) ≡ Some (map call_seen v.items)) }
    ensures form { result ≡ Err ScriptRefusal.Form → each call_form (map view calls.now) ≡ None }
    ensures errors { IfErr result (λ e. (e ≡ ScriptRefusal.Form) ⊎ (e ≡ ScriptRefusal.Memory)) }
{
    let mut forms = Vec::new(alloc);
    for call in calls {
        let form = read_call(call).ok_or(ScriptRefusal::Form)?;
        forms.push(form)?;
    }
    Ok(forms)
}

fn read_instance(instance: &Value) -> Option<InstanceForm<'_>>
    ensures { option_map instance_seen result ≡ instance_form (view instance.now) }
{
    let (name, node) = two_members(instance, "name", "node")?;
    match (read_name(name), node.as_str()) {
        (Some(name), Some(node)) => Some(InstanceForm { name, node }),
        _ => None,
    }
}

fn read_instances<'v>(
    alloc: Global,
    instances: &'v [Value],
) -> Result<Vec<InstanceForm<'v>>, ScriptRefusal>
    ensures ok { IfOk result (λ v. each instance_form (map view instances.now) ≡ Some (map instance_seen v.items)) }
    ensures form { result ≡ Err ScriptRefusal.Form → each instance_form (map view instances.now) ≡ None }
    ensures errors { IfErr result (λ e. (e ≡ ScriptRefusal.Form) ⊎ (e ≡ ScriptRefusal.Memory)) }
{
    let mut forms = Vec::new(alloc);
    for instance in instances {
        let form = read_instance(instance).ok_or(ScriptRefusal::Form)?;
        forms.push(form)?;
    }
    Ok(forms)
}

fn read_caller<'v>(alloc: Global, caller: &'v Value) -> Result<CallerForm<'v>, ScriptRefusal>
    ensures ok { IfOk result (λ c. caller_form (view caller.now) ≡ Some (caller_seen c)) }
    ensures form { result ≡ Err ScriptRefusal.Form → caller_form (view caller.now) ≡ None }
    ensures errors { IfErr result (λ e. (e ≡ ScriptRefusal.Form) ⊎ (e ≡ ScriptRefusal.Memory)) }
{
    let (name, calls) = two_members(caller, "name", "calls").ok_or(ScriptRefusal::Form)?;
    let name = read_name(name).ok_or(ScriptRefusal::Form)?;
    let calls = as_list(calls).ok_or(ScriptRefusal::Form)?;
    let calls = read_calls(alloc, calls)?;
    Ok(CallerForm { name, calls })
}

fn read_callers<'v>(
    alloc: Global,
    callers: &'v [Value],
) -> Result<Vec<CallerForm<'v>>, ScriptRefusal>
    ensures ok { IfOk result (λ v. each caller_form (map view callers.now) ≡ Some (map caller_seen v.items)) }
    ensures form { result ≡ Err ScriptRefusal.Form → each caller_form (map view callers.now) ≡ None }
    ensures errors { IfErr result (λ e. (e ≡ ScriptRefusal.Form) ⊎ (e ≡ ScriptRefusal.Memory)) }
{
    let mut forms = Vec::new(alloc);
    for caller in callers {
        let form = read_caller(alloc, caller)?;
        forms.push(form)?;
    }
    Ok(forms)
}

/// The form of scripts.
pub(crate) fn read_form(alloc: Global, scripts: &Value) -> Result<Form<'_>, ScriptRefusal>
    ensures ok { IfOk result (λ f. form_of (view scripts.now) ≡ Some (form_seen f)) }
    ensures form { result ≡ Err ScriptRefusal.Form → form_of (view scripts.now) ≡ None }
    ensures errors { IfErr result (λ e. (e ≡ ScriptRefusal.Form) ⊎ (e ≡ ScriptRefusal.Memory)) }
{
    let (instances, callers) = two_members(scripts, "instances", "callers").ok_or(
        ScriptRefusal::Form,
    )?;
    let instances = as_list(instances).ok_or(ScriptRefusal::Form)?;
    let callers = as_list(callers).ok_or(ScriptRefusal::Form)?;
    let instances = read_instances(alloc, instances)?;
    let callers = read_callers(alloc, callers)?;
    Ok(Form { instances, callers })
}

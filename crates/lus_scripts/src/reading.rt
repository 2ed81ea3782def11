//! Reading scripts.

ghost use Rattle.std.specs.Prelude.{◌≡◌, ◌⊎◌, ◌<◌, ◌≤◌, ◌^◌, IfErr, IfOk, Some, None, Ok, Err, map, length, option_map, string_bytes, true};
ghost use Rattle.serde_json.specs.Data.{Data};
ghost use Rattle.serde_json.specs.Read.{read};
ghost use Rattle.serde_json.specs.View.{view};
ghost use Rattle.std.specs.Str.{IsUtf8};
ghost use Rattle.lus_syntax.specs.Limits.{most_bytes};
ghost use Rattle.lus_program.specs.View.{node_of, program_seen};
ghost use Rattle.lus_scripts.specs.Forms.{each};
ghost use Rattle.lus_scripts.specs.Scripts.{HaveNodes, call_of, calls_of, instance_names, node_on, request_of, scripts_of, scripts_of_form, with_table, within_limits};
ghost use Rattle.lus_scripts.specs.View.{ask_seen, call_seen, caller_seen, calls_kept, form_seen, scope_seen, scripts_seen};

use crate::form::{Ask, CallForm, CallerForm, Form, read_form};
use crate::known::{are_calls_known, instances_of, is_within_limits};
use crate::names::{caller_names, copy_names, instance_names, name_table, place_of};
use crate::refusal::ScriptRefusal;
use crate::scripts::{Instance, Scripts};
use crate::value::{read_row, read_rows};
use indexmap::IndexSet;
use lus_program::{Node, Program};
use lus_requests::{Call, Caller, Request};
use lus_syntax::MOST_BYTES;
use lus_values::Names;
use serde_json::Value;
use std::alloc::Global;

/// What the calls of scripts are read by: the program, the names of its constructors, and the instances with the table of
/// their names.
#[derive(Clone, Copy)]
pub(crate) struct Scope<'p> {
    pub program: &'p Program,
    pub names: &'p Names,
    pub table: &'p IndexSet<String>,
    pub instances: &'p [Instance],
}

/// The value that bytes of JSON are.
pub(crate) fn parse(alloc: Global, bytes: &[u8]) -> Result<Value, ScriptRefusal>
    ensures ok { IfOk result (λ v. IsUtf8 bytes.now × (read bytes.now ≡ Some (view v))) }
    ensures refused { IfErr result (λ e. (e ≡ ScriptRefusal.Memory)
        ⊎ ((e ≡ ScriptRefusal.Json) × (IsUtf8 bytes.now → read bytes.now ≡ None))) }
{
    match Value::from_slice(alloc, bytes) {
        Ok(json) => Ok(json),
        Err(error) => Err(if error.is_memory() {
            ScriptRefusal::Memory
        } else {
            ScriptRefusal::Json
        }),
    }
}

/// The node of the instance at this place.
fn node_on(scope: Scope<'_>, on: usize) -> Option<&Node>
    ensures { option_map (λ f. node_of f.now) result ≡ node_on (scope_seen scope.entry) on }
{
    let instance = scope.instances.get(on)?;
    scope.program.nodes.get(instance.id.0 as usize)
}

pub(crate) fn read_request(
    alloc: Global,
    scope: Scope<'_>,
    node: Option<&Node>,
    ask: Ask<'_>,
) -> Result<Request, ScriptRefusal>
    ensures ok { IfOk result (λ r.
        request_of (scope_seen scope.entry) (option_map (λ f. node_of f.now) node.entry) (ask_seen ask.entry) ≡ Some r) }
    ensures form { result ≡ Err ScriptRefusal.Form
        → request_of (scope_seen scope.entry) (option_map (λ f. node_of f.now) node.entry) (ask_seen ask.entry) ≡ None }
    ensures errors { IfErr result (λ e. (e ≡ ScriptRefusal.Form) ⊎ (e ≡ ScriptRefusal.Memory)) }
{
    match ask {
        Ask::Step(items) => Ok(Request::Step(read_row(
            alloc,
            scope.program,
            scope.names,
            node,
            items,
        )?)),
        Ask::Reset => Ok(Request::Reset),
        Ask::Save(slot) => Ok(Request::Save(slot)),
        Ask::Restore(slot) => Ok(Request::Restore(slot)),
        Ask::Burst(lists) => Ok(Request::Burst(read_rows(
            alloc,
            scope.program,
            scope.names,
            node,
            lists,
        )?)),
    }
}

fn read_call(alloc: Global, scope: Scope<'_>, form: &CallForm<'_>) -> Result<Call, ScriptRefusal>
    ensures ok { IfOk result (λ call. call_of (scope_seen scope.entry) (call_seen form.now) ≡ Some call) }
    ensures form { result ≡ Err ScriptRefusal.Form → call_of (scope_seen scope.entry) (call_seen form.now) ≡ None }
    ensures errors { IfErr result (λ e. (e ≡ ScriptRefusal.Form) ⊎ (e ≡ ScriptRefusal.Memory)) }
{
    let on = place_of(scope.table, form.on).ok_or(ScriptRefusal::Form)?;
    let node = node_on(scope, on);
    let request = read_request(alloc, scope, node, form.ask)?;
    Ok(Call { on, request })
}

fn read_calls(
    alloc: Global,
    scope: Scope<'_>,
    forms: &[CallForm<'_>],
) -> Result<Vec<Call>, ScriptRefusal>
    ensures ok { IfOk result (λ calls. each (call_of (scope_seen scope.entry)) (map call_seen forms.now) ≡ Some calls.items) }
    ensures form { result ≡ Err ScriptRefusal.Form → each (call_of (scope_seen scope.entry)) (map call_seen forms.now) ≡ None }
    ensures errors { IfErr result (λ e. (e ≡ ScriptRefusal.Form) ⊎ (e ≡ ScriptRefusal.Memory)) }
{
    let mut calls = Vec::new(alloc);
    for form in forms {
        let call = read_call(alloc, scope, form)?;
        calls.push(call)?;
    }
    Ok(calls)
}

fn read_callers(
    alloc: Global,
    scope: Scope<'_>,
    form: &Form<'_>,
) -> Result<Vec<Caller>, ScriptRefusal>
    ensures ok { IfOk result (λ callers. each (calls_of (scope_seen scope.entry)) (form_seen form.now).callers
        ≡ Some (map calls_kept callers.items)) }
    ensures form { result ≡ Err ScriptRefusal.Form → each (calls_of (scope_seen scope.entry)) (form_seen form.now).callers ≡ None }
    ensures errors { IfErr result (λ e. (e ≡ ScriptRefusal.Form) ⊎ (e ≡ ScriptRefusal.Memory)) }
{
    let mut callers = Vec::new(alloc);
    for caller_form in &form.callers {
        let calls = read_calls(alloc, scope, &caller_form.calls)?;
        callers.push(Caller { calls })?;
    }
    Ok(callers)
}

/// The scripts of a form whose instances have the names of this table.
fn with_table(
    alloc: Global,
    program: &Program,
    names: &Names,
    form: &Form<'_>,
    table: &IndexSet<String>,
) -> Result<Scripts, ScriptRefusal>
    requires nodes { length program.now.nodes.items < 2 ^ 32 }
    requires table { map string_bytes table.now.keys ≡ instance_names (form_seen form.now) }
    requires limits { within_limits (form_seen form.now) ≡ true }
    ensures ok { IfOk result (λ s. with_table (program_seen program.now) names.now (form_seen form.now) ≡ Ok (scripts_seen s)) }
    ensures refused { IfErr result (λ e. (e ≡ ScriptRefusal.Memory)
        ⊎ (with_table (program_seen program.now) names.now (form_seen form.now) ≡ Err e)) }
{
    let instances = match instances_of(alloc, program, form) {
        Ok(instances) => instances,
        Err(refusal) => return Err(refusal),
    };
    if !are_calls_known(table, form) {
        return Err(ScriptRefusal::Unknown);
    }
    let scope = Scope {
        program,
        names,
        table,
        instances: &instances,
    };
    match read_callers(alloc, scope, form) {
        Ok(callers) => {
            let names = copy_names(alloc, &caller_names(alloc, form)?)?;
            Ok(Scripts {
                instances,
                names,
                callers,
            })
        }
        Err(refusal) => Err(refusal),
    }
}

/// The scripts of a form, by the checks that come after the form's own.
fn from_form(
    alloc: Global,
    program: &Program,
    names: &Names,
    form: &Form<'_>,
) -> Result<Scripts, ScriptRefusal>
    requires { length program.now.nodes.items < 2 ^ 32 }
    ensures ok { IfOk result (λ s. scripts_of_form (program_seen program.now) names.now (form_seen form.now) ≡ Ok (scripts_seen s)) }
    ensures refused { IfErr result (λ e. (e ≡ ScriptRefusal.Memory)
        ⊎ (scripts_of_form (program_seen program.now) names.now (form_seen form.now) ≡ Err e)) }
{
    if !is_within_limits(form) {
        return Err(ScriptRefusal::Limit);
    }
    let table = match name_table(alloc, &instance_names(alloc, form)?) {
        Ok(table) => table,
        Err(refusal) => return Err(refusal),
    };
    match name_table(alloc, &caller_names(alloc, form)?) {
        Ok(_) => with_table(alloc, program, names, form, &table),
        Err(refusal) => Err(refusal),
    }
}

/// The scripts of a JSON value.
fn from_json(
    alloc: Global,
    program: &Program,
    names: &Names,
    json: &Value,
) -> Result<Scripts, ScriptRefusal>
    requires { length program.now.nodes.items < 2 ^ 32 }
    ensures ok { IfOk result (λ s. scripts_of (program_seen program.now) names.now (view json.now) ≡ Ok (scripts_seen s)) }
    ensures refused { IfErr result (λ e. (e ≡ ScriptRefusal.Memory)
        ⊎ (scripts_of (program_seen program.now) names.now (view json.now) ≡ Err e)) }
{
    let form = read_form(alloc, json)?;
    from_form(alloc, program, names, &form)
}

/// Reads scripts for a program with these names of constructors. A refusal is that of the first check that fails: size,
/// JSON, form, limits, doubled names, unknown names, values.
pub fn read_scripts(
    alloc: Global,
    program: &Program,
    names: &Names,
    bytes: &[u8],
) -> Result<Scripts, ScriptRefusal>
    requires { length program.now.nodes.items < 2 ^ 32 }
    ensures long { most_bytes < length bytes.now → result ≡ Err ScriptRefusal.Limit }
    ensures short { IfOk result (λ s. length bytes.now ≤ most_bytes) }
    ensures ok { IfOk result (λ s. (d : Data) × (read bytes.now ≡ Some d)
        × (scripts_of (program_seen program.now) names.now d ≡ Ok (scripts_seen s))) }
    ensures utf8 { IfOk result (λ s. IsUtf8 bytes.now) }
    ensures nodes { IfOk result (λ s. HaveNodes (program_seen program.now) (scripts_seen s).instances) }
    ensures json { result ≡ Err ScriptRefusal.Json → IsUtf8 bytes.now → read bytes.now ≡ None }
    ensures refused { length bytes.now ≤ most_bytes → IfErr result (λ e. (e ≡ ScriptRefusal.Memory) ⊎ ((e ≡ ScriptRefusal.Json)
        ⊎ (IsUtf8 bytes.now × (d : Data) × (read bytes.now ≡ Some d) × (scripts_of (program_seen program.now) names.now d ≡ Err e)))) }
{
    if bytes.len() > MOST_BYTES {
        return Err(ScriptRefusal::Limit);
    }
    match parse(alloc, bytes) {
        Ok(json) => from_json(alloc, program, names, &json),
        Err(refusal) => Err(refusal),
    }
}

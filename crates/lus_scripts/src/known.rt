//! Scripts that keep to the limits and name nodes and instances that there are.

ghost use Rattle.std.specs.Prelude.{◌≡◌, ◌⊎◌, IfErr, IfOk, Err, Some, None, map, string_bytes, is_some, nat_le, length, position, ◌<◌, ◌^◌};
ghost use Rattle.std.specs.List.{list_all};
ghost use Rattle.std.specs.Str.{bytes_eq};
ghost use Rattle.lus_program.specs.View.{program_seen};
ghost use Rattle.lus_scripts.specs.Forms.{each};
ghost use Rattle.lus_scripts.specs.Limits.{most_calls};
ghost use Rattle.lus_scripts.specs.Scripts.{instance_of, node_named, place_of, within_limits};
ghost use Rattle.lus_scripts.specs.View.{form_seen, instance_kept, instance_seen};

use crate::form::{CallForm, CallerForm, Form, InstanceForm};
use crate::limits::{MOST_CALLERS, MOST_CALLS, MOST_INSTANCES};
use crate::names::place_of;
use crate::refusal::ScriptRefusal;
use crate::scripts::Instance;
use indexmap::IndexSet;
use lus_program::{Node, NodeId, Program};
use std::alloc::Global;

pub(crate) fn is_within_limits(form: &Form<'_>) -> bool
    ensures { result ≡ within_limits (form_seen form.now) }
{
    form.instances.len() <= MOST_INSTANCES
        && (form.callers.len() <= MOST_CALLERS && have_few_calls(&form.callers))
}

fn have_few_calls(callers: &[CallerForm<'_>]) -> bool
    ensures { result ≡ list_all (λ c. nat_le (length c.calls.items) most_calls) callers.now }
{
    callers
        .iter()
        .all(|caller| caller.calls.len() <= MOST_CALLS)
}

/// The place of the first of these nodes that has this name.
fn place_among(nodes: &[Node], name: &str) -> Option<usize>
    ensures { result ≡ position (λ f. bytes_eq (string_bytes f.name) name.now) nodes.now }
{
    nodes.iter().position(|node| node.name.as_str() == name)
}

/// The place of the first node of this name.
fn node_named(program: &Program, name: &str) -> Option<usize>
    ensures { result ≡ node_named (program_seen program.now) name.now }
{
    place_among(&program.nodes, name)
}

/// An instance of the node of this name.
#[tactic(auto, unfolding(crate::specs::Scripts::instance_of))]
fn instance_of(
    alloc: Global,
    program: &Program,
    form: &InstanceForm<'_>,
) -> Result<Instance, ScriptRefusal>
    requires { length program.now.nodes.items < 2 ^ 32 }
    ensures ok { IfOk result (λ i. instance_of (program_seen program.now) (instance_seen form.now) ≡ Some (instance_kept i)) }
    ensures unknown { result ≡ Err ScriptRefusal.Unknown → instance_of (program_seen program.now) (instance_seen form.now) ≡ None }
    ensures errors { IfErr result (λ e. (e ≡ ScriptRefusal.Unknown) ⊎ (e ≡ ScriptRefusal.Memory)) }
{
    let place = node_named(program, form.node).ok_or(ScriptRefusal::Unknown)?;
    let name = String::from_str(alloc, form.name)?;
    let node = String::from_str(alloc, form.node)?;
    Ok(Instance {
        name,
        node,
        id: NodeId(place as u32),
    })
}

/// The instances of a form, of nodes that there are.
pub(crate) fn instances_of(
    alloc: Global,
    program: &Program,
    form: &Form<'_>,
) -> Result<Vec<Instance>, ScriptRefusal>
    requires { length program.now.nodes.items < 2 ^ 32 }
    ensures ok { IfOk result (λ v. each (instance_of (program_seen program.now)) (form_seen form.now).instances
        ≡ Some (map instance_kept v.items)) }
    ensures unknown { result ≡ Err ScriptRefusal.Unknown
        → each (instance_of (program_seen program.now)) (form_seen form.now).instances ≡ None }
    ensures errors { IfErr result (λ e. (e ≡ ScriptRefusal.Unknown) ⊎ (e ≡ ScriptRefusal.Memory)) }
{
    let mut instances = Vec::new(alloc);
    for named in &form.instances {
        let instance = instance_of(alloc, program, named)?;
        instances.push(instance)?;
    }
    Ok(instances)
}

fn are_on_instances(table: &IndexSet<String>, calls: &[CallForm<'_>]) -> bool
    ensures { result ≡ list_all (λ c. is_some (place_of (map string_bytes table.now.keys) c.on.now)) calls.now }
{
    calls.iter().all(|call| place_of(table, call.on).is_some())
}

/// Whether each call is on an instance in the table.
pub(crate) fn are_calls_known(table: &IndexSet<String>, form: &Form<'_>) -> bool
    ensures { result ≡ list_all (λ c. list_all (λ call. is_some (place_of (map string_bytes table.now.keys) call.on.now)) c.calls.items)
        form.now.callers.items }
{
    form.callers
        .iter()
        .all(|caller| are_on_instances(table, &caller.calls))
}

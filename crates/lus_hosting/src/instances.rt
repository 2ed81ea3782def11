//! Instances by their names.

ghost use Rattle.std.specs.Prelude.{◌≡◌, ◌++◌, ◌<◌, ◌∷◌, [], IfOk, IfSome, List, OnOk, Some, length, string_bytes};
ghost use Rattle.std.specs.Arc.{arc_value};
ghost use Rattle.indexmap.specs.IndexMap.{get_by_text};
ghost use Rattle.lus_live_instance.specs.MachineSpecs.CodeSpecs.Codes.{program_of};
ghost use Rattle.lus_live_instance.specs.MachineSpecs.Constructors.{names_of};
ghost use Rattle.lus_hosting.specs.Hosts.{HasCalledOn, HasReplayedOn, Keeps};
ghost use Rattle.lus_hosting.specs.Logs.{Logged};

use crate::host::Host;
use crate::hosted::{Hosted, call, replay};
use crate::named_entry::NamedEntry;
use indexmap::IndexMap;
use lus_live_instance::new_instance;
use lus_play::PlayError;
use lus_replay::Verdict;
use lus_requests::{Entry, Request};
use lus_values::Memory;
use std::alloc::Global;
use std::collections::hash_map::RandomState;

/// Instances by their names, which strangers choose: the hash function has keys of its own. Where entries are recalled, the last that was
/// replayed is kept, with the reply that is right.
#[derive(Drop)]
pub(crate) struct Instances {
    pub(crate) by_name: IndexMap<String, Hosted, RandomState>,
    recalls: bool,
    pub(crate) last: Option<NamedEntry>,
}

/// No instances yet. The entries that are replayed are recalled, or not.
pub(crate) fn no_instances(alloc: Global, keys: RandomState, recalls: bool) -> Instances
    ensures { result.by_name.entries ≡ [] }
{
    Instances {
        by_name: IndexMap::with_hasher(alloc, keys),
        recalls,
        last: None,
    }
}

/// The entry of the instance of a name, where it was recalled and there is memory for it.
fn named(alloc: Global, name: &str, last: Option<Entry>) -> Option<NamedEntry>
    ensures { IfSome result (λ e. (string_bytes e.instance ≡ name.now) × (last ≡ Some e.entry)) }
{
    Some(NamedEntry {
        entry: last?,
        instance: String::from_str(alloc, name).ok()?,
    })
}

/// Makes an instance of this name, where there is none.
fn open(host: Host<'_>, instances: &mut Instances, name: &str) -> Result<(), Memory>
    requires { host.node.0 < length (program_of (arc_value host.program.now)).nodes }
    ensures { (log : List Logged) → Keeps (program_of (arc_value host.entry.program.now)) host.entry.node.0 log instances.old
        → OnOk result (Keeps (program_of (arc_value host.entry.program.now)) host.entry.node.0 log instances.new) }
{
    if instances.by_name.contains_key(name) {
        return Ok(());
    }
    let key = String::from_str(host.alloc, name)?;
    let instance = new_instance(host.alloc, host.program, host.node)?;
    let hosted = Hosted {
        alloc: host.alloc,
        instance,
        entries: 0,
        recalls: instances.recalls,
        last: None,
    };
    instances.by_name.insert(key, hosted)?;
    Ok(())
}

/// Makes a call to the instance of a name: its entry, and which that is of the instance.
pub(crate) fn call_on(
    host: Host<'_>,
    instances: &mut Instances,
    name: &str,
    request: Request,
) -> Result<(u64, Entry), PlayError>
    requires { host.node.0 < length (program_of (arc_value host.program.now)).nodes }
    ensures { (log : List Logged) → Keeps (program_of (arc_value host.entry.program.now)) host.entry.node.0 log instances.old
        → IfOk result (λ r. HasCalledOn (program_of (arc_value host.entry.program.now)) host.entry.node.0 log name.now request r.0 r.1 instances.new) }
{
    open(host, instances, name)?;
    match instances.by_name.get_mut(name) {
        Some(hosted) => call(hosted, request),
        None => Err(PlayError::Memory),
    }
}

/// Replays an entry on the instance of a name. Where its reply isn't the right one, the line that would be right is in `right`.
pub(crate) fn replay_on(
    host: Host<'_>,
    instances: &mut Instances,
    name: &str,
    entry: &str,
    right: &mut String,
) -> Result<Verdict, PlayError>
    requires { host.node.0 < length (program_of (arc_value host.program.now)).nodes }
    ensures { (log : List Logged) → Keeps (program_of (arc_value host.entry.program.now)) host.entry.node.0 log instances.old
        → IfOk result (λ v. HasReplayedOn (program_of (arc_value host.entry.program.now)) host.entry.node.0 log name.now (entry.now ++ 10 ∷ [])
        (string_bytes right.new) v instances.new) }
{
    open(host, instances, name)?;
    match instances.by_name.get_mut(name) {
        Some(hosted) => {
            let (verdict, last) = replay(hosted, host.alloc, host.program.names(), entry, right)?;
            instances.last = named(host.alloc, name, last);
            Ok(verdict)
        }
        None => Err(PlayError::Memory),
    }
}

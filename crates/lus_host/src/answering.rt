//! Running the callers of scripts.

ghost use Rattle.std.specs.Arc.{arc_value};
ghost use Rattle.std.specs.Prelude.{◌≡◌, ◌≢◌, ◌<◌, IfOk, Err, IsTrue, map, is_some, length, not, true};
ghost use Rattle.std.specs.List.{All, AllZip, list_all};
ghost use mathlib.Core.Logic.{◌↔◌};
ghost use Rattle.lus_callers.specs.CodeSpecs.Codes.{program_of};
ghost use Rattle.lus_callers.specs.HistorySpecs.Histories.{History};
ghost use Rattle.lus_callers.specs.Scripts.{histories, shares};
ghost use Rattle.lus_callers.specs.Served.{AllCounted, AllServed};
ghost use Rattle.lus_callers.specs.declared.threads.HostError.TheVariants.{Seats};
ghost use Rattle.lus_host.specs.Runs.{AreHistories};
ghost use Rattle.lus_scripts.specs.Scripts.{HaveNodes};
ghost use Rattle.lus_scripts.specs.View.{instance_kept, scripts_seen};

use lus_callers::lus_machine::{CallError, Program};
use lus_callers::lus_shared::{SeatNode, Shared};
use lus_callers::{Gate, HostError, Journals};
use lus_program::NodeId;
use lus_scripts::{Instance, Scripts};
use std::alloc::{AllocError, Global};
use std::sync::{Arc, Wait};
use std::thread::Threads;

/// Whether scripts can be run with a program.
pub trait Fits {
    /// Whether each instance's node is the program's, as `read_scripts` of that program promises.
    fn fits(&self, program: &Program) -> bool;
}

/// Whether the program has the nodes of instances.
fn have_nodes(program: &Program, instances: &[Instance]) -> bool
    ensures { IsTrue result ↔ All (λ i. i.id.0 < length (program_of program.now).nodes) instances.now }
{
    instances.iter().all(|instance| program.has(instance.id))
}

impl Fits for Scripts {
    fn fits(&self, program: &Program) -> bool
        ensures { IsTrue result ↔ HaveNodes (program_of program.now) (scripts_seen self.now).instances }
    {
        have_nodes(program, &self.instances)
    }
}

/// The nodes of instances.
fn nodes_of(alloc: Global, instances: &[Instance]) -> Result<Vec<NodeId>, AllocError>
    ensures { IfOk result (λ v. v.items ≡ map (λ i. i.id) instances.now) }
{
    let mut nodes = Vec::new(alloc);
    for instance in instances {
        nodes.push(instance.id)?;
    }
    Ok(nodes)
}

/// Whether no caller ran out of anything.
pub(crate) fn is_done(wants: &[Option<CallError>]) -> bool
    ensures { result ≡ list_all (λ w. not (is_some w)) wants.now }
{
    wants.iter().all(|want| !want.is_some())
}

/// Makes the scripts' instances, each with a seat for each caller, and then runs each caller in a thread of its own: it sends
/// its calls in order, with the gate's two calls round each, and stops at its first error. After an error the callers that had
/// started have ended, and their journals are given up.
pub fn run_callers<N: Shared + Sync + Drop, G: Gate + Sync, R: Threads + Wait + Sync>(
    rt: &R,
    alloc: Global,
    program: &Arc<Program>,
    scripts: &Scripts,
    gate: &G,
) -> Result<Journals, HostError>
where
    N::Seat: Send + Drop,
    requires { HaveNodes (program_of (arc_value program.now)) (scripts_seen scripts.now).instances }
    ensures legal { N.tells ≡ true → IfOk result (λ r.
        AllZip (λ i h. History (program_of (arc_value program.now)) i.place h) (scripts_seen scripts.now).instances (histories r)) }
    ensures counted { IfOk result (λ r. AllCounted (length (scripts_seen scripts.now).instances) (shares r) (histories r)) }
    ensures served { IfOk result (λ r. AllServed N.tells (scripts_seen scripts.now).calls r.wants.items (shares r) (histories r)) }
    ensures never { N.tells ≡ true → result ≢ Err Seats }
{
    let Ok(nodes) = nodes_of(alloc, &scripts.instances) else {
        return Err(HostError::Memory);
    };
    lus_callers::run_callers::<N, G, R>(rt, alloc, program, &nodes, &scripts.callers, gate)
}

/// Runs the callers of scripts over seats, whose calls tell what they did.
pub(crate) fn histories_of<G: Gate + Sync, R: Threads + Wait + Sync>(
    rt: &R,
    alloc: Global,
    program: &Arc<Program>,
    scripts: &Scripts,
    gate: &G,
) -> Result<Journals, HostError>
    requires { HaveNodes (program_of (arc_value program.now)) (scripts_seen scripts.now).instances }
    ensures ok { IfOk result (λ r. AreHistories (program_of (arc_value program.now)) (scripts_seen scripts.now)
        (list_all (λ w. not (is_some w)) r.wants.items) (map (λ j. j.entries.items) r.journals.items)) }
    ensures never { result ≢ Err Seats }
{
    run_callers::<SeatNode, G, R>(rt, alloc, program, scripts, gate)
}

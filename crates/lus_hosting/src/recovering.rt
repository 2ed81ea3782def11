//! Reading a log, up to where a run goes on in it.

ghost use Rattle.std.specs.Prelude.{◌≡◌, ◌+◌, ◌<◌, IfOk, List, length, string_bytes};
ghost use Rattle.std.specs.Arc.{arc_value};
ghost use Rattle.lus_live_instance.specs.MachineSpecs.CodeSpecs.Codes.{program_of};
ghost use Rattle.lus_hosting.specs.Audits.{FindsLine};
ghost use Rattle.lus_hosting.specs.Hosts.{Keeps};
ghost use Rattle.lus_hosting.specs.Logs.{Logged};
ghost use Rattle.lus_hosting.specs.Recoveries.{IsRecovered};

use crate::auditing::{Found, read_found};
use crate::host::Host;
use crate::instances::{Instances, no_instances};
use lus_devices::Source;
use lus_lawful::AuditError;
use lus_live_instance::lus_machine::{NodeId, Program};
use lus_sessions::RecoveryError;
use std::alloc::Global;
use std::collections::hash_map::RandomState;
use std::sync::Arc;

/// Instances that are where those of a log were, and where a run goes on in that log.
#[derive(Drop)]
pub struct Recovered {
    pub(crate) instances: Instances,
    /// How many bytes its whole lines have.
    pub bytes: u64,
    /// The number of the line that was cut short, if the last was.
    pub cut: Option<u64>,
}

/// How many bytes these are and those of a line.
fn bytes_with(bytes: u64, line: &[u8]) -> Result<u64, RecoveryError>
    ensures { IfOk result (λ n. n ≡ bytes + length line.now) }
{
    bytes
        .checked_add(line.len() as u64)
        .ok_or(RecoveryError::Memory)
}

/// Why a log isn't gone on from that isn't read on.
fn stop_of(error: AuditError) -> RecoveryError {
    match error {
        AuditError::Line(number) => RecoveryError::Line(number),
        AuditError::Read => RecoveryError::Read,
        AuditError::Memory => RecoveryError::Memory,
    }
}

/// Reads the next line of a log, and says what it is.
fn next_found<S: Source>(
    host: Host<'_>,
    instances: &mut Instances,
    source: &mut S,
    line: &mut Vec<u8>,
    right: &mut String,
) -> Result<Found, RecoveryError>
    requires { host.node.0 < length (program_of (arc_value host.program.now)).nodes }
    ensures { (log : List Logged) → Keeps (program_of (arc_value host.entry.program.now)) host.entry.node.0 log instances.old
        → IfOk result (λ found. FindsLine found (program_of (arc_value host.entry.program.now)) host.entry.node.0 log
        (S.left source.old) (S.left source.new) line.new.items (string_bytes right.new) instances.new) }
{
    match read_found(host, instances, source, line, right) {
        Ok(found) => Ok(found),
        Err(error) => Err(stop_of(error)),
    }
}

/// Reads a log of instances of a node, and replays each entry on a new instance of its name, which then is where the log's was. Where a
/// line isn't right, it is in `line`, with its line feed, and where its reply isn't, the line that would be right is in `right`. No more is
/// kept than the instances and one line. `keys` are of the names' hash function.
pub fn recover_log<S: Source>(
    alloc: Global,
    program: &Arc<Program>,
    node: NodeId,
    keys: RandomState,
    source: &mut S,
    line: &mut Vec<u8>,
    right: &mut String,
) -> Result<Recovered, RecoveryError>
    requires { node.0 < length (program_of (arc_value program.now)).nodes }
    ensures { IfOk result (IsRecovered (program_of (arc_value program.now)) node.0 (S.left source.old)) }
{
    let host = Host {
        alloc,
        program,
        node,
    };
    let mut instances = no_instances(alloc, keys, false);
    let mut bytes = 0u64;
    for lines in 0..u64::MAX {
        match next_found(host, &mut instances, source, line, right)? {
            Found::Right => bytes = bytes_with(bytes, line)?,
            Found::Noted => bytes = bytes_with(bytes, line)?,
            Found::Wrong => return Err(RecoveryError::Wrong(lines + 1)),
            Found::NoLine => return Err(RecoveryError::Line(lines + 1)),
            Found::Cut => return Ok(Recovered {
                instances,
                bytes,
                cut: Some(lines + 1),
            }),
            Found::Over => return Ok(Recovered {
                instances,
                bytes,
                cut: None,
            }),
        }
    }
    Err(RecoveryError::Memory)
}

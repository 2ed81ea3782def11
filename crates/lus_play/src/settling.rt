//! Answers that are held until the log was synced.

ghost use Rattle.std.specs.Prelude.{◌≡◌, ◌++◌, OnErr, OnOk, true};
ghost use Rattle.lus_bursts.specs.Syncs.{Settles, SettlesSome};
ghost use Rattle.lus_devices.specs.Devices.{WritesBeginning, with_text};

use crate::error::PlayError;
use lus_bursts::Syncs;
use lus_devices::{Sink, write_all};

/// Writes bytes, all or a beginning of them.
pub fn write_bytes<O: Sink>(output: &mut O, bytes: &[u8]) -> Result<(), PlayError>
    ensures whole { OnOk result (O.written output.new ≡ with_text (O.written output.old) bytes.now) }
    ensures beginning { OnErr result (WritesBeginning (O.written output.old) (O.written output.new) bytes.now) }
{
    match write_all(output, bytes) {
        Ok(()) => Ok(()),
        Err(_) => Err(PlayError::Write),
    }
}

/// Keeps an answer until it is written.
pub fn hold(held: &mut Vec<u8>, answer: &str) -> Result<(), PlayError>
    ensures { OnOk result (held.new.items ≡ held.old.items ++ answer.now) }
{
    match held.extend_from_slice(answer.as_bytes()) {
        Ok(()) => Ok(()),
        Err(_) => Err(PlayError::Memory),
    }
}

/// Syncs the log, where it is to be.
fn sync_log<L: Syncs>(is_synced: bool, log: &mut L) -> Result<(), PlayError>
    ensures written { L.written log.new ≡ L.written log.old }
    ensures synced { OnOk result (is_synced ≡ true → L.syncs log.old log.new) }
{
    if !is_synced {
        return Ok(());
    }
    match log.sync() {
        Ok(()) => Ok(()),
        Err(_) => Err(PlayError::Write),
    }
}

/// Writes the answers that are held, where they are due, once the log is synced, where it is to be.
pub fn settle<L: Syncs, O: Sink>(
    is_due: bool,
    is_synced: bool,
    log: &mut L,
    output: &mut O,
    held: &mut Vec<u8>,
) -> Result<(), PlayError>
    ensures written { L.written log.new ≡ L.written log.old }
    ensures all { OnOk result (Settles L L.syncs is_due is_synced log.old log.new held.old.items held.new.items
        (O.written output.old) (O.written output.new)) }
    ensures some { OnErr result (SettlesSome L L.syncs is_synced log.old log.new held.old.items (O.written output.old) (O.written output.new)) }
{
    if !is_due || held.is_empty() {
        return Ok(());
    }
    sync_log(is_synced, log)?;
    match write_all(output, held) {
        Ok(()) => {
            held.clear();
            Ok(())
        }
        Err(_) => Err(PlayError::Write),
    }
}

//! Checking a program.

ghost use Rattle.std.specs.Prelude.{◌≡◌, ◌≢◌, ◌⊎◌, OnOk, IfErr, IfSome, Err};
ghost use Rattle.lus_devices.specs.Devices.{WritesBeginning, one_more, with_text};
ghost use Rattle.lus_host.specs.Errors.{IsCheckError};
ghost use Rattle.lus_host.specs.Sources.{BeginsAccepted, WritesAccepted, accepted_text};

use crate::error::RunError;
use crate::program::count_nodes;
use lus_devices::{Sink, Source, write_all};
use std::alloc::Global;

/// Writes that a program with this many nodes is accepted.
fn write_accepted<O: Sink>(alloc: Global, nodes: usize, output: &mut O) -> Result<(), RunError>
    ensures whole { OnOk result (O.written output.new ≡ with_text (O.written output.old) (accepted_text nodes)) }
    ensures errors { IfErr result (λ e. (e ≡ RunError.Write) ⊎ (e ≡ RunError.Memory)) }
    ensures beginning { result ≡ Err RunError.Write
        → WritesBeginning (O.written output.old) (O.written output.new) (accepted_text nodes) }
    ensures nothing { result ≡ Err RunError.Memory → O.written output.new ≡ O.written output.old }
    ensures quiet { (result ≡ Err RunError.Write → ⊥) → O.failures output.new ≡ O.failures output.old }
    ensures failed { result ≡ Err RunError.Write → O.failures output.new ≡ one_more (O.failures output.old) }
{
    match format!(in alloc; "accepted {nodes}\n") {
        Ok(line) => match write_all(output, line.as_bytes()) {
            Ok(()) => Ok(()),
            Err(_) => Err(RunError::Write),
        },
        Err(_) => Err(RunError::Memory),
    }
}

/// Reads a program, checks it as a compilation does, and writes `accepted N` for its N nodes.
///
/// A refusal is that of the first pass that fails. Where the output fails, a beginning of the line is written, and else
/// nothing.
pub fn check<P: Source, O: Sink, R>(
    _rt: &R,
    alloc: Global,
    program: &mut P,
    output: &mut O,
) -> Result<(), RunError>
    ensures ok { OnOk result (IfSome (P.left program.old) (λ bytes. WritesAccepted bytes (O.written output.old) (O.written output.new))) }
    ensures refused { IfErr result (λ e. IsCheckError (P.left program.old) e) }

    ensures beginning { result ≡ Err RunError.Write
        → IfSome (P.left program.old) (λ bytes. BeginsAccepted bytes (O.written output.old) (O.written output.new)) }
    ensures nothing { IfErr result (λ e. e ≢ RunError.Write → O.written output.new ≡ O.written output.old) }

    ensures quiet { (result ≡ Err RunError.Write → ⊥) → O.failures output.new ≡ O.failures output.old }
    ensures failed { result ≡ Err RunError.Write → O.failures output.new ≡ one_more (O.failures output.old) }
    ensures reads { (result ≡ Err RunError.Read → ⊥) → P.failures program.new ≡ P.failures program.old }
    ensures fails { result ≡ Err RunError.Read → P.failures program.new ≡ one_more (P.failures program.old) }
{
    match count_nodes(alloc, program) {
        Ok(nodes) => write_accepted(alloc, nodes, output),
        Err(error) => Err(error),
    }
}

//! The line of a fault, written piece by piece: it wants no memory.

ghost use Rattle.std.specs.Prelude.{◌∷◌, flat_map, string_bytes};
ghost use Rattle.lus_syntax.specs.Refusals.{cycle_behind, refusal_text};
ghost use Rattle.lus_cli.specs.Changes.{Writes, change};
ghost use Rattle.lus_cli.specs.Faults.{fault_text};

use crate::fault::{Fault, script_text};
use itoa::Buffer;
use lus_devices::{Failure, Sink, write_all};
use lus_syntax::{Cycle, Refusal, RefusalNumber};

/// Writes the pieces, one behind another.
fn write_pieces<F: Sink>(faults: &mut F, pieces: &[&str]) -> Result<(), Failure>
    ensures { Writes result (flat_map (λ p. p.now) pieces.now)
        (change (F.written faults.old) (F.written faults.new) (F.failures faults.old) (F.failures faults.new)) }
{
    for piece in pieces {
        write_all(faults, piece.as_bytes())?;
    }
    Ok(())
}

/// Writes names, each behind a space.
fn write_names<F: Sink>(faults: &mut F, names: &[String]) -> Result<(), Failure>
    ensures { Writes result (flat_map (λ n. 32 ∷ string_bytes n) names.now)
        (change (F.written faults.old) (F.written faults.new) (F.failures faults.old) (F.failures faults.new)) }
{
    for name in names {
        write_pieces(faults, &[" ", name.as_str()])?;
    }
    Ok(())
}

/// Writes a cycle behind a space, and nothing where there is none.
fn write_cycle<F: Sink>(faults: &mut F, cycle: &Cycle) -> Result<(), Failure>
    ensures { Writes result (cycle_behind cycle.now)
        (change (F.written faults.old) (F.written faults.new) (F.failures faults.old) (F.failures faults.new)) }
{
    let names = cycle.names();
    if names.is_empty() {
        return Ok(());
    }
    write_pieces(faults, &[" cycle"])?;
    write_names(faults, names)
}

/// Writes `E2 line 2 column 12`, and the cycle if there is one. Out of memory has no place.
fn write_refusal<F: Sink>(faults: &mut F, refusal: &Refusal) -> Result<(), Failure>
    ensures { Writes result (refusal_text refusal.now)
        (change (F.written faults.old) (F.written faults.new) (F.failures faults.old) (F.failures faults.new)) }
{
    let number = refusal.number.as_str();
    if refusal.number == RefusalNumber::Memory {
        return write_pieces(faults, &[number]);
    }
    let mut line = Buffer::new();
    let mut column = Buffer::new();
    let place = [
        number,
        " line ",
        line.format(refusal.line),
        " column ",
        column.format(refusal.column),
    ];
    write_pieces(faults, &place)?;
    write_cycle(faults, &refusal.cycle)
}

/// Writes what stands in the fault's line behind `error `.
pub(crate) fn write_fault<F: Sink>(faults: &mut F, fault: &Fault) -> Result<(), Failure>
    ensures { Writes result (fault_text fault.now)
        (change (F.written faults.old) (F.written faults.new) (F.failures faults.old) (F.failures faults.new)) }
{
    match fault {
        Fault::Words => write_pieces(faults, &["words"]),
        Fault::File => write_pieces(faults, &["file"]),
        Fault::Output => write_pieces(faults, &["output"]),
        Fault::Memory => write_pieces(faults, &["memory"]),
        Fault::Start => write_pieces(faults, &["start"]),
        Fault::Program(refusal) => write_refusal(faults, refusal),
        Fault::Scripts(refusal) => write_pieces(faults, &[script_text(*refusal)]),
        Fault::Journal(line) => {
            write_pieces(faults, &["journal line ", Buffer::new().format(*line)])
        }
        Fault::Signal(place) => write_pieces(faults, &["signal ", Buffer::new().format(*place)]),
    }
}

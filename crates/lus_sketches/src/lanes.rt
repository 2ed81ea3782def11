//! The lanes of signals: of a structure one for each field that is none.

use lus_program::{Declared, Field, Kind, Program};
use lus_syntax::MOST_NESTING;
use lus_traces::{Lane, SignalKind};
use lus_values::Memory;
use std::alloc::Global;

/// What values of a type are to a viewer of signals.
pub(crate) fn signal_kind(kind: Kind) -> SignalKind {
    match kind {
        Kind::Bool => SignalKind::Truth,
        Kind::Int => SignalKind::Number,
        Kind::Enum(_) | Kind::Struct(_) => SignalKind::Text,
    }
}

/// The fields of a type that is a structure.
fn fields_of(program: &Program, kind: Kind) -> Option<&[Field]> {
    let Kind::Struct(structure) = kind else {
        return None;
    };
    match program.types.get(structure as usize) {
        Some(Declared::Structure(fields)) => Some(fields.as_slice()),
        _ => None,
    }
}

/// Appends the lanes of a part of a signal, to which this way of fields leads, of a type whose structures nest at most so many levels.
fn push_lanes(
    alloc: Global,
    lanes: &mut Vec<Lane>,
    program: &Program,
    levels: usize,
    kind: Kind,
    name: String,
    way: Vec<u32>,
) -> Result<(), Memory> {
    match fields_of(program, kind) {
        Some(fields) if levels > 0 => {
            let mut place = 0u32;
            for field in fields {
                let own = format!(in alloc; "{name}.{}", field.name)?;
                let mut further = Vec::new(alloc);
                further.extend_from_slice(&way)?;
                further.push(place)?;
                push_lanes(alloc, lanes, program, levels - 1, field.kind, own, further)?;
                place = place.saturating_add(1);
            }
        }
        _ => {
            let kind = signal_kind(kind);
            lanes.push(Lane { name, way, kind })?;
        }
    }
    Ok(())
}

/// The lanes of a signal of this type and name.
pub(crate) fn lanes_of(
    alloc: Global,
    program: &Program,
    kind: Kind,
    name: &str,
) -> Result<Vec<Lane>, Memory> {
    let mut lanes = Vec::new(alloc);
    let (own, way) = (String::from_str(alloc, name)?, Vec::new(alloc));
    push_lanes(alloc, &mut lanes, program, MOST_NESTING, kind, own, way)?;
    Ok(lanes)
}

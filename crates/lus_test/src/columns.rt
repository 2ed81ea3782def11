//! The columns of a node's inputs, under which runs have numbers.

ghost use Rattle.std.specs.Prelude.{◌<◌, length};
ghost use Rattle.std.specs.Arc.{arc_value};
ghost use Rattle.lus_live_instance.specs.MachineSpecs.CodeSpecs.Codes.{program_of};

use lus_live_instance::lus_machine::{Formal, Kind, NodeId, Program};
use lus_program::Declared;
use lus_records::all_columns;
use lus_values::{Memory, Names};
use std::alloc::Global;
use std::slice;
use std::sync::Arc;

/// The whole numbers that are drawn where no range is given.
const LOW: i64 = -10;

const HIGH: i64 = 10;

/// That a row has a number under the column at a place.
#[derive(Clone, Copy)]
pub(crate) struct Condition {
    pub column: usize,
    pub number: i64,
}

/// A column of an input. Under it stand numbers: of a truth value 0 or 1, of a constructor its place among those of its type.
#[derive(Drop)]
pub(crate) struct Column {
    pub name: String,
    pub kind: Kind,
    /// The least and the greatest number that is drawn.
    pub low: i64,
    pub high: i64,
    /// Where all of these hold, the input is present.
    pub clock: Vec<Condition>,
}

impl Column {
    /// Whether the input is present in a row.
    pub(crate) fn is_on(&self, row: &[i64]) -> bool {
        for condition in &self.clock {
            if row.get(condition.column).copied() != Some(condition.number) {
                return false;
            }
        }
        true
    }

    /// The number of the simplest value that is drawn: the one next to 0.
    pub(crate) fn simplest(&self) -> i64 {
        0i64.min(self.high).max(self.low)
    }

    /// The word of the value that a number is.
    pub(crate) fn word(&self, alloc: Global, names: &Names, number: i64) -> Result<String, Memory> {
        let word = match self.kind {
            Kind::Bool if number == 0 => "false",
            Kind::Bool => "true",
            Kind::Enum(enumeration) => {
                let constructor = u32::try_from(number).unwrap_or(0);
                names.name(enumeration, constructor).unwrap_or("")
            }
            Kind::Int | Kind::Struct(_) => return Ok(format!(in alloc; "{number}")?),
        };
        Ok(String::from_str(alloc, word)?)
    }
}

/// The type of the field of a name.
fn field_kind(program: &Program, kind: Kind, name: &str) -> Kind {
    if let Kind::Struct(structure) = kind {
        for field in program.fields(structure) {
            if field.name.as_str() == name {
                return field.kind;
            }
        }
    }
    kind
}

/// The type of a column of a variable of this type.
pub(crate) fn column_kind(program: &Program, kind: Kind, column: &str) -> Kind {
    let Some((_variable, path)) = column.split_once('.') else {
        return kind;
    };
    let mut found = kind;
    for name in path.split('.') {
        found = field_kind(program, found, name);
    }
    found
}

/// The place of the last constructor of an enumeration.
fn last_constructor(program: &Program, enumeration: u32) -> i64 {
    match program.source().types.get(enumeration as usize) {
        Some(Declared::Enumeration(names)) => {
            i64::try_from(names.len()).unwrap_or(1).saturating_sub(1)
        }
        _ => 0,
    }
}

/// The least and the greatest number of a type that is drawn.
fn bounds(program: &Program, kind: Kind) -> (i64, i64) {
    match kind {
        Kind::Bool => (0, 1),
        Kind::Enum(enumeration) => (0, last_constructor(program, enumeration)),
        Kind::Int | Kind::Struct(_) => (LOW, HIGH),
    }
}

/// Of each input the place of its first column.
fn first_columns(
    alloc: Global,
    program: &Program,
    inputs: &[Formal],
) -> Result<Vec<usize>, Memory> {
    let mut places = Vec::new(alloc);
    let mut place = 0usize;
    for input in inputs {
        places.push(place)?;
        let names = all_columns(alloc, program.source(), slice::from_ref(input))?;
        place = place.saturating_add(names.len());
    }
    Ok(places)
}

/// The conditions of the clock of an input, by the places of inputs' first columns.
fn clock_of(
    alloc: Global,
    program: &Arc<Program>,
    node: NodeId,
    input: usize,
    firsts: &[usize],
) -> Result<Vec<Condition>, Memory>
    requires { node.0 < length (program_of (arc_value program.now)).nodes }
{
    let mut clock = Vec::new(alloc);
    let Ok(variable) = u32::try_from(input) else {
        return Ok(clock);
    };
    for test in program.tests(node, variable) {
        if let Some(column) = firsts.get(test.variable as usize) {
            clock.push(Condition {
                column: *column,
                number: i64::from(test.constructor),
            })?;
        }
    }
    Ok(clock)
}

/// The columns of a node's inputs, in their order.
pub(crate) fn columns_of(
    alloc: Global,
    program: &Arc<Program>,
    node: NodeId,
) -> Result<Vec<Column>, Memory>
    requires { node.0 < length (program_of (arc_value program.now)).nodes }
{
    let inputs = program.inputs(node);
    let firsts = first_columns(alloc, program, inputs)?;
    let mut columns = Vec::new(alloc);
    for (place, input) in inputs.iter().enumerate() {
        for name in all_columns(alloc, program.source(), slice::from_ref(input))? {
            let kind = column_kind(program, input.kind, &name);
            let (low, high) = bounds(program, kind);
            columns.push(Column {
                name,
                kind,
                low,
                high,
                clock: clock_of(alloc, program, node, place, &firsts)?,
            })?;
        }
    }
    Ok(columns)
}

//! Nodes whose claims are tried, with the ranges of their inputs.

ghost use Rattle.std.specs.Prelude.{◌≡◌, ◌<◌, IfOk, length, map, string_bytes};
ghost use Rattle.std.specs.Arc.{arc_value};
ghost use Rattle.csv.specs.Records.{fields_of};
ghost use Rattle.lus_live_instance.specs.MachineSpecs.CodeSpecs.Codes.{program_of};
ghost use Rattle.lus_test.specs.Trials.{IsReady, IsSubjectOf};

use crate::claims::Claim;
use crate::columns::{Column, columns_of};
use crate::problem::{Problem, problem_of};
use crate::table::read_head;
use crate::trial::Subject;
use csv::ByteRecord;
use lus_live_instance::lus_machine::{Kind, Program};
use lus_refusals::lus_culprits::{push_name, push_unknown};
use lus_values::Memory;
use std::alloc::Global;
use std::sync::Arc;

/// A range as it is written, `x=0..100`: a name, and the least and the greatest number.
fn range_in(text: &str) -> Option<(&str, i64, i64)> {
    let (name, range) = text.split_once('=')?;
    let (low, high) = range.split_once("..")?;
    let low = low.parse::<i64>().ok()?;
    let high = high.parse::<i64>().ok()?;
    if low <= high {
        Some((name, low, high))
    } else {
        None
    }
}

/// That a text is no range.
fn no_range(alloc: Global, given: &str) -> Result<String, Memory> {
    let mut text = String::from_str(alloc, "a range is written `x=0..100`, and ")?;
    push_name(&mut text, given)?;
    text.push_str(" is given")?;
    Ok(text)
}

/// That an input's column isn't of whole numbers.
fn no_number(alloc: Global, name: &str) -> Result<String, Memory> {
    let mut text = String::from_str(alloc, "input ")?;
    push_name(&mut text, name)?;
    text.push_str(" is no int, and a range is of one")?;
    Ok(text)
}

/// That no input's column has a name.
fn no_input(alloc: Global, columns: &[Column], name: &str) -> Result<String, Memory> {
    let mut names = Vec::new(alloc);
    for column in columns {
        names.push(column.name.as_str())?;
    }
    let mut text = String::new(alloc);
    push_unknown(
        &mut text,
        alloc,
        "the node has no input ",
        name,
        "; its inputs are ",
        &names,
    )?;
    Ok(text)
}

/// Sets the range of the column that a text names.
fn set_range(alloc: Global, columns: &mut Vec<Column>, text: &str) -> Result<(), Problem> {
    let Some((name, low, high)) = range_in(text) else {
        return Err(Problem::Words(no_range(alloc, text)?));
    };
    for column in columns.iter_mut() {
        if column.name.as_str() == name {
            if column.kind != Kind::Int {
                return Err(Problem::Lacks(no_number(alloc, name)?));
            }
            column.low = low;
            column.high = high;
            return Ok(());
        }
    }
    Err(Problem::Lacks(no_input(alloc, columns, name)?))
}

/// The names of columns as a record.
fn names_record(alloc: Global, columns: &[Column]) -> Result<ByteRecord, Memory> {
    let mut record = ByteRecord::new(alloc);
    for column in columns {
        record.push_field(column.name.as_bytes())?;
    }
    Ok(record)
}

/// A node whose claim is tried, with inputs in these ranges.
pub(crate) fn subject_of<'p>(
    alloc: Global,
    program: &'p Arc<Program>,
    claim: Claim,
    ranges: &[&str],
) -> Result<Subject<'p>, Problem>
    requires { claim.node.0 < length (program_of (arc_value program.now)).nodes }
    ensures ready { IfOk result IsReady }
    ensures same { IfOk result (IsSubjectOf (program_of (arc_value program.entry.now)) claim) }
{
    let mut columns = columns_of(alloc, program, claim.node)?;
    for range in ranges {
        set_range(alloc, &mut columns, *range)?;
    }
    let names = names_record(alloc, &columns)?;
    let head = match read_head(alloc, program, claim.node, &names) {
        Ok(head) => head,
        Err(error) => return Err(problem_of(error, &[])),
    };
    Ok(Subject {
        alloc,
        program,
        node: claim.node,
        columns,
        names,
        head,
        claim: claim.place,
    })
}

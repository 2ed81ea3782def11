//! Failing runs, made shorter and simpler.

ghost use Rattle.std.specs.Prelude.{IfOk, IfSome};
ghost use Rattle.lus_test.specs.Trials.{IsFailure, IsReady};

use crate::error::TableError;
use crate::failing::{Failure, failure_of};
use crate::trial::Subject;
use lus_values::Memory;
use std::alloc::Global;

/// The most instants of all runs that are tried.
const MOST_INSTANTS: usize = 1_000_000;

/// How often instants and then values are tried.
const ROUNDS: usize = 8;

/// How often a length is halved until it is 0.
const HALVES: usize = 64;

/// What is left of the instants that may be tried, and how many runs were kept.
#[derive(Drop)]
struct Tries {
    left: usize,
    kept: usize,
}

/// A run of these numbers, if instants are left for it and the claim fails in it as it did before: for its value, or for the same refusal.
fn tried(
    subject: &Subject<'_>,
    failure: &Failure,
    numbers: Vec<Vec<i64>>,
    tries: &mut Tries,
) -> Result<Option<Failure>, TableError>
    requires { IsReady subject.now }
    ensures { IfOk result (λ o. IfSome o (IsFailure subject.now)) }
{
    let Some(left) = tries.left.checked_sub(numbers.len()) else {
        return Ok(None);
    };
    tries.left = left;
    let trial = subject.run(&numbers)?;
    let Some(found) = failure_of(numbers, trial) else {
        return Ok(None);
    };
    if found.why() != failure.why() {
        return Ok(None);
    }
    tries.kept = tries.kept.saturating_add(1);
    Ok(Some(found))
}

/// Rows without so many from a place on.
fn without(
    alloc: Global,
    numbers: &[Vec<i64>],
    start: usize,
    count: usize,
) -> Result<Vec<Vec<i64>>, Memory> {
    let end = start.saturating_add(count);
    let mut rest = Vec::new(alloc);
    for (place, row) in numbers.iter().enumerate() {
        if place < start || place >= end {
            rest.push(row.to_vec(alloc)?)?;
        }
    }
    Ok(rest)
}

/// Rows with another number in one of them.
fn with_number(
    alloc: Global,
    numbers: &[Vec<i64>],
    at: (usize, usize),
    number: i64,
) -> Result<Vec<Vec<i64>>, Memory> {
    let mut changed = Vec::new(alloc);
    for (place, row) in numbers.iter().enumerate() {
        let mut copy = row.to_vec(alloc)?;
        if place == at.0 {
            if let Some(cell) = copy.get_mut(at.1) {
                *cell = number;
            }
        }
        changed.push(copy)?;
    }
    Ok(changed)
}

/// Drops so many instants together wherever the run still fails.
fn drop_together(
    subject: &Subject<'_>,
    failure: Failure,
    count: usize,
    tries: &mut Tries,
) -> Result<Failure, TableError>
    requires ready { IsReady subject.now }
    requires fails { IsFailure subject.now failure }
    ensures { IfOk result (IsFailure subject.now) }
{
    let mut failure = failure;
    let mut start = 0usize;
    for _part in 0..failure.numbers.len() {
        if start >= failure.numbers.len() {
            break;
        }
        let numbers = without(subject.alloc, &failure.numbers, start, count)?;
        match tried(subject, &failure, numbers, tries)? {
            Some(shorter) => failure = shorter,
            None => start = start.saturating_add(count),
        }
    }
    Ok(failure)
}

/// Drops instants: first many together, and last each by itself.
fn drop_instants(
    subject: &Subject<'_>,
    failure: Failure,
    tries: &mut Tries,
) -> Result<Failure, TableError>
    requires ready { IsReady subject.now }
    requires fails { IsFailure subject.now failure }
    ensures { IfOk result (IsFailure subject.now) }
{
    let mut failure = failure;
    let mut count = failure.numbers.len() / 2;
    for _half in 0..HALVES {
        if count == 0 {
            break;
        }
        failure = drop_together(subject, failure, count, tries)?;
        count /= 2;
    }
    Ok(failure)
}

/// A number half way from another to this one, and one that is next to it on that way.
fn halfway(simplest: i64, number: i64) -> i64 {
    let half = number.abs_diff(simplest) / 2;
    if number < simplest {
        number.saturating_add_unsigned(half)
    } else {
        number.saturating_sub_unsigned(half)
    }
}

fn nearer(simplest: i64, number: i64) -> i64 {
    if number < simplest {
        number.saturating_add(1)
    } else {
        number.saturating_sub(1)
    }
}

/// The run with a simpler number in a row under a column, if there is one with which it still fails.
fn with_simpler(
    subject: &Subject<'_>,
    failure: &Failure,
    at: (usize, usize),
    tries: &mut Tries,
) -> Result<Option<Failure>, TableError>
    requires { IsReady subject.now }
    ensures { IfOk result (λ o. IfSome o (IsFailure subject.now)) }
{
    let (Some(row), Some(column)) = (failure.numbers.get(at.0), subject.columns.get(at.1)) else {
        return Ok(None);
    };
    let number = row.get(at.1).copied().unwrap_or(0);
    let simplest = column.simplest();
    if number == simplest || !column.is_on(row) {
        return Ok(None);
    }
    for simpler in [
        simplest,
        halfway(simplest, number),
        nearer(simplest, number),
    ] {
        if simpler != number {
            let numbers = with_number(subject.alloc, &failure.numbers, at, simpler)?;
            if let Some(simpler) = tried(subject, failure, numbers, tries)? {
                return Ok(Some(simpler));
            }
        }
    }
    Ok(None)
}

/// Makes the number in a row under a column as simple as it may be.
fn simplify_number(
    subject: &Subject<'_>,
    failure: Failure,
    at: (usize, usize),
    tries: &mut Tries,
) -> Result<Failure, TableError>
    requires ready { IsReady subject.now }
    requires fails { IsFailure subject.now failure }
    ensures { IfOk result (IsFailure subject.now) }
{
    let mut failure = failure;
    for _half in 0..HALVES {
        let Some(simpler) = with_simpler(subject, &failure, at, tries)? else {
            break;
        };
        failure = simpler;
    }
    Ok(failure)
}

/// Makes each number as simple as it may be, row by row.
fn simplify_numbers(
    subject: &Subject<'_>,
    failure: Failure,
    tries: &mut Tries,
) -> Result<Failure, TableError>
    requires ready { IsReady subject.now }
    requires fails { IsFailure subject.now failure }
    ensures { IfOk result (IsFailure subject.now) }
{
    let mut failure = failure;
    for row in 0..failure.numbers.len() {
        for column in 0..subject.columns.len() {
            failure = simplify_number(subject, failure, (row, column), tries)?;
        }
    }
    Ok(failure)
}

/// A run in which the claim fails too, as short and as simple as a bounded number of tries finds it.
pub(crate) fn shrink(subject: &Subject<'_>, failure: Failure) -> Result<Failure, TableError>
    requires ready { IsReady subject.now }
    requires fails { IsFailure subject.now failure }
    ensures { IfOk result (IsFailure subject.now) }
{
    let mut tries = Tries {
        left: MOST_INSTANTS,
        kept: 0,
    };
    let mut failure = failure;
    for _round in 0..ROUNDS {
        let kept = tries.kept;
        failure = drop_instants(subject, failure, &mut tries)?;
        failure = simplify_numbers(subject, failure, &mut tries)?;
        if tries.kept == kept {
            return Ok(failure);
        }
    }
    Ok(failure)
}

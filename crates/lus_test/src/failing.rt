//! Random runs, of which the first is sought in which a claim fails.

ghost use Rattle.std.specs.Prelude.{◌≡◌, IfOk, MatchOption, None, Some};
ghost use Rattle.lus_test.specs.Trials.{HaveHeld, IsFailure, IsReady};

use crate::drawing::draw_rows;
use crate::error::TableError;
use crate::trial::{Subject, Trial};
use lus_live_instance::lus_machine::{Reply, Why};
use rand_core::Rng;

/// A run in which the claim fails.
#[derive(Drop)]
pub(crate) struct Failure {
    /// The numbers of the inputs, up to the instant at which it fails.
    pub numbers: Vec<Vec<i64>>,
    pub trial: Trial,
    /// The place of that instant, from 0.
    pub row: usize,
}

/// A random run in which the claim fails, with its number among the runs, from 1.
#[derive(Drop)]
pub(crate) struct Found {
    pub run: u64,
    pub failure: Failure,
}

impl Failure {
    /// Why the step is refused, where it is.
    pub(crate) fn why(&self) -> Option<Why> {
        match self.trial.replies.get(self.row) {
            Some(Reply::Refused(why)) => Some(*why),
            _ => None,
        }
    }
}

/// A run of these numbers, if the claim fails in it.
pub(crate) fn failure_of(numbers: Vec<Vec<i64>>, trial: Trial) -> Option<Failure>
    ensures { MatchOption result (trial.broken ≡ None) (λ f. (f.trial ≡ trial) × (trial.broken ≡ Some f.row)) }
{
    let mut numbers = numbers;
    let row = trial.broken?;
    numbers.truncate(row.saturating_add(1));
    Some(Failure {
        numbers,
        trial,
        row,
    })
}

/// The first of so many random runs, each of so many instants, in which the claim fails.
pub(crate) fn first_failing<R: Rng>(
    subject: &Subject<'_>,
    runs: u64,
    steps: u64,
    random: &mut R,
) -> Result<Option<Found>, TableError>
    requires { IsReady subject.now }
    ensures { IfOk result (λ o. MatchOption o (HaveHeld subject.now runs steps) (λ found. IsFailure subject.now found.failure)) }
{
    for run in 0..runs {
        let numbers = draw_rows(subject.alloc, &subject.columns, steps, random)?;
        let trial = subject.run(&numbers)?;
        match failure_of(numbers, trial) {
            Some(failure) => {
                let run = run.saturating_add(1);
                return Ok(Some(Found { run, failure }));
            }
            None => {}
        }
    }
    Ok(None)
}

//! Runs of a node on which a claim is tried.

ghost use Rattle.std.specs.Prelude.{◌≡◌, IfOk, length, map};
ghost use Rattle.csv.specs.Records.{fields_of};
ghost use Rattle.lus_test.specs.Claims.{broken_from, is_broken};
ghost use Rattle.lus_test.specs.Findings.{told_by};
ghost use Rattle.lus_test.specs.Trials.{IsReady, IsTrialOf};

use crate::columns::Column;
use crate::error::TableError;
use crate::finding::{Outputs, cell_at};
use crate::running::replies_to;
use crate::table::read_steps;
use crate::testing::outputs_of;
use csv::ByteRecord;
use indexmap::IndexSet;
use lus_live_instance::lus_machine::{NodeId, Program, Reply, Request};
use lus_records::bytes_of;
use lus_values::Memory;
use std::alloc::Global;
use std::sync::Arc;

/// The word of a claim that fails.
const FALSE: &[u8] = b"false";

/// A node of a program, with a claim that is tried: the output's column at a place.
#[derive(Drop)]
pub(crate) struct Subject<'p> {
    pub alloc: Global,
    pub program: &'p Arc<Program>,
    pub node: NodeId,
    pub columns: Vec<Column>,
    /// The names of the inputs' columns, and the same as the head of a table.
    pub names: ByteRecord,
    pub head: IndexSet<String>,
    pub claim: usize,
}

/// What came of a run.
#[derive(Drop)]
pub(crate) struct Trial {
    /// The cells of the inputs, a record for each instant.
    pub rows: Vec<ByteRecord>,
    /// The steps that these are.
    pub steps: Vec<Request>,
    pub replies: Vec<Reply>,
    /// The place of the first reply in which the claim fails.
    pub broken: Option<usize>,
}

/// Whether a claim fails in a reply: it is false, or the step is refused.
fn is_broken(outputs: &Outputs<'_>, claim: usize, reply: &Reply) -> Result<bool, Memory>
    ensures { IfOk result (λ b. b ≡ is_broken claim (told_by outputs.now reply.now)) }
{
    let Some(told) = outputs.told(reply)? else {
        return Ok(true);
    };
    let words = bytes_of(outputs.alloc, &told)?;
    Ok(cell_at(&words, claim) == FALSE)
}

/// The place of the first of these replies in which a claim fails.
fn broken_at(
    outputs: &Outputs<'_>,
    claim: usize,
    replies: &[Reply],
) -> Result<Option<usize>, Memory>
    ensures { IfOk result (λ o. o ≡ broken_from 0 (told_by outputs.now) claim replies.now) }
{
    for (row, reply) in replies.iter().enumerate() {
        if is_broken(outputs, claim, reply)? {
            return Ok(Some(row));
        }
    }
    Ok(None)
}

impl Subject<'_> {
    /// The cells of a row: an input is absent where its clock is.
    fn record_of(&self, row: &[i64]) -> Result<ByteRecord, Memory> {
        let names = self.program.names();
        let mut record = ByteRecord::new(self.alloc);
        for (column, number) in self.columns.iter().zip(row) {
            if column.is_on(row) {
                let word = column.word(self.alloc, names, *number)?;
                record.push_field(word.as_bytes())?;
            } else {
                record.push_field(b"")?;
            }
        }
        Ok(record)
    }

    /// The cells of rows.
    fn records_of(&self, numbers: &[Vec<i64>]) -> Result<Vec<ByteRecord>, Memory>
        ensures { IfOk result (λ v. length v.items ≡ length numbers.now) }
    {
        let mut records = Vec::new(self.alloc);
        for row in numbers {
            records.push(self.record_of(row)?)?;
        }
        Ok(records)
    }

    /// Runs a new instance of the node on rows of numbers.
    pub(crate) fn run(&self, numbers: &[Vec<i64>]) -> Result<Trial, TableError>
        requires { IsReady self.now }
        ensures trial { IfOk result (λ t. IsTrialOf self.now (map fields_of t.rows.items) t.steps.items t.replies.items t.broken) }
        ensures long { IfOk result (λ t. length t.rows.items ≡ length numbers.now) }
    {
        let rows = self.records_of(numbers)?;
        let steps = read_steps(self.alloc, self.program, self.node, &self.head, &rows)?;
        let replies = replies_to(self.alloc, self.program, self.node, &steps)?;
        let outputs = outputs_of(self.alloc, self.program, self.node);
        let broken = broken_at(&outputs, self.claim, &replies)?;
        Ok(Trial {
            rows,
            steps,
            replies,
            broken,
        })
    }
}

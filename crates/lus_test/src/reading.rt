//! Records of comma-separated values, as the kit's reader finds them.

ghost use Rattle.std.specs.Prelude.{IfOk, map};
ghost use Rattle.csv.specs.Records.{fields_of};
ghost use Rattle.lus_test.specs.Tables.{AreRecordsOf};

use csv::{ByteRecord, ReaderBuilder};
use lus_values::Memory;
use std::alloc::Global;

/// The records of a text, however many cells each has. Blank lines are none.
pub fn read_records(alloc: Global, text: &[u8]) -> Result<Vec<ByteRecord>, Memory>
    ensures { IfOk result (λ v. AreRecordsOf text.now (map fields_of v.items)) }
{
    let reader = ReaderBuilder::new()
        .has_headers(false)
        .flexible(true)
        .from_reader(alloc, text);
    let mut records = Vec::new(alloc);
    for record in reader.into_byte_records() {
        let Ok(record) = record else {
            return Err(Memory);
        };
        records.push(record)?;
    }
    Ok(records)
}

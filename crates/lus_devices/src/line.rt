//! The lines of a journal.

ghost use Rattle.std.specs.Prelude.{◌≡◌, ◌++◌, OnOk, IfOk, map, string_bytes};
ghost use Rattle.lus_values.specs.View.{entry_of};
ghost use Rattle.lus_devices.specs.Journals.{caller_name, item_text, items_text, line_text, listed_rows_text, reply_text, request_text, row_text, rows_text, why_text};

use lus_requests::{Entry, Reply, Request, Rows, Why};
use lus_values::{Memory, Names, Row, Value, push_value};

fn push_item(line: &mut String, names: &Names, item: &Option<Value>) -> Result<(), Memory>
    ensures { OnOk result (string_bytes line.new ≡ string_bytes line.old ++ item_text names.now (entry_of item.now)) }
{
    match item {
        Some(value) => push_value(line, value, names),
        None => Ok(line.push_str("-")?),
    }
}

fn push_items(line: &mut String, names: &Names, items: &[Option<Value>]) -> Result<(), Memory>
    ensures { OnOk result (string_bytes line.new ≡ string_bytes line.old ++ items_text names.now (map entry_of items.now)) }
{
    let [first, later @ ..] = items else {
        return Ok(());
    };
    push_item(line, names, first)?;
    for item in later {
        line.push_str(", ")?;
        push_item(line, names, item)?;
    }
    Ok(())
}

/// Appends the text of a row, as `(18, -, true)`. After `Memory` a part of it may have been appended.
pub fn push_row(line: &mut String, names: &Names, row: &Row) -> Result<(), Memory>
    ensures { OnOk result (string_bytes line.new ≡ string_bytes line.old ++ row_text names.now row.now) }
{
    line.push_str("(")?;
    push_items(line, names, row.items())?;
    line.push_str(")")?;
    Ok(())
}

fn push_listed_rows(line: &mut String, names: &Names, rows: &[Row]) -> Result<(), Memory>
    ensures { OnOk result (string_bytes line.new ≡ string_bytes line.old ++ listed_rows_text names.now rows.now) }
{
    let [first, later @ ..] = rows else {
        return Ok(());
    };
    push_row(line, names, first)?;
    for row in later {
        line.push_str(", ")?;
        push_row(line, names, row)?;
    }
    Ok(())
}

fn push_rows(line: &mut String, names: &Names, rows: &Rows) -> Result<(), Memory>
    ensures { OnOk result (string_bytes line.new ≡ string_bytes line.old ++ rows_text names.now rows.now) }
{
    line.push_str("(")?;
    push_listed_rows(line, names, rows.items())?;
    line.push_str(")")?;
    Ok(())
}

fn push_request(line: &mut String, names: &Names, request: &Request) -> Result<(), Memory>
    ensures { OnOk result (string_bytes line.new ≡ string_bytes line.old ++ request_text names.now request.now) }
{
    match request {
        Request::Step(inputs) => {
            line.push_str("step")?;
            push_row(line, names, inputs)?;
        }
        Request::Reset => line.push_str("reset")?,
        Request::Save(slot) => write!(line, "save {slot}")?,
        Request::Restore(slot) => write!(line, "restore {slot}")?,
        Request::Burst(rows) => {
            line.push_str("burst")?;
            push_rows(line, names, rows)?;
        }
    }
    Ok(())
}

fn push_why(line: &mut String, why: Why) -> Result<(), Memory>
    ensures { OnOk result (string_bytes line.new ≡ string_bytes line.old ++ why_text why) }
{
    line.push_str(match why {
        Why::Shape => "refused shape",
        Why::Presence => "refused presence",
        Why::Fault => "refused fault",
        Why::NoSave => "refused nosave",
    })?;
    Ok(())
}

fn push_reply(line: &mut String, names: &Names, reply: &Reply) -> Result<(), Memory>
    ensures { OnOk result (string_bytes line.new ≡ string_bytes line.old ++ reply_text names.now reply.now) }
{
    match reply {
        Reply::Outputs(row) => push_row(line, names, row),
        Reply::Rows(rows) => push_rows(line, names, rows),
        Reply::Done => Ok(line.push_str("done")?),
        Reply::Refused(why) => push_why(line, *why),
    }
}

/// The name of a caller, by its place from 0.
fn caller_name(callers: &[String], caller: u32) -> &str
    ensures { result.now ≡ caller_name (map string_bytes callers.now) caller }
{
    match callers.get(caller as usize) {
        Some(name) => name.as_str(),
        None => "",
    }
}

/// Appends the nth entry of an instance. After `Memory` a part of it may have been appended.
pub fn push_line(
    line: &mut String,
    names: &Names,
    callers: &[String],
    number: u64,
    entry: &Entry,
) -> Result<(), Memory>
    ensures { OnOk result (string_bytes line.new
        ≡ string_bytes line.old ++ line_text names.now (map string_bytes callers.now) number entry.now) }
{
    let caller = caller_name(callers, entry.caller);
    write!(line, "{number} {caller} ")?;
    push_request(line, names, &entry.request)?;
    line.push_str(" -> ")?;
    push_reply(line, names, &entry.reply)?;
    line.push_str("\n")?;
    Ok(())
}

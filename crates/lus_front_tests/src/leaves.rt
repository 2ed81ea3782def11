//! A row, rows, a request, a reply and an entry, there and back.

use lus_leaves::{
    Answer, EntryOut, Leaf, request_of, row_of, rows_of, write_entry, write_reply, write_row,
    write_rows,
};
use lus_requests::{Entry, Reply, Request, Why};
use lus_values::Memory;
use std::alloc::Global;
use std::test::Fail;

fn leaf(kind: u32, of: u32, number: i64) -> Leaf {
    Leaf { kind, of, number }
}

/// What a leaf has, as one value that can be compared.
fn parts(leaf: Leaf) -> (u32, u32, i64) {
    (leaf.kind, leaf.of, leaf.number)
}

/// A structure of a number and of a constructor, an absent entry and a truth; and a leaf of no kind.
const LEAVES: [Leaf; 6] = [
    Leaf {
        kind: 4,
        of: 0,
        number: 2,
    },
    Leaf {
        kind: 2,
        of: 0,
        number: -7,
    },
    Leaf {
        kind: 3,
        of: 1,
        number: 2,
    },
    Leaf {
        kind: 0,
        of: 0,
        number: 0,
    },
    Leaf {
        kind: 1,
        of: 0,
        number: 1,
    },
    UNTOUCHED,
];

/// What stands in room before it is written to.
const UNTOUCHED: Leaf = Leaf {
    kind: 9,
    of: 9,
    number: 9,
};

/// Four numbers.
fn numbers() -> [Leaf; 4] {
    [leaf(2, 0, 1), leaf(2, 0, 2), leaf(2, 0, 3), leaf(2, 0, 4)]
}

fn are_same(found: &[Leaf], wanted: &[Leaf]) -> bool {
    for (found, wanted) in found.iter().zip(wanted) {
        if parts(*found) != parts(*wanted) {
            return false;
        }
    }
    found.len() == wanted.len()
}

/// Whether all but the last leaf is read as a row of three, which is written as they are, and no more.
fn is_row_back(alloc: Global) -> Result<bool, Memory> {
    let Some(row) = row_of(alloc, &LEAVES[..5])? else {
        return Ok(false);
    };
    let mut room = [UNTOUCHED; 6];
    let count = write_row(&mut room, &row);
    Ok(count == 5 && row.items().len() == 3 && are_same(&room, &LEAVES))
}

/// Whether numbers are read as two rows, which are written as they are.
fn are_rows_back(alloc: Global) -> Result<bool, Memory> {
    let Some(rows) = rows_of(alloc, &numbers(), 2)? else {
        return Ok(false);
    };
    let mut room = [UNTOUCHED; 4];
    let count = write_rows(&mut room, &rows);
    Ok(count == 4 && are_same(&room, &numbers()))
}

/// Whether a leaf of no kind is no row, four numbers are no three rows, and a kind of no request is none.
fn are_none(alloc: Global) -> Result<bool, Memory> {
    let no_row = row_of(alloc, &[leaf(5, 0, 0)])?.is_none();
    let no_rows = rows_of(alloc, &numbers(), 3)?.is_none();
    let no_request = request_of(alloc, 6, 0, &[])?.is_none();
    Ok(no_row && no_rows && no_request)
}

/// Whether a restore that was refused is told, and nothing beside it.
fn is_told(out: EntryOut) -> bool {
    let EntryOut {
        caller,
        request,
        slot,
        reply,
        why,
        inputs,
        outputs,
    } = out;
    let asked = caller == 2 && request == 3 && slot == 5;
    let replied = reply == 3 && why == 3;
    asked && replied && inputs == 0 && outputs == 0
}

/// Whether the entry of a restore that was refused is told.
fn is_entry_told(alloc: Global) -> Result<bool, Memory> {
    let Some(request) = request_of(alloc, 3, 5, &[])? else {
        return Ok(false);
    };
    let entry = Entry {
        caller: 2,
        request,
        reply: Reply::Refused(Why::Fault),
    };
    let mut out = EntryOut {
        caller: 0,
        request: 0,
        slot: 0,
        reply: 0,
        why: 0,
        inputs: 9,
        outputs: 9,
    };
    write_entry(&mut out, &mut [], &mut [], &entry);
    Ok(is_told(out))
}

/// Whether a reply without outputs is told.
fn is_done_told() -> bool {
    let mut answer = Answer {
        kind: 0,
        why: 9,
        count: 9,
    };
    write_reply(&mut answer, &mut [], &Reply::Done);
    let Answer { kind, why, count } = answer;
    kind == 2 && why == 0 && count == 0
}

#[test]
fn rows_are_read_and_written(rt: HostRuntime) -> Result<(), Fail> {
    let alloc = rt.alloc();
    assert!(rt; is_row_back(alloc)?);
    assert!(rt; are_rows_back(alloc)?);
    assert!(rt; are_none(alloc)?);
    Ok(())
}

#[test]
fn requests_are_read_and_entries_written(rt: HostRuntime) -> Result<(), Fail> {
    assert!(rt; is_entry_told(rt.alloc())?);
    assert!(rt; is_done_told());
    Ok(())
}

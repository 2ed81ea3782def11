//! Runs of callers on threads of their own, over seats and over locks: what each leaves.

use crate::meeting::Meeting;
use crate::promises::run_served;
use lus_callers::lus_machine::{Program, compile};
use lus_callers::lus_shared::{Journal, LockedNode};
use lus_callers::{Call, Caller, Journals, fit, run_callers};
use lus_program::NodeId;
use lus_requests::{Entry, Reply, Request};
use lus_values::{Memory, Row, Value};
use std::alloc::Global;
use std::sync::{Arc, Wait};
use std::test::Fail;
use std::thread::Threads;

/// A node that counts its steps, and one that counts those of its steps at which its input is true.
const TEXT: &str =
    "node t() returns (n: int); let n = 0 -> pre n + 1; tel\nnode o(c: bool) returns (y: int when c); let y = t(); tel\n";

/// A call.
#[derive(Clone, Copy)]
enum Asked {
    /// The next instant, without inputs.
    Step,
    /// The next instant, with this input.
    StepWith(bool),
    Save(u64),
}

/// What stands in an entry: the number that a step gave, none where the output was absent, or a save.
#[derive(Clone, Copy)]
enum Left {
    Count(Option<i64>),
    Saved(u64),
}

/// The entries of an instance.
#[derive(Clone, Copy)]
enum Wanted {
    /// These, each of this caller, or of any.
    Entries(&'static [(Option<u32>, Left)]),
    /// So many, which count from 0.
    Counted(usize),
}

/// Instances of nodes, the calls that each caller makes on them, all of them so many times, how many callers meet before their
/// calls, and what each instance is left with.
struct Case {
    instances: &'static [NodeId],
    callers: &'static [&'static [(usize, Asked)]],
    times: u32,
    meeting: u32,
    wanted: &'static [Wanted],
}

/// Both nodes, and one of them twice.
const BOTH: &[NodeId] = &[NodeId(0), NodeId(1)];

const TWINS: &[NodeId] = &[NodeId(0), NodeId(0)];

static CASES: [Case; 8] = [
    // Instances are told apart.
    Case {
        instances: BOTH,
        callers: &[
            &[
                (0, Asked::Save(5)),
                (1, Asked::Save(6)),
                (0, Asked::Save(7)),
            ],
            &[],
        ],
        times: 1,
        meeting: 0,
        wanted: &[
            Wanted::Entries(&[(Some(0), Left::Saved(5)), (Some(0), Left::Saved(7))]),
            Wanted::Entries(&[(Some(0), Left::Saved(6))]),
        ],
    },
    // Nodes are told apart: the second counts its steps with a true input.
    Case {
        instances: BOTH,
        callers: &[&[
            (0, Asked::Step),
            (1, Asked::StepWith(true)),
            (0, Asked::Step),
            (1, Asked::StepWith(false)),
        ]],
        times: 1,
        meeting: 0,
        wanted: &[
            Wanted::Counted(2),
            Wanted::Entries(&[
                (Some(0), Left::Count(Some(0))),
                (Some(0), Left::Count(None)),
            ]),
        ],
    },
    // Callers share an instance, and leave the other.
    Case {
        instances: BOTH,
        callers: &[&[(0, Asked::Step)], &[(0, Asked::Step)]],
        times: 1_000,
        meeting: 0,
        wanted: &[Wanted::Counted(2_000), Wanted::Counted(0)],
    },
    // Nobody calls.
    Case {
        instances: BOTH,
        callers: &[],
        times: 1,
        meeting: 0,
        wanted: &[Wanted::Counted(0), Wanted::Counted(0)],
    },
    // There is nothing to call.
    Case {
        instances: &[],
        callers: &[&[]],
        times: 1,
        meeting: 0,
        wanted: &[],
    },
    // Callers overlap, each on an instance of its own, which is at its start.
    Case {
        instances: TWINS,
        callers: &[&[(0, Asked::Step)], &[(1, Asked::Step)]],
        times: 1,
        meeting: 2,
        wanted: &[
            Wanted::Entries(&[(Some(0), Left::Count(Some(0)))]),
            Wanted::Entries(&[(Some(1), Left::Count(Some(0)))]),
        ],
    },
    // Callers overlap on one instance, and the second is answered first.
    Case {
        instances: BOTH,
        callers: &[&[(0, Asked::Step)], &[(0, Asked::Step)]],
        times: 1,
        meeting: 2,
        wanted: &[
            Wanted::Entries(&[
                (Some(1), Left::Count(Some(0))),
                (Some(0), Left::Count(Some(1))),
            ]),
            Wanted::Counted(0),
        ],
    },
    // Four callers overlap on it: the last is answered first, and then the others in some order.
    Case {
        instances: BOTH,
        callers: &[
            &[(0, Asked::Step)],
            &[(0, Asked::Step)],
            &[(0, Asked::Step)],
            &[(0, Asked::Step)],
        ],
        times: 1,
        meeting: 4,
        wanted: &[
            Wanted::Entries(&[
                (Some(3), Left::Count(Some(0))),
                (None, Left::Count(Some(1))),
                (None, Left::Count(Some(2))),
                (None, Left::Count(Some(3))),
            ]),
            Wanted::Counted(0),
        ],
    },
];

/// The program of both nodes. The text is right, so it is refused only where memory is out.
fn a_program(alloc: Global) -> Result<Arc<Program>, Memory> {
    let Ok(program) = compile(alloc, TEXT) else {
        return Err(Memory);
    };
    Ok(Arc::new(alloc, program)?)
}

fn request_of(alloc: Global, asked: Asked) -> Result<Request, Memory> {
    let mut items = Vec::new(alloc);
    match asked {
        Asked::Step => {}
        Asked::StepWith(input) => items.push(Some(Value::Bool(input)))?,
        Asked::Save(slot) => return Ok(Request::Save(slot)),
    }
    Ok(Request::Step(Row::new(items)))
}

fn callers_of(alloc: Global, case: &Case) -> Result<Vec<Caller>, Memory> {
    let mut callers = Vec::new(alloc);
    for script in case.callers {
        let mut calls = Vec::new(alloc);
        for _ in 0..case.times {
            for (on, asked) in *script {
                let request = request_of(alloc, *asked)?;
                calls.push(Call { on: *on, request })?;
            }
        }
        callers.push(Caller { calls })?;
    }
    Ok(callers)
}

/// Whether an entry has this.
fn leaves(entry: &Entry, left: Left) -> bool {
    match (left, &entry.request, &entry.reply) {
        (Left::Saved(slot), Request::Save(saved), Reply::Done) => *saved == slot,
        (Left::Count(count), Request::Step(_), Reply::Outputs(row)) => match (row.items(), count) {
            ([Some(Value::Int(found))], Some(number)) => *found == number,
            ([None], None) => true,
            _ => false,
        },
        _ => false,
    }
}

/// Whether an instance has these entries.
fn is_left(journal: &Journal, wanted: Wanted) -> bool {
    let entries = journal.entries.as_slice();
    match wanted {
        Wanted::Counted(count) => {
            entries.len() == count
                && entries.iter().enumerate().all(|(place, entry)| leaves(
                    entry,
                    Left::Count(Some(place as i64)),
                ))
        }
        Wanted::Entries(wanted) => {
            entries.len() == wanted.len()
                && entries.iter().zip(wanted).all(|(entry, (caller, left))| {
                    leaves(entry, *left) && caller.is_none_or(|caller| caller == entry.caller)
                })
        }
    }
}

/// Whether a caller made all of its calls on each instance.
fn is_shared(shares: &[u32], caller: &Caller) -> bool {
    shares.iter().enumerate().all(|(instance, share)| {
        let calls = caller.calls.iter().filter(|call| call.on == instance);
        calls.count() == *share as usize
    })
}

/// Whether each caller made all of its calls, and was told of them in turn.
fn are_shared(done: &Journals, callers: &[Caller], gate: &Meeting) -> bool {
    let mut pairs = done.shares.iter().zip(callers).enumerate();
    done.shares.len() == callers.len()
        && done.wants.len() == callers.len()
        && done.wants.iter().all(|want| want.is_none())
        && pairs.all(|(place, (shares, caller))| {
            is_shared(shares, caller) && gate.told(place) == caller.calls.len() as u64 * 2
        })
}

/// Whether a run went as its case says.
fn is_done(done: &Journals, case: &Case, callers: &[Caller], gate: &Meeting) -> bool {
    let mut pairs = done.journals.iter().zip(case.wanted);
    done.journals.len() == case.wanted.len()
        && pairs.all(|(journal, wanted)| is_left(journal, *wanted))
        && are_shared(done, callers, gate)
        && gate.was_kept()
}

/// Whether a run over seats goes as its case says.
fn goes_over_seats<R: Threads + Wait + Sync>(
    rt: &R,
    alloc: Global,
    program: &Arc<Program>,
    case: &Case,
    callers: &[Caller],
) -> bool {
    let gate = Meeting::of(case.meeting);
    if !fit(program, case.instances, callers) {
        return false;
    }
    match run_served(rt, alloc, program, case.instances, callers, &gate) {
        Ok(done) => is_done(&done, case, callers, &gate),
        Err(_) => false,
    }
}

/// Whether a run over locks goes as its case says.
fn goes_over_locks<R: Threads + Wait + Sync>(
    rt: &R,
    alloc: Global,
    program: &Arc<Program>,
    case: &Case,
    callers: &[Caller],
) -> bool {
    let gate = Meeting::of(case.meeting);
    if !fit(program, case.instances, callers) {
        return false;
    }
    match run_callers::<LockedNode, Meeting, R>(
        rt,
        alloc,
        program,
        case.instances,
        callers,
        &gate,
    ) {
        Ok(done) => is_done(&done, case, callers, &gate),
        Err(_) => false,
    }
}

#[test]
fn runs_leave_what_they_should(rt: HostRuntime) -> Result<(), Fail> {
    let alloc = rt.alloc();
    let program = a_program(alloc)?;
    for (place, case) in CASES.iter().enumerate() {
        let callers = callers_of(alloc, case)?;
        assert!(&rt;
            goes_over_seats(&rt, alloc, &program, case, &callers),
            "case {place}"
        );
        assert!(&rt;
            goes_over_locks(&rt, alloc, &program, case, &callers),
            "case {place}"
        );
    }
    Ok(())
}

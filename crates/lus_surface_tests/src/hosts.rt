//! `lus_host`.

use lus_cli::lus_host::lus_callers::lus_shared::Journal;
use lus_cli::lus_host::{
    CallError, Fits, Gate, HostError, Journals, Program, RunError, ScriptRefusal, Scripts, Shared,
    Sink, Source, check, read_scripts, run, run_callers,
};
use std::alloc::Global;
use std::sync::{Arc, Wait};
use std::thread::Threads;

/// Scripts of a program, and whether they fit it.
pub fn read_and_fit(
    alloc: Global,
    program: &Program,
    bytes: &[u8],
) -> Result<(Scripts, bool), ScriptRefusal> {
    let scripts: Scripts = read_scripts(alloc, program, bytes)?;
    let fits: bool = Scripts::fits(&scripts, program);
    Ok((scripts, fits))
}

/// A run of scripts over nodes of either kind, where they fit the program.
pub fn run_scripts<N: Shared + Sync + Drop, G: Gate + Sync, R: Threads + Wait + Sync>(
    rt: &R,
    alloc: Global,
    program: &Arc<Program>,
    scripts: &Scripts,
    gate: &G,
) -> Option<Result<Journals, HostError>>
where
    N::Seat: Send + Drop,
{
    if scripts.fits(program) {
        Some(run_callers::<N, G, R>(rt, alloc, program, scripts, gate))
    } else {
        None
    }
}

/// How many entries, shares and wants a run has left.
pub fn count_wants(ran: &Journals) -> (usize, usize, usize) {
    let journals: &Vec<Journal> = &ran.journals;
    let shares: &Vec<Vec<u32>> = &ran.shares;
    let wants: &Vec<Option<CallError>> = &ran.wants;
    (journals.len(), shares.len(), wants.len())
}

/// A check of a program.
pub fn check_bytes<P: Source, O: Sink, R>(
    rt: &R,
    alloc: Global,
    program: &mut P,
    output: &mut O,
) -> Result<(), RunError> {
    check(rt, alloc, program, output)
}

/// A run of a program with scripts.
pub fn run_bytes<P: Source, S: Source, O: Sink, G: Gate + Sync, R: Threads + Wait + Sync>(
    rt: &R,
    alloc: Global,
    program: &mut P,
    scripts: &mut S,
    output: &mut O,
    gate: &G,
) -> Result<bool, RunError> {
    run(rt, alloc, program, scripts, output, gate)
}

//! `lus_cli`.

use lus_cli::lus_host::Sink;
use lus_cli::{command, command_in};
use lus_devices::Folder;
use std::alloc::Global;
use std::rt::Files;
use std::sync::Wait;
use std::thread::Threads;

/// The status of a command over the files of the machine.
pub fn run_command<O: Sink, F: Sink, R: Files + Threads + Wait + Sync>(
    rt: &R,
    alloc: Global,
    words: &[String],
    output: &mut O,
    faults: &mut F,
) -> u8 {
    command(rt, alloc, words, output, faults)
}

/// The same over those of a folder.
pub fn run_file<D: Folder, O: Sink, F: Sink, R: Threads + Wait + Sync>(
    rt: &R,
    alloc: Global,
    folder: &D,
    words: &[String],
    output: &mut O,
    faults: &mut F,
) -> u8 {
    command_in(rt, alloc, folder, words, output, faults)
}

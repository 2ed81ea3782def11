//! What the tools that take lines as calls share.

ghost use Rattle.std.specs.Prelude.{◌≡◌};
ghost use Rattle.lus_cli.specs.Programs.{lines_status};

use lus_devices::{Sink, write_all};
use lus_host::Program;

/// The status where all lines were read, by how many of them are no calls: 2 where one is none.
pub fn lines_status(refused: u64) -> u8
    ensures { result ≡ lines_status refused }
{
    if refused == 0 { 0 } else { 2 }
}

/// Says which nodes a program has, where another is named. What can't be written changes nothing.
pub fn tell_nodes<F: Sink>(program: &Program, faults: &mut F) {
    let mut before = "note: the program's nodes: ";
    for node in program.source().nodes.iter() {
        let _ = write_all(faults, before.as_bytes());
        let _ = write_all(faults, node.name.as_bytes());
        before = ", ";
    }
    let _ = write_all(faults, b"\n");
}

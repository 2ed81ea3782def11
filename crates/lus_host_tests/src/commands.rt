//! What clauses can't show of commands over devices that give and take a byte at a time and fail: their status, and what is written.
//! How commands end over files is in `rows/`.

ghost use Rattle.std.specs.Prelude.{None};

use lus_cli::command_in;
use lus_devices::{Failure, Folder, Sink, Source};
use std::sync::Wait;
use std::test::Fail;
use std::thread::Threads;

const PROGRAM: &str = "node m(a: int; b: int) returns (y: int); let y = a * b + 1; tel\n";

const SCRIPTS: &str =
    r#"{"instances":[{"name":"k","node":"m"}],"callers":[{"name":"a","calls":[{"on":"k","step":[2,3]},{"on":"k","step":[-4,5]}]}]}"#;

const JOURNAL: &str = "instance k m\n1 a step(2, 3) -> (7)\n2 a step(-4, 5) -> (-19)\nentries 2\n";

const ACCEPTED: &str = "accepted 1\n";

const CHECK: &[&str] = &["--check", "m.lus"];

const RUN: &[&str] = &["m.lus", "m.json"];

/// More reads or writes than any test makes.
const AMPLE: usize = 1000;

/// Gives a byte a read, until no more reads are left that succeed.
#[derive(Drop)]
struct Slow {
    bytes: &'static [u8],
    reads: usize,
}

impl Source for Slow {
    ghost left = { λ _. None };

    ghost failures = { λ _. None };

    fn read(&mut self, buffer: &mut [u8]) -> Result<usize, Failure> {
        if self.reads == 0 {
            return Err(Failure);
        }
        self.reads -= 1;
        let [first, later @ ..] = self.bytes else {
            return Ok(0);
        };
        if buffer.is_empty() {
            return Ok(0);
        }
        buffer[0] = *first;
        self.bytes = later;
        Ok(1)
    }
}

/// Takes a byte a write, until no more writes are left that succeed. Then it answers a failure, or takes none.
#[derive(Drop)]
struct Narrow {
    bytes: Vec<u8>,
    writes: usize,
    is_silent: bool,
}

impl Sink for Narrow {
    ghost written = { λ _. None };

    ghost failures = { λ _. None };

    fn write(&mut self, piece: &[u8]) -> Result<usize, Failure> {
        let [first, ..] = piece else {
            return Ok(0);
        };
        if self.writes == 0 || self.bytes.push(*first).is_err() {
            return if self.is_silent { Ok(0) } else { Err(Failure) };
        }
        self.writes -= 1;
        Ok(1)
    }
}

/// A folder with a program `m.lus` and scripts `m.json`, or with no file; how many reads of each and writes of the output and of the
/// line of a fault succeed; and whether a write that fails takes none in place of a failure.
#[derive(Clone, Copy)]
struct Setting {
    is_empty: bool,
    program: usize,
    scripts: usize,
    output: usize,
    line: usize,
    is_silent: bool,
}

impl Folder for Setting {
    type File = Slow;

    ghost known = { λ _ _. None };

    fn open(&self, name: &str) -> Result<Slow, Failure> {
        let (text, reads) = if name == "m.lus" {
            (PROGRAM, self.program)
        } else {
            (SCRIPTS, self.scripts)
        };
        if self.is_empty {
            return Err(Failure);
        }
        Ok(Slow {
            bytes: text.as_bytes(),
            reads,
        })
    }
}

/// Nothing fails.
const WHOLE: Setting = Setting {
    is_empty: false,
    program: AMPLE,
    scripts: AMPLE,
    output: AMPLE,
    line: AMPLE,
    is_silent: false,
};

/// Whether a command ends with this status, having written this output and this line of a fault.
fn ends<R: AllocGlobal + Threads + Wait + Sync>(
    rt: &R,
    words: &[&str],
    setting: Setting,
    status: u8,
    output: &[u8],
    line: &[u8],
) -> Result<bool, Fail> {
    let alloc = rt.alloc();
    let mut owned = Vec::new(alloc);
    for word in words {
        owned.push(String::from_str(alloc, word)?)?;
    }
    let mut written = Narrow {
        bytes: Vec::new(alloc),
        writes: setting.output,
        is_silent: setting.is_silent,
    };
    let mut told = Narrow {
        bytes: Vec::new(alloc),
        writes: setting.line,
        is_silent: setting.is_silent,
    };
    let ended = command_in(rt, alloc, &setting, &owned, &mut written, &mut told);
    Ok(ended == status && written.bytes.as_slice() == output && told.bytes.as_slice() == line)
}

#[test]
fn a_failed_output_leaves_a_beginning(rt: HostRuntime) -> Result<(), Fail> {
    for is_silent in [false, true] {
        for (words, text) in [(CHECK, ACCEPTED), (RUN, JOURNAL)] {
            let text = text.as_bytes();
            let whole = Setting { is_silent, ..WHOLE };
            assert!(&rt; ends(&rt, words, whole, 0, text, b"")?);
            for output in 0..text.len() {
                let setting = Setting { output, ..whole };
                assert!(&rt;
                    ends(&rt, words, setting, 3, &text[..output], b"error output\n")?,
                    "{output}"
                );
            }
        }
    }
    Ok(())
}

#[test]
fn a_failed_read_is_a_fault_of_a_file(rt: HostRuntime) -> Result<(), Fail> {
    for words in [CHECK, RUN] {
        for program in 0..=PROGRAM.len() {
            let setting = Setting { program, ..WHOLE };
            assert!(&rt;
                ends(&rt, words, setting, 3, b"", b"error file\n")?,
                "{program}"
            );
        }
    }
    for scripts in 0..=SCRIPTS.len() {
        // (a read that fails comes before a write that would)
        let setting = Setting {
            scripts,
            output: 0,
            ..WHOLE
        };
        assert!(&rt;
            ends(&rt, RUN, setting, 3, b"", b"error file\n")?,
            "{scripts}"
        );
    }
    Ok(())
}

#[test]
fn a_failed_line_changes_no_status(rt: HostRuntime) -> Result<(), Fail> {
    let text = b"error file\n".as_slice();
    for line in 0..text.len() {
        let setting = Setting {
            is_empty: true,
            line,
            ..WHOLE
        };
        assert!(&rt; ends(&rt, CHECK, setting, 3, b"", &text[..line])?, "{line}");
    }
    Ok(())
}

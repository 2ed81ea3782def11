//! A run in which callers overlap.

use lus_cli::lus_host::{Gate, run};
use std::sync::atomic::{AtomicU64, Ordering};
use std::test::Fail;
use std::thread;

/// A gate at which two callers meet; then the first one waits until the second one is answered. A wait ends after a million
/// turns at most, and is then late.
#[derive(Drop)]
struct SecondFirst {
    signs: AtomicU64,
    answered: AtomicU64,
    late: AtomicU64,
}

impl SecondFirst {
    fn wait_for(&self, word: &AtomicU64, wanted: u64) {
        for _ in 0..1_000_000u32 {
            if word.load(Ordering::SeqCst) >= wanted {
                return;
            }
            thread::yield_now();
        }
        self.late.store(1, Ordering::SeqCst);
    }
}

impl Gate for SecondFirst {
    fn before(&self, caller: u32, _call: u32) {
        self.signs.fetch_add(1, Ordering::SeqCst);
        self.wait_for(&self.signs, 2);
        if caller == 0 {
            self.wait_for(&self.answered, 1);
        }
    }

    fn answered(&self, caller: u32, _call: u32) {
        if caller == 1 {
            self.answered.store(1, Ordering::SeqCst);
        }
    }
}

const PROGRAM: &str = "node t() returns (n: int); let n = 0 -> pre n + 1; tel\n";

const SCRIPTS: &str =
    r#"{"instances":[{"name":"k","node":"t"}],"callers":[{"name":"a","calls":[{"on":"k","step":[]}]},{"name":"b","calls":[{"on":"k","step":[]}]}]}"#;

const JOURNAL: &str = "instance k t\n1 b step() -> (0)\n2 a step() -> (1)\nentries 2\n";

#[test]
fn the_second_caller_is_answered_first(rt: HostRuntime) -> Result<(), Fail> {
    let alloc = rt.alloc();
    let mut program = PROGRAM.as_bytes();
    let mut scripts = SCRIPTS.as_bytes();
    let mut output = Vec::new(alloc);
    let gate = SecondFirst {
        signs: AtomicU64::new(0),
        answered: AtomicU64::new(0),
        late: AtomicU64::new(0),
    };
    let Ok(done) = run(&rt, alloc, &mut program, &mut scripts, &mut output, &gate) else {
        panic!(&rt; "the program and the scripts are right")
    };
    assert!(&rt; done && gate.late.load(Ordering::SeqCst) == 0);
    assert_eq!(rt; output.as_slice(), JOURNAL.as_bytes());
    Ok(())
}

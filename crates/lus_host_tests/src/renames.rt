//! Renamings: one call for each outcome, with values from outside.

use lus_rename::{RenameError, renamed};
use std::alloc::Global;
use std::test::Fail;

/// Its input's name is at byte 20, where the constant's name would hide the constant.
const SOURCE: &str = "const c = 1; node n(x: int) returns (y: int); let y = x + c; tel";

const RENAMED: &str = "const c = 1; node n(level: int) returns (y: int); let y = level + c; tel";

/// Refused for its type (E5).
const REFUSED: &str = "node n(x: int) returns (y: bool); let y = x; tel";

const STILL_REFUSED: &str = "node n(a: int) returns (y: bool); let y = a; tel";

/// What a renaming makes, or the sentence of its error.
fn told(alloc: Global, source: &str, byte: usize, name: &str) -> Result<String, Fail> {
    match renamed(alloc, source, byte, name) {
        Ok(made) => Ok(made),
        Err(error) => Ok(format!(in alloc; "{error}")?),
    }
}

#[test]
fn a_name_is_replaced_where_it_stands(rt: HostRuntime) -> Result<(), Fail> {
    let alloc = rt.alloc();
    assert_eq!(rt; told(alloc, SOURCE, 20, "level")?.as_str(), RENAMED);
    assert_eq!(rt; told(alloc, SOURCE, 55, "level")?.as_str(), RENAMED);
    assert_eq!(rt; told(alloc, REFUSED, 7, "a")?.as_str(), STILL_REFUSED);
    Ok(())
}

#[test]
fn another_meaning_is_refused(rt: HostRuntime) {
    let alloc = rt.alloc();
    assert!(rt; matches!(renamed(alloc, SOURCE, 20, "c"), Err(RenameError::Changes)));
    assert!(rt; matches!(renamed(alloc, SOURCE, 20, "y"), Err(RenameError::Changes)));
    assert!(rt;
        matches!(
            renamed(alloc, SOURCE, 20, "node"),
            Err(RenameError::NotAName)
        )
    );
    assert!(rt;
        matches!(
            renamed(alloc, SOURCE, 20, "a b"),
            Err(RenameError::NotAName)
        )
    );
    assert!(rt; matches!(renamed(alloc, SOURCE, 0, "a"), Err(RenameError::NoName)));
    assert!(rt;
        matches!(
            renamed(alloc, "node n(x@: int)", 7, "a"),
            Err(RenameError::Refused(_))
        )
    );
}

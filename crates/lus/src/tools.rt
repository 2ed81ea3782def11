//! The arguments of the tools for people, and how words are read as them.

use std::alloc::{AllocError, Global};

/// The arguments of a tool for people as they are typed: a flag, an option that a `=` stands behind, and what stands at its place, with
/// brackets where it may be missing and dots where it may be there several times.
pub fn arguments_of(tool: &str) -> Option<&'static str> {
    match tool {
        "lus_explain" => Some(
            "--json --no-warnings --deny-warnings --cost --script= --error= PROGRAM [SCRIPTS]",
        ),
        "lus_format" => Some("--check --write FILE.."),
        "lus_draw" => Some(
            "--html --waves --csv --vcd --all --from= --to= --signals= --instance= PROGRAM [JOURNAL] [LOG]",
        ),
        "lus_audit" => Some("--why --many PROGRAM JOURNAL [LOG]"),
        "lus_live" => Some(
            "--json --csv --many --sync --caller= --most-orders= --most-bytes= PROGRAM NODE [JOURNAL]",
        ),
        "lus_test" => Some(
            "--write --journal --coverage --json --node= --random= --check= --steps= --seed= --range= PROGRAM TABLE..",
        ),
        "lus_lsp" => Some("--stdio"),
        _ => None,
    }
}

/// Arguments of a tool for people, of each of which pairs one at most is taken.
pub fn apart_in(tool: &str) -> &'static [(&'static str, &'static str)] {
    match tool {
        "lus_explain" => &[
            ("--no-warnings", "--deny-warnings"),
            ("--cost", "--no-warnings"),
            ("--cost", "--deny-warnings"),
            ("--cost", "--script"),
        ],
        "lus_format" => &[("--check", "--write")],
        "lus_draw" => &[
            ("--html", "--waves"),
            ("--html", "--csv"),
            ("--html", "--vcd"),
            ("--waves", "--csv"),
            ("--waves", "--vcd"),
            ("--csv", "--vcd"),
            ("--all", "--signals"),
        ],
        "lus_live" => &[("--json", "--csv"), ("--csv", "--many")],
        "lus_test" => &[
            ("--write", "--random"),
            ("--write", "--journal"),
            ("--write", "--coverage"),
            ("--journal", "--coverage"),
            ("--journal", "--random"),
            ("--coverage", "--random"),
        ],
        _ => &[],
    }
}

/// Arguments of a tool for people, of each of which pairs the first is taken beside the other alone.
pub fn beside_in(tool: &str) -> &'static [(&'static str, &'static str)] {
    match tool {
        "lus_test" => &[
            ("--json", "--coverage"),
            ("--check", "--random"),
            ("--steps", "--random"),
            ("--seed", "--random"),
            ("--range", "--random"),
        ],
        _ => &[],
    }
}

/// What stands at its place among the arguments of a tool for people, where that isn't the same in all its forms: behind which argument,
/// how many words at least and at most, and which. The first that is behind an argument which is given counts, or the one behind none.
pub fn files_in(tool: &str) -> &'static [(&'static str, usize, usize, &'static str)] {
    match tool {
        "lus_draw" => &[
            ("--instance", 3, 3, "PROGRAM NODE LOG"),
            ("--html", 1, 2, "PROGRAM JOURNAL, or JOURNAL alone"),
            ("", 2, 2, "PROGRAM JOURNAL"),
        ],
        "lus_audit" => &[
            ("--many", 3, 3, "PROGRAM NODE LOG"),
            ("", 2, 2, "PROGRAM JOURNAL"),
        ],
        "lus_test" => &[
            ("--random", 1, 1, "PROGRAM"),
            ("--write", 2, 2, "PROGRAM and one TABLE"),
            ("--journal", 2, 2, "PROGRAM and one TABLE"),
        ],
        _ => &[],
    }
}

/// The options of a tool for people that take a whole number, each with the least that it takes.
pub fn numbers_in(tool: &str) -> &'static [(&'static str, u64)] {
    match tool {
        "lus_draw" => &[("--from", 1), ("--to", 1)],
        "lus_live" => &[("--most-orders", 0), ("--most-bytes", 0)],
        "lus_test" => &[("--random", 1), ("--steps", 1), ("--seed", 0)],
        _ => &[],
    }
}

/// Whether a word is an option of a tool for people, which the word behind it is the value of.
pub fn takes_word(tool: &str, word: &str) -> bool {
    for argument in arguments_of(tool).unwrap_or("").split(' ') {
        if argument.strip_suffix("=") == Some(word) {
            return true;
        }
    }
    false
}

/// What stands behind an option, in the same word or in the next one.
pub fn value_behind<'w>(words: &'w [String], option: &str) -> Option<&'w str> {
    let mut is_next = false;
    for word in words {
        if is_next {
            return Some(word.as_str());
        }
        if let Some(rest) = word.strip_prefix(option) {
            if let Some(value) = rest.strip_prefix("=") {
                return Some(value);
            }
            is_next = rest.is_empty();
        }
    }
    None
}

/// The words that are told by their place: no flag, nor what stands behind one that takes a word.
pub fn placed_words<'w>(
    alloc: Global,
    tool: &str,
    words: &'w [String],
) -> Result<Vec<&'w str>, AllocError> {
    let mut found = Vec::new(alloc);
    let mut is_taken = false;
    for word in words {
        let word = word.as_str();
        if !is_taken && !word.starts_with("-") {
            found.push(word)?;
        }
        is_taken = takes_word(tool, word);
    }
    Ok(found)
}

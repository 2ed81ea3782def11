//! What the number of a refusal means to whoever reads the source, and what to do.

use lus_syntax::RefusalNumber;

/// The fault in a few words.
pub(crate) fn fault_of(number: RefusalNumber) -> &'static str {
    match number {
        RefusalNumber::Lexical => "invalid character",
        RefusalNumber::Syntax => "syntax error",
        RefusalNumber::Unsupported => "this word is reserved",
        RefusalNumber::Name => "unknown, duplicate or undefined name",
        RefusalNumber::Type => "mismatched types",
        RefusalNumber::Clock => "mismatched clocks",
        RefusalNumber::Cycle => "variables depend on each other within one instant",
        RefusalNumber::Nil => "a value may be missing at its first instant",
        RefusalNumber::Recursion => "recursive node or type",
        RefusalNumber::Limit => "limit exceeded",
        RefusalNumber::Memory => "out of memory",
    }
}

/// One sentence on what it means here and what to do.
pub(crate) fn sentence_of(number: RefusalNumber) -> &'static str {
    match number {
        RefusalNumber::Lexical => "Remove it or close the comment; the file must be UTF-8.",
        RefusalNumber::Syntax =>
            "Nothing that stands before it goes on with it: docs/LANGUAGE.md has the grammar.",
        RefusalNumber::Unsupported => "Express it with what is supported, or choose another name.",
        RefusalNumber::Name =>
            "Declare each name once, and give each output and local one equation.",
        RefusalNumber::Type => "Change it, or its declaration, so that they agree.",
        RefusalNumber::Clock =>
            "Both sides need the same clock: sample one with `when`, or give it a value at the other instants with `merge`. The clock of an input is an input.",
        RefusalNumber::Cycle =>
            "Each variable of the cycle depends on the next one within one instant, and the last on the first: put a `pre` or `fby` into the cycle.",
        RefusalNumber::Nil =>
            "It has no value at its first instant: give it one with `->` or `fby`, as in `0 -> pre x`.",
        RefusalNumber::Recursion =>
            "Recursion is not supported: write a node for each level, or keep earlier values with `pre`.",
        RefusalNumber::Limit => "Make it smaller, or split it.",
        RefusalNumber::Memory =>
            "Memory ran out before the program was checked: try again with more.",
    }
}

//! One thing that there is to say.

ghost use Rattle.std.specs.Prelude.{◌≡◌};
ghost use Rattle.lus_diagnostics.specs.Errors.{IsErrorOf};

use lus_faults::{Edit, Finding, Position, Related, offset_of};
use lus_syntax::{Cycle, Place, Refusal, RefusalNumber, Span};
use std::alloc::Global;

/// What something is: an error of a program by its number, an error of scripts by its number as it is printed, a warning by its name, or
/// a note.
#[derive(Clone, Copy)]
pub enum Code {
    Error(RefusalNumber),
    Scripts(&'static str),
    Warning(&'static str),
    Note,
}

impl Code {
    /// How much it matters, in a word.
    pub fn severity(self) -> &'static str {
        match self {
            Code::Error(_) | Code::Scripts(_) => "error",
            Code::Warning(_) => "warning",
            Code::Note => "note",
        }
    }

    /// Its number or its name; a note has none.
    pub fn as_str(self) -> &'static str {
        match self {
            Code::Error(number) => number.as_str(),
            Code::Scripts(name) | Code::Warning(name) => name,
            Code::Note => "",
        }
    }

    /// The section of docs/ERRORS.md that says more of a program's errors or its warnings.
    pub(crate) fn section(self) -> Option<&'static str> {
        match self {
            Code::Error(number) => Some(number.as_str()),
            Code::Warning(_) => Some("warnings"),
            Code::Scripts(_) | Code::Note => None,
        }
    }
}

/// Where something stands.
#[derive(Drop)]
pub enum Site {
    /// So many bytes of a program from a position on, which so many bytes stand before, where that is known.
    Program {
        start: Position,
        length: usize,
        byte: Option<usize>,
    },
    /// A position of scripts that aren't JSON.
    Scripts(Position),
    /// A place in the JSON of scripts, by the keys and the numbers on the way to it.
    Json(String),
    /// A file as a whole.
    File,
}

impl Site {
    /// A span of a program.
    pub fn of(span: Span) -> Site {
        let Place { byte, line, column } = span.start;
        Site::Program {
            start: Position { line, column },
            length: span.length,
            byte: Some(byte),
        }
    }
}

/// Something to be said: what it is; in a program the place of the refusal, or where the warning begins, in scripts 0 and 0; where it is
/// shown; a sentence, further places, a note, a change of the text that helps, and the variables of a cycle.
#[derive(Drop)]
pub struct Diagnostic {
    pub code: Code,
    pub place: Position,
    pub site: Site,
    pub message: String,
    pub related: Vec<Related>,
    pub note: Option<String>,
    pub edit: Option<Edit>,
    pub cycle: Cycle,
}

impl Diagnostic {
    /// A sentence alone.
    pub fn new(alloc: Global, code: Code, site: Site, message: String) -> Diagnostic
        ensures { result.code ≡ code }
    {
        let place = match &site {
            Site::Program { start, .. } => *start,
            _ => Position { line: 0, column: 0 },
        };
        Diagnostic {
            code,
            place,
            site,
            message,
            related: Vec::new(alloc),
            note: None,
            edit: None,
            cycle: Cycle::none(),
        }
    }

    /// The error of a refusal, with what was found of its case.
    pub fn of_refusal(refusal: Refusal, finding: Finding) -> Diagnostic
        ensures { IsErrorOf refusal result }
    {
        let start = finding.position(&refusal);
        Diagnostic {
            code: Code::Error(refusal.number),
            place: Position {
                line: refusal.line,
                column: refusal.column,
            },
            site: Site::Program {
                start,
                length: finding.length,
                byte: None,
            },
            message: finding.sentence,
            related: finding.related,
            note: finding.note,
            edit: finding.edit,
            cycle: refusal.cycle,
        }
    }

    /// The span of a program where it is shown; of what is said of scripts nothing.
    pub fn span(&self, source: &str) -> Span {
        let Site::Program {
            start,
            length,
            byte,
        } = &self.site
        else {
            return Span {
                start: Place::START,
                length: 0,
            };
        };
        let Position { line, column } = *start;
        let byte = match byte {
            Some(byte) => *byte,
            None => offset_of(source, line, column),
        };
        Span {
            start: Place { byte, line, column },
            length: *length,
        }
    }
}

/// What there is to say of a program: its errors, the one that it is refused for first; or what it is warned of, where it has none.
#[derive(Drop)]
pub struct Diagnosis {
    pub errors: Vec<Diagnostic>,
    pub warnings: Vec<Diagnostic>,
}

impl Diagnosis {
    /// The errors, or the warnings where there are none.
    pub fn told(&self) -> &[Diagnostic] {
        if self.errors.is_empty() {
            self.warnings.as_slice()
        } else {
            self.errors.as_slice()
        }
    }
}

//! Why a source is refused.

ghost use Rattle.std.specs.Prelude.{◌≡◌, ◌≢◌, [], map, string_bytes, Some};
ghost use Rattle.lus_syntax.specs.declared.refusal.RefusalNumber.TheVariants as numbers;

use lus_values::Memory;
use std::alloc::{AllocError, AllocFailed};
use std::error::Error;
use std::fmt;
use std::marker::Model;

/// What is wrong with a source. Printed as E1 to E11, in this order.
#[derive(Clone, Copy, Debug, PartialEq, Eq)]
pub enum RefusalNumber {
    /// No token begins here, a comment is open, or the bytes are no UTF-8.
    Lexical,
    /// The tokens spell no tree.
    Syntax,
    /// A word or a character that is kept for what the language leaves out.
    Unsupported,
    /// An unknown or doubled name, a missing or doubled equation.
    Name,
    /// Types, counts of arguments, labels or fields disagree.
    Type,
    /// Clocks disagree.
    Clock,
    /// No causal order.
    Cycle,
    /// A value that may be nil where none may.
    Nil,
    /// A node or a type leads back to itself.
    Recursion,
    /// A limit is passed.
    Limit,
    /// Out of memory.
    Memory,
}

impl RefusalNumber {
    ghost use Rattle.lus_syntax.specs.Refusals.{number_text};

    /// The number as it is printed.
    pub fn as_str(self) -> &'static str
        ensures { result.now ≡ number_text self }
    {
        match self {
            RefusalNumber::Lexical => "E1",
            RefusalNumber::Syntax => "E2",
            RefusalNumber::Unsupported => "E3",
            RefusalNumber::Name => "E4",
            RefusalNumber::Type => "E5",
            RefusalNumber::Clock => "E6",
            RefusalNumber::Cycle => "E7",
            RefusalNumber::Nil => "E8",
            RefusalNumber::Recursion => "E9",
            RefusalNumber::Limit => "E10",
            RefusalNumber::Memory => "E11",
        }
    }
}

impl fmt::Display for RefusalNumber {
    ghost use Rattle.lus_syntax.specs.Refusals.{number_text};

    ghost output = { λ number. Some (number_text number) };

    fn fmt<W: fmt::Write>(&self, f: &mut fmt::Formatter<W>) -> fmt::Result {
        f.write_str(self.as_str())
    }
}

/// The variables of a causal cycle, each of which needs the next and the last the first; none but for a refusal of that
/// kind. Contracts see it as the list of their names.
#[derive(Debug, Drop)]
pub struct Cycle {
    names: Option<Vec<String>>,
}

impl Model for Cycle {
    ghost use Rattle.std.specs.Prelude.{ℕ, List};
    ghost use Rattle.lus_syntax.specs.Cycles.{names_of};

    ghost Value = { List (List ℕ) };

    ghost view = { λ c. names_of c.names };
}

impl Cycle {
    /// No cycle.
    pub fn none() -> Cycle
        ensures { result ≡ [] }
    {
        Cycle { names: None }
    }

    /// The cycle of these variables.
    pub fn new(names: Vec<String>) -> Cycle
        ensures { result ≡ map string_bytes names.items }
    {
        Cycle { names: Some(names) }
    }

    /// The names of its variables.
    pub fn names(&self) -> &[String]
        ensures { map string_bytes result.now ≡ self.now }
    {
        match &self.names {
            Some(names) => names.as_slice(),
            None => &[],
        }
    }
}

/// Writes `cycle a b`, and nothing where there is no cycle.
impl fmt::Display for Cycle {
    ghost use Rattle.lus_syntax.specs.Refusals.{cycle_text};

    ghost output = { λ cycle. Some (cycle_text cycle) };

    fn fmt<W: fmt::Write>(&self, f: &mut fmt::Formatter<W>) -> fmt::Result {
        let names = self.names();
        if names.is_empty() {
            return Ok(());
        }
        f.write_str("cycle")?;
        for name in names {
            write!(f, " {name}")?;
        }
        Ok(())
    }
}

/// A refusal of a source. Lines and columns count from 1, columns in characters. Only a causal cycle names variables. Out
/// of memory has no position: its line and column are 0.
#[derive(Debug, Drop)]
pub struct Refusal {
    pub number: RefusalNumber,
    pub line: usize,
    pub column: usize,
    pub cycle: Cycle,
    pub ghost cycle_only: { number ≢ numbers.Cycle → cycle ≡ [] },
    pub ghost memory_nowhere: { number ≡ numbers.Memory → (line ≡ 0) × (column ≡ 0) },
}

impl Refusal {
    /// A refusal at a place, with no cycle.
    pub fn new(number: RefusalNumber, line: usize, column: usize) -> Refusal
        requires { number ≢ RefusalNumber.Memory }
        ensures number { result.number ≡ number }
        ensures line { result.line ≡ line }
        ensures column { result.column ≡ column }
        ensures cycle { result.cycle ≡ [] }
    {
        Refusal {
            number,
            line,
            column,
            cycle: Cycle::none(),
        }
    }

    /// A refusal at a place for a causal cycle of these variables.
    pub fn with_cycle(line: usize, column: usize, names: Vec<String>) -> Refusal
        ensures number { result.number ≡ RefusalNumber.Cycle }
        ensures line { result.line ≡ line }
        ensures column { result.column ≡ column }
        ensures cycle { result.cycle ≡ map string_bytes names.items }
    {
        Refusal {
            number: RefusalNumber::Cycle,
            line,
            column,
            cycle: Cycle::new(names),
        }
    }

    /// Out of memory, which has no position.
    pub fn memory() -> Refusal
        ensures number { result.number ≡ RefusalNumber.Memory }
        ensures line { result.line ≡ 0 }
        ensures column { result.column ≡ 0 }
        ensures cycle { result.cycle ≡ [] }
    {
        Refusal {
            number: RefusalNumber::Memory,
            line: 0,
            column: 0,
            cycle: Cycle::none(),
        }
    }
}

/// Writes `E2 line 2 column 12`, `E7 line 1 column 50 cycle a b`, and out of memory `E11` alone.
impl fmt::Display for Refusal {
    ghost use Rattle.lus_syntax.specs.Refusals.{refusal_text};

    ghost output = { λ refusal. Some (refusal_text refusal) };

    fn fmt<W: fmt::Write>(&self, f: &mut fmt::Formatter<W>) -> fmt::Result {
        let number = self.number;
        if number == RefusalNumber::Memory {
            return write!(f, "{number}");
        }
        let line = self.line;
        let column = self.column;
        write!(f, "{number} line {line} column {column}")?;
        let cycle = &self.cycle;
        if cycle.names().is_empty() {
            return Ok(());
        }
        write!(f, " {cycle}")
    }
}

impl Error for Refusal {}

impl From<Memory> for Refusal {
    ghost use Rattle.lus_syntax.specs.Refusals.{out_of_memory};

    ghost from_gives = { λ _ r. r ≡ out_of_memory };

    fn from(_error: Memory) -> Refusal {
        Refusal::memory()
    }
}

impl From<AllocError> for Refusal {
    ghost use Rattle.lus_syntax.specs.Refusals.{out_of_memory};

    ghost from_gives = { λ _ r. r ≡ out_of_memory };

    fn from(_error: AllocError) -> Refusal {
        Refusal::memory()
    }
}

impl<T: Drop> From<AllocFailed<T>> for Refusal {
    ghost use Rattle.lus_syntax.specs.Refusals.{out_of_memory};

    ghost from_gives = { λ _ r. r ≡ out_of_memory };

    fn from(_error: AllocFailed<T>) -> Refusal {
        Refusal::memory()
    }
}

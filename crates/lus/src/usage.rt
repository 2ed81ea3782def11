//! What the tools for people say of themselves: a usage text, a version, and what an error's number means. `lus` itself takes no such
//! arguments.

use crate::sections::section_of;
use lus_cli::{Fault, tell};
use lus_devices::{Failure, Sink, write_all};

const VERSION: &str = " 0.1.0\n";

const EXPLAIN: &str =
    "usage: lus_explain [--json] [--no-warnings | --deny-warnings] PROGRAM [SCRIPTS]
       lus_explain --cost [--json] PROGRAM
       lus_explain --script NODE PROGRAM
       lus_explain --error NUMBER

Says why a program, or its scripts, are rejected, and what to write; of an accepted program its
types and nodes, and what its author can hardly have meant, which are warnings. It runs nothing.

  --json           an object of JSON for each error and each warning, on a line of its own
  --no-warnings    no warnings
  --deny-warnings  status 1 also where there is a warning
  --cost           what a step of each node takes at most, and an instance and a saved state
  --script NODE    scripts to begin from, for an instance of NODE
  --error NUMBER   what E1 to E11 and S1 to S6 mean, or `warnings`, and what to do

Status: 0 accepted, 1 the program is rejected, 2 the scripts, 3 a file or the output fails, 4 out of memory.
";

const FORMAT: &str = "usage: lus_format [--check | --write] FILE..

Formats sources and prints them: tokens and comments stay, blanks and line breaks change, lines
have at most 100 columns. A FILE named - is standard input.

  --check  print only the names of files that would change
  --write  replace each file that differs, and print nothing

A rejected file stays as it is. Status: 0 done, 1 a file is rejected, or would change,
3 a file or the output fails, 4 out of memory.
";

const DRAW: &str = "usage: lus_draw [--html | --waves | --csv | --vcd] [--from N] [--to N]
                [--all | --signals NAMES] PROGRAM JOURNAL
       lus_draw --instance NAME [..] PROGRAM NODE LOG
       lus_draw --html JOURNAL

Draws journals that lus or lus_live wrote, if they are valid: as a chronogram, or

  --html     as a page for a browser, with signals over time, a cursor and a zoom
  --waves    as a timing diagram (SVG)
  --csv      as tables for spreadsheets
  --vcd      as a value change dump, for viewers of waveforms
  --all      with the node's locals; --signals a,f.c,f#2.*: these, c and all of calls of the node f

--from and --to draw the instants from the N-th to the N-th alone, not with --html or --vcd.
--instance draws one of the instances of NODE in a log of `lus_live --many`. Without PROGRAM a page
shows the journal's lines. Status: 0 drawn, 1 to 4 as lus.
";

const AUDIT: &str = "usage: lus_audit [--why] PROGRAM JOURNAL
       lus_audit --many [--why] PROGRAM NODE LOG

Says whether each reply of a journal is the right one to its request, after those before it,
by a new run of the program: `NAME lawful` for each instance, or the first wrong line with
the right one.

  --why  why each request of a valid journal that was refused is: which input, its type or
         clock; or which operation has no value, with its operands and its place
  --many a log of instances of NODE, which `lus_live --many` wrote; with --why a file, no pipe

Status: 0 valid, 1 the program is rejected, 2 a wrong line, or no journal,
3 a file or the output fails, 4 out of memory.
";

const LIVE: &str = "usage: lus_live [--json | --csv] [--caller NAME] [--sync] PROGRAM NODE [JOURNAL]
       lus_live --many [--json] PROGRAM NODE [[--caller NAME] [--sync] LOG]

Runs a node in a pipe: reads calls from standard input, a line of JSON each, and writes the entry
of each, by the caller NAME or `user`, before it reads the next; with --json its reply as JSON.
With --csv it reads inputs as CSV below a line of their names, and writes outputs so. It goes on
behind JOURNAL, replayed first: `lus_live PROGRAM NODE log < calls >> log`, also after any kill;
with --json or --csv it writes entries to JOURNAL itself, then replies, as --many to LOG, with
--sync once on its disk. A line of --many is INSTANCE CALLER CALL, or an old entry. A node that
takes more than --most-orders N a step or --most-bytes N an instance isn't run.

  [18, 19, 22]                 a step with the inputs in their order, null for an absent one
  {\"inputs\": {\"low\": 19, ..}}  a step with the inputs by their names
  {\"reset\": true}, {\"save\": 0}, {\"restore\": 0}, {\"burst\": [[..], ..]}

Status: 0 all lines were calls, 1 program rejected, 2 a line is none, an entry wrong, 3, 4 as lus.
";

const TEST: &str = "usage: lus_test [--coverage [--json]] [--node NODE] PROGRAM TABLE..
       lus_test --write | --journal [--node NODE] PROGRAM TABLE
       lus_test --random N --check OUTPUT [--node NODE] [--steps K] [--seed S]
                [--range INPUT=LOW..HIGH].. PROGRAM

Tries a node, NODE or the one whose name TABLE has before its first dot, on rows for its instants:
CSV below names of inputs and outputs, or in a file *.jsonl an object of JSON on each line. What
is empty or missing is an absent input or asks nothing of an output; `-`, null ask for absence.

  --coverage  how often each branch of `if` and `merge` was taken; with --json as objects
  --write, --journal  print the TABLE with the outputs that come, or the journal of its run
  --random  try in N runs of random inputs, of K instants or 100, from seed S or 1, whether OUTPUT
            is false, or a step refused, and print such a run, made short, as a table
  --range   the numbers of an input, or of a field x.f, or -10 to 10

Status: 0 passed, 1 not, or program rejected, 2 a table isn't right, 3 file or output, 4 memory.
";

const LSP: &str = "usage: lus_lsp --stdio

A language server, which an editor starts: it reads messages of the Language Server Protocol
from standard input and writes its own to standard output, until the editor says `exit`.

  --stdio  serve over standard input and output

Status: 0 shut down before `exit`, 1 not shut down before `exit` or the end of the input,
3 the input has no whole message, or a read or a write fails, 4 out of memory.
";

/// The usage of a tool for people; `lus` is none.
fn usage_of(tool: &str) -> Option<&'static str> {
    match tool {
        "lus_explain" => Some(EXPLAIN),
        "lus_format" => Some(FORMAT),
        "lus_draw" => Some(DRAW),
        "lus_audit" => Some(AUDIT),
        "lus_live" => Some(LIVE),
        "lus_test" => Some(TEST),
        "lus_lsp" => Some(LSP),
        _ => None,
    }
}

const NUMBERS: &str =
    "lus_explain: the numbers are E1 to E11 and S1 to S6, and there is `warnings`\n";

/// Whether `introduce` has said already how a tool is used: that there are no arguments, or which numbers there are.
pub fn was_introduced(tool: &str, words: &[String]) -> bool {
    match words {
        [] => true,
        [flag, _number] => tool == "lus_explain" && flag.as_str() == "--error",
        _ => false,
    }
}

/// The section of docs/ERRORS.md that `--error NUMBER` asks for. Where there is none, it is said beside the faults which there are.
fn section_asked<F: Sink>(tool: &str, words: &[String], faults: &mut F) -> Option<&'static str> {
    let [flag, number] = words else {
        return None;
    };
    if tool != "lus_explain" || flag.as_str() != "--error" {
        return None;
    }
    let section = section_of(number.as_str());
    if section.is_none() {
        let _ = write_all(faults, NUMBERS.as_bytes());
    }
    section
}

/// The status where an answer was written, or told as a fault.
fn status_of<F: Sink>(written: Result<(), Failure>, faults: &mut F) -> u8 {
    match written {
        Ok(()) => 0,
        Err(_) => tell(faults, Fault::Output),
    }
}

/// Answers `--help` and `--version` of a tool for people and `--error` of `lus_explain`, and gives the status. Without arguments its
/// usage is written beside the faults, and the tool goes on to refuse them.
pub fn introduce<O: Sink, F: Sink>(
    tool: &str,
    words: &[String],
    output: &mut O,
    faults: &mut F,
) -> Option<u8> {
    let usage = usage_of(tool)?;
    let Some(word) = words.first() else {
        let _ = write_all(faults, usage.as_bytes());
        return None;
    };
    if let Some(section) = section_asked(tool, words, faults) {
        return Some(status_of(write_all(output, section.as_bytes()), faults));
    }
    if words.len() > 1 {
        return None;
    }
    match word.as_str() {
        "--help" => Some(status_of(write_all(output, usage.as_bytes()), faults)),
        "--version" => {
            let written = write_version(tool, output);
            Some(status_of(written, faults))
        }
        _ => None,
    }
}

fn write_version<O: Sink>(tool: &str, output: &mut O) -> Result<(), Failure> {
    write_all(output, tool.as_bytes())?;
    write_all(output, VERSION.as_bytes())
}

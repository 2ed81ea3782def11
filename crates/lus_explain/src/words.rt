//! The words of the command line.

ghost use Rattle.std.specs.Prelude.{◌≡◌, IfOk, Some, None, Err, map, option_map, string_bytes};
ghost use Rattle.clap.specs.Words.{app_of, found_of, rows_of};
ghost use Rattle.lus_reports.specs.CliSpecs.declared.words.WordsError.TheVariants.{Mistaken};
ghost use Rattle.lus_explain.specs.CommandLine.{asked, cost_form, form_of, said, task_seen, the_command};

use clap::{ArgMatches, Command};
use lus_reports::lus_cli::{
    WordsError, bare, is_set, matches, value_of, with_flag, with_optional, with_required,
    with_value,
};
use std::alloc::{AllocError, Global};

/// How things are said: as JSON or as a text for people; with warnings or without; whether a warning is denied, as the status then tells;
/// and whether of an accepted program it is said what its nodes cost.
#[derive(Clone, Copy)]
pub struct Form {
    pub is_json: bool,
    pub warns: bool,
    pub denies: bool,
    pub costs: bool,
}

/// What the words ask for, over files that are named.
#[derive(Clone, Copy)]
pub enum Task<'a> {
    /// What is said of a program, and perhaps of scripts for it.
    Explain {
        form: Form,
        program: &'a str,
        scripts: Option<&'a str>,
    },
    /// Scripts to begin from, for a node of a program.
    Script {
        node: &'a str,
        program: &'a str,
    },
}

fn command<'a>(alloc: Global) -> Result<Command<'a>, AllocError>
    ensures { IfOk result (λ c. app_of c ≡ the_command) }
{
    let json = with_flag(alloc, bare(alloc, "lus_explain"), "json")?;
    let none = with_flag(alloc, json, "no-warnings")?;
    let deny = with_flag(alloc, none, "deny-warnings")?;
    let cost = with_flag(alloc, deny, "cost")?;
    let script = with_value(alloc, cost, "script")?;
    let program = with_required(alloc, script, "PROGRAM")?;
    with_optional(alloc, program, "SCRIPTS")
}

/// What the words after the program's own name ask for.
pub fn read_words<'a>(alloc: Global, words: &'a [String]) -> Result<Task<'a>, WordsError>
    ensures ok { IfOk result (λ task. asked (map string_bytes words.now) ≡ Some (task_seen task)) }
    ensures mistaken { result ≡ Err Mistaken → asked (map string_bytes words.now) ≡ None }
{
    let matches = matches(command(alloc)?, words)?;
    choose(&matches).ok_or(WordsError::Mistaken)
}

/// How things are said, unless warnings are both left out and denied.
fn form_of(is_json: bool, is_quiet: bool, denies: bool) -> Option<Form>
    ensures { result ≡ form_of is_json is_quiet denies }
{
    match (is_quiet, denies) {
        (true, true) => None,
        (true, false) => Some(Form {
            is_json,
            warns: false,
            denies: false,
            costs: false,
        }),
        (false, denies) => Some(Form {
            is_json,
            warns: true,
            denies,
            costs: false,
        }),
    }
}

/// Costs are said without warnings, and of a program alone.
fn cost_form(is_json: bool) -> Form
    ensures { result ≡ cost_form is_json }
{
    Form {
        is_json,
        warns: false,
        denies: false,
        costs: true,
    }
}

/// Where costs or a script are asked for there are no scripts, and nothing of warnings is asked for; nor is JSON for a script.
fn choose<'a>(matches: &ArgMatches<'a>) -> Option<Task<'a>>
    ensures { option_map task_seen result ≡ said (rows_of (found_of matches.now)) }
{
    let program = value_of(matches, "PROGRAM")?;
    match (
        is_set(matches, "cost"),
        is_set(matches, "json"),
        is_set(matches, "no-warnings"),
        is_set(matches, "deny-warnings"),
        value_of(matches, "script"),
        value_of(matches, "SCRIPTS"),
    ) {
        (true, is_json, false, false, None, None) => Some(Task::Explain {
            form: cost_form(is_json),
            program,
            scripts: None,
        }),
        (false, is_json, is_quiet, denies, None, scripts) => {
            let form = form_of(is_json, is_quiet, denies)?;
            Some(Task::Explain {
                form,
                program,
                scripts,
            })
        }
        (false, false, false, false, Some(node), None) => Some(Task::Script { node, program }),
        _ => None,
    }
}

//! What the command lines of all tools share.

ghost use Rattle.std.specs.Prelude.{◌≡◌, IfOk, option_map};
ghost use Rattle.clap.specs.Words.{app_of, first_of, found_of, rows_of};
ghost use Rattle.lus_cli.specs.CommandLine.{bare, is_set, with_flag, with_optional, with_required, with_value};

use clap::{Arg, ArgAction, ArgMatches, Command};
use std::alloc::{AllocError, Global};

/// A command before its arguments: no name of the program among the words, no help, no version.
pub fn bare<'a>(alloc: Global, name: &'a str) -> Command<'a>
    ensures { app_of result ≡ bare name.entry.now }
{
    Command::new(alloc, name)
        .no_binary_name(true)
        .disable_help_flag(true)
        .disable_version_flag(true)
}

/// A command with one more flag.
pub fn with_flag<'a>(
    alloc: Global,
    command: Command<'a>,
    name: &'a str,
) -> Result<Command<'a>, AllocError>
    ensures { IfOk result (λ c. app_of c ≡ with_flag name.entry.now (app_of command.entry)) }
{
    let flag = Arg::new(alloc, name).long(name).action(ArgAction::SetTrue);
    command.arg(flag)
}

/// A command with one more argument that has to stand.
pub fn with_required<'a>(
    alloc: Global,
    command: Command<'a>,
    name: &'a str,
) -> Result<Command<'a>, AllocError>
    ensures { IfOk result (λ c. app_of c ≡ with_required name.entry.now (app_of command.entry)) }
{
    command.arg(Arg::new(alloc, name).required(true))
}

/// A command with one more argument that may stand.
pub fn with_optional<'a>(
    alloc: Global,
    command: Command<'a>,
    name: &'a str,
) -> Result<Command<'a>, AllocError>
    ensures { IfOk result (λ c. app_of c ≡ with_optional name.entry.now (app_of command.entry)) }
{
    command.arg(Arg::new(alloc, name))
}

/// A command with one more option that has a value.
pub fn with_value<'a>(
    alloc: Global,
    command: Command<'a>,
    name: &'a str,
) -> Result<Command<'a>, AllocError>
    ensures { IfOk result (λ c. app_of c ≡ with_value name.entry.now (app_of command.entry)) }
{
    command.arg(Arg::new(alloc, name).long(name))
}

/// What the words give an argument, if they do.
pub fn value_of<'a>(matches: &ArgMatches<'a>, name: &str) -> Option<&'a str>
    ensures { option_map (λ t. t.now) result ≡ first_of name.now (rows_of (found_of matches.now)) }
{
    matches.get_str(name)
}

/// Whether a flag is among the words. Its value is the text `true` or `false`.
pub fn is_set(matches: &ArgMatches<'_>, flag: &str) -> bool
    ensures { result ≡ is_set flag.now (rows_of (found_of matches.now)) }
{
    match value_of(matches, flag) {
        Some(text) => text == "true",
        None => false,
    }
}

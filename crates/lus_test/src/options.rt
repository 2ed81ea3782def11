//! The words of the command line where a claim is tried.

ghost use Rattle.std.specs.Prelude.{◌≡◌, ◌^◌, ◌-◌, [], IfOk, None, OnOk, Some, codes, map, option_map, string_bytes};
ghost use Rattle.clap.specs.Words.{app_of, fault_of, first_of, found_of, matches_of, rows_of};
ghost use Rattle.lus_asked.specs.Reading.{begins_number, number_below};
ghost use Rattle.lus_test.specs.Options.{claim_command, claimed, count_in, counted, said_of, wanted_seen};

use clap::{Arg, ArgAction, ArgMatches, Command};
use lus_cli::{WordsError, bare, matches, value_of, with_optional, with_value};
use lus_refusals::lus_culprits::push_name;
use lus_values::Memory;
use std::alloc::{AllocError, Global};

const MOST_RUNS: u64 = 1_000_000_000;

const MOST_STEPS: u64 = 100_000;

/// The options that only claims have.
const OPTIONS: [&str; 5] = ["--random", "--check", "--steps", "--seed", "--range"];

/// So many runs from a seed, each of so many instants, of a node of a program, in which an output is to hold.
#[derive(Clone, Copy)]
pub(crate) struct Wanted<'a> {
    pub program: &'a str,
    /// The node's name, where it isn't the one that has the output.
    pub node: Option<&'a str>,
    pub claim: &'a str,
    pub runs: u64,
    pub steps: u64,
    pub seed: u64,
}

fn is_option(word: &str) -> bool {
    for option in OPTIONS {
        if word.starts_with(option) {
            return true;
        }
    }
    false
}

/// Whether the words ask for the trial of a claim.
pub(crate) fn is_trial(words: &[String]) -> bool {
    words.iter().any(|word| is_option(word.as_str()))
}

fn claimed<'a>(alloc: Global) -> Result<Command<'a>, AllocError>
    ensures { IfOk result (λ c. app_of c ≡ claimed) }
{
    let random = with_value(alloc, bare(alloc, "lus_test"), "random")?;
    let check = with_value(alloc, random, "check")?;
    with_value(alloc, check, "node")
}

fn counted<'a>(alloc: Global) -> Result<Command<'a>, AllocError>
    ensures { IfOk result (λ c. app_of c ≡ counted) }
{
    let steps = with_value(alloc, claimed(alloc)?, "steps")?;
    with_value(alloc, steps, "seed")
}

/// The command that tries a claim.
fn claim_command<'a>(alloc: Global) -> Result<Command<'a>, AllocError>
    ensures { IfOk result (λ c. app_of c ≡ claim_command) }
{
    let range = Arg::new(alloc, "range")
        .long("range")
        .action(ArgAction::Append);
    let ranged = counted(alloc)?.arg(range)?;
    with_optional(alloc, ranged, "PROGRAM")
}

/// What the words after the program's own name say to the options.
pub(crate) fn read_options<'a>(
    alloc: Global,
    words: &'a [String],
) -> Result<ArgMatches<'a>, WordsError>
    ensures right { OnOk result (fault_of claim_command (map string_bytes words.now) ≡ []) }
    ensures rows { IfOk result (λ m. rows_of (found_of m) ≡ matches_of claim_command (map string_bytes words.now)) }
{
    matches(claim_command(alloc)?, words)
}

/// Whether a number begins here: a digit, or a sign.
fn begins_number(text: &[u8]) -> bool
    ensures { result ≡ begins_number text.now }
{
    match text {
        [first, ..] => *first == b'-' || first.is_ascii_digit(),
        [] => false,
    }
}

/// A number of 64 bits, if the text is one.
fn number(text: &str) -> Option<u64>
    ensures { result ≡ number_below (2 ^ 64) text.now }
{
    if begins_number(text.as_bytes()) {
        text.parse::<u64>().ok()
    } else {
        None
    }
}

/// The number that an option gives, or the other one where it isn't among the words.
fn count_in(text: Option<&str>, other: Option<u64>, least: u64, most: u64) -> Option<u64>
    ensures { result ≡ count_in other least most (option_map (λ t. t.now) text.entry) }
{
    let Some(text) = text else {
        return other;
    };
    let count = number(text)?;
    if least <= count && count <= most {
        Some(count)
    } else {
        None
    }
}

fn runs_in(matches: &ArgMatches<'_>) -> Option<u64>
    ensures { result ≡ count_in None 1 1000000000 (first_of (codes "random") (rows_of (found_of matches.now))) }
{
    count_in(value_of(matches, "random"), None, 1, MOST_RUNS)
}

fn steps_in(matches: &ArgMatches<'_>) -> Option<u64>
    ensures { result ≡ count_in (Some 100) 1 100000 (first_of (codes "steps") (rows_of (found_of matches.now))) }
{
    count_in(value_of(matches, "steps"), Some(100), 1, MOST_STEPS)
}

fn seed_in(matches: &ArgMatches<'_>) -> Option<u64>
    ensures { result ≡ count_in (Some 1) 0 (2 ^ 64 - 1) (first_of (codes "seed") (rows_of (found_of matches.now))) }
{
    count_in(value_of(matches, "seed"), Some(1), 0, u64::MAX)
}

/// What the words ask for.
pub(crate) fn choose<'a>(matches: &ArgMatches<'a>) -> Option<Wanted<'a>>
    ensures { option_map wanted_seen result ≡ said_of (rows_of (found_of matches.now)) }
{
    let program = value_of(matches, "PROGRAM")?;
    let claim = value_of(matches, "check")?;
    let runs = runs_in(matches)?;
    let steps = steps_in(matches)?;
    let seed = seed_in(matches)?;
    Some(Wanted {
        program,
        node: value_of(matches, "node"),
        claim,
        runs,
        steps,
        seed,
    })
}

/// That an option, where it has this value, isn't a number that it may be.
fn no_count(
    alloc: Global,
    option: &str,
    given: Option<&str>,
    least: u64,
    most: u64,
) -> Result<String, Memory> {
    let mut text = String::new(alloc);
    match given {
        Some(given) => {
            write!(
                text,
                "`{option}` takes a whole number from {least} to {most}, and "
            )?;
            push_name(&mut text, given)?;
            text.push_str(" is given")?;
        }
        None => write!(text, "`{option}` is missing")?,
    }
    Ok(text)
}

/// Why the words ask for nothing: what is missing, or which number is wrong.
pub(crate) fn choice_reason(alloc: Global, matches: &ArgMatches<'_>) -> Result<String, Memory> {
    if runs_in(matches).is_none() {
        let given = value_of(matches, "random");
        return no_count(alloc, "--random N", given, 1, MOST_RUNS);
    }
    if value_of(matches, "check").is_none() {
        return no_count(alloc, "--check OUTPUT", None, 0, 0);
    }
    if steps_in(matches).is_none() {
        let given = value_of(matches, "steps");
        return no_count(alloc, "--steps K", given, 1, MOST_STEPS);
    }
    if seed_in(matches).is_none() {
        let given = value_of(matches, "seed");
        return no_count(alloc, "--seed S", given, 0, u64::MAX);
    }
    Ok(String::from_str(alloc, "PROGRAM is missing")?)
}

//! The words of a line.

ghost use Rattle.std.specs.Prelude.{◌≡◌, None, Some, option_map};
ghost use Rattle.lus_hosting.specs.Logs.{behind_of, is_named, is_shown, is_whole};
ghost use Rattle.lus_hosting.specs.Turns.{HasWords, ReadsBehind, ReadsWords, SplitsCall, calls, everything, reads_seen};

/// The most bytes of a name in a call.
const MOST_NAME_BYTES: usize = 64;

/// Which lines are taken.
#[derive(Clone, Copy)]
pub(crate) enum Lines<'c> {
    /// Calls, each with its caller, and the entries and notes of a log.
    All,
    /// Calls alone, each with its caller, or all of this one.
    Calls(Option<&'c str>),
}

/// What stands behind the name of an instance.
#[derive(Clone, Copy, PartialEq, Eq)]
pub(crate) enum Behind {
    /// A caller and its call.
    Call,
    /// An entry, which begins with its number.
    Entry,
    /// What was said of a line that is no call.
    Note,
}

/// A line by its first words.
#[derive(Clone, Copy)]
pub(crate) enum Words<'a> {
    /// An instance, a caller, and its call.
    Call(&'a str, &'a str, &'a str),
    /// An instance and its entry.
    Entry(&'a str, &'a str),
    Note,
    /// An instance and less than a call.
    Short(&'a str),
    /// Less than two words.
    Word,
    /// A word that is no name.
    Nameless,
}

fn behind_of(text: &[u8]) -> Behind
    ensures { result ≡ behind_of text.now }
{
    match text {
        [] => Behind::Call,
        [first, ..] => if first.is_ascii_digit() {
            Behind::Entry
        } else if *first == b'#' {
            Behind::Note
        } else {
            Behind::Call
        },
    }
}

/// The words of a line.
pub(crate) fn words_of(line: &str) -> Words<'_>
    ensures read { HasWords everything line.now result }
    ensures complete { ReadsWords everything line.now result }
    ensures behind { ReadsBehind line.now result }
{
    let Some((instance, text)) = line.split_once(' ') else {
        return Words::Word;
    };
    match behind_of(text.as_bytes()) {
        Behind::Entry => return Words::Entry(instance, text),
        Behind::Note => return Words::Note,
        Behind::Call => {}
    }
    match text.split_once(' ') {
        Some((caller, call)) => Words::Call(instance, caller, call),
        None => Words::Short(instance),
    }
}

/// Whether no blank is in a word.
fn is_whole(word: &[u8]) -> bool
    ensures { result ≡ is_whole word.now }
{
    word.iter().all(|byte| *byte != b' ')
}

/// Whether no control character is in a word.
fn is_shown(word: &str) -> bool
    ensures { result ≡ is_shown word.now }
{
    word.chars().all(|letter| !letter.is_control())
}

/// Whether a word may name an instance or a caller.
fn is_named(word: &str) -> bool
    ensures { result ≡ is_named word.now }
{
    !word.is_empty() && word.len() <= MOST_NAME_BYTES && is_whole(word.as_bytes()) && is_shown(word)
}

/// The caller and the call behind the name of an instance: what the first word names, or this caller.
fn split_call<'a>(text: &'a str, caller: Option<&'a str>) -> Option<(&'a str, &'a str)>
    ensures { SplitsCall (option_map (λ t. t.now) caller.entry) text.now result }
{
    match caller {
        Some(caller) => Some((caller, text)),
        None => text.split_once(' '),
    }
}

/// The words of a line that is to be a call.
fn call_words<'a>(line: &'a str, caller: Option<&'a str>) -> Words<'a>
    ensures read { HasWords (calls (option_map (λ t. t.now) caller.entry)) line.now result }
    ensures complete { ReadsWords (calls (option_map (λ t. t.now) caller.entry)) line.now result }
{
    let Some((instance, text)) = line.split_once(' ') else {
        return Words::Word;
    };
    if !is_named(instance) {
        return Words::Nameless;
    }
    match split_call(text, caller) {
        Some((caller, call)) => {
            if !is_named(caller) {
                return Words::Nameless;
            }
            Words::Call(instance, caller, call)
        }
        None => Words::Short(instance),
    }
}

/// The words of a line, as it is taken.
pub(crate) fn words_in<'a>(lines: Lines<'a>, line: &'a str) -> Words<'a>
    ensures read { HasWords (reads_seen lines.entry) line.now result }
    ensures complete { ReadsWords (reads_seen lines.entry) line.now result }
{
    match lines {
        Lines::All => words_of(line),
        Lines::Calls(caller) => call_words(line, caller),
    }
}

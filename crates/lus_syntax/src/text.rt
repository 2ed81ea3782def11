//! The longest text of a token at a place.

ghost use Rattle.std.specs.Prelude.{◌≡◌, ◌≤◌, take, drop, length, MatchOption, IfSome};
ghost use Rattle.std.specs.List.{prefix_len};
ghost use Rattle.std.specs.Char.{is_ascii_digit};
ghost use Rattle.lus_syntax.specs.Texts.{begins_name, continues_name, LongestText, NoText};
ghost use Rattle.lus_syntax.specs.Reading.{symbol_len};

use crate::kind::SYMBOLS;
use crate::table::first_len;

pub(crate) fn begins_name(b: u8) -> bool
    ensures { result ≡ begins_name b }
{
    b.is_ascii_alphabetic() || b == b'_'
}

fn continues_name(b: u8) -> bool
    ensures { result ≡ continues_name b }
{
    b.is_ascii_alphanumeric() || b == b'_'
}

fn name_len(bytes: &[u8]) -> usize
    ensures { result ≡ prefix_len continues_name bytes.now }
{
    bytes.iter().take_while(|b| continues_name(**b)).count()
}

fn number_len(bytes: &[u8]) -> usize
    ensures { result ≡ prefix_len is_ascii_digit bytes.now }
{
    bytes.iter().take_while(|b| b.is_ascii_digit()).count()
}

// The length of the symbol that stands here.
#[tactic(auto, unfolding(crate::specs::Reading::symbol_len, crate::specs::Texts::symbols))]
fn symbol_len(bytes: &[u8]) -> Option<usize>
    ensures { result ≡ symbol_len bytes.now }
{
    first_len(SYMBOLS, bytes)
}

/// The length of the longest text of a token that begins here.
pub(crate) fn text_len(bytes: &[u8]) -> Option<usize>
    ensures within { IfSome result (λ n. n ≤ length bytes.now) }
    ensures longest { MatchOption result (NoText bytes.now) (λ n. LongestText bytes.now (take n bytes.now) (drop n bytes.now)) }
{
    let first = *bytes.first()?;
    if begins_name(first) {
        Some(name_len(bytes))
    } else if first.is_ascii_digit() {
        Some(number_len(bytes))
    } else {
        symbol_len(bytes)
    }
}

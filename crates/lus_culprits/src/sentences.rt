//! Sentences of one line, which a terminal may show.

ghost use Rattle.std.specs.Prelude.{◌≡◌, IfOk, string_bytes};
ghost use Rattle.std.specs.List.{list_all};
ghost use Rattle.lus_culprits.specs.Sentences.{IsBasic, IsSentence, is_in_line};

use lus_printable::printable;
use lus_values::Memory;
use std::alloc::Global;

fn is_in_line(byte: u8) -> bool
    ensures { result ≡ is_in_line byte }
{
    byte != b'\n'
}

fn is_one_line(bytes: &[u8]) -> bool
    ensures { result ≡ list_all is_in_line bytes.now }
{
    bytes.iter().all(|byte| is_in_line(*byte))
}

fn general(alloc: Global, text: &str) -> Result<String, Memory>
    requires { IsBasic text.now }
    ensures { IfOk result (λ t. IsSentence (string_bytes t)) }
{
    Ok(String::from_str(alloc, text)?)
}

/// A text as a terminal may show it, if it is one line, and else a more general one. A name from outside may have line feeds.
pub fn sentence(alloc: Global, text: &str, otherwise: &str) -> Result<String, Memory>
    requires { IsBasic otherwise.now }
    ensures { IfOk result (λ t. IsSentence (string_bytes t)) }
{
    if text.is_empty() {
        return general(alloc, otherwise);
    }
    let shown = printable(alloc, text.as_bytes())?;
    if is_one_line(shown.as_bytes()) {
        Ok(shown)
    } else {
        general(alloc, otherwise)
    }
}

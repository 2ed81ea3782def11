//! How often names stand among tokens.

ghost use Rattle.std.specs.Prelude.{◌≡◌, IfOk, List, ℕ, bytes_eq, count_by, map, nat_lt, string_bytes, unwrap_or};
ghost use Rattle.indexmap.specs.IndexMap.{get_by};
ghost use Rattle.lus_syntax.specs.View.{kind_seen};
ghost use Rattle.lus_warnings.specs.Uses.{is_free, is_idle, uses, word_of};

use indexmap::IndexMap;
use lus_syntax::{Name, Token, TokenKind};
use std::alloc::{AllocError, Global};

/// How often each of the names among tokens stands there.
pub(crate) type Names<'t> = IndexMap<&'t str, usize>;

/// The name that a token is, or nothing.
fn word_of<'t>(token: Token<'t>) -> &'t str
    ensures { result.now ≡ word_of (kind_seen token.entry.kind) }
{
    match token.kind {
        TokenKind::Identifier(name) => name,
        _ => "",
    }
}

/// The names that tokens are, or nothing of each.
fn words_of<'t>(alloc: Global, tokens: &[Token<'t>]) -> Result<Vec<&'t str>, AllocError>
    ensures { IfOk result (λ words. map (λ w. w.now) words.items ≡ map (λ t. word_of (kind_seen t.kind)) tokens.now) }
{
    let mut words = Vec::new(alloc);
    for token in tokens {
        words.push(word_of(*token))?;
    }
    Ok(words)
}

/// How often each word stands there.
fn counted<'t>(alloc: Global, words: &[&'t str]) -> Result<Names<'t>, AllocError>
    ensures { IfOk result (λ names. (q : List ℕ) →
        unwrap_or (get_by (λ k. bytes_eq q k.now) names) 0 ≡ count_by (λ w. bytes_eq q w.now) words.now) }
{
    let mut names = IndexMap::new(alloc);
    for w in words {
        let n = names.get(w).copied().unwrap_or(0);
        names.insert(*w, n + 1)?;
    }
    Ok(names)
}

/// The names among tokens.
pub(crate) fn names_among<'t>(alloc: Global, tokens: &[Token<'t>]) -> Result<Names<'t>, AllocError>
    ensures { IfOk result (λ names. (q : List ℕ) → unwrap_or (get_by (λ k. bytes_eq q k.now) names) 0 ≡ uses q tokens.now) }
{
    let words = words_of(alloc, tokens)?;
    counted(alloc, &words)
}

/// Whether a name stands more than once.
pub(crate) fn is_repeated(names: &Names<'_>, name: &str) -> bool
    ensures { result ≡ nat_lt 1 (unwrap_or (get_by (λ k. bytes_eq name.now k.now) names.now) 0) }
{
    names.get(&name).copied().unwrap_or(0) > 1
}

/// Whether a name says that it needs no use: it begins with `_`.
fn is_free(name: &str) -> bool
    ensures { result ≡ is_free name.now }
{
    match name.as_bytes() {
        [first, ..] => *first == b'_',
        [] => false,
    }
}

/// Whether a declaration needs a use and has none: its name stands there alone.
pub(crate) fn is_idle(names: &Names<'_>, name: &Name) -> bool
    ensures { let text = string_bytes name.now.text in
        result ≡ is_idle (unwrap_or (get_by (λ k. bytes_eq text k.now) names.now) 0) text }
{
    let text = name.text.as_str();
    !is_free(text) && !is_repeated(names, text)
}

/// Whether one of these names stands more than once.
pub(crate) fn has_repeated(names: &Names<'_>, among: &[Name]) -> bool {
    for name in among {
        if is_repeated(names, name.text.as_str()) {
            return true;
        }
    }
    false
}

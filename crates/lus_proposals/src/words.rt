//! Words in lists.

ghost use Rattle.std.specs.Prelude.{◌≡◌};
ghost use Rattle.lus_proposals.specs.Words.{is_among, marks, texts, times};

static MARKS: &[&str] = &["(", ")", "{", "}", ",", ";", ":"];

/// Whether a word is one of some.
pub(crate) fn is_among(word: &str, words: &[&str]) -> bool
    ensures { result ≡ is_among word.now (texts words.now) }
{
    for other in words {
        if *other == word {
            return true;
        }
    }
    false
}

/// Whether a word groups or separates others, and means nothing by itself.
pub(crate) fn is_mark(word: &str) -> bool
    ensures { result ≡ is_among word.now marks }
{
    is_among(word, MARKS)
}

/// How often a word stands among some.
pub fn count(word: &str, words: &[&str]) -> usize
    ensures { result ≡ times word.now (texts words.now) }
{
    let mut count = 0usize;
    for other in words {
        if *other == word {
            count += 1;
        }
    }
    count
}

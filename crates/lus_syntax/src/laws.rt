//! Laws of tokens and places: each is a function with an empty body, whose contract is the law.

ghost use Rattle.std.specs.Prelude.{◌≡◌, true, Err, List, ℕ, ◌⊎◌, IsUtf8};
ghost use Rattle.std.specs.Str.{chars};
ghost use Rattle.lus_syntax.specs.declared.refusal.RefusalNumber.{RefusalNumber};
ghost use Rattle.lus_syntax.specs.declared.token.Place.{Place};
ghost use Rattle.lus_syntax.specs.Lexemes.{Lexeme};
ghost use Rattle.lus_syntax.specs.Places.{start, past, place_behind, IsBehind};
ghost use Rattle.lus_syntax.specs.Spans.{StandsAt};
ghost use Rattle.lus_syntax.specs.Texts.{is_text, meaning};
ghost use Rattle.lus_syntax.specs.Tokens.{Tokens, Faulty};

/// A text has one list of tokens at most, one leftmost fault at most, and never both.
pub fn one_reading()
    ensures tokens { (text : List ℕ) (ts us : List Lexeme) → Tokens text ts → Tokens text us → ts ≡ us }
    ensures faults { (text : List ℕ) (m n : RefusalNumber) (p q : Place) → Faulty text m p → Faulty text n q
        → (m ≡ n) × (p ≡ q) }
    ensures apart { (text : List ℕ) (ts : List Lexeme) (n : RefusalNumber) (p : Place) → Tokens text ts → Faulty text n p → ⊥ }

    // A fault is one of three, and stands behind a front of the text.
    ensures numbers { (text : List ℕ) (n : RefusalNumber) (p : Place) → Faulty text n p
        → (n ≡ RefusalNumber.Lexical) ⊎ ((n ≡ RefusalNumber.Unsupported) ⊎ (n ≡ RefusalNumber.Limit)) }
    ensures stands { (text : List ℕ) (n : RefusalNumber) (p : Place) → Faulty text n p → StandsAt text p }

    // A text of a token that stands for nothing is reserved or past the limit, and never a lexical fault.
    ensures no_meaning { (text : List ℕ) (n : RefusalNumber) → is_text text ≡ true → meaning text ≡ Err n
        → (n ≡ RefusalNumber.Unsupported) ⊎ (n ≡ RefusalNumber.Limit) }
{}

/// Going on byte by byte gives the place in words: a line more than the line feeds, a column more than the characters
/// since the last of them.
pub fn places_in_words()
    ensures bytes { (front : List ℕ) → past start front ≡ place_behind front }
    ensures characters { (front : List ℕ) → IsUtf8 front → IsBehind (place_behind front) (chars front) }
{}

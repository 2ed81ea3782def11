//! Tokens, and where they stand.

ghost use Rattle.std.specs.Prelude.{◌≡◌};
ghost use Rattle.lus_syntax.specs.Places.{end_of, within_words};

/// A place between two characters: how many bytes stand before it, its line and its column, both counted from 1 and
/// columns in characters.
#[derive(Clone, Copy, Debug, PartialEq, Eq)]
pub struct Place {
    pub byte: usize,
    pub line: usize,
    pub column: usize,
}

impl Place {
    /// The place before the first character of a text.
    pub const START: Place = Place {
        byte: 0,
        line: 1,
        column: 1,
    };
}

/// Where a token stands in its text, and its bytes. Each is a character, and none a line feed.
#[derive(Clone, Copy, PartialEq, Eq)]
pub struct Span {
    pub start: Place,
    pub length: usize,
}

impl Span {
    /// The place behind the token. A number past the greatest that fits is the greatest.
    pub fn end(self) -> Place
        ensures { result ≡ within_words (end_of self) }
    {
        Place {
            byte: self.start.byte.saturating_add(self.length),
            line: self.start.line,
            column: self.start.column.saturating_add(self.length),
        }
    }
}

/// What is no word, name or number.
#[derive(Clone, Copy, PartialEq, Eq)]
pub enum Symbol {
    Open,
    Close,
    OpenBrace,
    CloseBrace,
    Comma,
    Semicolon,
    Colon,
    Dot,
    Equal,
    NotEqual,
    Less,
    AtMost,
    Greater,
    AtLeast,
    Arrow,
    Implies,
    Plus,
    Minus,
    Star,
    Slash,
    Sharp,
}

/// The words of the language.
#[derive(Clone, Copy, PartialEq, Eq)]
pub enum Word {
    Node,
    Function,
    Returns,
    Var,
    Let,
    Tel,
    Type,
    Const,
    Enum,
    Struct,
    Bool,
    Int,
    True,
    False,
    Not,
    And,
    Or,
    Xor,
    If,
    Then,
    Else,
    Div,
    Mod,
    Pre,
    Fby,
    When,
    Merge,
    Nor,
}

/// What a token is. A name is the slice of the source that spells it.
#[derive(Clone, Copy)]
pub enum TokenKind<'a> {
    Identifier(&'a str),
    Number(i64),
    Punctuation(Symbol),
    Keyword(Word),
}

/// A token of a source.
#[derive(Clone, Copy)]
pub struct Token<'a> {
    pub kind: TokenKind<'a>,
    pub span: Span,
}

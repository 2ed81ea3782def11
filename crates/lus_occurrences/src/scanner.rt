//! The roles of names. A word that begins a part of a declaration is told from all others, so a fault in one part leaves the roles in
//! those behind it.

use crate::role::{Declared, Mention, Role};
use lus_syntax::{Symbol, Token, TokenKind, Word};
use std::alloc::{AllocError, Global};

/// The part of a declaration that a token stands in.
#[derive(Clone, Copy, PartialEq, Eq)]
enum Section {
    Outside,
    Types,
    Constants,
    /// Between `node` and the node's name.
    Name,
    Inputs,
    Outputs,
    Locals,
    Equations,
}

/// What names stand for where a token stands.
#[derive(Clone, Copy, PartialEq, Eq)]
enum Side {
    /// What is declared, or the left of an equation, or a field before its value.
    Names,
    Constructors,
    Types,
    Test,
    /// Between `merge` and its variable.
    Merged,
    /// Between the parenthesis of a branch and its arrow.
    Label,
    Values,
}

/// What a bracket holds that isn't closed yet. A call and a structure have the mention of their name.
#[derive(Clone, Copy)]
enum Bracket {
    Plain,
    /// A branch of the merge whose variable this mention is.
    Branch(usize),
    Arguments(usize),
    Fields(usize),
}

/// What the next token is, if it is a bracket or a name.
#[derive(Clone, Copy)]
enum Ahead {
    Anything,
    Opens(Bracket),
    /// A field, behind a dot.
    Member,
}

#[derive(Drop)]
struct Scanner {
    mentions: Vec<Mention>,
    brackets: Vec<Bracket>,
    section: Section,
    side: Side,
    ahead: Ahead,
    /// The first mention of the group of names that stands here.
    first: usize,
    /// The mention whose type the expression before this place has, as far as it has a field.
    last: Option<usize>,
}

impl Scanner {
    fn enter(&mut self, section: Section) {
        self.brackets.clear();
        self.section = section;
        self.begin();
    }

    /// A group of names begins.
    fn begin(&mut self) {
        self.side = Side::Names;
        self.first = self.mentions.len();
        self.last = None;
    }

    fn pass_word(&mut self, word: Word) {
        match word {
            Word::Type => self.enter(Section::Types),
            Word::Const => self.enter(Section::Constants),
            Word::Node | Word::Function => self.enter(Section::Name),
            Word::Returns => self.enter(Section::Outputs),
            Word::Var => self.enter(Section::Locals),
            Word::Let => self.enter(Section::Equations),
            Word::Tel => self.enter(Section::Outside),
            Word::Enum => self.side = Side::Constructors,
            Word::When => self.side = Side::Test,
            Word::Merge => self.side = Side::Merged,
            _ => {}
        }
    }

    /// A bracket opens.
    fn open(&mut self, ahead: Ahead) -> Result<(), AllocError> {
        let bracket = match ahead {
            Ahead::Opens(bracket) => bracket,
            Ahead::Anything | Ahead::Member => Bracket::Plain,
        };
        if let Bracket::Branch(_) = bracket {
            self.side = Side::Label;
        }
        if self.section == Section::Name {
            self.section = Section::Inputs;
        }
        self.first = self.mentions.len();
        self.brackets.push(bracket)?;
        Ok(())
    }

    /// A bracket closes.
    fn close(&mut self) {
        match self.brackets.pop() {
            Some(Bracket::Arguments(owner) | Bracket::Fields(owner)) => self.last = Some(owner),
            Some(Bracket::Branch(merged)) => self.ahead = Ahead::Opens(Bracket::Branch(merged)),
            Some(Bracket::Plain) | None => {}
        }
    }

    /// An operand of an expression ends, also one that lacks its test or label.
    fn end_operand(&mut self) {
        if self.section == Section::Equations && self.side != Side::Names {
            self.side = Side::Values;
        }
    }

    fn pass_semicolon(&mut self) {
        if self.section == Section::Equations
            && !matches!(self.brackets.last(), Some(Bracket::Fields(_)))
        {
            self.brackets.clear();
        }
        self.begin();
    }

    fn pass_equal(&mut self) {
        if self.side == Side::Names {
            self.side = match self.section {
                Section::Types => Side::Types,
                _ => Side::Values,
            };
        } else if self.section == Section::Constants {
            self.side = Side::Values;
        }
    }

    fn pass_symbol(&mut self, symbol: Symbol, ahead: Ahead) -> Result<(), AllocError> {
        match symbol {
            Symbol::Open => self.open(ahead)?,
            Symbol::Close => {
                self.close();
                self.end_operand();
            }
            Symbol::OpenBrace => {
                self.open(ahead)?;
                if self.side != Side::Constructors {
                    self.side = Side::Names;
                }
            }
            Symbol::CloseBrace => {
                self.close();
                self.side = match self.section {
                    Section::Equations => Side::Values,
                    _ => Side::Names,
                };
            }
            Symbol::Semicolon => self.pass_semicolon(),
            Symbol::Comma => self.end_operand(),
            Symbol::Colon => self.side = Side::Types,
            Symbol::Equal => self.pass_equal(),
            Symbol::Arrow if self.side == Side::Label => self.side = Side::Values,
            Symbol::Dot if self.section == Section::Equations => self.ahead = Ahead::Member,
            _ => {}
        }
        Ok(())
    }

    /// The role of a name in the head of a declaration.
    fn role_in_head(&self, opens: bool, declared: Declared) -> Option<Role> {
        match self.side {
            Side::Names => Some(Role::Declares(declared)),
            Side::Constructors => Some(Role::Declares(Declared::Constructor)),
            Side::Types => Some(Role::Type),
            Side::Test if opens => Some(Role::Label),
            Side::Test => Some(Role::Tested),
            Side::Values => Some(Role::Label),
            Side::Merged | Side::Label => None,
        }
    }

    /// The role of a name in an equation, before a token.
    fn role_in_equation(&self, ahead: Ahead, next: Option<Symbol>) -> Role {
        if let Ahead::Member = ahead {
            return Role::Field;
        }
        match self.side {
            Side::Names => match self.brackets.last() {
                Some(Bracket::Fields(_)) => Role::Field,
                _ => Role::Left,
            },
            Side::Test if next == Some(Symbol::Open) => Role::Label,
            Side::Test | Side::Merged => Role::Tested,
            Side::Label => Role::Label,
            Side::Values | Side::Types | Side::Constructors => match next {
                Some(Symbol::Open) => Role::Called,
                Some(Symbol::OpenBrace) => Role::Type,
                _ => Role::Value,
            },
        }
    }

    /// The role of a name before a token, if it has one here.
    fn role_of(&self, ahead: Ahead, next: Option<Symbol>) -> Option<Role> {
        let opens = next == Some(Symbol::Open);
        match self.section {
            Section::Outside => None,
            Section::Types if self.brackets.is_empty() => self.role_in_head(opens, Declared::Type),
            Section::Types => self.role_in_head(opens, Declared::Field),
            Section::Constants => self.role_in_head(opens, Declared::Constant),
            Section::Name => Some(Role::Declares(Declared::Node)),
            Section::Inputs => self.role_in_head(opens, Declared::Input),
            Section::Outputs => self.role_in_head(opens, Declared::Output),
            Section::Locals => self.role_in_head(opens, Declared::Local),
            Section::Equations => Some(self.role_in_equation(ahead, next)),
        }
    }

    /// The mention that a name is a field of, or whose type it is; of a branch's label the merged variable.
    fn owner_of(&self, ahead: Ahead, role: Role) -> Option<usize> {
        match role {
            Role::Type if self.section != Section::Equations => Some(self.first),
            Role::Field => match (ahead, self.brackets.last()) {
                (Ahead::Member, _) => self.last,
                (_, Some(Bracket::Fields(owner))) => Some(*owner),
                _ => None,
            },
            Role::Label => match (self.side, self.brackets.last()) {
                (Side::Label, Some(Bracket::Branch(merged))) => Some(*merged),
                _ => None,
            },
            _ => None,
        }
    }

    /// Goes on behind a name in an equation.
    fn pass_operand(&mut self, place: usize, role: Role) {
        match role {
            Role::Tested => {
                if self.side == Side::Merged {
                    self.ahead = Ahead::Opens(Bracket::Branch(place));
                }
                self.side = Side::Values;
            }
            Role::Called => self.ahead = Ahead::Opens(Bracket::Arguments(place)),
            Role::Type => self.ahead = Ahead::Opens(Bracket::Fields(place)),
            Role::Value | Role::Field => self.last = Some(place),
            Role::Declares(_) | Role::Label | Role::Left => {}
        }
    }

    /// What a name would be that stood here before anything else.
    fn missing(&self, token: usize) -> Option<Mention> {
        let role = self.role_of(self.ahead, None)?;
        let of = self.owner_of(self.ahead, role);
        Some(Mention { token, role, of })
    }

    fn pass_name(
        &mut self,
        token: usize,
        ahead: Ahead,
        next: Option<Symbol>,
    ) -> Result<(), AllocError> {
        let Some(role) = self.role_of(ahead, next) else {
            return Ok(());
        };
        let place = self.mentions.len();
        let of = self.owner_of(ahead, role);
        self.mentions.push(Mention { token, role, of })?;
        match self.section {
            Section::Name => self.enter(Section::Inputs),
            Section::Equations => self.pass_operand(place, role),
            _ if role == Role::Type => self.first = self.mentions.len(),
            _ => {}
        }
        Ok(())
    }
}

/// The symbol that a token is, if it is one.
fn symbol_of(token: &Token<'_>) -> Option<Symbol> {
    match token.kind {
        TokenKind::Punctuation(symbol) => Some(symbol),
        _ => None,
    }
}

/// The names of a source that have a role, in the order of the text, and what a name would be that stood before a token, if it had a
/// role there. A name that stands there counts as one of the others.
pub(crate) fn mentions_before(
    alloc: Global,
    tokens: &[Token<'_>],
    at: usize,
) -> Result<(Vec<Mention>, Option<Mention>), AllocError> {
    let mut scanner = Scanner {
        mentions: Vec::new(alloc),
        brackets: Vec::new(alloc),
        section: Section::Outside,
        side: Side::Names,
        ahead: Ahead::Anything,
        first: 0,
        last: None,
    };
    let mut missing = None;
    for (place, token) in tokens.iter().enumerate() {
        if place == at {
            missing = scanner.missing(at);
        }
        let ahead = scanner.ahead;
        scanner.ahead = Ahead::Anything;
        match token.kind {
            TokenKind::Identifier(_) => {
                let next = tokens.get(place.saturating_add(1)).and_then(symbol_of);
                scanner.pass_name(place, ahead, next)?;
            }
            TokenKind::Keyword(word) => scanner.pass_word(word),
            TokenKind::Punctuation(symbol) => scanner.pass_symbol(symbol, ahead)?,
            TokenKind::Number(_) => {}
        }
    }
    if at >= tokens.len() {
        missing = scanner.missing(at);
    }
    let Scanner { mentions, .. } = scanner;
    Ok((mentions, missing))
}

//! What an equation wants at a place: the type and the clock of the expression there, and the call that it is an argument of.

use lus_occurrences::{Clock, Declared, Kind, Names};
use lus_syntax::{Symbol, Token, TokenKind, Word};
use std::alloc::{AllocError, Global};

/// What an expression is to be, as far as it is known: its type and its clock.
#[derive(Clone, Copy)]
pub(crate) struct Wanted<'t> {
    pub kind: Option<Kind>,
    pub clock: Option<Clock<'t>>,
}

/// A call that is being written: its node, and how many commas stand in it.
#[derive(Clone, Copy)]
pub(crate) struct Call {
    pub node: usize,
    pub commas: usize,
}

/// What an open bracket holds.
#[derive(Clone, Copy)]
enum Bracket<'t> {
    Plain,
    Arguments(Call),
    /// The fields of a structure of this type.
    Fields(Kind),
    /// A branch of the merge of this variable.
    Branch(&'t str),
}

/// An open bracket, and what the expression is to be that it stands in.
#[derive(Clone, Copy)]
struct Open<'t> {
    bracket: Bracket<'t>,
    around: Wanted<'t>,
}

/// What is known behind some tokens of a node's equations.
#[derive(Drop)]
pub(crate) struct Reader<'t> {
    open: Vec<Open<'t>>,
    /// The expression that the innermost bracket holds, or the equation.
    whole: Wanted<'t>,
    /// The type of the operand that stands next, and of the one before.
    next: Option<Kind>,
    last: Option<Kind>,
    /// What a bracket holds that opens next.
    ahead: Bracket<'t>,
    /// Whether the left of an equation, a field or a label stands here, and whether a `merge` stands before.
    is_named: bool,
    is_merged: bool,
    /// Whether the left of the equation has a name.
    is_left: bool,
    label: &'t str,
}

/// What nothing is known of.
const UNKNOWN: Wanted<'static> = Wanted {
    kind: None,
    clock: None,
};

/// The input of a call's node that stands behind as many commas.
pub(crate) fn input_of(names: &Names<'_>, call: Call) -> Option<usize> {
    let mut left = call.commas;
    let mut place = call.node;
    for declaration in names.declarations.get(call.node..)? {
        if declaration.declared == Declared::Input && declaration.owner == Some(call.node) {
            if left == 0 {
                return Some(place);
            }
            left = left.saturating_sub(1);
        } else if place > call.node {
            return None;
        }
        place = place.saturating_add(1);
    }
    None
}

fn input_kind(names: &Names<'_>, call: Call) -> Option<Kind> {
    names.kind_of(input_of(names, call)?)
}

impl<'t> Reader<'t> {
    /// A reader that stands before equations.
    pub fn new(alloc: Global) -> Reader<'t> {
        Reader {
            open: Vec::new(alloc),
            whole: UNKNOWN,
            next: None,
            last: None,
            ahead: Bracket::Plain,
            is_named: true,
            is_merged: false,
            is_left: false,
            label: "",
        }
    }

    /// An equation begins.
    fn begin(&mut self) {
        self.open.clear();
        self.whole = UNKNOWN;
        self.next = None;
        self.is_named = true;
        self.is_left = false;
    }

    /// An expression of a type begins, on the clock of what it stands in.
    fn want(&mut self, kind: Option<Kind>) {
        self.whole.kind = kind;
        self.next = kind;
        self.is_named = false;
    }

    /// A bracket opens.
    fn enter(&mut self, names: &Names<'_>, bracket: Bracket<'t>) -> Result<(), AllocError> {
        let around = self.whole;
        self.open.push(Open { bracket, around })?;
        match bracket {
            Bracket::Plain => self.whole.kind = if self.is_named {
                around.kind
            } else {
                self.next
            },
            Bracket::Arguments(call) => self.want(input_kind(names, call)),
            Bracket::Fields(_) | Bracket::Branch(_) => self.is_named = true,
        }
        Ok(())
    }

    /// A bracket closes.
    fn leave(&mut self, names: &Names<'_>) {
        let Some(open) = self.open.pop() else {
            return;
        };
        if let Bracket::Plain = open.bracket
            && self.is_named
        {
            return;
        }
        self.whole = open.around;
        self.is_named = false;
        match open.bracket {
            Bracket::Plain => {}
            Bracket::Arguments(call) => self.last = names.kind_of(call.node),
            Bracket::Fields(kind) => self.last = Some(kind),
            Bracket::Branch(_) => {
                self.last = open.around.kind;
                self.ahead = open.bracket;
            }
        }
    }

    /// The next argument stands behind a comma.
    fn pass_comma(&mut self, names: &Names<'_>) {
        let mut kind = self.whole.kind;
        if let Some(open) = self.open.last_mut()
            && let Bracket::Arguments(call) = open.bracket
        {
            let call = Call {
                node: call.node,
                commas: call.commas.saturating_add(1),
            };
            open.bracket = Bracket::Arguments(call);
            kind = input_kind(names, call);
        }
        if !self.is_named {
            self.want(kind);
        }
    }

    /// An arrow, which a branch has behind its label.
    fn pass_arrow(&mut self) {
        if let Some(open) = self.open.last()
            && let Bracket::Branch(variable) = open.bracket
            && self.is_named
        {
            let label = self.label;
            self.whole.clock = Some(Clock { label, variable });
            self.is_named = false;
        }
        self.next = self.whole.kind;
    }

    fn pass_symbol(&mut self, names: &Names<'_>, symbol: Symbol) {
        match symbol {
            Symbol::Equal if self.is_named => self.want(self.whole.kind),
            Symbol::Equal | Symbol::NotEqual => self.next = self.last,
            Symbol::Arrow => self.pass_arrow(),
            Symbol::Implies | Symbol::Sharp => self.next = Some(Kind::Bool),
            Symbol::Comma => self.pass_comma(names),
            Symbol::Semicolon => match self.open.last() {
                Some(open) if matches!(open.bracket, Bracket::Fields(_)) => self.is_named = true,
                _ => self.begin(),
            },
            Symbol::Dot | Symbol::Colon => {}
            _ => self.next = Some(Kind::Int),
        }
    }

    fn pass_truth(&mut self, label: &'t str) {
        self.label = label;
        self.last = Some(Kind::Bool);
    }

    fn pass_word(&mut self, word: Word) {
        match word {
            Word::True => self.pass_truth("true"),
            Word::False => self.pass_truth("false"),
            Word::If | Word::Not | Word::And | Word::Or | Word::Xor | Word::Nor => self.next = Some(
                Kind::Bool,
            ),
            Word::Div | Word::Mod => self.next = Some(Kind::Int),
            Word::Then | Word::Else | Word::Fby => self.next = self.whole.kind,
            Word::Merge => self.is_merged = true,
            Word::Let | Word::Tel | Word::Node | Word::Function | Word::Type | Word::Const => {
                self.begin();
            }
            _ => {}
        }
    }

    /// A name on the left of an equation, of a field or of a label.
    fn pass_named(&mut self, names: &Names<'t>, declaration: usize) {
        match self.open.last() {
            Some(open) if matches!(open.bracket, Bracket::Branch(_)) => {}
            Some(open) if matches!(open.bracket, Bracket::Fields(_)) => {
                self.whole.kind = names.kind_of(declaration);
            }
            _ => {
                if self.is_left {
                    self.whole.kind = None;
                } else {
                    let kind = names.kind_of(declaration);
                    let clock = names.clock_of(declaration);
                    self.whole = Wanted { kind, clock };
                }
                self.is_left = true;
            }
        }
    }

    /// What the bracket behind a name holds.
    fn bracket_behind(names: &Names<'_>, declaration: usize) -> Bracket<'t> {
        let Some(found) = names.declarations.get(declaration) else {
            return Bracket::Plain;
        };
        match found.declared {
            Declared::Node => Bracket::Arguments(Call {
                node: declaration,
                commas: 0,
            }),
            Declared::Type => match names.kind_of(declaration) {
                Some(kind) => Bracket::Fields(kind),
                None => Bracket::Plain,
            },
            _ => Bracket::Plain,
        }
    }

    fn pass_name(&mut self, names: &Names<'t>, token: usize, text: &'t str) {
        self.label = text;
        if self.is_merged {
            self.is_merged = false;
            self.ahead = Bracket::Branch(text);
            return;
        }
        let Some(declaration) = names.declaration_of(token) else {
            self.last = None;
            return;
        };
        if self.is_named {
            self.pass_named(names, declaration);
        } else {
            self.last = names.kind_of(declaration);
            self.ahead = Reader::bracket_behind(names, declaration);
        }
    }

    /// Goes on behind a token.
    pub fn pass(
        &mut self,
        names: &Names<'t>,
        place: usize,
        token: Token<'t>,
    ) -> Result<(), AllocError> {
        let ahead = self.ahead;
        self.ahead = Bracket::Plain;
        match token.kind {
            TokenKind::Identifier(text) => self.pass_name(names, place, text),
            TokenKind::Number(_) => self.last = Some(Kind::Int),
            TokenKind::Keyword(word) => self.pass_word(word),
            TokenKind::Punctuation(Symbol::Open | Symbol::OpenBrace) => self.enter(names, ahead)?,
            TokenKind::Punctuation(Symbol::Close | Symbol::CloseBrace) => self.leave(names),
            TokenKind::Punctuation(symbol) => self.pass_symbol(names, symbol),
        }
        Ok(())
    }

    /// The call whose next argument stands here, where no other bracket is open in it.
    pub fn argument(&self) -> Option<Call> {
        match self.open.last()?.bracket {
            Bracket::Arguments(call) => Some(call),
            _ => None,
        }
    }

    /// The innermost call that is being written.
    fn call(&self) -> Option<Call> {
        let mut found = None;
        for open in &self.open {
            if let Bracket::Arguments(call) = open.bracket {
                found = Some(call);
            }
        }
        found
    }
}

/// The last token before one of a number that equations begin behind, or the first token.
pub(crate) fn equations_before(tokens: &[Token<'_>], at: usize) -> usize {
    let mut found = 0;
    for (place, token) in tokens.iter().take(at).enumerate() {
        if let TokenKind::Keyword(Word::Let) = token.kind {
            found = place;
        }
    }
    found
}

/// What stands before a token: what the operand there is to be, and the innermost call that it is in.
pub(crate) fn context_at<'t>(
    alloc: Global,
    names: &Names<'t>,
    at: usize,
) -> Result<(Wanted<'t>, Option<Call>), AllocError> {
    let mut reader = Reader::new(alloc);
    let mut place = equations_before(&names.tokens, at);
    for token in names.tokens.get(place..at).unwrap_or(&[]) {
        reader.pass(names, place, *token)?;
        place = place.saturating_add(1);
    }
    let wanted = Wanted {
        kind: reader.next,
        clock: reader.whole.clock,
    };
    Ok((wanted, reader.call()))
}

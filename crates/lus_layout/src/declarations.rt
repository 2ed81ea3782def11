//! Declarations, one a line, and nodes.

use crate::page::Page;
use lus_syntax::{Symbol, Word};

/// What a declaration is.
#[derive(Clone, Copy, PartialEq, Eq)]
enum Kind {
    Types,
    Constants,
    Node,
}

impl Page<'_> {
    fn kind_of(&self, at: usize) -> Kind {
        if self.is_word(at, Word::Type) {
            Kind::Types
        } else if self.is_word(at, Word::Const) {
            Kind::Constants
        } else {
            Kind::Node
        }
    }

    /// Places all declarations of a source.
    pub fn place_all(&mut self) {
        let mut at = 0;
        let mut right = 0;
        let mut before = None;
        for _ in 0..self.tokens.len() {
            if at >= self.tokens.len() {
                break;
            }
            let kind = self.kind_of(at);
            self.begin_declaration(at, kind, before);
            before = Some(kind);
            (at, right) = match kind {
                Kind::Types => (self.place_items(at, true), right),
                Kind::Constants => (self.place_items(at, false), right),
                Kind::Node => self.place_node(at, right),
            };
        }
        let end = self.tokens.len();
        self.new_part(end, 0, end == 0);
    }

    /// Begins a declaration: an empty line stands before and behind each node, and between types and constants.
    fn begin_declaration(&mut self, at: usize, kind: Kind, before: Option<Kind>) {
        self.new_part(at, 0, at == 0);
        let parts = match before {
            None => false,
            Some(other) => kind == Kind::Node || kind != other,
        };
        if let Some(gap) = self.gaps.get_mut(at) {
            gap.must_part = parts;
        }
    }

    /// Types or constants below each other, behind the word. Gives the token behind them.
    fn place_items(&mut self, word: usize, is_types: bool) -> usize {
        let inner = self.gap(word).columns.saturating_add(1);
        let first = word.saturating_add(1);
        self.step(first, inner.saturating_sub(1), inner);
        let mut at = first;
        for _ in first..self.tokens.len() {
            if !self.is_name(at) {
                return at;
            }
            if at != first {
                self.new_part(at, inner, false);
            }
            let behind = self.find_outside(at, Symbol::Semicolon).saturating_add(1);
            if is_types {
                self.place_type(at, behind, inner);
            } else {
                self.on_line(at, behind, inner, inner.saturating_add(2));
            }
            at = behind;
        }
        at
    }

    /// A type on a line, or its constructors or its fields on lines of their own.
    fn place_type(&mut self, first: usize, behind: usize, column: u32) {
        let word = first.saturating_add(2);
        let is_bare = self.is_symbol(word, Symbol::OpenBrace);
        let opening = if is_bare {
            word
        } else {
            word.saturating_add(1)
        };
        let low = column.saturating_add(2);
        if !self.is_symbol(opening, Symbol::OpenBrace) || self.fits(first, behind, column, 0) {
            self.on_line(first, behind, column, low);
            return;
        }
        let inside = opening.saturating_add(1);
        let closing = behind.saturating_sub(2);
        self.on_line(first, inside, column, low);
        if self.is_word(word, Word::Enum) {
            self.place_constructors(inside, closing, low);
        } else {
            self.place_groups(inside, closing, low);
        }
        self.new_line(closing, column);
        self.set_within(closing, low);
        self.word(closing.saturating_add(1), column.saturating_add(1), column);
    }

    /// A node, whose right sides are the expressions from one on. Gives the token and the expression behind it.
    fn place_node(&mut self, first: usize, right: usize) -> (usize, usize) {
        let inputs = self.find_outside(first.saturating_add(3), Symbol::Close);
        let returns = inputs.saturating_add(1);
        let outputs = self.find_outside(returns.saturating_add(2), Symbol::Close);
        let behind = outputs.saturating_add(1);
        let behind = if self.is_symbol(behind, Symbol::Semicolon) {
            behind.saturating_add(1)
        } else {
            behind
        };
        self.place_head(first, inputs, outputs, behind);
        let word = self.place_locals(behind);
        self.new_line(word, 0);
        let (tel, right) = self.place_equations(word.saturating_add(1), right);
        (self.place_end(tel, tel == word.saturating_add(1)), right)
    }

    /// A head on one line, else inputs and outputs on one each, else with each group on a line.
    fn place_head(&mut self, first: usize, inputs: usize, outputs: usize, behind: usize) {
        if self.fits(first, behind, 0, 0) {
            self.on_line(first, behind, 0, 2);
            return;
        }
        let returns = inputs.saturating_add(1);
        self.place_half(first, first.saturating_add(3), inputs, returns);
        self.new_line(returns, 0);
        self.place_half(returns, returns.saturating_add(2), outputs, behind);
    }

    /// The inputs or the outputs of a head: groups from one token on, up to a closing parenthesis.
    fn place_half(&mut self, first: usize, groups: usize, closing: usize, behind: usize) {
        if groups >= closing || self.fits(first, behind, 0, 0) {
            self.on_line(first, behind, 0, 2);
            return;
        }
        self.on_line(first, groups, 0, 2);
        self.place_groups(groups, closing, 2);
        self.new_line(closing, 0);
        self.set_within(closing, 2);
        let mut end = 1;
        for at in closing.saturating_add(1)..behind {
            end = self.word(at, end, 2);
        }
    }

    /// Locals, and the token behind them.
    fn place_locals(&mut self, first: usize) -> usize {
        let mut at = first;
        for _ in first..self.tokens.len() {
            if !self.is_word(at, Word::Var) {
                return at;
            }
            at = self.place_block(at);
        }
        at
    }

    /// `var` and its groups on one line, else each on one. Gives the token behind them.
    fn place_block(&mut self, word: usize) -> usize {
        let first = word.saturating_add(1);
        let mut behind = first;
        for _ in first..self.tokens.len() {
            if !self.is_name(behind) {
                break;
            }
            behind = self
                .find_outside(behind, Symbol::Semicolon)
                .saturating_add(1);
        }
        self.new_line(word, 0);
        if self.fits(word, behind, 0, 0) {
            self.on_line(word, behind, 0, 2);
        } else {
            self.place_groups(first, behind, 2);
        }
        behind
    }

    /// Equations, one a line. Gives the `tel` behind them, and the expression behind their right sides.
    fn place_equations(&mut self, first: usize, right: usize) -> (usize, usize) {
        let mut at = first;
        let mut place = right;
        for _ in first..self.tokens.len() {
            if self.is_word(at, Word::Tel) {
                break;
            }
            let shape = self.shape(place);
            self.new_part(at, 2, at == first);
            self.place_equation(at, place);
            at = shape.behind.saturating_add(1);
            place = shape.next;
        }
        (at, place)
    }

    fn place_equation(&mut self, first: usize, place: usize) {
        let right = self.shape(place);
        let end = self.on_line(first, right.first, 2, 4);
        let start = self.step(right.first, end, 4);
        let behind = right.behind.saturating_add(1);
        let is_broken = self.is_broken(right.first);
        let is_short = self.is_flat(first, behind)
            && self.fits(right.first, right.behind, start, 1);
        if is_short && !is_broken {
            self.on_line(right.first, behind, start, 4);
            return;
        }
        let is_own = is_broken || self.wants_own_line(place, start);
        self.place_right(place, start, is_own);
    }

    /// Places a right side behind its `=`, or on lines of its own.
    fn place_right(&mut self, place: usize, start: u32, is_own: bool) {
        let right = self.shape(place);
        let end = if is_own {
            self.new_line(right.first, 4);
            self.place_whole(place, 4, 4, 1)
        } else {
            self.place_whole(place, start, 2, 1)
        };
        self.word(right.behind, end, 4);
    }

    /// The most columns of a right side that is placed so, where the author's breaks count for nothing.
    fn tried(&mut self, place: usize, start: u32, is_own: bool) -> u32 {
        let right = self.shape(place);
        self.is_trial = true;
        self.reached = 0;
        self.place_right(place, start, is_own);
        self.forget(right.first, right.behind, 4);
        self.is_trial = false;
        self.reached
    }

    /// Whether a right side that has too many columns behind its `=` has fewer on lines of its own.
    fn wants_own_line(&mut self, place: usize, start: u32) -> bool {
        let behind = self.tried(place, start, false);
        behind > self.width && self.tried(place, start, true) < behind
    }

    /// `tel`, and the token behind it and behind what ends the node.
    fn place_end(&mut self, tel: usize, is_empty: bool) -> usize {
        self.new_line(tel, 0);
        self.set_within(tel, 2);
        if let Some(gap) = self.gaps.get_mut(tel) {
            gap.opens = is_empty;
        }
        let mark = tel.saturating_add(1);
        if !self.is_symbol(mark, Symbol::Semicolon) && !self.is_symbol(mark, Symbol::Dot) {
            return mark;
        }
        self.word(mark, 3, 0);
        mark.saturating_add(1)
    }
}

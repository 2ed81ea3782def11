//! Names with their type and clock: groups of heads, of locals and of fields.

use crate::page::Page;
use lus_syntax::Symbol;

impl Page<'_> {
    /// The first token from one on that is this symbol, outside of brackets.
    pub fn find_outside(&self, from: usize, wanted: Symbol) -> usize {
        let mut depth = 0u32;
        for at in from..self.tokens.len() {
            if depth == 0 && self.is_symbol(at, wanted) {
                return at;
            }
            if self.is_symbol(at, Symbol::Open) || self.is_symbol(at, Symbol::OpenBrace) {
                depth = depth.saturating_add(1);
            }
            if self.is_symbol(at, Symbol::Close) || self.is_symbol(at, Symbol::CloseBrace) {
                depth = depth.saturating_sub(1);
            }
        }
        self.tokens.len()
    }

    /// Names behind commas, as many on a line as fit behind a column, and then from another one on.
    fn fill(&mut self, first: usize, behind: usize, start: u32, column: u32) -> u32 {
        let mut end = start;
        for comma in first..behind {
            if !self.is_symbol(comma, Symbol::Comma) {
                continue;
            }
            let name = comma.saturating_add(1);
            end = self.word(comma, end, column);
            let gap = self.gap(name);
            let wanted = end.saturating_add(gap.columns).saturating_add(2);
            end = if wanted > self.width || gap.has_line {
                self.new_line(name, column).saturating_add(gap.columns)
            } else {
                self.word(name, end, column)
            };
        }
        end
    }

    /// Constructors on lines of their own.
    pub fn place_constructors(&mut self, first: usize, behind: usize, column: u32) {
        let start = self.new_part(first, column, true);
        let end = start.saturating_add(self.gap(first).columns);
        self.fill(first, behind, end, column);
    }

    /// A group from a column on: on a line, else its names on several.
    pub fn place_group(&mut self, first: usize, behind: usize, column: u32) -> u32 {
        let low = column.saturating_add(2);
        if self.fits(first, behind, column, 1) {
            return self.on_line(first, behind, column, low);
        }
        let colon = self.find_outside(first, Symbol::Colon).min(behind);
        let start = column.saturating_add(self.gap(first).columns);
        let mut end = self.fill(first, colon, start, low);
        for at in colon..behind {
            end = self.word(at, end, low);
        }
        end
    }

    /// Groups, each with its semicolon on lines of its own, up to a closing bracket.
    pub fn place_groups(&mut self, first: usize, closing: usize, column: u32) {
        let mut at = first;
        for _ in first..closing {
            if at >= closing {
                return;
            }
            let behind = self.find_outside(at, Symbol::Semicolon).min(closing);
            self.new_part(at, column, at == first);
            let end = self.place_group(at, behind, column);
            if behind < closing {
                self.word(behind, end, column);
            }
            at = behind.saturating_add(1);
        }
    }
}

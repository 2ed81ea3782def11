//! Expressions, on a line where they fit, else over several. Each function gives the column behind what it places.

use crate::page::Page;
use crate::shapes::{Form, Role, Shape, goes_on, opens};
use lus_syntax::Infix;

impl Page<'_> {
    fn fits_shape(&self, shape: Shape, column: u32, tail: u32) -> bool {
        self.fits(shape.first, shape.behind, column, tail)
    }

    /// Whether the first line of an expression over several lines fits.
    fn fits_head(&self, shape: Shape, column: u32) -> bool {
        self.fits(shape.first, shape.head, column, 0)
    }

    /// Places an expression whose first token begins at a column. Its further lines begin at the base or behind it, and so many
    /// columns are wanted behind it.
    #[cycle(place)]
    fn place(
        &mut self,
        place: usize,
        column: u32,
        base: u32,
        tail: u32,
        role: Role,
        depth: u32,
    ) -> u32 {
        let Some(depth) = depth.checked_sub(1) else {
            return column;
        };
        let shape = self.shape(place);
        let fits = !goes_on(role, shape.form) && self.fits_shape(shape, column, tail);
        if fits || shape.form == Form::Leaf {
            return self.on_line(shape.first, shape.behind, column, base);
        }
        let end = match shape.form {
            Form::Leaf => column,
            Form::Prefixed => self.place_prefixed(place, column, base, tail, depth),
            Form::Parentheses => self.place_parentheses(place, column, tail, depth),
            Form::Chain(operator) => self.place_chain(place, operator, column, tail, depth),
            Form::Arrow => self.place_arrow(place, column, base, tail, depth),
            Form::When => self.place_when(place, column, depth),
            Form::If => self.place_if(place, column, role, tail, depth),
            Form::Merge => self.place_merge(place, column, base, tail, depth),
            Form::List => self.place_list(place, column, base, tail, depth),
            Form::Structure => self.place_structure(place, column, base, depth),
            Form::Field => self.place_field(place, column, base, tail, depth),
        };
        self.reached = self.reached.max(end.saturating_add(tail));
        end
    }

    #[cycle(place)]
    fn place_prefixed(
        &mut self,
        place: usize,
        column: u32,
        base: u32,
        tail: u32,
        depth: u32,
    ) -> u32 {
        let Some(depth) = depth.checked_sub(1) else {
            return column;
        };
        let shape = self.shape(place);
        let behind = column.saturating_add(self.gap(shape.first).columns);
        let start = self.step(shape.first.saturating_add(1), behind, base);
        self.place(
            place.saturating_add(1),
            start,
            start,
            tail,
            Role::Alone,
            depth,
        )
    }

    #[cycle(place)]
    fn place_parentheses(&mut self, place: usize, column: u32, tail: u32, depth: u32) -> u32 {
        let Some(depth) = depth.checked_sub(1) else {
            return column;
        };
        let shape = self.shape(place);
        let inside = column.saturating_add(1);
        let start = self.step(shape.first.saturating_add(1), inside, inside);
        let tail = tail.saturating_add(1);
        let end = self.place(
            place.saturating_add(1),
            start,
            start,
            tail,
            Role::Alone,
            depth,
        );
        self.word(shape.behind.saturating_sub(1), end, column)
    }

    /// Operands below each other, each behind its operator.
    #[cycle(place)]
    fn place_chain(
        &mut self,
        place: usize,
        operator: Infix,
        column: u32,
        tail: u32,
        depth: u32,
    ) -> u32 {
        let Some(depth) = depth.checked_sub(1) else {
            return column;
        };
        let front = place.saturating_add(1);
        self.place(front, column, column, 0, Role::Front(operator), depth);
        let front = self.shape(front);
        self.new_line(front.behind, column);
        let behind = column.saturating_add(self.gap(front.behind).columns);
        let start = self.step(front.behind.saturating_add(1), behind, column);
        self.place(front.next, start, start, tail, Role::Alone, depth)
    }

    /// The test of a clock below what it cuts.
    #[cycle(place)]
    fn place_when(&mut self, place: usize, column: u32, depth: u32) -> u32 {
        let Some(depth) = depth.checked_sub(1) else {
            return column;
        };
        let shape = self.shape(place);
        let front = place.saturating_add(1);
        self.place(front, column, column, 0, Role::Alone, depth);
        let word = self.shape(front).behind;
        self.new_line(word, column);
        self.on_line(word, shape.behind, column, column)
    }

    /// What is behind an arrow goes on on its line where it begins with an `if`, a `merge` or a bracket, or fits there.
    #[cycle(place)]
    fn place_arrow(&mut self, place: usize, column: u32, base: u32, tail: u32, depth: u32) -> u32 {
        let Some(depth) = depth.checked_sub(1) else {
            return column;
        };
        let front = place.saturating_add(1);
        let mut end = self.place(front, column, column, 3, Role::Alone, depth);
        let mut before = self.shape(front);
        for _ in 0..depth {
            let rest = self.shape(before.next);
            let is_last = rest.form != Form::Arrow;
            let operand = if is_last {
                before.next
            } else {
                before.next.saturating_add(1)
            };
            end = if self.is_broken(self.shape(operand).first) {
                self.word(before.behind, end, column);
                self.place_low(operand, base.saturating_add(2), tail, depth)
            } else {
                self.place_behind(before.behind, operand, end, column, tail, depth)
            };
            if is_last {
                return end;
            }
            before = self.shape(operand);
        }
        end
    }

    /// What stands on lines of its own, from a column on.
    #[cycle(place)]
    fn place_low(&mut self, place: usize, column: u32, tail: u32, depth: u32) -> u32 {
        let Some(depth) = depth.checked_sub(1) else {
            return column;
        };
        self.new_line(self.shape(place).first, column);
        self.place(place, column, column, tail, Role::Alone, depth)
    }

    /// An arrow, and the operand behind it.
    #[cycle(place)]
    fn place_behind(
        &mut self,
        arrow: usize,
        operand: usize,
        end: u32,
        column: u32,
        tail: u32,
        depth: u32,
    ) -> u32 {
        let Some(depth) = depth.checked_sub(1) else {
            return column;
        };
        let shape = self.shape(operand);
        let behind = self.word(arrow, end, column);
        let start = self.step(shape.first, behind, column);
        let may_open = opens(shape.form) || shape.form == Form::If;
        let fits_head = may_open && self.is_flat(arrow, shape.head) && self.fits_head(shape, start);
        let fits = self.is_flat(arrow, shape.behind) && self.fits_shape(shape, start, tail);
        let start = if fits_head || fits {
            start
        } else {
            self.new_line(arrow, column);
            self.step(shape.first, column.saturating_add(2), column)
        };
        self.place(operand, start, start, tail, Role::Alone, depth)
    }

    /// `if .. then ..`, `else if .. then ..` and `else ..` below each other.
    #[cycle(place)]
    fn place_if(&mut self, place: usize, column: u32, role: Role, tail: u32, depth: u32) -> u32 {
        let Some(depth) = depth.checked_sub(1) else {
            return column;
        };
        let begun = match role {
            Role::Else(outer) => outer,
            _ => column,
        };
        let condition = place.saturating_add(1);
        let shape = self.shape(condition);
        let start = self.step(
            shape.first,
            column.saturating_add(2),
            begun.saturating_add(2),
        );
        let is_short = self.fits_shape(shape, start, 5)
            && self.is_flat(shape.first, shape.behind.saturating_add(1));
        let end = self.place(condition, start, start, 5, Role::Alone, depth);
        if is_short {
            self.place_then(shape.behind, shape.next, end, begun, depth);
        } else {
            self.place_low_then(shape.behind, shape.next, begun, depth);
        }
        let value = self.shape(shape.next);
        self.place_else(value.behind, value.next, begun, tail, depth)
    }

    /// `then` behind its condition. What doesn't fit behind it stands on the next line.
    #[cycle(place)]
    fn place_then(&mut self, then: usize, place: usize, end: u32, column: u32, depth: u32) -> u32 {
        let Some(depth) = depth.checked_sub(1) else {
            return column;
        };
        let value = self.shape(place);
        let low = column.saturating_add(2);
        let end = self.word(then, end, low);
        let start = self.step(value.first, end, low);
        let is_best = self.opens_well(value, start) && !self.fits_shape(value, low, 0);
        let stays = value.form != Form::If && (self.fits_shape(value, start, 0) || is_best);
        let start = if stays {
            start
        } else {
            self.new_line(value.first, low)
        };
        self.place(place, start, start, 0, Role::Alone, depth)
    }

    /// `then` below its `if`, behind a condition over several lines.
    #[cycle(place)]
    fn place_low_then(&mut self, then: usize, place: usize, column: u32, depth: u32) -> u32 {
        let Some(depth) = depth.checked_sub(1) else {
            return column;
        };
        self.new_line(then, column);
        let first = self.shape(place).first;
        let start = self.step(first, column.saturating_add(4), column.saturating_add(2));
        self.place(place, start, start, 0, Role::Alone, depth)
    }

    #[cycle(place)]
    fn place_else(&mut self, word: usize, place: usize, column: u32, tail: u32, depth: u32) -> u32 {
        let Some(depth) = depth.checked_sub(1) else {
            return column;
        };
        self.new_line(word, column);
        let shape = self.shape(place);
        let behind = column.saturating_add(4);
        if shape.form == Form::If {
            let start = self.step(shape.first, behind, column);
            return self.place(place, start, start, tail, Role::Else(column), depth);
        }
        let start = self.step(shape.first, behind, column.saturating_add(2));
        self.place(place, start, start, tail, Role::Alone, depth)
    }

    /// Whether an expression over several lines may begin here, as one that begins with a bracket or a merge may.
    fn opens_well(&self, shape: Shape, column: u32) -> bool {
        opens(shape.form) && self.fits_head(shape, column)
    }

    /// Arguments below each other, behind the parenthesis.
    #[cycle(place)]
    fn place_list(&mut self, place: usize, column: u32, base: u32, tail: u32, depth: u32) -> u32 {
        let Some(depth) = depth.checked_sub(1) else {
            return column;
        };
        let shape = self.shape(place);
        let inside = self.on_line(shape.first, shape.first.saturating_add(2), column, base);
        let mut end = inside;
        let mut argument = place.saturating_add(1);
        for index in 0..shape.count {
            let value = self.shape(argument);
            let start = if index == 0 {
                self.step(value.first, end, inside)
            } else {
                self.new_line(value.first, inside)
            };
            let is_last = index.saturating_add(1) == shape.count;
            let more = if is_last { tail.saturating_add(1) } else { 1 };
            end = self.place(argument, start, start, more, Role::Alone, depth);
            if !is_last {
                end = self.word(value.behind, end, inside);
            }
            argument = value.next;
        }
        self.word(shape.behind.saturating_sub(1), end, base)
    }

    /// Fields below each other, two columns further in, and the brace below what the structure begins on.
    #[cycle(place)]
    fn place_structure(&mut self, place: usize, column: u32, base: u32, depth: u32) -> u32 {
        let Some(depth) = depth.checked_sub(1) else {
            return column;
        };
        let shape = self.shape(place);
        let closing = shape.behind.saturating_sub(1);
        let inner = base.saturating_add(2);
        self.on_line(shape.first, shape.first.saturating_add(2), column, base);
        let mut part = place.saturating_add(1);
        for _ in 0..shape.count {
            let value = self.shape(part);
            let name = value.first.saturating_sub(2);
            self.new_line(name, inner);
            let end = self.on_line(name, value.first, inner, inner.saturating_add(2));
            let start = self.step(value.first, end, inner.saturating_add(2));
            let end = self.place(part, start, start, 1, Role::Alone, depth);
            if value.behind != closing {
                self.word(value.behind, end, inner);
            }
            part = value.next;
        }
        self.new_line(closing, base);
        self.set_within(closing, inner);
        base.saturating_add(1)
    }

    /// Branches below each other, two columns further in than the line that the merge begins on.
    #[cycle(place)]
    fn place_merge(&mut self, place: usize, column: u32, base: u32, tail: u32, depth: u32) -> u32 {
        let Some(depth) = depth.checked_sub(1) else {
            return column;
        };
        let shape = self.shape(place);
        let mut end = self.on_line(shape.first, shape.first.saturating_add(2), column, base);
        let mut branch = place.saturating_add(1);
        for index in 0..shape.count {
            let is_last = index.saturating_add(1) == shape.count;
            let tail = if is_last { tail } else { 0 };
            end = self.place_branch(branch, base.saturating_add(2), tail, depth);
            branch = self.shape(branch).next;
        }
        end
    }

    /// A branch, whose value stands below its label where it would have to be broken behind it and may not.
    #[cycle(place)]
    fn place_branch(&mut self, place: usize, column: u32, tail: u32, depth: u32) -> u32 {
        let Some(depth) = depth.checked_sub(1) else {
            return column;
        };
        let value = self.shape(place);
        let first = value.first.saturating_sub(3);
        let low = column.saturating_add(2);
        let tail = tail.saturating_add(1);
        self.new_line(first, column);
        let end = self.on_line(first, value.first, column, low);
        let start = self.step(value.first, end, low);
        let is_if = value.form == Form::If && self.fits_head(value, start);
        let may_stay = is_if
            || self.fits_shape(value, start, tail)
            || self.opens_well(value, start);
        let (start, base) = if !may_stay || self.is_broken(value.first) {
            (self.new_line(value.first, low), low)
        } else if value.form == Form::Merge {
            (start, column)
        } else {
            (start, start)
        };
        let end = self.place(place, start, base, tail, Role::Alone, depth);
        self.word(value.behind, end, column)
    }

    #[cycle(place)]
    fn place_field(&mut self, place: usize, column: u32, base: u32, tail: u32, depth: u32) -> u32 {
        let Some(depth) = depth.checked_sub(1) else {
            return column;
        };
        let shape = self.shape(place);
        let operand = place.saturating_add(1);
        let point = self.shape(operand).behind;
        let name = self.columns(point, shape.behind);
        let mut end = self.place(
            operand,
            column,
            base,
            tail.saturating_add(name),
            Role::Alone,
            depth,
        );
        for at in point..shape.behind {
            end = self.word(at, end, base);
        }
        end
    }

    /// Places a whole right side, of no greater depth than a source may have.
    pub fn place_whole(&mut self, place: usize, column: u32, base: u32, tail: u32) -> u32 {
        self.place(place, column, base, tail, Role::Alone, 512)
    }
}

//! Which tokens expressions have.

use lus_syntax::{Equation, Expr, Infix, Lead, Part, Symbol, Test, Token, TokenKind, Tree, Word};
use lus_values::Op;
use std::alloc::{AllocError, Global};

/// The form of an expression, as far as the layout asks.
#[derive(Clone, Copy, PartialEq, Eq)]
pub enum Form {
    Leaf,
    Prefixed,
    Parentheses,
    Chain(Infix),
    Arrow,
    When,
    If,
    Merge,
    List,
    Structure,
    Field,
}

/// An expression: its tokens are those from `first` on, before `behind`. Those in it come right after it, before `next`; of one over
/// several lines the tokens before `head` have to stand on the first. It has so many branches, fields or arguments.
#[derive(Clone, Copy)]
pub struct Shape {
    pub form: Form,
    pub first: usize,
    pub behind: usize,
    pub next: usize,
    pub head: usize,
    pub count: usize,
}

/// Whether operators belong to one chain.
pub fn is_one_chain(left: Infix, right: Infix) -> bool {
    match (left, right) {
        (Infix::Compute(Op::Add | Op::Subtract), Infix::Compute(Op::Add | Op::Subtract)) => true,
        (
            Infix::Compute(Op::Multiply | Op::Divide | Op::Remainder),
            Infix::Compute(Op::Multiply | Op::Divide | Op::Remainder),
        ) => true,
        _ => left == right,
    }
}

/// What an expression is placed as.
#[derive(Clone, Copy)]
pub enum Role {
    /// By itself.
    Alone,
    /// The front of a chain, which is broken.
    Front(Infix),
    /// Behind the `else` of an `if` that begins at this column.
    Else(u32),
}

/// Whether an expression is broken since what it is a part of is.
pub fn goes_on(role: Role, form: Form) -> bool {
    match (role, form) {
        (Role::Front(operator), Form::Chain(other)) => is_one_chain(operator, other),
        (Role::Else(_), Form::If) => true,
        _ => false,
    }
}

/// Whether an expression over several lines begins with a bracket or a merge.
pub fn opens(form: Form) -> bool {
    matches!(
        form,
        Form::Parentheses | Form::List | Form::Structure | Form::Merge
    )
}

/// A walk over the tokens of expressions.
#[derive(Drop)]
struct Walk<'t> {
    tokens: &'t [Token<'t>],
    at: usize,
    found: Vec<Shape>,
}

/// The form of an expression, and how many parts it has.
fn form_of(expr: &Expr) -> (Form, usize) {
    match expr {
        Expr::Number(_, _) | Expr::Truth(_, _) | Expr::Name(_) => (Form::Leaf, 0),
        Expr::Call(_, parts) | Expr::Variadic(_, _, parts) => (Form::List, parts.len()),
        Expr::Structure(_, parts) => (Form::Structure, parts.len()),
        Expr::Merge(_, _, parts) => (Form::Merge, parts.len()),
        Expr::Field(_, _) => (Form::Field, 1),
        Expr::Parentheses(_, _) => (Form::Parentheses, 1),
        Expr::When(_, _) => (Form::When, 1),
        Expr::Unary(_, _, _) => (Form::Prefixed, 1),
        Expr::Binary(Infix::Arrow, _, _) => (Form::Arrow, 2),
        Expr::Binary(operator, _, _) => (Form::Chain(*operator), 2),
        Expr::If(_, _, _, _) => (Form::If, 3),
    }
}

impl Walk<'_> {
    /// Passes so many tokens.
    fn pass(&mut self, count: usize) {
        self.at = self.at.saturating_add(count);
    }

    /// Whether the next token is a symbol.
    fn is_at(&self, wanted: Symbol) -> bool {
        match self.tokens.get(self.at) {
            Some(token) => matches!(token.kind, TokenKind::Punctuation(symbol) if symbol == wanted),
            None => false,
        }
    }

    fn test(&mut self, test: &Test) {
        match test {
            Test::Holds(_) => self.pass(1),
            Test::Fails(_, _) => {
                self.pass(1);
                let count = if self.is_at(Symbol::Open) { 3 } else { 1 };
                self.pass(count);
            }
            Test::Is(_, _) => self.pass(4),
        }
    }

    #[cycle(walk)]
    fn parts(&mut self, parts: &[Part]) -> Result<(), AllocError> {
        for (place, part) in parts.iter().enumerate() {
            match &part.lead {
                Lead::Plain => self.pass(if place > 0 { 1 } else { 0 }),
                Lead::Field(_) => self.pass(if place > 0 { 3 } else { 2 }),
                Lead::Branch(_, _) => self.pass(3),
            }
            self.expression(&part.value)?;
            if let Lead::Branch(_, _) = &part.lead {
                self.pass(1);
            }
        }
        Ok(())
    }

    /// Finds the shapes of an expression and of those in it.
    #[cycle(walk)]
    fn expression(&mut self, expr: &Expr) -> Result<(), AllocError> {
        let place = self.found.len();
        let first = self.at;
        let (form, count) = form_of(expr);
        self.found.push(Shape {
            form,
            first,
            behind: first,
            next: place,
            head: first,
            count,
        })?;
        match expr {
            Expr::Number(_, _) | Expr::Truth(_, _) | Expr::Name(_) => self.pass(1),
            Expr::Call(_, parts) | Expr::Structure(_, parts) | Expr::Variadic(_, _, parts) => {
                self.pass(2);
                self.parts(parts)?;
                let count = if self.is_at(Symbol::Semicolon) { 2 } else { 1 };
                self.pass(count);
            }
            Expr::Merge(_, _, parts) => {
                self.pass(2);
                self.parts(parts)?;
            }
            Expr::Field(operand, _) => {
                self.expression(operand)?;
                self.pass(2);
            }
            Expr::Parentheses(_, operand) => {
                self.pass(1);
                self.expression(operand)?;
                self.pass(1);
            }
            Expr::When(operand, test) => {
                self.expression(operand)?;
                self.pass(1);
                self.test(test);
            }
            Expr::Unary(_, _, operand) => {
                self.pass(1);
                self.expression(operand)?;
            }
            Expr::Binary(_, left, right) => {
                self.expression(left)?;
                self.pass(1);
                self.expression(right)?;
            }
            Expr::If(_, condition, left, right) => {
                self.pass(1);
                self.expression(condition)?;
                self.pass(1);
                self.expression(left)?;
                self.pass(1);
                self.expression(right)?;
            }
        }
        self.close(place);
        Ok(())
    }

    /// Notes where an expression ends, and what has to stand on its first line.
    fn close(&mut self, place: usize) {
        let behind = self.at;
        let next = self.found.len();
        let inner = match self.found.get(place.saturating_add(1)) {
            Some(shape) => shape.head,
            None => behind,
        };
        if let Some(shape) = self.found.get_mut(place) {
            shape.behind = behind;
            shape.next = next;
            shape.head = match shape.form {
                Form::If | Form::Chain(_) | Form::Arrow | Form::When | Form::Parentheses => inner,
                Form::Merge | Form::List | Form::Structure => shape.first.saturating_add(2),
                Form::Leaf | Form::Prefixed | Form::Field => behind,
            };
        }
    }

    /// Passes on to the first token behind the next `let`.
    fn pass_let(&mut self) {
        for _ in 0..self.tokens.len() {
            let Some(token) = self.tokens.get(self.at) else {
                return;
            };
            self.pass(1);
            if matches!(token.kind, TokenKind::Keyword(Word::Let)) {
                return;
            }
        }
    }

    fn equation(&mut self, equation: &Equation) -> Result<(), AllocError> {
        let brackets = if self.is_at(Symbol::Open) { 2 } else { 0 };
        self.pass(
            equation
                .left
                .len()
                .saturating_mul(2)
                .saturating_add(brackets),
        );
        self.expression(&equation.right)?;
        self.pass(1);
        Ok(())
    }
}

/// The shapes of all right sides of a source, in their order.
pub fn shapes_of(
    alloc: Global,
    tokens: &[Token<'_>],
    tree: &Tree,
) -> Result<Vec<Shape>, AllocError> {
    let mut walk = Walk {
        tokens,
        at: 0,
        found: Vec::new(alloc),
    };
    for node in &tree.nodes {
        walk.pass_let();
        for equation in &node.equations {
            walk.equation(equation)?;
        }
    }
    Ok(walk.found)
}

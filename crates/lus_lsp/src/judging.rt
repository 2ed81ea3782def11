//! The types and the clocks of expressions, as the compiler found them.

use crate::narrowing::{holds, innermost, right_round};
use lus_clocks::clocks_fit;
use lus_editing::Judged;
use lus_faults::extent_of;
use lus_grammar::parse;
use lus_program::{
    Declared, Expr, Form, Kind, Node, Program, Test, operation_kind, operator_kind, output_kind,
    value_kind, variable_kind,
};
use lus_syntax::{Refusal, Token, Tree, lex};
use lus_types::check_types;
use lus_values::Operator;
use std::alloc::{AllocError, Global};

/// What the type of an expression follows from.
enum Step<'t> {
    Is(Kind),
    As(&'t Expr),
    Field(Operator, &'t Expr),
    Nothing,
}

fn as_last(exprs: &[Expr]) -> Step<'_> {
    match exprs.last() {
        Some(expr) => Step::As(expr),
        None => Step::Nothing,
    }
}

/// What the clock of an expression follows from: a variable, a test, the operands on its clock, or nothing that is known.
enum Timing<'t> {
    Of(u32),
    On(Test),
    As(&'t [Expr]),
    AsOne(&'t Expr),
    AsOneOf(&'t Expr, &'t Expr),
    Any,
}

/// Whether all inputs and outputs of a node are on its base clock.
fn is_on_base(program: &Program, called: u32) -> bool {
    match program.nodes.get(called as usize) {
        Some(node) => {
            let count = (node.inputs as usize).saturating_add(node.outputs as usize);
            node.variables
                .iter()
                .take(count)
                .all(|variable| variable.test.is_none())
        }
        None => false,
    }
}

fn timing_of<'t>(program: &Program, expr: &'t Expr) -> Timing<'t> {
    match &expr.form {
        Form::Literal(_) => Timing::Any,
        Form::Variable(variable) | Form::Merge(variable, _) => Timing::Of(*variable),
        Form::When(test, _) => Timing::On(*test),
        Form::Operate(_, operands) => Timing::As(operands),
        Form::Pre(operand) => Timing::AsOne(operand),
        Form::Arrow(first, later) => Timing::AsOneOf(first, later),
        Form::Call(called, arguments) if is_on_base(program, *called) => Timing::As(arguments),
        Form::Call(_, _) => Timing::Any,
    }
}

/// The name of the constructor of a number.
fn constructor(program: &Program, kind: Kind, number: u32) -> Option<&str> {
    let Kind::Enum(of) = kind else {
        return None;
    };
    match program.types.get(of as usize)? {
        Declared::Enumeration(names) => Some(names.get(number as usize)?.as_str()),
        _ => None,
    }
}

/// A node of a source of so many bytes, with all that was found of it.
#[derive(Clone, Copy)]
struct Judge<'t> {
    bytes: usize,
    tree: &'t Tree,
    program: &'t Program,
    node: &'t Node,
}

impl<'t> Judge<'t> {
    fn step(self, expr: &'t Expr) -> Step<'t> {
        match &expr.form {
            Form::Literal(value) => Step::Is(value_kind(value)),
            Form::Variable(variable) => Step::Is(variable_kind(self.node, *variable)),
            Form::Call(called, _) => Step::Is(output_kind(self.program, *called)),
            Form::Operate(Operator::Compute(operation), _) => Step::Is(operation_kind(*operation)),
            Form::Operate(Operator::Structure(number), _) => Step::Is(Kind::Struct(*number)),
            Form::Operate(Operator::If, operands) => as_last(operands),
            Form::Operate(Operator::Field(place), operands) => match operands.last() {
                Some(operand) => Step::Field(Operator::Field(*place), operand),
                None => Step::Nothing,
            },
            Form::Pre(operand) | Form::When(_, operand) | Form::Arrow(operand, _) => {
                Step::As(operand)
            }
            Form::Merge(_, branches) => as_last(branches),
        }
    }

    /// The type of an expression.
    fn kind(self, alloc: Global, expr: &'t Expr) -> Result<Option<Kind>, AllocError> {
        let mut fields = Vec::new(alloc);
        let mut here = expr;
        for _deep in 0..self.bytes {
            match self.step(here) {
                Step::Is(found) => {
                    let mut kind = found;
                    for field in fields.iter().rev() {
                        kind = operator_kind(self.program, *field, kind);
                    }
                    return Ok(Some(kind));
                }
                Step::As(operand) => here = operand,
                Step::Field(field, operand) => {
                    fields.push(field)?;
                    here = operand;
                }
                Step::Nothing => return Ok(None),
            }
        }
        Ok(None)
    }

    /// The newest test of the clock of an expression, none on the base clock; nothing where the expression could have any clock, or is a
    /// call of which some inputs or outputs aren't on its base.
    fn clock(self, alloc: Global, expr: &'t Expr) -> Result<Option<Option<Test>>, AllocError> {
        let mut rest = Vec::new(alloc);
        rest.push(expr)?;
        for _part in 0..self.bytes {
            let Some(here) = rest.pop() else {
                return Ok(None);
            };
            match timing_of(self.program, here) {
                Timing::Of(variable) => {
                    return Ok(match self.node.variables.get(variable as usize) {
                        Some(declared) => Some(declared.test),
                        None => None,
                    });
                }
                Timing::On(test) => return Ok(Some(Some(test))),
                Timing::As(operands) => {
                    for operand in operands {
                        rest.push(operand)?;
                    }
                }
                Timing::AsOne(operand) => rest.push(operand)?,
                Timing::AsOneOf(first, later) => {
                    rest.push(first)?;
                    rest.push(later)?;
                }
                Timing::Any => {}
            }
        }
        Ok(None)
    }

    /// The name of a type.
    fn kind_name(self, kind: Kind) -> &'t str {
        match kind {
            Kind::Bool => "bool",
            Kind::Int => "int",
            Kind::Enum(number) | Kind::Struct(number) => {
                match self.tree.types.get(number as usize) {
                    Some(declared) => declared.name.text.as_str(),
                    None => "",
                }
            }
        }
    }

    /// Appends a clock as it is written.
    fn push_clock(self, said: &mut String, test: Test) -> Result<(), AllocError> {
        let name = match self.node.variables.get(test.variable as usize) {
            Some(variable) => variable.name.as_str(),
            None => "",
        };
        let kind = variable_kind(self.node, test.variable);
        match constructor(self.program, kind, test.constructor) {
            Some(label) => write!(said, " when {label}({name})"),
            None if test.constructor == 0 => write!(said, " when not {name}"),
            None => write!(said, " when {name}"),
        }
    }

    /// Appends the types of a call's outputs where it has several, or else the type of an expression.
    fn push_kinds(
        self,
        alloc: Global,
        said: &mut String,
        expr: &'t Expr,
    ) -> Result<(), AllocError> {
        if let Form::Call(called, _) = &expr.form
            && let Some(called) = self.program.nodes.get(*called as usize)
            && called.outputs > 1
        {
            let outputs = called.variables.iter().skip(called.inputs as usize);
            for (place, output) in outputs.take(called.outputs as usize).enumerate() {
                said.push_str(if place > 0 { ", " } else { "(" })?;
                said.push_str(self.kind_name(output.kind))?;
            }
            return said.push_str(")");
        }
        match self.kind(alloc, expr)? {
            Some(kind) => said.push_str(self.kind_name(kind)),
            None => Ok(()),
        }
    }

    /// The type of an expression, and its clock where the program is on clocks.
    fn said(self, alloc: Global, expr: &'t Expr) -> Result<String, AllocError> {
        let mut said = String::new(alloc);
        self.push_kinds(alloc, &mut said, expr)?;
        if clocks_fit(self.program).is_ok()
            && let Some(Some(test)) = self.clock(alloc, expr)?
        {
            self.push_clock(&mut said, test)?;
        }
        Ok(said)
    }
}

/// The number of the last node whose name doesn't stand behind a byte.
fn node_before(tree: &Tree, byte: usize) -> Option<usize> {
    tree.nodes
        .partition_point(|node| node.name.span.start.byte <= byte)
        .checked_sub(1)
}

/// Whether a token stands at a byte.
fn is_token(tokens: &[Token<'_>], byte: usize) -> bool {
    let before = tokens.partition_point(|token| token.span.start.byte <= byte);
    match tokens.get(before.saturating_sub(1)) {
        Some(token) => holds(token.span, byte),
        None => false,
    }
}

/// The innermost expression round the token at a byte of a program.
fn judged_in(
    alloc: Global,
    text: &str,
    tree: &Tree,
    program: &Program,
    byte: usize,
) -> Result<Option<Judged>, AllocError> {
    let Some(number) = node_before(tree, byte) else {
        return Ok(None);
    };
    let (Some(source), Some(node)) = (tree.nodes.get(number), program.nodes.get(number)) else {
        return Ok(None);
    };
    let Some(whole) = right_round(text, source, node, byte) else {
        return Ok(None);
    };
    let bytes = text.len();
    let found = innermost(text, whole, byte);
    let judge = Judge {
        bytes,
        tree,
        program,
        node,
    };
    let said = judge.said(alloc, found.expr)?;
    let span = extent_of(text, found.source);
    Ok(Some(Judged { span, said }))
}

/// The innermost expression round the token at a byte of a source. A source may be refused before its type is known.
pub(crate) fn judged_at(
    alloc: Global,
    source: &str,
    byte: usize,
) -> Result<Option<Judged>, Refusal> {
    let tokens = lex(alloc, source)?;
    if !is_token(&tokens, byte) {
        return Ok(None);
    }
    let tree = parse(alloc, &tokens)?;
    let typed = check_types(alloc, tree)?;
    let program = typed.sound().program();
    Ok(judged_in(alloc, source, typed.tree(), program, byte)?)
}

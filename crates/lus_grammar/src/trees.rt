//! Trees of what was read, each in a box. They stand apart, so that the parser's own functions hold boxes alone.

ghost use Rattle.std.specs.Prelude.{map};
ghost use Rattle.lus_syntax.specs.Trees as plain;
ghost use Rattle.lus_syntax.specs.View.{expression_seen, name_seen, part_seen, test_seen};
ghost use Rattle.lus_grammar.specs.Answers.{Makes};

use crate::fault::ParseError;
use lus_syntax::{Expr, Infix, ListOperator, Name, Part, Prefix, Span, Test};
use std::alloc::Global;

type Made = Result<Box<Expr>, ParseError>;

#[inline(never)]
pub fn binary(alloc: Global, operator: Infix, left: Box<Expr>, right: Box<Expr>) -> Made
    ensures { Makes result (plain.Binary operator (expression_seen left.value) (expression_seen right.value)) }
{
    Ok(Box::new(alloc, Expr::Binary(operator, left, right))?)
}

#[inline(never)]
pub fn unary(alloc: Global, operator: Prefix, span: Span, inner: Box<Expr>) -> Made
    ensures { Makes result (plain.Unary operator span (expression_seen inner.value)) }
{
    Ok(Box::new(alloc, Expr::Unary(operator, span, inner))?)
}

#[inline(never)]
pub fn choice(
    alloc: Global,
    span: Span,
    condition: Box<Expr>,
    yes: Box<Expr>,
    no: Box<Expr>,
) -> Made
    ensures { Makes result (plain.If span (expression_seen condition.value) (expression_seen yes.value) (expression_seen no.value)) }
{
    Ok(Box::new(alloc, Expr::If(span, condition, yes, no))?)
}

#[inline(never)]
pub fn parentheses(alloc: Global, span: Span, inner: Box<Expr>) -> Made
    ensures { Makes result (plain.Parentheses span (expression_seen inner.value)) }
{
    Ok(Box::new(alloc, Expr::Parentheses(span, inner))?)
}

#[inline(never)]
pub fn when(alloc: Global, left: Box<Expr>, test: Test) -> Made
    ensures { Makes result (plain.When (expression_seen left.value) (test_seen test)) }
{
    let test = Box::new(alloc, test)?;
    Ok(Box::new(alloc, Expr::When(left, test))?)
}

#[inline(never)]
pub fn field(alloc: Global, left: Box<Expr>, name: Name) -> Made
    ensures { Makes result (plain.Field (expression_seen left.value) (name_seen name)) }
{
    Ok(Box::new(alloc, Expr::Field(left, name))?)
}

#[inline(never)]
pub fn call(alloc: Global, name: Name, arguments: Vec<Part>) -> Made
    ensures { Makes result (plain.Call (name_seen name) (plain.parts_of (map part_seen arguments.items))) }
{
    let name = Box::new(alloc, name)?;
    Ok(Box::new(alloc, Expr::Call(name, arguments))?)
}

#[inline(never)]
pub fn structure(alloc: Global, name: Name, fields: Vec<Part>) -> Made
    ensures { Makes result (plain.Structure (name_seen name) (plain.parts_of (map part_seen fields.items))) }
{
    let name = Box::new(alloc, name)?;
    Ok(Box::new(alloc, Expr::Structure(name, fields))?)
}

#[inline(never)]
pub fn merge(alloc: Global, span: Span, name: Name, branches: Vec<Part>) -> Made
    ensures { Makes result (plain.Merge span (name_seen name) (plain.parts_of (map part_seen branches.items))) }
{
    let name = Box::new(alloc, name)?;
    Ok(Box::new(alloc, Expr::Merge(span, name, branches))?)
}

#[inline(never)]
pub fn variadic(alloc: Global, operator: ListOperator, span: Span, operands: Vec<Part>) -> Made
    ensures { Makes result (plain.Variadic operator span (plain.parts_of (map part_seen operands.items))) }
{
    Ok(Box::new(alloc, Expr::Variadic(operator, span, operands))?)
}

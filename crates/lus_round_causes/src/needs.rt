//! Where a variable is needed at the same instant.

use lus_faults::{Role, variable_named};
use lus_syntax::{Expr, Infix, Name, Node, Part, Prefix, Span, Test};

/// Where a variable is needed, and whether it is through the arguments of a call.
#[derive(Clone, Copy)]
pub struct Need {
    pub span: Span,
    pub is_argument: bool,
}

/// A name where it is needed, if it is the one that is looked for.
fn needed(name: &Name, text: &str) -> Option<Need> {
    if name.text.as_str() == text {
        return Some(Need {
            span: name.span,
            is_argument: false,
        });
    }
    None
}

/// The variable of a test.
fn in_test(test: &Test, text: &str) -> Option<Need> {
    match test {
        Test::Holds(name) | Test::Fails(_, name) | Test::Is(_, name) => needed(name, text),
    }
}

/// What is needed by an argument of a call.
fn by_argument(need: Option<Need>) -> Option<Need> {
    match need {
        Some(found) => Some(Need {
            is_argument: true,
            ..found
        }),
        None => None,
    }
}

/// Where an expression needs a variable at the same instant, which isn't behind `pre` or on the right of `fby`.
#[cycle(needs)]
fn in_expression(expr: &Expr, text: &str) -> Option<Need> {
    match expr {
        Expr::Number(_, _) | Expr::Truth(_, _) | Expr::Unary(Prefix::Pre, _, _) => None,
        Expr::Name(name) => needed(name, text),
        Expr::Call(_, parts) => by_argument(in_parts(parts, text)),
        Expr::Structure(_, parts) | Expr::Variadic(_, _, parts) => in_parts(parts, text),
        Expr::Merge(_, name, parts) => needed(name, text).or(in_parts(parts, text)),
        Expr::When(operand, test) => in_expression(operand, text).or(in_test(test, text)),
        Expr::Field(operand, _)
        | Expr::Parentheses(_, operand)
        | Expr::Unary(_, _, operand)
        | Expr::Binary(Infix::Fby, operand, _) => in_expression(operand, text),
        Expr::Binary(_, left, right) => in_expression(left, text).or(in_expression(right, text)),
        Expr::If(_, condition, left, right) => {
            in_expression(condition, text)
                .or(in_expression(left, text))
                .or(in_expression(right, text))
        }
    }
}

#[cycle(needs)]
fn in_parts(parts: &[Part], text: &str) -> Option<Need> {
    for part in parts {
        let found = in_expression(&part.value, text);
        if found.is_some() {
            return found;
        }
    }
    None
}

/// Where the declared clock of an output or a local tests another variable.
fn in_clock(node: &Node, variable: &str, text: &str) -> Option<Need> {
    let declared = variable_named(node, variable)?;
    match &declared.group.test {
        Some(test) if declared.role != Role::Input => in_test(test, text),
        _ => None,
    }
}

/// Where a variable of a node needs another at the same instant: in its equation, or in its clock.
pub fn need_of(node: &Node, variable: &str, text: &str) -> Option<Need> {
    for equation in &node.equations {
        for name in &equation.left {
            if name.text.as_str() == variable {
                let found = in_expression(&equation.right, text);
                if found.is_some() {
                    return found;
                }
            }
        }
    }
    in_clock(node, variable, text)
}

//! What typed sources and normal forms of small programs keep, and what is taken out of them.

use lus_clocks::{check_clocks, check_nil, clocks_fit, flags_fit};
use lus_grammar::parse;
use lus_normal::{Normal, normalise};
use lus_order::order;
use lus_program::{Equation, Expr, Form, Node, NodeId, Program, Variable};
use lus_syntax::{Refusal, lex};
use lus_types::{Typed, check_types};
use lus_values::{Op, Operator, Value};
use std::alloc::Global;
use std::test::Fail;

/// The typed source of a text.
fn typed_of(alloc: Global, text: &str) -> Result<Typed, Refusal> {
    let tokens = lex(alloc, text)?;
    let tree = parse(alloc, &tokens)?;
    check_types(alloc, tree)
}

/// The normal form of a text.
fn normal_of(alloc: Global, text: &str) -> Result<Normal, Refusal> {
    let typed = typed_of(alloc, text)?;
    clocks_fit(typed.sound().program())?;
    let clocked = check_clocks(typed)?;
    flags_fit(alloc, clocked.program())?;
    let initialised = check_nil(alloc, clocked)?;
    let ordered = order(alloc, initialised)?;
    normalise(alloc, ordered)
}

/// A node of a text, and how many memories and marks stand in it.
struct Case {
    text: &'static str,
    node: u32,
    memories: u32,
    firsts: u32,
}

const COUNTER: &str = "node t() returns (n: int); let n = 0 -> pre n + 1; tel";

/// A counter, and a node that calls it.
const CALLED: &str =
    "node t() returns (n: int); let n = 0 -> pre n + 1; tel node o(c: bool) returns (y: int when c); let y = t(); tel";

static CASES: [Case; 6] = [
    Case {
        text: COUNTER,
        node: 0,
        memories: 1,
        firsts: 1,
    },
    Case {
        text: CALLED,
        node: 0,
        memories: 1,
        firsts: 1,
    },
    Case {
        text: CALLED,
        node: 1,
        memories: 0,
        firsts: 0,
    },
    Case {
        text: "node s(x: int) returns (y: int); let y = x + (0 -> pre y); tel",
        node: 0,
        memories: 1,
        firsts: 1,
    },
    Case {
        text: "node f(x: int) returns (y: int); let y = (-1) fby x; tel",
        node: 0,
        memories: 1,
        firsts: 1,
    },
    Case {
        text: "node m(x: int) returns (y: int); let y = 0 -> pre (1 -> pre (2 fby x)); tel",
        node: 0,
        memories: 3,
        firsts: 3,
    },
];

/// Whether there are so many nodes, in the source and in its program.
fn has_nodes(typed: &Typed, count: usize) -> bool {
    typed.tree().nodes.len() == count && typed.sound().program().nodes.len() == count
}

#[test]
fn a_typed_source_keeps_its_tree(rt: HostRuntime) -> Result<(), Fail> {
    let Ok(typed) = typed_of(rt.alloc(), CALLED) else {
        panic!(rt; "refused")
    };
    assert!(rt; has_nodes(&typed, 2));
    Ok(())
}

fn are_counted(normal: &Normal, case: &Case) -> bool {
    if case.node >= normal.nodes() {
        return false;
    }
    let node = NodeId(case.node);
    normal.memories(node) == case.memories && normal.firsts(node) == case.firsts
}

#[test]
fn memories_and_marks_are_counted(rt: HostRuntime) -> Result<(), Fail> {
    for (place, case) in CASES.iter().enumerate() {
        let Ok(normal) = normal_of(rt.alloc(), case.text) else {
            panic!(rt; "case {place} is refused")
        };
        assert!(rt; are_counted(&normal, case), "case {place}");
    }
    Ok(())
}

/// The variable that a sampled expression was taken out to, and what defines that.
fn sampled(node: &Node) -> Option<(u32, &Expr)> {
    let Form::When(_, operand) = &node.equations.get(0)?.right.form else {
        return None;
    };
    let Form::Variable(variable) = &operand.form else {
        return None;
    };
    let added = node.equations.get(1)?;
    if added.targets.as_slice() == [*variable].as_slice() {
        Some((*variable, &added.right))
    } else {
        None
    }
}

/// The expression is 10 divided by a variable.
fn is_ten_by(expr: &Expr, divisor: u32) -> bool {
    let Form::Operate(Operator::Compute(Op::Divide), operands) = &expr.form else {
        return false;
    };
    match operands.as_slice() {
        [
            Expr {
                form: Form::Literal(Value::Int(dividend)),
                ..
            },
            Expr {
                form: Form::Variable(variable),
                ..
            },
        ] => { *dividend == 10 && *variable == divisor }
        _ => false,
    }
}

/// Whether 10 divided by the first input is taken out of the only node to a variable of its own, on the base clock.
fn is_taken_out(program: &Program) -> bool {
    let [node] = program.nodes.as_slice() else {
        return false;
    };
    match (sampled(node), node.variables.as_slice()) {
        (Some((variable, right)), [_, _, _, added]) => {
            variable == 3 && added.test.is_none() && is_ten_by(right, 0)
        }
        _ => false,
    }
}

#[test]
fn an_operand_of_when_is_taken_out_on_the_base_clock(rt: HostRuntime) -> Result<(), Fail> {
    let text = "node w(x: int; c: bool) returns (y: int when c); let y = (10 div x) when c; tel";
    let Ok(normal) = normal_of(rt.alloc(), text) else {
        panic!(rt; "refused")
    };
    assert!(rt; is_taken_out(normal.program()));
    Ok(())
}

/// Whether each equation has one target, and these are they.
fn have_targets(equations: &[Equation], wanted: &[u32]) -> bool {
    for (equation, target) in equations.iter().zip(wanted) {
        if equation.targets.as_slice() != [*target].as_slice() {
            return false;
        }
    }
    equations.len() == wanted.len()
}

/// Whether these variables, and no others, are on the base clock.
fn are_on_base(variables: &[Variable], wanted: &[bool]) -> bool {
    for (variable, is_wanted) in variables.iter().zip(wanted) {
        if variable.test.is_none() != *is_wanted {
            return false;
        }
    }
    variables.len() == wanted.len()
}

fn are_outermost_first(program: &Program) -> bool {
    match program.nodes.as_slice() {
        [_, node] => {
            have_targets(&node.equations, &[2, 3, 4, 5])
                && are_on_base(&node.variables, &[true, true, false, false, true, true])
        }
        _ => false,
    }
}

#[test]
fn operands_within_operands_are_taken_out_from_the_outermost(rt: HostRuntime) -> Result<(), Fail> {
    let text = "node f(x: int) returns (y: int); let y = x; tel
        node m(a: int; c: bool) returns (z: int when c); let z = f((0 -> pre f(a)) when c); tel";
    let Ok(normal) = normal_of(rt.alloc(), text) else {
        panic!(rt; "refused")
    };
    assert!(rt; are_outermost_first(normal.program()));
    Ok(())
}

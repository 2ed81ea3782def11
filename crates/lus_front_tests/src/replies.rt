//! A reply as JSON, of a node with one output.

use lus_program::{Kind, Program, Variable};
use lus_replies::push_reply;
use lus_requests::{Reply, Request, Why};
use lus_syntax::Place;
use lus_values::{Memory, Names, Row, Value};
use std::alloc::Global;
use std::mem::forget;
use std::test::Fail;

/// One output, which is called so.
fn output(alloc: Global, name: &str) -> Result<Vec<Variable>, Memory> {
    let mut outputs = Vec::new(alloc);
    outputs.push(Variable {
        name: String::from_str(alloc, name)?,
        place: Place::START,
        kind: Kind::Int,
        test: None,
    })?;
    Ok(outputs)
}

/// Puts a reply of a node with this output, in a program without types, behind a text.
fn tell(alloc: Global, text: &mut String, name: &str, reply: &Reply) -> Result<(), Memory> {
    let names = Names::new(alloc);
    let outputs = output(alloc, name)?;
    let program = Program {
        types: Vec::new(alloc),
        nodes: Vec::new(alloc),
    };
    let pushed = push_reply(text, &program, &names, &outputs, &Request::Reset, reply);
    // It owns nothing, and to drop it would be proved anew here.
    forget(program);
    pushed
}

/// The reply of one number.
fn number(alloc: Global, number: i64) -> Result<Reply, Memory> {
    let mut items = Vec::new(alloc);
    items.push(Some(Value::Int(number)))?;
    Ok(Reply::Outputs(Row::new(items)))
}

/// The texts of a number and of a refusal.
fn told(alloc: Global) -> Result<String, Memory> {
    let mut text = String::new(alloc);
    tell(alloc, &mut text, "level", &number(alloc, -3)?)?;
    tell(alloc, &mut text, "level", &Reply::Refused(Why::Shape))?;
    Ok(text)
}

#[test]
fn an_output_is_told_by_its_name(rt: HostRuntime) -> Result<(), Fail> {
    let text = told(rt.alloc())?;
    assert_eq!(rt;
        text.as_str(),
        "{\"outputs\":{\"level\":-3}}{\"refused\":\"shape\"}"
    );
    Ok(())
}

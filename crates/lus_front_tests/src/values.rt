//! Values, rows and names: printed texts, and that calls succeed. A call that only ever wants memory fails its test.

use lus_requests::Rows;
use lus_values::{Items, Memory, Names, Op, Row, Value, copy, fits_op, print, push_value, same};
use std::alloc::Global;
use std::test::Fail;

/// A structure of a colour, a truth value and a number.
fn coloured(alloc: Global, constructor: u32) -> Result<Value, Memory> {
    let mut inner = Vec::new(alloc);
    inner.push(Value::Enum(2, constructor))?;
    inner.push(Value::Bool(true))?;
    around(alloc, inner)
}

/// A structure of a structure with these fields, and a number.
fn around(alloc: Global, inner: Vec<Value>) -> Result<Value, Memory> {
    let mut fields = Vec::new(alloc);
    fields.push(Value::Struct(inner))?;
    fields.push(Value::Int(1))?;
    Ok(Value::Struct(fields))
}

/// A structure of a hole and a number.
fn holed(alloc: Global) -> Result<Value, Memory> {
    let mut fields = Vec::new(alloc);
    fields.push(Value::Nil)?;
    fields.push(Value::Int(1))?;
    Ok(Value::Struct(fields))
}

/// Whether a structure is equal to its like and to its copy, and not to another.
fn are_told_apart(alloc: Global) -> Result<bool, Memory> {
    let value = Box::new(alloc, coloured(alloc, 0)?)?;
    let like = Box::new(alloc, coloured(alloc, 0)?)?;
    let other = Box::new(alloc, coloured(alloc, 1)?)?;
    let twin = copy(alloc, &value)?;
    Ok(same(&value, &like) && same(&value, &twin) && !same(&value, &other))
}

/// Whether a structure and this value may be compared.
fn fits_equal(alloc: Global, other: Box<Value>) -> Result<bool, Memory> {
    let value = coloured(alloc, 0)?;
    Ok(fits_op(Op::Equal, &[value, Box::into_inner(other)]))
}

#[test]
fn structures_are_equal_field_by_field(rt: HostRuntime) -> Result<(), Fail> {
    assert!(rt; are_told_apart(rt.alloc())?);
    Ok(())
}

#[test]
fn structures_without_holes_fit_an_equality(rt: HostRuntime) -> Result<(), Fail> {
    let alloc = rt.alloc();
    let whole = Box::new(alloc, coloured(alloc, 1)?)?;
    assert!(rt; fits_equal(alloc, whole)?);
    let with_hole = Box::new(alloc, holed(alloc)?)?;
    assert!(rt; !fits_equal(alloc, with_hole)?);
    Ok(())
}

/// An alias, and then an enumeration of two colours.
fn colours(alloc: Global) -> Result<Names, Memory> {
    let mut colours = Vec::new(alloc);
    colours.push(String::from_str(alloc, "Red")?)?;
    colours.push(String::from_str(alloc, "Green")?)?;
    let names = Names::new(alloc).with_type(alloc, &[])?;
    names.with_type(alloc, &colours)
}

/// A structure of a structure, and a colour.
fn flagged(alloc: Global) -> Result<Value, Memory> {
    let mut inner = Vec::new(alloc);
    inner.push(Value::Bool(true))?;
    inner.push(Value::Int(i64::MIN))?;
    let mut fields = Vec::new(alloc);
    fields.push(Value::Struct(inner))?;
    fields.push(Value::Enum(1, 1))?;
    Ok(Value::Struct(fields))
}

/// The text of a structure, and after it those of a hole and of a constructor without a name.
fn written(alloc: Global, names: &Names) -> Result<String, Memory> {
    let value = Box::new(alloc, flagged(alloc)?)?;
    let mut text = print(alloc, &value, names)?;
    push_value(&mut text, &Value::Nil, names)?;
    push_value(&mut text, &Value::Enum(0, 0), names)?;
    Ok(text)
}

fn are_found(names: &Names) -> bool {
    names.name(1, 0) == Some("Red")
        && names.name(1, 2) == None
        && names.find("Green") == Some((1, 1))
        && names.find("Blue") == None
}

#[test]
fn names_are_found_and_printed(rt: HostRuntime) -> Result<(), Fail> {
    let names = colours(rt.alloc())?;
    assert!(rt; are_found(&names));
    let text = written(rt.alloc(), &names)?;
    assert_eq!(rt; text.as_str(), "{{true; -9223372036854775808}; Green}nil?");
    Ok(())
}

/// A present number, and an absent one.
fn half_a_row(alloc: Global) -> Result<Row, Memory> {
    let mut items = Vec::new(alloc);
    items.push(Some(Value::Int(3)))?;
    items.push(None)?;
    Ok(Row::new(items))
}

/// Whether a copy of a row has its items, and one of a row of one entry that.
fn is_copied(alloc: Global) -> Result<bool, Memory> {
    let twin = half_a_row(alloc)?.copy(alloc)?;
    let one = Row::one(Some(Value::Int(4))).copy(alloc)?;
    Ok(
        matches!(twin.items(), [Some(Value::Int(3)), None])
            && matches!(one.items(), [Some(Value::Int(4))]),
    )
}

/// How many rows come back of two.
fn rows_back(alloc: Global) -> Result<usize, Memory> {
    let mut rows = Vec::new(alloc);
    rows.push(half_a_row(alloc)?)?;
    rows.push(half_a_row(alloc)?)?;
    Ok(Rows::new(rows).into_items().len())
}

#[test]
fn rows_give_their_entries_back(rt: HostRuntime) -> Result<(), Fail> {
    let one = Row::one(Some(Value::Int(7))).into_items();
    assert!(rt; matches!(&one, Items::One(Some(Value::Int(7)))));
    let none = Row::new(Vec::new(rt.alloc())).into_items();
    assert!(rt; matches!(&none, Items::Many(entries) if entries.is_empty()));
    Ok(())
}

#[test]
fn rows_copy(rt: HostRuntime) -> Result<(), Fail> {
    assert!(rt; is_copied(rt.alloc())?);
    assert_eq!(rt; rows_back(rt.alloc())?, 2);
    Ok(())
}

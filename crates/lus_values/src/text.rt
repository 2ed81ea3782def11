//! The text of a value.

ghost use Rattle.std.specs.Prelude.{◌≡◌, ◌++◌, IfOk, OnErr, OnOk, string_bytes};
ghost use Rattle.lus_values.specs.Text.{Begins, text_of};
ghost use Rattle.lus_values.specs.View.{value_of};

use crate::memory::Memory;
use crate::names::Names;
use crate::value::Value;
use itoa::Buffer;
use std::alloc::Global;

/// The text of a value: a number in decimal, `true` or `false`, the name of a constructor or `?`, the fields of a
/// structure as `{1; true}`, or `nil`.
pub fn print(alloc: Global, value: &Value, names: &Names) -> Result<String, Memory>
    ensures { IfOk result (λ text. string_bytes text ≡ text_of names.now (value_of value.now)) }
{
    let mut text = String::new(alloc);
    push_value(&mut text, value, names)?;
    Ok(text)
}

/// Appends the text of a value. After `Memory` the old text is a beginning of what stands.
pub fn push_value(text: &mut String, value: &Value, names: &Names) -> Result<(), Memory>
    ensures whole { OnOk result (string_bytes text.new ≡ string_bytes text.old ++ text_of names.now (value_of value.now)) }
    ensures beginning { OnErr result (Begins (string_bytes text.old) (string_bytes text.new)) }
{
    match value {
        Value::Bool(truth) => text.push_str(if *truth { "true" } else { "false" })?,
        Value::Int(number) => text.push_str(Buffer::new().format(*number))?,
        Value::Enum(enumeration, constructor) => {
            text.push_str(names.name(*enumeration, *constructor).unwrap_or("?"))?;
        }
        Value::Struct(fields) => {
            text.push_str("{")?;
            let mut before = "";
            for field in fields {
                text.push_str(before)?;
                push_value(text, field, names)?;
                before = "; ";
            }
            text.push_str("}")?;
        }
        Value::Nil => text.push_str("nil")?,
    }
    Ok(())
}

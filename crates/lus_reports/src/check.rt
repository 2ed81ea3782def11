//! The checks of scripts.

/// A check of scripts that failed.
#[derive(Clone, Copy)]
pub enum Check {
    /// The bytes are no more than there may be.
    Size,
    /// The bytes are JSON.
    Json,
    /// The bytes are whole JSON.
    End,
    /// Scripts have the keys that they should.
    Scripts,
    /// There is a list.
    List,
    /// An instance has the keys that it should.
    Instance,
    /// A caller has the keys that it should.
    Caller,
    /// A call has the keys that it should.
    Call,
    /// There is a name.
    Name,
    /// There is a string.
    Text,
    /// A reset is `true`.
    Reset,
    /// A slot is a whole number.
    Slot,
    /// The instances are no more than there may be.
    Instances,
    /// The callers are no more than there may be.
    Callers,
    /// The calls of a caller are no more than there may be.
    Calls,
    /// No name stands twice.
    Double,
    /// The program has the node.
    Node,
    /// The scripts have the instance.
    On,
    /// An item of a step, or of a row of a burst, is a value.
    Value,
}

impl Check {
    /// What was expected, in a sentence.
    pub fn sentence(self) -> &'static str {
        match self {
            Check::Size => "at most 1048576 bytes are allowed",
            Check::Json => "unexpected character, or bytes that are not UTF-8",
            Check::End => "unexpected end of the file",
            Check::Scripts => "expected an object with exactly the keys `instances` and `callers`",
            Check::List => "expected a list",
            Check::Instance => "expected an object with exactly the keys `name` and `node`",
            Check::Caller => "expected an object with exactly the keys `name` and `calls`",
            Check::Call => {
                "expected an object with the key `on` and exactly one of `step`, `burst`, `reset`, `save` and `restore`"
            }
            Check::Name => {
                "expected a name: a string of 1 to 64 bytes, a letter or `_`, then letters, digits and `_`"
            }
            Check::Text => "expected a string",
            Check::Reset => "expected `true`",
            Check::Slot => "expected a slot, a whole number from 0 to 7",
            Check::Instances => "at most 256 instances are allowed",
            Check::Callers => "at most 64 callers are allowed",
            Check::Calls => "at most 10000 calls of one caller are allowed",
            Check::Double => "an earlier one has this name",
            Check::Node => "the program has no node of this name",
            Check::On => "the scripts have no instance of this name",
            Check::Value => {
                "expected a whole number in range, `true`, `false`, a constructor's name, `null`, or an object with a structure's fields"
            }
        }
    }
}

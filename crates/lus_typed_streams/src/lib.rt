//! Types of the values of streams, and the law that values have the types of their variables and expressions.
#![tactic(auto)]

ghost use Rattle.lus_typed_streams.specs.Laws.{ValuesHaveTypes, StreamsHaveTypes, StreamsHaveDeclaredTypes};

/// In each world of a causal program whose equations give the types of their left sides, where each input is absent, nil or
/// of its type, so is each variable and each expression of the text at each instant, those of called nodes included. So it
/// is in the streams of a resolved program for inputs of its types; a constructor's number is then one that its type
/// declares, where those of literals are, as in each sound program.
pub fn values_are_typed()
    ensures worlds { ValuesHaveTypes }
    ensures streams { StreamsHaveTypes }
    ensures declared { StreamsHaveDeclaredTypes }
{}

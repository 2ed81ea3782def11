//! The law that values of a normal form have the types of its variables and expressions.
#![tactic(auto)]

ghost use Rattle.lus_typed_normal.specs.Laws.{NormalEquationsFit, NormalLiteralsAreDeclared, NormalStreamsHaveDeclaredTypes, NormalValuesHaveDeclaredTypes, NormalValuesHaveTypes};

/// The equations of the normal form of a resolved program give the types of their left sides. So in each of its worlds in
/// which inputs have their types or are nil, each variable and each expression is absent, nil or of its type at each instant; a
/// constructor's number is then one that its type declares, where the constructors in the program's text are declared.
pub fn normal_values_are_typed()
    ensures equations { NormalEquationsFit }
    ensures worlds { NormalValuesHaveTypes }
    ensures literals { NormalLiteralsAreDeclared }
    ensures declared { NormalValuesHaveDeclaredTypes }
    ensures streams { NormalStreamsHaveDeclaredTypes }
{}

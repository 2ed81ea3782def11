//! Laws of each resolved program's streams: its calls have outputs, and what its variables need are variables.

ghost use Rattle.lus_streams.specs.ResolvedLaws.{ResolvedCallsHaveOutputs, ResolvedNeedsAreVariables};

/// Each call in a resolved program is of a node with an output, and has one for each variable on its left.
pub fn calls_have_outputs()
    ensures { ResolvedCallsHaveOutputs }
{}

/// In a resolved program what a variable needs at the same instant, by its right side and by its clock, are variables of
/// its node.
pub fn needs_variables()
    ensures { ResolvedNeedsAreVariables }
{}

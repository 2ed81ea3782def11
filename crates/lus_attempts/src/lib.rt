//! What equations give at an instant at which something in a program's text may be at fault, and the laws that this obeys.
#![tactic(auto)]

ghost use Rattle.lus_attempts.specs.Laws.{ArgumentsFitFormals, CausalAttemptsAreUnique, FaultsEndStreams, InstantsAreWithoutFault, NewestTestsDecide};

/// An instant of streams is what the equations give where no input is missing and nothing is at fault, in the called nodes either.
pub fn instants_are_without_fault()
    ensures { InstantsAreWithoutFault }
{}

/// In a causal program on clocks the equations give at most one instant after a past, with a base and inputs, faults or none.
pub fn attempts_are_unique()
    ensures { CausalAttemptsAreUnique }
{}

/// Where something is at fault in what the equations give after streams, there are no streams for the inputs so far and these.
pub fn faults_end_streams()
    ensures { FaultsEndStreams }
{}

/// Where equations hold, faults or none, a clock is present exactly where its newest test holds.
pub fn newest_tests_decide()
    ensures { NewestTestsDecide }
{}

/// What a call passes for an input of the called node is there only where the input's clock is present.
pub fn arguments_fit_formals()
    ensures { ArgumentsFitFormals }
{}

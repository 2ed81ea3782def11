//! A law of the rule: a function with an empty body, whose contract is the law.
ghost use Rattle.lus_shared.specs.Laws.{TakersAreAlone};

/// While a seat is the taker it has seen all entries, no other seat is one, and none can become one.
pub fn takers_are_alone()
    ensures { TakersAreAlone }
{}

//! What is warned of.

/// What a warning is of.
#[derive(Clone, Copy)]
pub enum Kind {
    /// A type that nothing names.
    UnusedType,
    /// A constant that nothing names.
    UnusedConstant,
    /// A node that neither a script runs nor another node calls.
    UnusedNode,
    /// An input that nothing in its node names.
    UnusedInput,
    /// A local variable that nothing in its node names.
    UnusedLocal,
    /// A local variable that only its own equation names.
    UnreadMemory,
    /// A division in a branch or behind an operator that seems to guard it.
    UnguardedDivision,
    /// A clock that is always the same.
    ConstantClock,
    /// A comparison that is always true, or always false.
    ConstantComparison,
    /// An operation that never has a value.
    ConstantFault,
    /// A constant whose name a variable has.
    HiddenConstant,
    /// A choice whose branches are the same.
    SameBranches,
    /// A first value on the wrong side of `fby` or `->`.
    ExchangedSides,
}

impl Kind {
    /// The name, as it is printed.
    pub fn as_str(self) -> &'static str {
        match self {
            Kind::UnusedType => "unused_type",
            Kind::UnusedConstant => "unused_constant",
            Kind::UnusedNode => "unused_node",
            Kind::UnusedInput => "unused_input",
            Kind::UnusedLocal => "unused_local",
            Kind::UnreadMemory => "unread_memory",
            Kind::UnguardedDivision => "unguarded_division",
            Kind::ConstantClock => "constant_clock",
            Kind::ConstantComparison => "constant_comparison",
            Kind::ConstantFault => "constant_fault",
            Kind::HiddenConstant => "hidden_constant",
            Kind::SameBranches => "same_branches",
            Kind::ExchangedSides => "exchanged_sides",
        }
    }
}

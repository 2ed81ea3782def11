//! The normal form of a program, in which operands of `pre`, `when` and calls are literals or variables, the laws that it obeys,
//! and the normal form of a node as plain data.
#![tactic(auto)]

ghost use Rattle.lus_normal_form.specs.Computed.{MadeAreNormal, NewAreFew, RightsAreNormal, TakenAreWithin};
ghost use Rattle.lus_normal_form.specs.Laws.{NormalHasOrder, NormalIsOnClocks, NormalIsSimple, NormalKeepsWorlds, OneTestSuffices, ResolvedAreNamed};
ghost use Rattle.lus_normal_form.specs.Needs.{NormalNeedsVariables};
ghost use Rattle.lus_normal_form.specs.Numbers.{NumbersStay};
ghost use Rattle.lus_normal_form.specs.Ready.{MadeNodesAreReady};

/// A normal form has the worlds of its source and no others, new variables aside, called nodes included; and the same
/// streams for each list of inputs.
pub fn normal_form_keeps_worlds()
    ensures { NormalKeepsWorlds }
{}

/// From a causal order of a node on clocks there is one of its normal form.
pub fn normal_form_has_order()
    ensures { NormalHasOrder }
{}

/// The normal form of a resolved program on clocks is on clocks.
pub fn normal_form_is_on_clocks()
    ensures { NormalIsOnClocks }
{}

/// In a normal form the operands of `pre`, `when` and calls are literals or variables, and each call is a whole right side.
pub fn normal_form_is_simple()
    ensures { NormalIsSimple }
{}

/// In a program on clocks a variable with one test can be declared on the clock of any expression.
pub fn one_test_suffices()
    ensures { OneTestSuffices }
{}

/// A resolved program on clocks meets what a normal form asks of its source.
pub fn resolved_are_named()
    ensures { ResolvedAreNamed }
{}

/// The normal form that is computed of a right side is one, and so are those of all that is taken out of it.
pub fn rights_are_normal()
    ensures { RightsAreNormal }
{}

/// What is taken out of a node is among its parts.
pub fn taken_are_within()
    ensures { TakenAreWithin }
{}

/// No more new variables stand in the normal form of a node than the node has parts.
pub fn new_are_few()
    ensures { NewAreFew }
{}

/// A program each of whose nodes is made from that of a resolved program on clocks is its normal form.
pub fn made_are_normal()
    ensures { MadeAreNormal }
{}

/// The calls of equations in normal form, numbered by their places, have the numbers of their source.
pub fn numbers_stay()
    ensures { NumbersStay }
{}

/// What the variables of a normal form need are its variables.
pub fn normal_needs_variables()
    ensures { NormalNeedsVariables }
{}

/// A program each of whose nodes is made from that of a resolved program on clocks promises what is asked of a normal form: its names
/// are known, its calls have arguments and outputs, and each of its variables but the inputs has one definition.
pub fn made_nodes_are_ready()
    ensures { MadeNodesAreReady }
{}

//! Classes of nodes: what belongs to a node as its class, what a step of a class computes, and which states stand for which
//! worlds; and the laws by which steps follow streams.
#![tactic(auto)]

ghost use Rattle.lus_classes.specs.Laws.{StepsExtendWorlds, FaultsEndWorlds, FreshStatesStand, ResetStatesStand};

/// A step that answers follows the streams: whatever world its state stands for, with inputs that fit the node that world
/// goes on by an instant with the row that is answered, and the next state stands for the longer world. It holds of every
/// node of a program and of any classes that belong to the nodes.
pub fn steps_extend_worlds()
    ensures { StepsExtendWorlds }
{}

/// A step faults only where the streams end: in a causal program on clocks, no world that the state stands for goes on with
/// these inputs.
pub fn faults_end_worlds()
    ensures { FaultsEndWorlds }
{}

/// The fresh state of a node stands for the world of no instants, where the calls of the node are nested within its depth.
pub fn fresh_states_stand()
    ensures { FreshStatesStand }
{}

/// The reset of a state that stands for any world stands for the world of no instants.
pub fn reset_states_stand()
    ensures { ResetStatesStand }
{}

//! Scripts: instances, and callers with the calls that they make on them.

ghost use Rattle.std.specs.Prelude.{◌≡◌, ◌≤◌, length, true};
ghost use Rattle.lus_scripts.specs.Limits.{most_callers};
ghost use Rattle.lus_scripts.specs.Scripts.{are_on, have_few_calls};

use lus_program::NodeId;
use lus_requests::Caller;

/// An instance of a node, with the node's name as written and its place in the program.
#[derive(Drop)]
pub struct Instance {
    pub name: String,
    pub node: String,
    pub id: NodeId,
}

/// What is run: instances of a program's nodes, and their callers, with the name of each. Each call is on one of the
/// instances. There are no more callers and calls of a caller than there may be.
#[derive(Drop)]
pub struct Scripts {
    pub instances: Vec<Instance>,
    pub names: Vec<String>,
    pub callers: Vec<Caller>,
    pub ghost known: { are_on (length instances.items) callers.items ≡ true },
    pub ghost named: { length names.items ≡ length callers.items },
    pub ghost few: { length callers.items ≤ most_callers },
    pub ghost few_calls: { have_few_calls callers.items ≡ true },
}

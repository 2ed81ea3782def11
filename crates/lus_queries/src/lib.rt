//! What an editor asks of a text besides its errors: what it declares, what can be written at a place, what a name stands for and
//! where else it stands, and its colours. They are found by tokens, so that texts with errors are answered too, and given as values of
//! the Language Server Protocol 3.17, in JSON.
#![tactic(auto)]

mod changes;
mod colours;
mod comments;
mod completion;
mod context;
mod hints;
mod hovering;
mod occurrences;
mod outline;
mod places;
mod renames;
mod signature;

pub use changes::Change;
pub use colours::semantic_tokens;
pub use completion::completions;
pub use hints::inlay_hints;
pub use hovering::{Fact, Judged, declared_at, expression_hover, hover};
pub use occurrences::{definition, highlights, references};
pub use outline::{folds, symbols};
pub use places::{Lines, Spot, lines_of, push_range, push_span};
pub use renames::{edits, renamable};
pub use signature::signature_help;

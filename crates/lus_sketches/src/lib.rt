//! What is drawn of an instance as its entries come: the signals that are selected of its node, by their names, and the cells of each
//! accepted instant, the entries' own or picked of the streams by definition.
#![tactic(auto)]

mod choices;
mod labels;
mod lanes;
mod numbers;
mod paths;
mod selection;
mod signals;
mod sketches;

pub use numbers::number;
pub use selection::Selection;
pub use signals::formals;
pub use sketches::{Failure, Sketch};

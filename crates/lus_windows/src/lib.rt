//! Worlds that follow the entries of a journal, and why its requests were refused, in words.
#![tactic(auto)]

ghost use Rattle.lus_windows.specs.Reasons.{FaultsAreTold};

mod faults;
mod finding;
mod picks;
mod reasons;
mod window;

pub use picks::Pick;
pub use reasons::{Explainer, Reasons};
pub use window::Window;

/// Where a request is rightly refused for a fault behind a history, its reason names the fault: that it can't be told is never so.
pub fn faults_are_told()
    ensures { FaultsAreTold }
{}

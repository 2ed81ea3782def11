//! What was found wrong with the JSON of scripts, and where.

use crate::check::Check;
use crate::spot::Spot;

/// A check that fails at a place, and what is wrong there, where more of it is known than the check.
#[derive(Drop)]
pub(crate) struct FailedCheck {
    pub spot: Spot,
    pub check: Check,
    pub culprit: Option<String>,
}

impl FailedCheck {
    /// A check that fails at a place.
    pub fn at(spot: Spot, check: Check) -> FailedCheck {
        FailedCheck {
            spot,
            check,
            culprit: None,
        }
    }

    /// A check that fails at a place, and what is wrong there.
    pub fn of(spot: Spot, check: Check, culprit: String) -> FailedCheck {
        FailedCheck {
            spot,
            check,
            culprit: Some(culprit),
        }
    }

    /// What is wrong, in a sentence.
    pub fn sentence(&self) -> &str {
        match &self.culprit {
            Some(culprit) => culprit.as_str(),
            None => self.check.sentence(),
        }
    }
}

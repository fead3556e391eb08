//! The receipt of a call that made a step.

use crate::owned::Owned;
use ns_types::reply::Rendered;
use ns_types::shared::Shared;
use ns_types::step::Step;

/// A step that was made, its answer as bytes, and the place of its entry in the log.
pub struct Receipt {
    /// How many entries stand before the step's entry.
    pub place: u64,
    pub step: Shared<Step>,
    pub rendered: Owned<Rendered>,
}

impl Drop for Receipt {
    fn drop(self) {
        let Receipt {
            place: _,
            step: _step,
            rendered: _rendered,
        } = self;
    }
}

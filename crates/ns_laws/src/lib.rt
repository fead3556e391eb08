//! Says, as small laws of the model, that its definitions mean what they should. Each is the contract of a function that does
//! nothing. `isolation` says what holds of a namespace that has its pools and its quotas to itself.
#![tactic(auto)]

pub mod calls;
pub mod effects;
pub mod ending;
pub mod indexes;
pub mod isolation;
pub mod limits;
pub mod lookups;
pub mod names;
pub mod nodes;
pub mod patterns;
pub mod placement;
pub mod planning;
pub mod queue;
pub mod reach;
pub mod reads;
pub mod reasons;
pub mod refusals;
pub mod requests;
pub mod rights;
pub mod secrets;
pub mod serving;
pub mod sharing;
pub mod statuses;
pub mod steps;
pub mod sums;
pub mod surplus;
pub mod turns;
pub mod waking;
pub mod wire;
pub mod woken;
pub mod words;
pub mod workers;

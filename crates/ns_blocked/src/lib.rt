//! Keeps the list of blocked evaluations and finds those that wait for a quota or for a pool. It looks these up, and looks at
//! no other entry.
#![tactic(auto)]

mod classes;
mod entry;
mod finding;
mod groups;
mod laws;
mod list;
mod releases;

pub use entry::{BlockedEvaluation, Waits};
pub use laws::{the_rest_is_the_models, wakes_are_the_models};
pub use list::BlockedList;
pub use releases::{ReleasedPool, Releases};

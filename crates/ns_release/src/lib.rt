//! Finds what a step releases, which evaluations the releases wake, and which changed rows replies show differently. It finds
//! these from the step's change and the tables before it.
//!
//! Nothing here takes memory. So the same functions serve before a step is made, to decide whether a counter would pass its
//! bound, and at the step's end. The work grows with what the step changes, never with the tables.
#![tactic(auto)]

mod asking;
mod blocked;
mod fitting;
mod releasing;
mod showing;

pub use asking::{Question, releases_quota, releases_room};
pub use blocked::{does_wake, releases, stays};
pub use releasing::{changed_allocations, ended, gives_itself, relimits};
pub use showing::{ShownByNumber, any_job, any_row, changes_job_slot, changes_row, changes_slot};

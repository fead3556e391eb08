//! Decides whether a step would pass the bound of a counter.
//!
//! `is_past_bound` decides it for any step, from its change. `given_room_passes` and `given_limits_pass` decide it for a step
//! that releases one thing and does nothing else, before there is a change. None of them takes memory. Their work grows only
//! with what the step changes. If an index ever was at its bound, they also look at all blocked evaluations.
#![tactic(auto)]

mod at_bound;
mod awake;
mod full;
mod given;

pub use at_bound::{is_last_index, wakes_may_pass};
pub use full::is_past_bound;
pub use given::{given_limits_pass, given_room_passes, left_quota_passes};
pub use ns_tables::is_at_bound;

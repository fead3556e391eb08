//! Finishes an evaluation: makes the follower that remembers what kept allocations from being placed, and decides whether it
//! missed a release since the snapshot. `shortage` finds what the follower remembers.
#![tactic(auto)]

mod ending;
mod finishing;
mod following;
pub mod laws;
mod missing;
mod shortage;

pub use finishing::finish;
pub use following::follower;
pub use missing::missed;

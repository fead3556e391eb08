//! Looks up the namespace for which a worker is busy, the next evaluation to dequeue, and the blocked evaluations that wait
//! for what a step releases.
//!
//! A search of the tables finds the same. So an index that is no longer known to be right is given up. Then the tables are
//! searched, and a list of the blocked evaluations is made from them. Room is made before a step, and following the step takes
//! no memory here.
#![tactic(auto)]

mod after;
mod blocked;
mod busy;
pub mod laws;
mod levels;
mod ready;
mod turns;

pub(crate) use after::{WatchesMoves, any_moved, evaluation_after};
pub use blocked::blocked_list;
pub use turns::{Coming, Turns};

//! Finds the nodes that a job may use, chooses the best of those with room, and says what a placement and an eviction do to a node.
//! `marking` says which numbers stand in a list.
#![tactic(auto)]

mod amounts;
mod candidate;
mod choice;
mod constraints;
mod eviction;
pub mod laws;
pub mod marking;
mod order;

pub use candidate::Candidate;
pub use choice::best_node;
pub use constraints::{feasible, holds};
pub use eviction::{GivenWay, give_way};
pub use order::Order;

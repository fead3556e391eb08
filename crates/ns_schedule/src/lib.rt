//! Computes the plan of a snapshot: which allocations stop, and where the missing ones are placed.
#![tactic(auto)]

mod choice;
pub mod laws;
mod opening;
mod placing;
mod planned;
mod stops;
mod sums;
mod wanted;

pub use planned::plan;

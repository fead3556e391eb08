//! Chooses the allocations to evict for a job of higher priority, where no node has room. Nomad's page "Preemption".
#![tactic(auto)]

mod cost;
pub mod laws;
mod order;
mod prefix;
mod ranking;

pub use order::evictable;
pub use prefix::victims;
pub use ranking::Ranking;

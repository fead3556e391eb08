//! Keeps the tables of the whole world: what namespaces, pools and quotas own, and the queues of ready evaluations, of plans
//! and of blocked evaluations. `world_of` is the world that they hold, without vacant slots and room. Steps read these tables;
//! they are written in one place alone, where a settled change is committed. `events` keeps the last hundred events of a
//! namespace.
#![tactic(auto)]

mod allocations;
mod bounded;
mod evaluations;
pub mod events;
mod filing;
mod tables;

pub use allocations::AllocationTable;
pub use bounded::is_at_bound;
pub use evaluations::EvaluationTable;
pub use tables::{PoolRows, QuotaRows, Tables, TenantRows};

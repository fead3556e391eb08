//! Puts a settled change into the tables: rows of namespaces with their indexes and events, nodes, records of quotas, release
//! numbers of pools, classes and quotas, and the three lists. The index of live allocations follows the rows. `reserve` makes
//! room for all of it; if that is refused, the world and the index's keys are as they were. `commit` moves the change in and
//! takes no memory. Both look up what the change has. Only a list that entries leave is gone through whole, and so are the
//! classes of a pool with releases.

mod clearing;
mod indexing;
mod lists;
mod namespaces;
mod owners;
mod pools;
mod quotas;
mod settled;

pub use settled::{commit, reserve};

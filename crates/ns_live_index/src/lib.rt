//! Indexes the live allocations of each node, by pool, node, namespace and number, with what those of each node take together,
//! so that none is searched for among the rows of all namespaces. Room for a key is made before it is needed. It keeps the
//! nodes as they were last shown to workers, which snapshots share: a node that changes is not shown any more, which takes no
//! memory. A node whose own row changed, or on which allocations were placed after all others, is kept as a base, from which
//! the next is made at little cost. And it keeps which namespaces name which quota, which administrators alone change, with
//! the total of what they use.
#![tactic(auto)]

pub mod laws;
mod live;
mod naming;
mod pool_keys;
mod shown;

pub use live::Live;
pub use shown::{SeenNode, is_past};

//! Takes the snapshot that a worker plans from: the part of the present state that one evaluation needs. The live allocations
//! of a node come from the index of live allocations, so only the namespaces that have some there are visited. Nodes that did
//! not change are shared with earlier snapshots.

mod owning;
mod placed;
mod pool;
mod quota;
mod taking;

pub use taking::snapshot;

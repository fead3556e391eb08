//! What is to be replayed for a namespace alone.

use ns_types::rows::Rows;
use ns_types::text::Text;

/// A replay of a namespace's own part of a log, with the pools and the quotas that it is to have to itself.
#[derive(Drop)]
pub struct Replay {
    pub namespace: Text,
    /// How many of the first entries make the base: all, if there are fewer.
    pub from: u64,
    /// The pools. If no pool and no quota is named, they are the pools to which the namespace is confined in the base, and the
    /// quota is its quota there.
    pub pools: Rows<Text>,
    pub quotas: Rows<Text>,
}

//! Plans: which allocations stop, and which are placed on which nodes, with the allocations that they evict.

use crate::resources::Resources;
use crate::rows::Rows;
use crate::text::Text;

pub struct Eviction {
    pub namespace: Text,
    pub number: u64,
    pub priority: u64,
}

impl Drop for Eviction {
    fn drop(self) {
        let Eviction {
            namespace: _namespace,
            number: _,
            priority: _,
        } = self;
    }
}

/// One new allocation of the job: the place of its group in the job, and the place of its node in the snapshot.
pub struct Placement {
    pub group: u64,
    pub node: u64,
    pub size: Resources,
    pub evictions: Rows<Eviction>,
}

impl Drop for Placement {
    fn drop(self) {
        let Placement {
            group: _,
            node: _,
            size: _,
            evictions: _evictions,
        } = self;
    }
}

/// What is placed, and what kept the rest from being placed.
#[derive(Drop)]
pub struct Placing {
    pub placements: Rows<Placement>,
    pub quota_limited: bool,
    pub class_limited: bool,
}

pub struct Plan {
    pub stops: Rows<u64>,
    pub placing: Placing,
}

impl Drop for Plan {
    fn drop(self) {
        let Plan {
            stops: _stops,
            placing: _placing,
        } = self;
    }
}

/// A missing allocation of a group of the job.
#[derive(Clone, Copy, PartialEq, Eq)]
pub struct Demand {
    pub group: u64,
    pub size: Resources,
}

//! Snapshots, and the rows that only they have.

use crate::equal::Equal;
use crate::equal::lists::same_list;
use ns_types::live_rows::LiveRows;
use ns_types::snapshot::{LiveAllocation, OwnAllocation, PoolNode, QuotaSeen, Snapshot};

impl Equal for OwnAllocation {
    fn equal(&self, other: &OwnAllocation) -> bool {
        self.number.equal(&other.number) && self.row.equal(&other.row)
    }
}

impl Equal for LiveAllocation {
    fn equal(&self, other: &LiveAllocation) -> bool {
        self.number.equal(&other.number)
            && self.priority.equal(&other.priority)
            && self.size.equal(&other.size)
            && self.namespace.equal(&other.namespace)
    }
}

/// Most lists that are the same are found to be so without comparing a name for each row.
impl Equal for LiveRows {
    fn equal(&self, other: &LiveRows) -> bool {
        self.is_like(other) || same_list(self.as_slice(), other.as_slice())
    }
}

impl Equal for PoolNode {
    fn equal(&self, other: &PoolNode) -> bool {
        self.row.equal(&other.row) && self.name.equal(&other.name) && self.live.equal(&other.live)
    }
}

impl Equal for QuotaSeen {
    fn equal(&self, other: &QuotaSeen) -> bool {
        self.used.equal(&other.used)
            && self.release.equal(&other.release)
            && self.limits.equal(&other.limits)
            && self.name.equal(&other.name)
            && self.namespaces.equal(&other.namespaces)
    }
}

/// The parts in which most snapshots differ are compared first, and the nodes last.
impl Equal for Snapshot {
    fn equal(&self, other: &Snapshot) -> bool {
        self.number.equal(&other.number)
            && self.release.equal(&other.release)
            && self.evaluation.equal(&other.evaluation)
            && self.quota.equal(&other.quota)
            && self.namespace.equal(&other.namespace)
            && self.pool.equal(&other.pool)
            && self.job.equal(&other.job)
            && self.own.equal(&other.own)
            && self.nodes.equal(&other.nodes)
    }
}

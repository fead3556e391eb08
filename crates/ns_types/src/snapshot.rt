//! A worker's snapshot: the part of the state that one evaluation is planned from.

use crate::allocation::Allocation;
use crate::evaluation::Evaluation;
use crate::job::Job;
use crate::live_rows::LiveRows;
use crate::node::Node;
use crate::resources::{Limits, Resources};
use crate::rows::Rows;
use crate::shared::Shared;
use crate::text::Text;

/// An allocation of the evaluation's own job that is live, or that completed and is of a batch job.
pub struct OwnAllocation {
    pub number: u64,
    pub row: Allocation,
}

impl Drop for OwnAllocation {
    fn drop(self) {
        let OwnAllocation {
            number: _,
            row: _row,
        } = self;
    }
}

/// A live allocation of any namespace, as its node has it. Allocations of one namespace share its name.
pub struct LiveAllocation {
    pub namespace: Shared<Text>,
    pub number: u64,
    pub priority: u64,
    pub size: Resources,
}

impl Drop for LiveAllocation {
    fn drop(self) {
        let LiveAllocation {
            namespace: _namespace,
            number: _,
            priority: _,
            size: _,
        } = self;
    }
}

/// A node with its live allocations, in the order in which they were placed on it.
pub struct PoolNode {
    pub name: Text,
    pub row: Node,
    pub live: LiveRows,
}

impl Drop for PoolNode {
    fn drop(self) {
        let PoolNode {
            name: _name,
            row: _row,
            live: _live,
        } = self;
    }
}

/// The namespace's quota, with the namespaces that name it.
pub struct QuotaSeen {
    pub name: Text,
    pub limits: Limits,
    pub used: Resources,
    pub release: u64,
    pub namespaces: Rows<Text>,
}

impl Drop for QuotaSeen {
    fn drop(self) {
        let QuotaSeen {
            name: _name,
            limits: _,
            used: _,
            release: _,
            namespaces: _namespaces,
        } = self;
    }
}

pub struct Snapshot {
    pub namespace: Text,
    pub number: u64,
    pub evaluation: Evaluation,
    pub job: Option<Job>,
    /// By number.
    pub own: Rows<OwnAllocation>,
    pub pool: Text,
    /// By name.
    pub nodes: Rows<Shared<PoolNode>>,
    /// The number of the pool's last release.
    pub release: u64,
    pub quota: Option<QuotaSeen>,
}

impl Drop for Snapshot {
    fn drop(self) {
        let Snapshot {
            namespace: _namespace,
            number: _,
            evaluation: _evaluation,
            job: _job,
            own: _own,
            pool: _pool,
            nodes: _nodes,
            release: _,
            quota: _quota,
        } = self;
    }
}

//! Rows: jobs, evaluations, allocations and nodes.

use crate::equal::Equal;
use ns_types::allocation::{Allocation, ClientStatus, DesiredStatus};
use ns_types::evaluation::{Evaluation, Status, Trigger};
use ns_types::job::Job;
use ns_types::node::Node;

impl Equal for Job {
    fn equal(&self, other: &Job) -> bool {
        self.version.equal(&other.version)
            && self.modify_index.equal(&other.modify_index)
            && self.create_index.equal(&other.create_index)
            && self.stop.equal(&other.stop)
            && self.document.equal(&other.document)
    }
}

impl Equal for Status {
    fn equal(&self, other: &Status) -> bool {
        self == other
    }
}

impl Equal for Trigger {
    fn equal(&self, other: &Trigger) -> bool {
        self == other
    }
}

impl Equal for Evaluation {
    fn equal(&self, other: &Evaluation) -> bool {
        self.modify_index.equal(&other.modify_index)
            && self.create_index.equal(&other.create_index)
            && self.nacks.equal(&other.nacks)
            && self.priority.equal(&other.priority)
            && self.status.equal(&other.status)
            && self.trigger.equal(&other.trigger)
            && self.kind.equal(&other.kind)
            && self.previous.equal(&other.previous)
            && self.follower.equal(&other.follower)
            && self.escapes.equal(&other.escapes)
            && self.job.equal(&other.job)
            && self.pool.equal(&other.pool)
            && self.quota.equal(&other.quota)
            && self.infeasible.equal(&other.infeasible)
    }
}

impl Equal for DesiredStatus {
    fn equal(&self, other: &DesiredStatus) -> bool {
        self == other
    }
}

impl Equal for ClientStatus {
    fn equal(&self, other: &ClientStatus) -> bool {
        self == other
    }
}

impl Equal for Allocation {
    fn equal(&self, other: &Allocation) -> bool {
        self.modify_index.equal(&other.modify_index)
            && self.create_index.equal(&other.create_index)
            && self.evaluation.equal(&other.evaluation)
            && self.place.equal(&other.place)
            && self.priority.equal(&other.priority)
            && self.job_modify_index.equal(&other.job_modify_index)
            && self.desired.equal(&other.desired)
            && self.client.equal(&other.client)
            && self.size.equal(&other.size)
            && self.node.equal(&other.node)
            && self.job.equal(&other.job)
            && self.group.equal(&other.group)
            && self.pool.equal(&other.pool)
    }
}

impl Equal for Node {
    fn equal(&self, other: &Node) -> bool {
        self.places.equal(&other.places)
            && self.status.equal(&other.status)
            && self.eligible.equal(&other.eligible)
            && self.offer.equal(&other.offer)
    }
}

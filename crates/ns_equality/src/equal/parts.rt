//! What rows are made of: amounts, limits, classes and documents of jobs.

use crate::equal::Equal;
use ns_types::job::{Constraint, Document, Group, JobKind, Operand, Target, Task, TaskResources};
use ns_types::node::{Attribute, Class, NodeStatus, Offer};
use ns_types::resources::{Limits, Resources};

impl Equal for Resources {
    fn equal(&self, other: &Resources) -> bool {
        self == other
    }
}

impl Equal for Limits {
    fn equal(&self, other: &Limits) -> bool {
        self == other
    }
}

impl Equal for Attribute {
    fn equal(&self, other: &Attribute) -> bool {
        self.key.equal(&other.key) && self.value.equal(&other.value)
    }
}

impl Equal for Class {
    fn equal(&self, other: &Class) -> bool {
        self.name.equal(&other.name) && self.attributes.equal(&other.attributes)
    }
}

impl Equal for NodeStatus {
    fn equal(&self, other: &NodeStatus) -> bool {
        self == other
    }
}

impl Equal for Offer {
    fn equal(&self, other: &Offer) -> bool {
        self.class.equal(&other.class)
            && self.attributes.equal(&other.attributes)
            && self.capacity.equal(&other.capacity)
    }
}

impl Equal for JobKind {
    fn equal(&self, other: &JobKind) -> bool {
        self == other
    }
}

impl Equal for Operand {
    fn equal(&self, other: &Operand) -> bool {
        self == other
    }
}

impl Equal for Target {
    fn equal(&self, other: &Target) -> bool {
        match (self, other) {
            (Target::NodeClass, Target::NodeClass) | (Target::NodeName, Target::NodeName) => true,
            (Target::Attribute(a), Target::Attribute(b)) => a.equal(b),
            _ => false,
        }
    }
}

impl Equal for Constraint {
    fn equal(&self, other: &Constraint) -> bool {
        self.target.equal(&other.target)
            && self.operand.equal(&other.operand)
            && self.value.equal(&other.value)
    }
}

impl Equal for TaskResources {
    fn equal(&self, other: &TaskResources) -> bool {
        self == other
    }
}

impl Equal for Task {
    fn equal(&self, other: &Task) -> bool {
        self.name.equal(&other.name) && self.resources.equal(&other.resources)
    }
}

impl Equal for Group {
    fn equal(&self, other: &Group) -> bool {
        self.count.equal(&other.count)
            && self.disk.equal(&other.disk)
            && self.name.equal(&other.name)
            && self.tasks.equal(&other.tasks)
    }
}

impl Equal for Document {
    fn equal(&self, other: &Document) -> bool {
        self.kind.equal(&other.kind)
            && self.priority.equal(&other.priority)
            && self.pool.equal(&other.pool)
            && self.constraints.equal(&other.constraints)
            && self.groups.equal(&other.groups)
    }
}

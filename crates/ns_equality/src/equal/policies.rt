//! Policies, and the parts of their rules.

use crate::equal::Equal;
use ns_types::acl::{Grants, Pattern, Policy, Rule, RuleKind};

impl Equal for RuleKind {
    fn equal(&self, other: &RuleKind) -> bool {
        self == other
    }
}

impl Equal for Pattern {
    fn equal(&self, other: &Pattern) -> bool {
        self.text.equal(&other.text) && self.is_prefix.equal(&other.is_prefix)
    }
}

impl Equal for Grants {
    fn equal(&self, other: &Grants) -> bool {
        self.list_jobs.equal(&other.list_jobs)
            && self.read_job.equal(&other.read_job)
            && self.submit_job.equal(&other.submit_job)
            && self.alloc_lifecycle.equal(&other.alloc_lifecycle)
            && self.read_pool.equal(&other.read_pool)
            && self.write_pool.equal(&other.write_pool)
            && self.deny.equal(&other.deny)
    }
}

impl Equal for Rule {
    fn equal(&self, other: &Rule) -> bool {
        self.kind.equal(&other.kind)
            && self.pattern.equal(&other.pattern)
            && self.grants.equal(&other.grants)
    }
}

impl Equal for Policy {
    fn equal(&self, other: &Policy) -> bool {
        self.description.equal(&other.description)
            && self.text.equal(&other.text)
            && self.rules.equal(&other.rules)
    }
}

//! The documents of commands, each compared by all its members.

use crate::equal::Equal;
use ns_types::acl::TokenKind;
use ns_types::job::Registration;
use ns_types::records::{Namespace, Pool, Quota};
use ns_types::step::{NewToken, Report};

impl Equal for Registration {
    fn equal(&self, other: &Registration) -> bool {
        self.id.equal(&other.id)
            && self.kind.equal(&other.kind)
            && self.priority.equal(&other.priority)
            && self.pool.equal(&other.pool)
            && self.constraints.equal(&other.constraints)
            && self.groups.equal(&other.groups)
            && self.enforced.equal(&other.enforced)
    }
}

impl Equal for Namespace {
    fn equal(&self, other: &Namespace) -> bool {
        self.description.equal(&other.description)
            && self.quota.equal(&other.quota)
            && self.default_pool.equal(&other.default_pool)
            && self.allowed.equal(&other.allowed)
            && self.denied.equal(&other.denied)
    }
}

impl Equal for Quota {
    fn equal(&self, other: &Quota) -> bool {
        self.description.equal(&other.description) && self.limits.equal(&other.limits)
    }
}

impl Equal for Pool {
    fn equal(&self, other: &Pool) -> bool {
        self.description.equal(&other.description)
    }
}

impl Equal for TokenKind {
    fn equal(&self, other: &TokenKind) -> bool {
        self == other
    }
}

impl Equal for NewToken {
    fn equal(&self, other: &NewToken) -> bool {
        self.accessor.equal(&other.accessor)
            && self.secret.equal(&other.secret)
            && self.name.equal(&other.name)
            && self.kind.equal(&other.kind)
            && self.policies.equal(&other.policies)
    }
}

impl Equal for Report {
    fn equal(&self, other: &Report) -> bool {
        self.namespace.equal(&other.namespace)
            && self.number.equal(&other.number)
            && self.client.equal(&other.client)
    }
}

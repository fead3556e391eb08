//! All rows of the state except the access lists, by owner.

ghost use Rattle.std.specs.Prelude.{◌≡◌, option_copied};
ghost use Rattle.std.specs.FinMap.{contains_key};
ghost use Rattle.ns_types.specs.State.Rows.{allocation_at, evaluation_at, node_at};
ghost use Rattle.ns_types.specs.Working.Commit.{quota_named};
ghost use Rattle.ns_tables.specs.World.{world_of};

use crate::allocations::AllocationTable;
use crate::evaluations::EvaluationTable;
use crate::events::Events;
use keyed::{KeyQueue, NameTable, NumberTable, OwnerTable, Series};
use ns_types::allocation::Allocation;
use ns_types::evaluation::Evaluation;
use ns_types::job::Job;
use ns_types::node::{Class, Node};
use ns_types::records::{Namespace, Pool, Quota};
use ns_types::text::Text;
use ns_types::worker::Worker;
use std::alloc::Global;

/// What a namespace owns.
pub struct TenantRows {
    pub namespace: Namespace,
    pub index: u64,
    /// The last numbers that were given to an evaluation and to an allocation.
    pub evaluation_number: u64,
    pub allocation_number: u64,
    pub jobs: NameTable<Job>,
    pub evaluations: EvaluationTable,
    pub allocations: AllocationTable,
    /// The workers that have one of its evaluations.
    pub workers: NumberTable<Worker>,
    pub events: Events,
}

impl Drop for TenantRows {
    fn drop(self) {
        let TenantRows {
            namespace: _namespace,
            index: _,
            evaluation_number: _,
            allocation_number: _,
            jobs: _jobs,
            evaluations: _evaluations,
            allocations: _allocations,
            workers: _workers,
            events: _events,
        } = self;
    }
}

/// What a pool owns.
pub struct PoolRows {
    pub pool: Pool,
    /// The number of its last release.
    pub release: u64,
    /// The number of the last release of each class. If a class has several entries, the first one counts.
    pub classes: Series<(Class, u64)>,
    pub nodes: NameTable<Node>,
}

impl Drop for PoolRows {
    fn drop(self) {
        let PoolRows {
            pool: _pool,
            release: _,
            classes: _classes,
            nodes: _nodes,
        } = self;
    }
}

/// What a quota owns.
pub struct QuotaRows {
    pub quota: Quota,
    /// The number of its last release.
    pub release: u64,
}

impl Drop for QuotaRows {
    fn drop(self) {
        let QuotaRows {
            quota: _quota,
            release: _,
        } = self;
    }
}

/// Namespaces, pools and quotas, each by name with what it owns, and the three queues.
pub struct Tables {
    pub alloc: Global,
    pub tenants: OwnerTable<TenantRows>,
    pub pools: OwnerTable<PoolRows>,
    pub quotas: NameTable<QuotaRows>,
    pub ready: KeyQueue,
    pub plans: KeyQueue,
    pub blocked: KeyQueue,
}

impl Drop for Tables {
    fn drop(self) {
        let Tables {
            alloc: _,
            tenants: _tenants,
            pools: _pools,
            quotas: _quotas,
            ready: _ready,
            plans: _plans,
            blocked: _blocked,
        } = self;
    }
}

impl Tables {
    /// The namespace's evaluation of that number.
    pub fn evaluation(&self, namespace: &Text, number: u64) -> Option<&Evaluation>
        ensures { option_copied result ≡ evaluation_at (world_of self.now) (namespace.now, number) }
    {
        match self.tenants.get(namespace) {
            Some(tenant) => tenant.evaluations.rows().get(number),
            None => None,
        }
    }

    /// The namespace's allocation of that number.
    pub fn allocation(&self, namespace: &Text, number: u64) -> Option<&Allocation>
        ensures { option_copied result ≡ allocation_at (world_of self.now) (namespace.now, number) }
    {
        match self.tenants.get(namespace) {
            Some(tenant) => tenant.allocations.get(number),
            None => None,
        }
    }

    /// The node of that name in the pool.
    pub fn node(&self, pool: &Text, name: &Text) -> Option<&Node>
        ensures { option_copied result ≡ node_at (world_of self.now) pool.now name.now }
    {
        match self.pools.get(pool) {
            Some(rows) => rows.nodes.get(name),
            None => None,
        }
    }

    /// The quota that the namespace names.
    pub fn quota_named(&self, namespace: &Text) -> Option<&Text>
        ensures { option_copied result ≡ quota_named (world_of self.now) namespace.now }
    {
        match self.tenants.get(namespace) {
            Some(tenant) => tenant.namespace.quota.as_ref(),
            None => None,
        }
    }

    /// Whether there is a quota of that name.
    pub fn has_quota(&self, name: &Text) -> bool
        ensures { result ≡ contains_key (world_of self.now).quotas name.now }
    {
        match self.quotas.get(name) {
            Some(_) => true,
            None => false,
        }
    }
}

//! Looks up jobs and the limits of quotas in the tables.

ghost use Rattle.std.specs.Prelude.{◌≡◌, option_copied};
ghost use Rattle.ns_plan.specs.Looks.{job_at, limits_of};
ghost use Rattle.ns_tables.specs.World.{world_of};

use ns_equality::limits_in;
use ns_tables::Tables;
use ns_types::job::Job;
use ns_types::resources::{Limit, Limits};
use ns_types::text::Text;

/// The limits of a quota that does not exist.
const ALL: Limits = Limits {
    cpu: Limit::Unlimited,
    memory: Limit::Unlimited,
    disk: Limit::Unlimited,
};

pub(crate) fn job<'a>(tables: &'a Tables, namespace: &Text, id: &Text) -> Option<&'a Job>
    ensures { option_copied result ≡ job_at (world_of tables.now) namespace.now id.now }
{
    match tables.tenants.get(namespace) {
        Some(tenant) => tenant.jobs.get(id),
        None => None,
    }
}

pub(crate) fn limits(tables: &Tables, quota: &Text) -> Limits
    ensures { result ≡ limits_of (world_of tables.now) quota.now }
{
    match tables.quotas.get(quota) {
        Some(rows) => limits_in(&rows.quota),
        None => ALL,
    }
}

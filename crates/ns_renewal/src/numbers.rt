//! Whether the namespaces have numbers for an evaluation of each job that loses an allocation. It takes no memory.

ghost use Rattle.std.specs.Prelude.{◌≡◌, ◌<◌, ◌-◌, IsTrue, false, length, min};
ghost use Rattle.std.specs.List.{list_any};
ghost use Rattle.std.specs.Option.{option_map_or};
ghost use Rattle.ns_types.specs.Steps.{greatest, is_past_bound};
ghost use Rattle.ns_types.specs.Working.Commit.{victim_at};
ghost use Rattle.ns_renewal.specs.Losing.{is_last_of_job, is_of_job, numbers_pass, numbers_pass_at};
ghost use Rattle.ns_renewal.specs.Losing.{numbers_pass_in, victims_at};
ghost use Rattle.ns_tables.specs.World.{tenant_of, world_of};

use crate::evictions::Evictions;
use crate::losing::allocation;
use ns_equality::same_text;
use ns_tables::{Tables, TenantRows};
use ns_types::plan::Eviction;
use ns_types::text::Text;

/// How many evictions there are, or the greatest number if there are more.
fn count<E: Evictions>(evictions: E) -> u64
    ensures { result ≡ min (length (E.list evictions)) greatest }
{
    let mut count: u64 = 0;
    let mut rest = evictions;
    while let Some((_, others)) = rest.split_first() {
        count = count.saturating_add(1);
        rest = others;
    }
    count
}

/// Whether the namespace has more than `count` numbers left.
fn has_numbers(tenant: &TenantRows, count: u64) -> bool
    ensures { IsTrue result → count < greatest - tenant.now.evaluation_number }
{
    let number = tenant.evaluation_number;
    count < u64::MAX - number
}

/// Whether the eviction's allocation is of the job.
fn is_of_job(tables: &Tables, namespace: &Text, job: &Text, eviction: &Eviction) -> bool
    ensures { result ≡ option_map_or (is_of_job namespace.now job.now)
        (victim_at (world_of tables.now) eviction.now) false }
{
    if !same_text(namespace, &eviction.namespace) {
        return false;
    }
    match allocation(tables, eviction) {
        Some(row) => same_text(job, &row.job),
        None => false,
    }
}

fn any_is_of_job<E: Evictions>(tables: &Tables, namespace: &Text, job: &Text, evictions: E) -> bool
    ensures { result ≡ list_any (is_of_job namespace.now job.now)
        (victims_at (world_of tables.now) (E.list evictions)) }
{
    let mut rest = evictions;
    while let Some((eviction, others)) = rest.split_first() {
        if is_of_job(tables, namespace, job, eviction) {
            return true;
        }
        rest = others;
    }
    false
}

/// Whether the eviction's allocation is of the namespace, and no later eviction's allocation is of the same job.
fn is_last_of_job<E: Evictions>(
    tables: &Tables,
    namespace: &Text,
    eviction: &Eviction,
    later: E,
) -> bool
    ensures { let w = world_of tables.now in
        result ≡ option_map_or (is_last_of_job namespace.now (victims_at w (E.list later)))
        (victim_at w eviction.now) false }
{
    if !same_text(namespace, &eviction.namespace) {
        return false;
    }
    match allocation(tables, eviction) {
        Some(row) => !any_is_of_job(tables, namespace, &row.job, later),
        None => false,
    }
}

/// Whether the namespace has too few numbers for its jobs. For each of its evictions it goes through the later ones.
fn numbers_pass_in<E: Evictions>(
    tables: &Tables,
    namespace: &Text,
    tenant: &TenantRows,
    evictions: E,
) -> bool
    ensures { result ≡ numbers_pass_in (victims_at (world_of tables.now) (E.list evictions))
        namespace.now (tenant_of tenant.now) }
{
    let mut number = tenant.evaluation_number;
    let mut rest = evictions;
    while let Some((eviction, later)) = rest.split_first() {
        if is_last_of_job(tables, namespace, eviction, later) {
            if number == u64::MAX {
                return true;
            }
            number += 1;
        }
        rest = later;
    }
    false
}

/// Whether the namespace is there and has too few numbers for its jobs. `count` is the number of evictions. If the namespace
/// has more numbers left than that, nothing else is looked at.
fn numbers_pass_at<E: Evictions>(
    tables: &Tables,
    namespace: &Text,
    evictions: E,
    count: u64,
) -> bool
    requires { count ≡ min (length (E.list evictions)) greatest }
    ensures { let w = world_of tables.now in
        result ≡ numbers_pass_at w (victims_at w (E.list evictions)) namespace.now }
{
    let Some(tenant) = tables.tenants.get(namespace) else {
        return false;
    };
    if has_numbers(tenant, count) {
        return false;
    }
    numbers_pass_in(tables, namespace, tenant, evictions)
}

/// Whether some namespace has too few numbers for an evaluation of each of its jobs that lose an allocation by one of the
/// evictions. It takes no memory, and costs a look-up for each eviction. Only for a namespace that does not have more numbers
/// left than there are evictions, it goes through each eviction's later ones.
pub fn numbers_pass<E: Evictions>(tables: &Tables, evictions: E) -> bool
    requires { is_past_bound (world_of tables.now) ≡ false }
    ensures { let w = world_of tables.now in
        result ≡ numbers_pass (victims_at w (E.list evictions)) w }
{
    let count = count(evictions);
    let mut rest = evictions;
    while let Some((eviction, others)) = rest.split_first() {
        if numbers_pass_at(tables, &eviction.namespace, evictions, count) {
            return true;
        }
        rest = others;
    }
    false
}

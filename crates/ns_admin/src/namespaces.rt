//! Administrators' commands on namespaces.

ghost use Rattle.std.specs.Prelude.{◌≡◌, IfOk};
ghost use Rattle.std.specs.List.{list_all};
ghost use Rattle.std.specs.FinMap.{contains_key};
ghost use Rattle.ns_types.specs.Asking.Admins.{delete_namespace, lacks_allowed, lacks_quota, new_tenant, put_namespace};
ghost use Rattle.ns_admin.specs.Recorded.{PreparesRecord};
ghost use Rattle.ns_admin.specs.Viewed.{forbids_in};
ghost use Rattle.ns_tables.specs.World.{tenant_of, world_of};

use crate::held::{forbids_put, has_work};
use crate::looking::{has_pool, is_default, is_full};
use crate::record::RecordChange;
use keyed::{NameTable, NumberTable};
use ns_tables::events::Events;
use ns_tables::{AllocationTable, EvaluationTable, Tables, TenantRows};
use ns_types::records::Namespace;
use ns_types::refusal::{Member, Refusal};
use ns_types::text::Text;
use std::alloc::{AllocError, Global};

/// Whether the namespace names a quota that is not there.
fn lacks_quota(tables: &Tables, namespace: &Namespace) -> bool
    ensures { result ≡ lacks_quota (world_of tables.now) namespace.now }
{
    match &namespace.quota {
        Some(quota) => !tables.has_quota(quota),
        None => false,
    }
}

fn has_pools(tables: &Tables, names: &[Text]) -> bool
    ensures { result ≡ list_all (contains_key (world_of tables.now).pools) names.now }
{
    names.iter().all(|name| has_pool(tables, name))
}

/// Whether the namespace lists a pool that is not there.
fn lacks_allowed(tables: &Tables, namespace: &Namespace) -> bool
    ensures { result ≡ lacks_allowed (world_of tables.now) namespace.now }
{
    match &namespace.allowed {
        Some(allowed) => !has_pools(tables, allowed.as_slice()),
        None => false,
    }
}

/// Whether what the namespace of that name has forbids the new record.
fn forbids_in(tables: &Tables, name: &Text, namespace: &Namespace) -> bool
    ensures { result ≡ forbids_in name.now namespace.now (world_of tables.now) }
{
    match tables.tenants.get(name) {
        Some(tenant) => forbids_put(tenant, namespace),
        None => false,
    }
}

/// A namespace that has nothing, with room for its events.
pub(crate) fn new_tenant(alloc: Global, namespace: Namespace) -> Result<TenantRows, AllocError>
    ensures { IfOk result (λ tenant. tenant_of tenant ≡ new_tenant namespace) }
{
    let events = Events::new(alloc)?;
    Ok(TenantRows {
        namespace,
        index: 0,
        evaluation_number: 0,
        allocation_number: 0,
        jobs: NameTable::new(alloc),
        evaluations: EvaluationTable::new(alloc),
        allocations: AllocationTable::new(alloc),
        workers: NumberTable::new(alloc),
        events,
    })
}

/// Prepares a put of a namespace, which makes it or replaces its record. The first refusal is `BadField` if a quota, a default
/// pool or an allowed pool is not there, then `InUse` if what the namespace has forbids the new record, then `Full`. Want of
/// memory comes last.
pub fn put_namespace(
    tables: &Tables,
    name: &Text,
    namespace: &Namespace,
) -> Result<RecordChange, Refusal>
    ensures { PreparesRecord (put_namespace name.now namespace.now) tables.now result }
{
    if lacks_quota(tables, namespace) {
        return Err(Refusal::BadField(Member::Quota));
    }
    if !has_pool(tables, &namespace.default_pool) {
        return Err(Refusal::BadField(Member::Default));
    }
    if lacks_allowed(tables, namespace) {
        return Err(Refusal::BadField(Member::Allowed));
    }
    if forbids_in(tables, name, namespace) {
        return Err(Refusal::InUse);
    }
    if is_full(tables.tenants.as_table(), name) {
        return Err(Refusal::Full);
    }
    Ok(RecordChange::Namespace(name.clone()?, namespace.clone()?))
}

/// Prepares the removal of the namespace with all that it owns. `NotFound`: it is not there. `InUse`: it is `default`, or it
/// has a job, an open evaluation or a live allocation. Want of memory comes last.
pub fn delete_namespace(tables: &Tables, name: &Text) -> Result<RecordChange, Refusal>
    ensures { PreparesRecord (delete_namespace name.now) tables.now result }
{
    let Some(tenant) = tables.tenants.get(name) else {
        return Err(Refusal::NotFound);
    };
    if is_default(name) {
        return Err(Refusal::InUse);
    }
    if has_work(tenant) {
        return Err(Refusal::InUse);
    }
    Ok(RecordChange::NoNamespace(name.clone()?))
}

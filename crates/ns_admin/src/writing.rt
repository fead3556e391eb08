//! The one place that writes what administrators' commands change.

ghost use Rattle.std.specs.Prelude.{◌≡◌, IsTrue, OnErr, is_some};
ghost use Rattle.keyed.specs.Table.{row_at};
ghost use Rattle.ns_admin.specs.Recorded.{Writes, recorded};
ghost use Rattle.ns_admin.specs.Viewed.{with_namespace_put, with_pool_put, with_quota_put};
ghost use Rattle.ns_admin.specs.Viewed.{without_namespace};
ghost use Rattle.ns_live_index.specs.Naming.{AreNamed, HasNameRoom, KeepsNodes, use_in};
ghost use Rattle.ns_types.specs.State.Resources.{IsTotal};
ghost use Rattle.ns_tables.specs.World.{world_of};

use crate::namespaces::new_tenant;
use crate::pools::new_pool;
use crate::record::RecordChange;
use ns_live_index::Live;
use ns_tables::{QuotaRows, Tables};
use ns_types::records::{Namespace, Pool, Quota};
use ns_types::resources::{Resources, none};
use ns_types::text::Text;
use std::alloc::AllocError;

/// Replaces the namespace's record, and files the namespace under its quota in the index. It takes no memory.
fn replace_namespace(tables: &mut Tables, live: &mut Live, name: &Text, namespace: Namespace)
    requires there { IsTrue (is_some (row_at tables.old.tenants name.now)) }
    requires room { HasNameRoom live.old.quotas name.now namespace.quota }
    ensures written { world_of tables.new
        ≡ with_namespace_put name.now namespace (world_of tables.old) }
    ensures nodes { KeepsNodes live.old live.new }
    ensures named { AreNamed (world_of tables.old) live.old →
        AreNamed (world_of tables.new) live.new }
{
    match tables.tenants.take(name) {
        Some(mut tenant) => {
            live.put_quota(
                name,
                tenant.namespace.quota.as_ref(),
                namespace.quota.as_ref(),
                tenant.allocations.live_total(),
            );
            tenant.namespace = namespace;
            tables.tenants.set(name, tenant);
        }
        None => drop(namespace),
    }
}

/// Writes the record of the namespace, new or in place of the old one, and files the namespace under its quota in the index.
fn write_namespace(
    tables: &mut Tables,
    live: &mut Live,
    name: &Text,
    namespace: Namespace,
) -> Result<(), AllocError>
    ensures written { Writes (with_namespace_put name.now namespace) tables.old result tables.new }
    ensures refused { OnErr result (tables.new ≡ tables.old) }
    ensures nodes { KeepsNodes live.old live.new }
    ensures named { AreNamed (world_of tables.old) live.old →
        AreNamed (world_of tables.new) live.new }
{
    live.reserve_quota(name, namespace.quota.as_ref())?;
    if let Some(_) = tables.tenants.get(name) {
        replace_namespace(tables, live, name, namespace);
        return Ok(());
    }
    let tenant = new_tenant(tables.alloc, namespace)?;
    tables.tenants.reserve(name)?;
    live.put_quota(name, None, tenant.namespace.quota.as_ref(), none());
    tables.tenants.set(name, tenant);
    Ok(())
}

/// The total of what the namespace's live allocations take, where it is there.
fn use_total(tables: &Tables, name: &Text) -> Resources
    ensures { IsTotal result (use_in (world_of tables.now).tenants name.now) }
{
    match tables.tenants.get(name) {
        Some(tenant) => tenant.allocations.live_total(),
        None => none(),
    }
}

/// Removes the namespace with all that it has, and files it under no quota in the index. It takes no memory.
fn remove_namespace(tables: &mut Tables, live: &mut Live, name: &Text)
    ensures written { world_of tables.new ≡ without_namespace name.now (world_of tables.old) }
    ensures nodes { KeepsNodes live.old live.new }
    ensures named { AreNamed (world_of tables.old) live.old →
        AreNamed (world_of tables.new) live.new }
{
    let used = use_total(tables, name);
    live.put_quota(name, tables.quota_named(name), None, used);
    tables.tenants.remove(name);
}

/// Writes the record of the quota, new or in place of the old one.
fn write_quota(tables: &mut Tables, name: &Text, quota: Quota) -> Result<(), AllocError>
    ensures written { Writes (with_quota_put name.now quota) tables.old result tables.new }
    ensures refused { OnErr result (tables.new ≡ tables.old) }
{
    if let Some(row) = tables.quotas.get_mut(name) {
        row.quota = quota;
        return Ok(());
    }
    tables.quotas.reserve(name)?;
    tables.quotas.set(name, QuotaRows { quota, release: 0 });
    Ok(())
}

/// Replaces the record of the pool. It takes no memory.
fn replace_pool(tables: &mut Tables, name: &Text, pool: Pool)
    requires { IsTrue (is_some (row_at tables.old.pools name.now)) }
    ensures { world_of tables.new ≡ with_pool_put name.now pool (world_of tables.old) }
{
    match tables.pools.take(name) {
        Some(mut rows) => {
            rows.pool = pool;
            tables.pools.set(name, rows);
        }
        None => drop(pool),
    }
}

/// Writes the record of the pool, new or in place of the old one.
fn write_pool(tables: &mut Tables, name: &Text, pool: Pool) -> Result<(), AllocError>
    ensures written { Writes (with_pool_put name.now pool) tables.old result tables.new }
    ensures refused { OnErr result (tables.new ≡ tables.old) }
{
    if let Some(_) = tables.pools.get(name) {
        replace_pool(tables, name, pool);
        return Ok(());
    }
    tables.pools.reserve(name)?;
    tables.pools.set(name, new_pool(tables.alloc, pool));
    Ok(())
}

/// Writes what a command changes. The index stays right about which namespaces name which quota, and what they use. Room for a
/// new owner, and for a namespace under its quota, is made first. If memory for it is refused, the tables are as they were,
/// slots and room too. All else takes no memory. Want of memory is the only error.
pub fn write(tables: &mut Tables, live: &mut Live, change: RecordChange) -> Result<(), AllocError>
    ensures written { Writes (recorded change) tables.old result tables.new }
    ensures refused { OnErr result (tables.new ≡ tables.old) }
    ensures nodes { KeepsNodes live.old live.new }
    ensures named { AreNamed (world_of tables.old) live.old →
        AreNamed (world_of tables.new) live.new }
{
    match change {
        RecordChange::Namespace(name, namespace) => {
            write_namespace(tables, live, &name, namespace)
        }
        RecordChange::NoNamespace(name) => {
            remove_namespace(tables, live, &name);
            Ok(())
        }
        RecordChange::Quota(name, quota) => write_quota(tables, &name, quota),
        RecordChange::NoQuota(name) => {
            tables.quotas.remove(&name);
            Ok(())
        }
        RecordChange::Pool(name, pool) => write_pool(tables, &name, pool),
        RecordChange::NoPool(name) => {
            tables.pools.remove(&name);
            Ok(())
        }
    }
}

//! Administrators' commands on pools.

ghost use Rattle.std.specs.Prelude.{◌≡◌, ◌||◌, true, None};
ghost use Rattle.std.specs.List.{list_any};
ghost use Rattle.keyed.specs.Table.{at_slot};
ghost use Rattle.ns_types.specs.Asking.Admins.{delete_pool, is_pool_in_use, put_pool_record, with_pool};
ghost use Rattle.ns_types.specs.State.Tables.{any_row};
ghost use Rattle.ns_admin.specs.Recorded.{PreparesRecord};
ghost use Rattle.ns_admin.specs.Viewed.{tenant_uses_pool};
ghost use Rattle.ns_tables.specs.World.{pool_of, world_of};

use crate::held::{AskedPools, has_rows, looks_to_pool};
use crate::looking::{is_default, is_full};
use crate::record::RecordChange;
use crate::sharing::names_pool;
use keyed::{NameSlot, NameTable, Series};
use ns_tables::{PoolRows, Tables, TenantRows};
use ns_types::records::Pool;
use ns_types::refusal::Refusal;
use ns_types::text::Text;
use std::alloc::Global;

fn uses_pool(slot: &NameSlot<TenantRows>, pool: &Text) -> bool
    ensures { result ≡ at_slot (tenant_uses_pool pool.now) slot.now }
{
    match &slot.1 {
        Some(tenant) => {
            names_pool(pool, &tenant.namespace) || looks_to_pool(tenant, &AskedPools::Named(pool))
        }
        None => false,
    }
}

fn any_uses_pool(slots: &[NameSlot<TenantRows>], pool: &Text) -> bool
    ensures { result ≡ list_any (at_slot (tenant_uses_pool pool.now)) slots.now }
{
    slots.iter().any(|slot| uses_pool(slot, pool))
}

/// Whether a namespace, or a job, an open evaluation or a kept snapshot of one, names the pool.
fn is_pool_in_use(tables: &Tables, name: &Text) -> bool
    ensures { result ≡ is_pool_in_use name.now (world_of tables.now) }
{
    any_uses_pool(tables.tenants.as_slice(), name)
}

/// Whether the pool has a node, or something names it.
fn is_occupied(tables: &Tables, name: &Text, pool: &PoolRows) -> bool
    ensures { result ≡ (any_row (λ _ node. true) (pool_of pool.now).nodes
        || is_pool_in_use name.now (world_of tables.now)) }
{
    has_rows(&pool.nodes) || is_pool_in_use(tables, name)
}

/// A pool that has nothing. It takes no memory.
pub(crate) fn new_pool(alloc: Global, pool: Pool) -> PoolRows
    ensures { pool_of result ≡ with_pool pool None }
{
    PoolRows {
        pool,
        release: 0,
        classes: Series::new(alloc),
        nodes: NameTable::new(alloc),
    }
}

/// Prepares a put of a pool, which makes it or replaces its record: the nodes and release numbers stay. `Full` is the only
/// refusal except want of memory, which comes last.
pub fn put_pool(tables: &Tables, name: &Text, pool: &Pool) -> Result<RecordChange, Refusal>
    ensures { PreparesRecord (put_pool_record name.now pool.now) tables.now result }
{
    if is_full(tables.pools.as_table(), name) {
        return Err(Refusal::Full);
    }
    Ok(RecordChange::Pool(name.clone()?, pool.clone()?))
}

/// Prepares the removal of the pool. `NotFound`: it is not there. `InUse`: it is `default`, it has a node, or something names
/// it. Want of memory comes last.
pub fn delete_pool(tables: &Tables, name: &Text) -> Result<RecordChange, Refusal>
    ensures { PreparesRecord (delete_pool name.now) tables.now result }
{
    let Some(pool) = tables.pools.get(name) else {
        return Err(Refusal::NotFound);
    };
    if is_default(name) {
        return Err(Refusal::InUse);
    }
    if is_occupied(tables, name, pool) {
        return Err(Refusal::InUse);
    }
    Ok(RecordChange::NoPool(name.clone()?))
}

//! The tables of a server that has just begun.

ghost use Rattle.std.specs.Prelude.{◌≡◌, IfOk};
ghost use Rattle.std.specs.FinMap.{empty, insert};
ghost use Rattle.keyed.specs.Table.{rows};
ghost use Rattle.ns_types.specs.Steps.{opening_pool, opening_tenant, opening_world};
ghost use Rattle.ns_tables.specs.World.{pool_of, tenant_of, world_of};

use crate::looking::DEFAULT;
use crate::namespaces::new_tenant;
use crate::pools::new_pool;
use keyed::{Bounded, KeyQueue, NameTable, OwnerTable};
use ns_tables::{PoolRows, Tables, TenantRows};
use ns_types::records::{Namespace, Pool};
use ns_types::rows::Rows;
use ns_types::text::Text;
use std::alloc::{AllocError, Global};

fn opening_tenant(alloc: Global) -> Result<TenantRows, AllocError>
    ensures { IfOk result (λ tenant. tenant_of tenant ≡ opening_tenant) }
{
    let namespace = Namespace {
        description: Text::from_str(alloc, "")?,
        quota: None,
        default_pool: Text::from_str(alloc, DEFAULT)?,
        allowed: None,
        denied: Rows::new(alloc),
    };
    new_tenant(alloc, namespace)
}

fn opening_pool(alloc: Global) -> Result<PoolRows, AllocError>
    ensures { IfOk result (λ pool. pool_of pool ≡ opening_pool) }
{
    let pool = Pool {
        description: Text::from_str(alloc, "")?,
    };
    Ok(new_pool(alloc, pool))
}

/// A table with one row.
fn single<V: Bounded + Drop>(alloc: Global, key: &Text, row: V) -> Result<OwnerTable<V>, AllocError>
    ensures { IfOk result (λ table. rows table ≡ insert empty key.now row) }
{
    let mut table = OwnerTable::new(alloc);
    table.reserve(key)?;
    table.set(key, row);
    Ok(table)
}

/// The tables with the namespace and the pool `default`, and nothing else. Want of memory is the only error.
pub fn opening(alloc: Global) -> Result<Tables, AllocError>
    ensures { IfOk result (λ tables. world_of tables ≡ opening_world) }
{
    let default = Text::from_str(alloc, DEFAULT)?;
    Ok(Tables {
        alloc,
        tenants: single(alloc, &default, opening_tenant(alloc)?)?,
        pools: single(alloc, &default, opening_pool(alloc)?)?,
        quotas: NameTable::new(alloc),
        ready: KeyQueue::new(alloc),
        plans: KeyQueue::new(alloc),
        blocked: KeyQueue::new(alloc),
    })
}

//! Nodes, and the allocations that are placed on them.

ghost use Rattle.std.specs.Prelude.{◌≡◌, ◌+◌, ◌<◌, ◌^◌, false, IfOk, IsTrue, OnOk};
ghost use Rattle.ns_types.specs.Working.Commit.{with_allocation};
ghost use Rattle.ns_types.specs.Settling.Making.{with_node};
ghost use Rattle.ns_types.specs.State.Rows.{PoolRows, Tenant};
ghost use Rattle.ns_change.specs.Changed.{Does, DoesIn, DoesInPool, HasAllocationLeft, HasPlaceLeft};
ghost use Rattle.ns_change.specs.Changed.{changed_pool, changed_tenant, count_place, view, without_node};
ghost use Rattle.ns_change.specs.Opened.{OpenedPool};

use crate::change::{Change, PoolChange, TenantChange};
use crate::copying::copied_node;
use crate::editing::unchanged;
use crate::looking::node;
use crate::numbered::put_name;
use keyed::NameTable;
use ns_tables::Tables;
use ns_types::allocation::Allocation;
use ns_types::node::Node;
use ns_types::text::Text;
use std::alloc::AllocError;

/// Takes the pool's change out of `change`, or makes an empty one; the caller puts it back. None: there is no such pool. Want
/// of memory is the only error.
fn open_pool(
    tables: &Tables,
    change: &mut Change,
    pool: &Text,
) -> Result<Option<PoolChange>, AllocError>
    ensures { IfOk result (λ x. OpenedPool tables.now change.old pool.now x change.new) }
{
    let Some(_stored) = tables.pools.get(pool) else {
        return Ok(None);
    };
    if let Some(changed) = change.pools.take(pool) {
        return Ok(Some(changed));
    }
    change.pools.reserve(pool)?;
    Ok(Some(PoolChange {
        nodes: NameTable::new(tables.alloc),
    }))
}

/// Puts the node's row into the pool's change.
fn put_among(changed: &mut PoolChange, name: &Text, row: Node) -> Result<(), AllocError>
    ensures { OnOk result ((base : PoolRows) → changed_pool base changed.new
        ≡ with_node name.now row (changed_pool base changed.old)) }
{
    put_name(&mut changed.nodes, name, row)
}

/// Marks the node as removed in the pool's change.
fn remove_among(changed: &mut PoolChange, name: &Text) -> Result<(), AllocError>
    ensures { OnOk result ((base : PoolRows) → changed_pool base changed.new
        ≡ without_node name.now (changed_pool base changed.old)) }
{
    changed.nodes.reserve(name)?;
    drop(changed.nodes.take(name));
    Ok(())
}

/// Puts a node into the pool, if the pool is there. Want of memory is the only error.
pub fn put_node(
    tables: &Tables,
    change: &mut Change,
    pool: &Text,
    name: &Text,
    row: Node,
) -> Result<(), AllocError>
    ensures { DoesInPool pool.now result tables.now change.old change.new (with_node name.now row) }
{
    match open_pool(tables, change, pool) {
        Ok(Some(mut changed)) => {
            let put = put_among(&mut changed, name, row);
            change.pools.set(pool, changed);
            put
        }
        Ok(None) => {
            drop(row);
            Ok(())
        }
        Err(error) => {
            drop(row);
            Err(error)
        }
    }
}

/// Removes a node from the pool, if the pool is there. Want of memory is the only error.
pub fn remove_node(
    tables: &Tables,
    change: &mut Change,
    pool: &Text,
    name: &Text,
) -> Result<(), AllocError>
    ensures { DoesInPool pool.now result tables.now change.old change.new (without_node name.now) }
{
    let Some(mut changed) = open_pool(tables, change, pool)? else {
        return Ok(());
    };
    let removed = remove_among(&mut changed, name);
    change.pools.set(pool, changed);
    removed
}

/// Counts a placement on a node whose row the change has already, in that row, and returns true. Otherwise returns false and
/// changes nothing.
fn count_again(tables: &Tables, change: &mut Change, pool: &Text, name: &Text) -> bool
    requires { HasPlaceLeft (view tables.now change.old) pool.now name.now }
    ensures counted { IsTrue result → view tables.now change.new
        ≡ count_place pool.now name.now (view tables.now change.old) }
    ensures same { result ≡ false → change.new ≡ change.old }
{
    let Some(_stored) = tables.pools.get(pool) else {
        return false;
    };
    let Some(changed) = change.pools.get_mut(pool) else {
        return false;
    };
    let Some(row) = changed.nodes.get_mut(name) else {
        return false;
    };
    row.places += 1;
    true
}

/// Counts a placement on a node, if the node is there. Only the step's first placement on the node copies its row. Want of
/// memory is the only error.
pub fn count_place(
    tables: &Tables,
    change: &mut Change,
    pool: &Text,
    name: &Text,
) -> Result<(), AllocError>
    requires { HasPlaceLeft (view tables.now change.old) pool.now name.now }
    ensures { Does result tables.now change.old change.new (count_place pool.now name.now) }
{
    if count_again(tables, change, pool, name) {
        return Ok(());
    }
    let Some(row) = node(tables, change, pool, name) else {
        return Ok(());
    };
    let mut row = copied_node(row)?;
    row.places += 1;
    put_node(tables, change, pool, name, row)
}

/// Adds the allocation under the next number.
fn add_row(tenant: &mut TenantChange, row: Allocation) -> Result<(), AllocError>
    requires { tenant.old.allocation_number + 1 < 2 ^ 64 }
    ensures { OnOk result ((base : Tenant) →
        changed_tenant base tenant.new ≡ with_allocation row (changed_tenant base tenant.old)) }
{
    let number = tenant.allocation_number + 1;
    tenant.allocations.reserve(number)?;
    tenant.allocations.set(number, row);
    tenant.allocation_number = number;
    Ok(())
}

/// Adds an allocation under the namespace's next number, if the namespace is there. A change that the namespace has already is
/// edited in place. Want of memory is the only error.
pub fn add_allocation(
    tables: &Tables,
    change: &mut Change,
    namespace: &Text,
    row: Allocation,
) -> Result<(), AllocError>
    requires { HasAllocationLeft (view tables.now change.old) namespace.now }
    ensures { DoesIn namespace.now result tables.now change.old change.new (with_allocation row) }
{
    let Some(stored) = tables.tenants.get(namespace) else {
        drop(row);
        return Ok(());
    };
    if let Some(tenant) = change.tenants.get_mut(namespace) {
        return add_row(tenant, row);
    }
    change.tenants.reserve(namespace)?;
    let mut tenant = unchanged(tables.alloc, stored);
    let added = add_row(&mut tenant, row);
    change.tenants.set(namespace, tenant);
    added
}

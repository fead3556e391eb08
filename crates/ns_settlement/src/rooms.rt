//! The room on nodes that a step gives, found from its change.

ghost use Rattle.std.specs.Prelude.{◌≡◌, ◌∷◌, ◌++◌, [], flat_map, IfOk, OnOk};
ghost use Rattle.ns_types.specs.State.Rows.{class_of};
ghost use Rattle.ns_release.specs.Released.{released_rooms, room_at, rooms_at};
ghost use Rattle.ns_release.specs.Released.{rooms_ended, rooms_ended_in, rooms_of_pool};
ghost use Rattle.ns_tables.specs.World.{pool_of, tenant_of, world_of};
ghost use Rattle.ns_change.specs.Changed.{view};

use keyed::{NameSlot, NumberSlot};
use ns_change::{Change, PoolChange, TenantChange, node};
use ns_equality::{class_of, is_free};
use ns_release::{changed_allocations, ended, gives_itself};
use ns_tables::{PoolRows, Tables, TenantRows};
use ns_types::allocation::Allocation;
use ns_types::node::{Class, Node};
use ns_types::rows::Rows;
use ns_types::text::Text;
use std::alloc::{AllocError, Global};

/// A released class with its pool.
pub type ReleasedClass = (Text, Class);

fn add_room(
    rooms: &mut Rows<ReleasedClass>,
    alloc: Global,
    pool: &Text,
    node: &Node,
) -> Result<(), AllocError>
    ensures { OnOk result (rooms.new ≡ rooms.old ++ (pool.now, class_of node.now) ∷ []) }
{
    let class = class_of(alloc, node)?;
    rooms.push((pool.clone()?, class))
}

fn add_changed(
    rooms: &mut Rows<ReleasedClass>,
    alloc: Global,
    pool: &Text,
    rows: &PoolRows,
    slot: &NameSlot<Node>,
) -> Result<(), AllocError>
    ensures { OnOk result (rooms.new ≡ rooms.old ++ rooms_at pool.now (pool_of rows.now) slot.now) }
{
    if let Some(node) = &slot.1 {
        if gives_itself(rows, &slot.0, node) {
            add_room(rooms, alloc, pool, node)?;
        }
    }
    Ok(())
}

fn add_all_changed(
    rooms: &mut Rows<ReleasedClass>,
    alloc: Global,
    pool: &Text,
    rows: &PoolRows,
    slots: &[NameSlot<Node>],
) -> Result<(), AllocError>
    ensures { OnOk result (rooms.new ≡ rooms.old
        ++ flat_map (rooms_at pool.now (pool_of rows.now)) slots.now) }
{
    for slot in slots {
        add_changed(rooms, alloc, pool, rows, slot)?;
    }
    Ok(())
}

/// Adds the classes of the pool's changed nodes that give room themselves.
fn add_pool(
    rooms: &mut Rows<ReleasedClass>,
    tables: &Tables,
    slot: &NameSlot<PoolChange>,
) -> Result<(), AllocError>
    ensures { OnOk result (rooms.new ≡ rooms.old ++ rooms_of_pool (world_of tables.now) slot.now) }
{
    if let Some(change) = &slot.1 {
        if let Some(rows) = tables.pools.get(&slot.0) {
            add_all_changed(rooms, tables.alloc, &slot.0, rows, change.nodes.as_slice())?;
        }
    }
    Ok(())
}

fn add_pools(
    rooms: &mut Rows<ReleasedClass>,
    tables: &Tables,
    slots: &[NameSlot<PoolChange>],
) -> Result<(), AllocError>
    ensures { OnOk result (rooms.new ≡ rooms.old
        ++ flat_map (rooms_of_pool (world_of tables.now)) slots.now) }
{
    for slot in slots {
        add_pool(rooms, tables, slot)?;
    }
    Ok(())
}

/// Adds the class of the node that an ended allocation leaves, if the node is free.
fn add_left(
    rooms: &mut Rows<ReleasedClass>,
    tables: &Tables,
    change: &Change,
    allocation: &Allocation,
) -> Result<(), AllocError>
    ensures { OnOk result (rooms.new ≡ rooms.old
        ++ room_at (view tables.now change.now) allocation.now) }
{
    if let Some(node) = node(tables, change, &allocation.pool, &allocation.node) {
        if is_free(node) {
            add_room(rooms, tables.alloc, &allocation.pool, node)?;
        }
    }
    Ok(())
}

fn add_ended(
    rooms: &mut Rows<ReleasedClass>,
    tables: &Tables,
    change: &Change,
    tenant: &TenantRows,
    slot: &NumberSlot<Allocation>,
) -> Result<(), AllocError>
    ensures { OnOk result (rooms.new ≡ rooms.old
        ++ rooms_ended (view tables.now change.now) (tenant_of tenant.now) slot.now) }
{
    if let Some(allocation) = ended(tenant, slot) {
        add_left(rooms, tables, change, allocation)?;
    }
    Ok(())
}

fn add_all_ended(
    rooms: &mut Rows<ReleasedClass>,
    tables: &Tables,
    change: &Change,
    tenant: &TenantRows,
    slots: &[NumberSlot<Allocation>],
) -> Result<(), AllocError>
    ensures { OnOk result (rooms.new ≡ rooms.old
        ++ flat_map (rooms_ended (view tables.now change.now) (tenant_of tenant.now)) slots.now) }
{
    for slot in slots {
        add_ended(rooms, tables, change, tenant, slot)?;
    }
    Ok(())
}

fn add_tenant(
    rooms: &mut Rows<ReleasedClass>,
    tables: &Tables,
    change: &Change,
    slot: &NameSlot<TenantChange>,
) -> Result<(), AllocError>
    ensures { OnOk result (rooms.new ≡ rooms.old
        ++ rooms_ended_in (world_of tables.now) (view tables.now change.now) slot.now) }
{
    if let Some((tenant, slots)) = changed_allocations(tables, slot) {
        add_all_ended(rooms, tables, change, tenant, slots)?;
    }
    Ok(())
}

fn add_tenants(
    rooms: &mut Rows<ReleasedClass>,
    tables: &Tables,
    change: &Change,
    slots: &[NameSlot<TenantChange>],
) -> Result<(), AllocError>
    ensures { OnOk result (rooms.new ≡ rooms.old ++ flat_map
        (rooms_ended_in (world_of tables.now) (view tables.now change.now)) slots.now) }
{
    for slot in slots {
        add_tenant(rooms, tables, change, slot)?;
    }
    Ok(())
}

/// The classes of all nodes that give room, each with its pool, in any order and perhaps twice. Want of memory is the only
/// error.
pub fn released_rooms(tables: &Tables, change: &Change) -> Result<Rows<ReleasedClass>, AllocError>
    ensures { IfOk result (λ rooms. rooms ≡ released_rooms (world_of tables.now) change.now) }
{
    let mut rooms = Rows::new(tables.alloc);
    add_pools(&mut rooms, tables, change.pools.as_slice())?;
    add_tenants(&mut rooms, tables, change, change.tenants.as_slice())?;
    Ok(rooms)
}

//! The end of a step: blocked evaluations wake, and changed rows get their indexes and events.

ghost use Rattle.std.specs.Prelude.{◌≡◌, false, IfOk, Some};
ghost use Rattle.std.specs.FinMap.{entries};
ghost use Rattle.std.specs.List.{list_any};
ghost use Rattle.ns_types.specs.Settling.Settle.{settle};
ghost use Rattle.ns_types.specs.Steps.{is_past_bound};
ghost use Rattle.ns_types.specs.State.Tables.{table_of};
ghost use Rattle.ns_change.specs.Changed.{view};
ghost use Rattle.ns_change.specs.Settled.{settled_world};
ghost use Rattle.ns_settlement.specs.Settles.{is_last, settled_slot};
ghost use Rattle.ns_settlement.specs.Stamped.{events_at, stamp_change};
ghost use Rattle.ns_queues.specs.Turns.{IsRight};
ghost use Rattle.ns_tables.specs.World.{tenant_of, world_of};

use crate::quotas::released_quotas;
use crate::rooms::released_rooms;
use crate::stamping::{publish_jobs, publish_rows, stamp_rows, touches};
use crate::waking::woken_keys;
use keyed::NameTable;
use ns_change::{Change, Settled, SettledTenant, TenantChange, wake};
use ns_queues::Turns;
use ns_tables::{Tables, TenantRows};
use ns_types::event::Event;
use ns_types::rows::Rows;
use ns_types::text::Text;
use std::alloc::{AllocError, Global};

/// The events of the namespace's changed rows, with that index.
fn events_at(
    alloc: Global,
    tenant: &TenantRows,
    index: u64,
    change: &TenantChange,
) -> Result<Rows<Event>, AllocError>
    ensures { IfOk result (λ events. events ≡ events_at index (tenant_of tenant.now) change.now) }
{
    let mut events = Rows::new(alloc);
    publish_jobs(&mut events, tenant, index, change.jobs.as_slice())?;
    publish_rows(
        &mut events,
        tenant.evaluations.rows(),
        index,
        change.evaluations.as_slice(),
    )?;
    publish_rows(
        &mut events,
        tenant.allocations.rows(),
        index,
        change.allocations.as_slice(),
    )?;
    Ok(events)
}

/// The changed rows of a namespace with the index.
fn stamp_change(tenant: &TenantRows, index: u64, change: TenantChange) -> TenantChange
    ensures { result ≡ stamp_change index (tenant_of tenant.now) change }
{
    let TenantChange {
        evaluation_number,
        allocation_number,
        jobs,
        evaluations,
        allocations,
        workers,
    } = change;
    TenantChange {
        evaluation_number,
        allocation_number,
        jobs,
        evaluations: stamp_rows(tenant.evaluations.rows(), index, evaluations),
        allocations: stamp_rows(tenant.allocations.rows(), index, allocations),
        workers,
    }
}

/// Settles the change of a namespace. If a row that replies show has changed, the rows get the next index and events.
fn settle_tenant(
    tables: &Tables,
    namespace: &Text,
    change: TenantChange,
) -> Result<SettledTenant, AllocError>
    requires { is_last (world_of tables.now) namespace.now (Some change) ≡ false }
    ensures { IfOk result (λ settled. Some settled
        ≡ settled_slot (world_of tables.now) namespace.now (Some change)) }
{
    let Some(tenant) = tables.tenants.get(namespace) else {
        return Ok(SettledTenant {
            rows: change,
            events: None,
        });
    };
    if !touches(tenant, &change) {
        return Ok(SettledTenant {
            rows: change,
            events: None,
        });
    }
    let index = tenant.index + 1;
    let events = events_at(tables.alloc, tenant, index, &change)?;
    Ok(SettledTenant {
        rows: stamp_change(tenant, index, change),
        events: Some(events),
    })
}

fn settle_slot(
    tables: &Tables,
    namespace: &Text,
    slot: Option<TenantChange>,
) -> Result<Option<SettledTenant>, AllocError>
    requires { is_last (world_of tables.now) namespace.now slot ≡ false }
    ensures { IfOk result (λ settled. settled
        ≡ settled_slot (world_of tables.now) namespace.now slot) }
{
    match slot {
        Some(change) => Ok(Some(settle_tenant(tables, namespace, change)?)),
        None => Ok(None),
    }
}

/// Settles the changes of all namespaces, into a list with room for these and no more.
fn settle_tenants(
    tables: &Tables,
    tenants: NameTable<TenantChange>,
) -> Result<NameTable<SettledTenant>, AllocError>
    requires { list_any (λ e. is_last (world_of tables.now) e.0 e.1) (entries tenants) ≡ false }
    ensures { IfOk result (λ settled. settled
        ≡ table_of (settled_slot (world_of tables.now)) tenants) }
{
    let slots = tenants.into_slots();
    let mut rows = Vec::with_capacity(tables.alloc, slots.len())?;
    for (namespace, slot) in slots {
        let settled = settle_slot(tables, &namespace, slot)?;
        rows.push((namespace, settled))?;
    }
    Ok(NameTable::from_slots(rows))
}

/// Completes the step's own change to all that the step changes. Want of memory is the only error.
pub fn settle(tables: &Tables, turns: &Turns, mut change: Change) -> Result<Settled, AllocError>
    requires right { IsRight (world_of tables.now) turns.now }
    requires within { is_past_bound (settle (world_of tables.now) (view tables.now change))
        ≡ false }
    ensures settled { IfOk result (λ settled. settled_world (world_of tables.now) settled
        ≡ settle (world_of tables.now) (view tables.now change)) }
    ensures fits { IfOk result (λ settled.
        is_past_bound (settled_world (world_of tables.now) settled) ≡ false) }
{
    let rooms = released_rooms(tables, &change)?;
    let released = released_quotas(tables, &change)?;
    let keys = woken_keys(tables, turns, &change, &rooms, &released)?;
    wake(tables, &mut change, keys.as_slice())?;
    let Change {
        tenants,
        pools,
        quotas,
        ready,
        plans,
        blocked,
    } = change;
    let tenants = settle_tenants(tables, tenants)?;
    Ok(Settled {
        tenants,
        pools,
        quotas,
        ready,
        plans,
        blocked,
        rooms,
        released,
    })
}

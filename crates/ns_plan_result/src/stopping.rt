//! The stops of a plan.

ghost use Rattle.std.specs.Prelude.{◌≡◌, false, Some};
ghost use Rattle.std.specs.FinMap.{get};
ghost use Rattle.std.specs.Option.{option_map_or};
ghost use Rattle.ns_types.specs.State.Rows.{Tenant, is_live};
ghost use Rattle.ns_types.specs.Working.Commit.{live_stops, stop_all};
ghost use Rattle.ns_change.specs.Changed.{Does};
ghost use Rattle.ns_tables.specs.World.{tenant_of, world_of};

use crate::committed::Committed;
use ns_change::{Change, set_desired};
use ns_tables::{Tables, TenantRows};
use ns_types::allocation::DesiredStatus;
use ns_types::key::EvalKey;
use ns_types::text::Text;
use std::alloc::AllocError;

pub(crate) fn is_live(tenant: &TenantRows, number: u64) -> bool
    ensures { result ≡ option_map_or is_live (get (tenant_of tenant.now).allocations number) false }
{
    match tenant.allocations.get(number) {
        Some(row) => row.is_live(),
        None => false,
    }
}

fn stop_in(
    tables: &Tables,
    change: &mut Change,
    namespace: &Text,
    tenant: &TenantRows,
    stops: &[u64],
) -> Result<(), AllocError>
    ensures { Does result tables.now change.old change.new
        (stop_all namespace.now (live_stops (tenant_of tenant.now) stops.now)) }
{
    for number in stops {
        if is_live(tenant, *number) {
            let key = EvalKey::new(namespace.clone()?, *number);
            set_desired(tables, change, &key, DesiredStatus::Stop)?;
        }
    }
    Ok(())
}

/// Stops each allocation that the plan stops and that is live in the tables. Each stop costs a look-up, and the copy of a row
/// if the allocation is live.
pub(crate) fn stop(committed: &Committed, change: &mut Change) -> Result<(), AllocError>
    ensures { let kept = committed.now.snapshot.now in
        let w = world_of committed.now.tables.now in
        (t : Tenant) → get w.tenants kept.namespace ≡ Some t →
        Does result committed.now.tables.now change.old change.new
        (stop_all kept.namespace (live_stops t committed.now.plan.now.stops)) }
{
    let namespace = &committed.snapshot.namespace;
    let Some(tenant) = committed.tables.tenants.get(namespace) else {
        return Ok(());
    };
    let stops = committed.plan.stops.as_slice();
    stop_in(committed.tables, change, namespace, tenant, stops)
}

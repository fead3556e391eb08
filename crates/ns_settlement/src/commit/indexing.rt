//! Makes the index of live allocations and the totals of quotas follow the changes of namespaces, and forgets the shown nodes
//! that change.

ghost use Rattle.std.specs.Prelude.{OnOk};
ghost use Rattle.ns_change.specs.Settled.{settled_tenant};
ghost use Rattle.ns_settlement.specs.Indexed.{ForgetsChanged, HasIndexRoom, IsRightFor, allocation_in};
ghost use Rattle.ns_settlement.specs.Owners.{changed_owners, owners};
ghost use Rattle.ns_live_index.specs.Index.{KeepsKeys};
ghost use Rattle.ns_live_index.specs.Naming.{AreKeptFor, KeepsNames};
ghost use Rattle.ns_live_index.specs.Shown.{KeepsShown, ShowsUnmoved};
ghost use Rattle.ns_tables.specs.World.{tenant_of};

use keyed::{NameTable, OwnerTable};
use ns_change::{PoolChange, SettledTenant};
use ns_live_index::Live;
use ns_tables::TenantRows;
use std::alloc::AllocError;

/// Makes room in the index for each changed allocation. Want of memory is the only error.
pub(crate) fn reserve_index(
    live: &mut Live,
    changes: &NameTable<SettledTenant>,
) -> Result<(), AllocError>
    ensures same { KeepsKeys live.old live.new }
    ensures shown { KeepsShown live.old live.new }
    ensures room { OnOk result (HasIndexRoom changes.now live.new) }
{
    for slot in changes.as_slice() {
        if let Some(change) = &slot.1 {
            live.reserve_all(&slot.0, &change.rows.allocations)?;
        }
    }
    Ok(())
}

/// If the index and the totals of quotas are right for the namespaces of the table, they are right afterwards for the
/// namespaces as changed. The index forgets each shown node on which a changed allocation is live, before or after. It takes
/// no memory.
pub(crate) fn commit_index(
    live: &mut Live,
    table: &OwnerTable<TenantRows>,
    changes: &NameTable<SettledTenant>,
)
    requires { HasIndexRoom changes.now live.old }
    ensures index { IsRightFor (owners tenant_of table.now) live.old →
        IsRightFor (changed_owners settled_tenant changes.now (owners tenant_of table.now))
        live.new }
    ensures shown { let before = owners tenant_of table.now in
        let after = changed_owners settled_tenant changes.now before in
        ShowsUnmoved (allocation_in before) (allocation_in after) live.old live.new }
    ensures quotas { AreKeptFor (owners tenant_of table.now) live.old →
        AreKeptFor (changed_owners settled_tenant changes.now (owners tenant_of table.now))
        live.new }
{
    for slot in changes.as_slice() {
        if let Some(change) = &slot.1 {
            if let Some(tenant) = table.get(&slot.0) {
                live.put_changes(
                    &slot.0,
                    tenant.namespace.quota.as_ref(),
                    &tenant.allocations,
                    &change.rows.allocations,
                );
            }
        }
    }
}

/// Forgets the shown nodes that change. It takes no memory.
pub(crate) fn forget_nodes(live: &mut Live, changes: &NameTable<PoolChange>)
    ensures keys { KeepsKeys live.old live.new }
    ensures shown { ForgetsChanged changes.now live.old live.new }
    ensures names { KeepsNames live.old live.new }
{
    for slot in changes.as_slice() {
        if let Some(change) = &slot.1 {
            live.forget_all(&slot.0, &change.nodes);
        }
    }
}

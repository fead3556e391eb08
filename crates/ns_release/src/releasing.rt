//! Which changed rows release something.

ghost use Rattle.std.specs.Prelude.{◌≡◌, [], false, option_copied};
ghost use Rattle.std.specs.Option.{option_map_or};
ghost use Rattle.ns_types.specs.State.Rows.{is_live};
ghost use Rattle.ns_release.specs.Released.{differs, ended_among, ended_list, ended_of, ended_one, gives_itself, relimits};
ghost use Rattle.ns_tables.specs.World.{pool_of, tenant_of, world_of};

use keyed::{NameSlot, NumberSlot};
use ns_change::TenantChange;
use ns_equality::{changes_limits, is_free, same_offer};
use ns_tables::{PoolRows, Tables, TenantRows};
use ns_types::allocation::Allocation;
use ns_types::node::Node;
use ns_types::records::Quota;
use ns_types::text::Text;

// ---- nodes that give room

/// Whether the node is new, was not free before, or had another offer.
fn differs(rows: &PoolRows, name: &Text, node: &Node) -> bool
    ensures { result ≡ differs (pool_of rows.now) name.now node.now }
{
    match rows.nodes.get(name) {
        Some(old) => !is_free(old) || !same_offer(&old.offer, &node.offer),
        None => true,
    }
}

/// Whether the node gives room itself: it is free, and it is new, was not free before, or had another offer.
pub fn gives_itself(rows: &PoolRows, name: &Text, node: &Node) -> bool
    ensures { result ≡ gives_itself (pool_of rows.now) name.now node.now }
{
    is_free(node) && differs(rows, name, node)
}

// ---- allocations that end

fn lives_on(row: Option<&Allocation>) -> bool
    ensures { result ≡ option_map_or is_live (option_copied row.entry) false }
{
    match row {
        Some(row) => row.is_live(),
        None => false,
    }
}

/// The allocation as it was before the step, if it was live then and is not live after it.
pub fn ended<'a>(tenant: &'a TenantRows, slot: &NumberSlot<Allocation>) -> Option<&'a Allocation>
    ensures { ended_one (tenant_of tenant.now) slot.now.0 slot.now.1
        ≡ ended_list (tenant_of tenant.now) (option_copied result) }
{
    let Some(old) = tenant.allocations.get(slot.0) else {
        return None;
    };
    let ends = old.is_live() & !lives_on(slot.1.as_ref());
    if ends { Some(old) } else { None }
}

/// The namespace of the slot with the slots of its changed allocations. None: there is no such namespace, or none of its
/// allocations changes, so that none ends.
pub fn changed_allocations<'a>(
    tables: &'a Tables,
    slot: &'a NameSlot<TenantChange>,
) -> Option<(&'a TenantRows, &'a [NumberSlot<Allocation>])>
    ensures { ended_of (world_of tables.now) slot.now.0 slot.now.1
        ≡ option_map_or (λ x. ended_among (tenant_of x.0.now) x.1.now) result [] }
{
    let Some(change) = &slot.1 else {
        return None;
    };
    let slots = change.allocations.as_slice();
    if slots.is_empty() {
        return None;
    }
    match tables.tenants.get(&slot.0) {
        Some(tenant) => Some((tenant, slots)),
        None => None,
    }
}

// ---- limits that change

/// Whether the record changes the limits of its quota. It does not if there is no such quota.
pub fn relimits(tables: &Tables, slot: &NameSlot<Quota>) -> bool
    ensures { result ≡ relimits (world_of tables.now) slot.now }
{
    let Some(quota) = &slot.1 else {
        return false;
    };
    match tables.quotas.get(&slot.0) {
        Some(old) => changes_limits(&old.quota, quota),
        None => false,
    }
}

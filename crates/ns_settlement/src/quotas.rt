//! The quotas that a step releases, found from its change.

ghost use Rattle.std.specs.Prelude.{◌≡◌, ◌++◌, flat_map, IfOk, OnOk};
ghost use Rattle.ns_release.specs.Released.{quota_relimited, quotas_ended, quotas_ended_in, released_quotas};
ghost use Rattle.ns_tables.specs.World.{tenant_of, world_of};

use keyed::{NameSlot, NumberSlot};
use ns_change::{Change, TenantChange};
use ns_release::{changed_allocations, ended, relimits};
use ns_tables::{Tables, TenantRows};
use ns_types::allocation::Allocation;
use ns_types::records::Quota;
use ns_types::rows::Rows;
use ns_types::text::Text;
use std::alloc::AllocError;

// ---- allocations that end

/// Adds the quota of the namespace, if it has one and the slot's allocation ended.
fn add_quota(
    quotas: &mut Rows<Text>,
    tenant: &TenantRows,
    slot: &NumberSlot<Allocation>,
) -> Result<(), AllocError>
    ensures { OnOk result (quotas.new ≡ quotas.old
        ++ quotas_ended (tenant_of tenant.now) slot.now) }
{
    if ended(tenant, slot).is_none() {
        return Ok(());
    }
    if let Some(quota) = &tenant.namespace.quota {
        quotas.push(quota.clone()?)?;
    }
    Ok(())
}

/// Adds the quota of the namespace, if it has one, for each allocation that ended.
fn add_quotas(
    quotas: &mut Rows<Text>,
    tenant: &TenantRows,
    slots: &[NumberSlot<Allocation>],
) -> Result<(), AllocError>
    ensures { OnOk result (quotas.new ≡ quotas.old
        ++ flat_map (quotas_ended (tenant_of tenant.now)) slots.now) }
{
    if tenant.namespace.quota.is_none() {
        return Ok(());
    }
    for slot in slots {
        add_quota(quotas, tenant, slot)?;
    }
    Ok(())
}

fn add_quotas_of(
    quotas: &mut Rows<Text>,
    tables: &Tables,
    slot: &NameSlot<TenantChange>,
) -> Result<(), AllocError>
    ensures { OnOk result (quotas.new ≡ quotas.old
        ++ quotas_ended_in (world_of tables.now) slot.now) }
{
    if let Some((tenant, slots)) = changed_allocations(tables, slot) {
        add_quotas(quotas, tenant, slots)?;
    }
    Ok(())
}

/// Adds the quotas of the namespaces that lost a live allocation.
fn add_all_left(
    quotas: &mut Rows<Text>,
    tables: &Tables,
    slots: &[NameSlot<TenantChange>],
) -> Result<(), AllocError>
    ensures { OnOk result (quotas.new ≡ quotas.old
        ++ flat_map (quotas_ended_in (world_of tables.now)) slots.now) }
{
    for slot in slots {
        add_quotas_of(quotas, tables, slot)?;
    }
    Ok(())
}

// ---- limits that change

fn add_relimited(
    quotas: &mut Rows<Text>,
    tables: &Tables,
    slot: &NameSlot<Quota>,
) -> Result<(), AllocError>
    ensures { OnOk result (quotas.new ≡ quotas.old
        ++ quota_relimited (world_of tables.now) slot.now) }
{
    if relimits(tables, slot) {
        quotas.push(slot.0.clone()?)?;
    }
    Ok(())
}

/// Adds the quotas whose limits change.
fn add_all_relimited(
    quotas: &mut Rows<Text>,
    tables: &Tables,
    slots: &[NameSlot<Quota>],
) -> Result<(), AllocError>
    ensures { OnOk result (quotas.new ≡ quotas.old
        ++ flat_map (quota_relimited (world_of tables.now)) slots.now) }
{
    for slot in slots {
        add_relimited(quotas, tables, slot)?;
    }
    Ok(())
}

// ---- both kinds

/// The quotas whose limits change, and those of all namespaces that lost a live allocation, in any order and perhaps twice.
/// Want of memory is the only error.
pub fn released_quotas(tables: &Tables, change: &Change) -> Result<Rows<Text>, AllocError>
    ensures { IfOk result (λ quotas. quotas ≡ released_quotas (world_of tables.now) change.now) }
{
    let mut quotas = Rows::new(tables.alloc);
    add_all_relimited(&mut quotas, tables, change.quotas.as_slice())?;
    add_all_left(&mut quotas, tables, change.tenants.as_slice())?;
    Ok(quotas)
}

//! Workers that become idle.

ghost use Rattle.std.specs.Prelude.{◌≡◌, OnOk};
ghost use Rattle.ns_types.specs.State.Rows.{Tenant};
ghost use Rattle.ns_types.specs.Working.Work.{without_worker};
ghost use Rattle.ns_change.specs.Changed.{DoesIn, changed_tenant};

use crate::change::{Change, TenantChange};
use crate::editing::open;
use ns_tables::Tables;
use ns_types::text::Text;
use std::alloc::AllocError;

/// Marks the worker as idle in the namespace's change.
fn remove_among(changed: &mut TenantChange, number: u64) -> Result<(), AllocError>
    ensures { OnOk result ((base : Tenant) → changed_tenant base changed.new
        ≡ without_worker number (changed_tenant base changed.old)) }
{
    changed.workers.reserve(number)?;
    drop(changed.workers.take(number));
    Ok(())
}

/// Makes the worker idle for the namespace. Want of memory is the only error.
pub fn remove_worker(
    tables: &Tables,
    change: &mut Change,
    namespace: &Text,
    number: u64,
) -> Result<(), AllocError>
    ensures { DoesIn namespace.now result tables.now change.old change.new (without_worker number) }
{
    let Some(mut tenant) = open(tables, change, namespace)? else {
        return Ok(());
    };
    let removed = remove_among(&mut tenant, number);
    change.tenants.set(namespace, tenant);
    removed
}

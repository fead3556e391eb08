//! Rows of jobs.

ghost use Rattle.std.specs.Prelude.{◌≡◌, OnOk};
ghost use Rattle.ns_types.specs.Settling.Making.{with_job};
ghost use Rattle.ns_types.specs.State.Rows.{Tenant};
ghost use Rattle.ns_change.specs.Changed.{DoesIn, changed_tenant, without_job};

use crate::change::{Change, TenantChange};
use crate::editing::open;
use crate::numbered::put_name;
use ns_tables::Tables;
use ns_types::job::Job;
use ns_types::text::Text;
use std::alloc::AllocError;

/// Puts the job's row into the namespace's change.
fn put_among(changed: &mut TenantChange, id: &Text, row: Job) -> Result<(), AllocError>
    ensures { OnOk result ((base : Tenant) → changed_tenant base changed.new
        ≡ with_job id.now row (changed_tenant base changed.old)) }
{
    put_name(&mut changed.jobs, id, row)
}

/// Marks the job as removed in the namespace's change.
fn remove_among(changed: &mut TenantChange, id: &Text) -> Result<(), AllocError>
    ensures { OnOk result ((base : Tenant) → changed_tenant base changed.new
        ≡ without_job id.now (changed_tenant base changed.old)) }
{
    changed.jobs.reserve(id)?;
    drop(changed.jobs.take(id));
    Ok(())
}

/// Puts a job into the namespace, if the namespace is there. Want of memory is the only error.
pub fn put_job(
    tables: &Tables,
    change: &mut Change,
    namespace: &Text,
    id: &Text,
    row: Job,
) -> Result<(), AllocError>
    ensures { DoesIn namespace.now result tables.now change.old change.new (with_job id.now row) }
{
    match open(tables, change, namespace) {
        Ok(Some(mut tenant)) => {
            let put = put_among(&mut tenant, id, row);
            change.tenants.set(namespace, tenant);
            put
        }
        Ok(None) => {
            drop(row);
            Ok(())
        }
        Err(error) => {
            drop(row);
            Err(error)
        }
    }
}

/// Removes a job from the namespace, if the namespace is there. Want of memory is the only error.
pub fn remove_job(
    tables: &Tables,
    change: &mut Change,
    namespace: &Text,
    id: &Text,
) -> Result<(), AllocError>
    ensures { DoesIn namespace.now result tables.now change.old change.new (without_job id.now) }
{
    let Some(mut tenant) = open(tables, change, namespace)? else {
        return Ok(());
    };
    let removed = remove_among(&mut tenant, id);
    change.tenants.set(namespace, tenant);
    removed
}

//! The deregistration of a job, which stops or removes it.

ghost use Rattle.std.specs.Prelude.{◌≡◌, ◌+◌, IfOk, Some, false, true};
ghost use Rattle.keyed.specs.Table.{row_at};
ghost use Rattle.ns_types.specs.declared.step.AskCommand.TheVariants as AskCommand;
ghost use Rattle.ns_types.specs.Asking.Asks.{deregister_job, stopped_job};
ghost use Rattle.ns_change.specs.Prepared.{Prepares};
ghost use Rattle.ns_jobs.specs.Counted.{IsNext, counted_ask};
ghost use Rattle.ns_tables.specs.World.{tenant_of, world_of};

use crate::looking;
use crate::making::{Numbers, next_numbers, put_and_make, remove_and_make};
use ns_change::{Change, Prepared, prepare};
use ns_tables::{Tables, TenantRows};
use ns_types::evaluation::Trigger;
use ns_types::job::Job;
use ns_types::refusal::Refusal;
use ns_types::reply::Content;
use ns_types::text::Text;
use std::alloc::AllocError;

/// The job as it is once it is stopped. One that was stopped before stays as it is.
fn stopped_job(index: u64, job: &Job) -> Result<Job, AllocError>
    ensures { IfOk result (λ stopped. stopped ≡ stopped_job index job.now) }
{
    let mut stopped = job.clone()?;
    if !job.stop {
        stopped.stop = true;
        stopped.modify_index = index;
    }
    Ok(stopped)
}

/// The reply and the change of a deregistration that stops the job.
fn stopped(
    tables: &Tables,
    namespace: &Text,
    tenant: &TenantRows,
    id: &Text,
    job: &Job,
    numbers: Numbers,
) -> Result<Prepared, Refusal>
    requires tenant { row_at tables.now.tenants namespace.now ≡ Some tenant.now }
    requires numbers { IsNext (tenant_of tenant.now) numbers }
    ensures { let t = tenant_of tenant.now in
        let done = deregister_job namespace.now id.now false (world_of tables.now) t job.now in
        Prepares done tables.now result }
{
    let job = stopped_job(numbers.index, job)?;
    let content = Content::Registered(numbers.evaluation, numbers.index, job.modify_index);
    let mut change = Change::new(tables.alloc);
    let made = put_and_make(
        tables,
        &mut change,
        namespace,
        id,
        job,
        Trigger::JobDeregister,
    );
    prepare(content, change, made)
}

/// The reply and the change of a deregistration that removes the job.
fn removed(
    tables: &Tables,
    namespace: &Text,
    tenant: &TenantRows,
    id: &Text,
    job: &Job,
    numbers: Numbers,
) -> Result<Prepared, Refusal>
    requires tenant { row_at tables.now.tenants namespace.now ≡ Some tenant.now }
    requires numbers { IsNext (tenant_of tenant.now) numbers }
    ensures { let t = tenant_of tenant.now in
        let done = deregister_job namespace.now id.now true (world_of tables.now) t job.now in
        Prepares done tables.now result }
{
    let content = Content::Registered(numbers.evaluation, numbers.index, numbers.index);
    let mut change = Change::new(tables.alloc);
    let document = job.document.get();
    let made = remove_and_make(
        tables,
        &mut change,
        namespace,
        id,
        document,
        Trigger::JobDeregister,
    );
    prepare(content, change, made)
}

/// The reply and the change of a deregistration that nothing refuses.
fn deregistered(
    tables: &Tables,
    namespace: &Text,
    tenant: &TenantRows,
    id: &Text,
    job: &Job,
    purge: bool,
    numbers: Numbers,
) -> Result<Prepared, Refusal>
    requires tenant { row_at tables.now.tenants namespace.now ≡ Some tenant.now }
    requires numbers { IsNext (tenant_of tenant.now) numbers }
    ensures { let t = tenant_of tenant.now in
        let done = deregister_job namespace.now id.now purge (world_of tables.now) t job.now in
        Prepares done tables.now result }
{
    if purge {
        removed(tables, namespace, tenant, id, job, numbers)
    } else {
        stopped(tables, namespace, tenant, id, job, numbers)
    }
}

/// Prepares the stop of a job, or with `purge` its removal, and a new evaluation of the job.
///
/// `NotFound`: there is no such namespace, or no such job in it. `Full`: the namespace's index or the number of its
/// evaluations is at its bound. In this order. Want of memory comes last.
pub fn deregister(
    tables: &Tables,
    namespace: &Text,
    id: &Text,
    purge: bool,
) -> Result<Prepared, Refusal>
    ensures { let command = AskCommand.Deregister id.now purge in
        Prepares (counted_ask namespace.now command (world_of tables.now)) tables.now result }
{
    let Some(tenant) = tables.tenants.get(namespace) else {
        return Err(Refusal::NotFound);
    };
    let Some(job) = looking::job(tenant, id) else {
        return Err(Refusal::NotFound);
    };
    let Some(numbers) = next_numbers(tenant) else {
        return Err(Refusal::Full);
    };
    deregistered(tables, namespace, tenant, id, job, purge, numbers)
}

//! Jobs as replies show them, with their statuses.

ghost use Rattle.std.specs.Prelude.{◌≡◌, ◌&&◌, false, IfOk};
ghost use Rattle.std.specs.List.{list_any};
ghost use Rattle.std.specs.Option.{option_map_or};
ghost use Rattle.keyed.specs.Table.{row_at};
ghost use Rattle.ns_types.specs.declared.step.AskCommand.TheVariants as AskCommand;
ghost use Rattle.ns_types.specs.Asking.Reads.{job_shown, job_status};
ghost use Rattle.ns_types.specs.State.Names.{same_name};
ghost use Rattle.ns_types.specs.State.Rows.{is_live};
ghost use Rattle.ns_types.specs.State.Tables.{any_row};
ghost use Rattle.ns_jobs.specs.Read.{SaysIn, jobs_shown};
ghost use Rattle.ns_tables.specs.World.{tenant_of};

use crate::looking::{self, begins};
use keyed::{NameSlot, NumberSlot, NumberTable};
use ns_equality::same_text;
use ns_tables::TenantRows;
use ns_types::allocation::Allocation;
use ns_types::job::Job;
use ns_types::refusal::Refusal;
use ns_types::reply::{Content, JobShown, JobStatus};
use ns_types::rows::Rows;
use ns_types::text::Text;
use std::alloc::{AllocError, Global};

fn is_live_at(allocations: &NumberTable<Allocation>, id: &Text, number: u64) -> bool
    ensures { result ≡ option_map_or (λ a. same_name id.now a.job && is_live a)
        (row_at allocations.now number) false }
{
    match allocations.get(number) {
        Some(allocation) => same_text(id, &allocation.job) && allocation.is_live(),
        None => false,
    }
}

fn any_live_at(allocations: &NumberTable<Allocation>, id: &Text, slots: &[NumberSlot<()>]) -> bool
    ensures { result ≡ list_any (λ slot. option_map_or (λ a. same_name id.now a.job && is_live a)
        (row_at allocations.now slot.0) false) slots.now }
{
    slots.iter().any(|slot| is_live_at(allocations, id, slot.0))
}

/// Whether the job has a live allocation. It looks up only the job's own allocations.
fn any_live_of(tenant: &TenantRows, id: &Text) -> bool
    ensures { result
        ≡ any_row (λ _ a. same_name id.now a.job && is_live a) (tenant_of tenant.now).allocations }
{
    match tenant.allocations.numbers_of(id) {
        Some(numbers) => any_live_at(tenant.allocations.rows(), id, numbers.as_slice()),
        None => false,
    }
}

/// Dead if it is stopped, running if it has a live allocation, otherwise pending.
fn job_status(tenant: &TenantRows, id: &Text, job: &Job) -> JobStatus
    ensures { result ≡ job_status (tenant_of tenant.now) id.now job.now }
{
    if job.stop {
        JobStatus::Dead
    } else if any_live_of(tenant, id) {
        JobStatus::Running
    } else {
        JobStatus::Pending
    }
}

fn job_shown(
    namespace: &Text,
    tenant: &TenantRows,
    id: &Text,
    job: &Job,
) -> Result<JobShown, AllocError>
    ensures { IfOk result
        (λ shown. shown ≡ job_shown namespace.now (tenant_of tenant.now) id.now job.now) }
{
    Ok(JobShown {
        namespace: namespace.clone()?,
        id: id.clone()?,
        row: job.clone()?,
        status: job_status(tenant, id, job),
    })
}

/// The jobs whose ids begin with the prefix, by id.
fn jobs_shown(
    alloc: Global,
    namespace: &Text,
    tenant: &TenantRows,
    prefix: &Text,
    slots: &[NameSlot<Job>],
) -> Result<Rows<JobShown>, AllocError>
    ensures { IfOk result (λ shown. shown
        ≡ jobs_shown namespace.now prefix.now (tenant_of tenant.now) slots.now) }
{
    let mut shown = Rows::new(alloc);
    let mut rest = slots;
    while let Some(((id, row), others)) = rest.split_first() {
        if let Some(job) = row {
            if begins(prefix, id) {
                shown.push(job_shown(namespace, tenant, id, job)?)?;
            }
        }
        rest = others;
    }
    Ok(shown)
}

/// The reply to the read of a job. `NotFound`: the namespace has no such job.
pub(crate) fn read_job(namespace: &Text, tenant: &TenantRows, id: &Text) -> Result<Content, Refusal>
    ensures { SaysIn namespace.now (AskCommand.ReadJob id.now) tenant.now result }
{
    let Some(job) = looking::job(tenant, id) else {
        return Err(Refusal::NotFound);
    };
    let shown = job_shown(namespace, tenant, id, job)?;
    Ok(Content::Job(shown))
}

/// The reply to the list of jobs.
pub(crate) fn list_jobs(
    alloc: Global,
    namespace: &Text,
    tenant: &TenantRows,
    prefix: &Text,
) -> Result<Content, Refusal>
    ensures { SaysIn namespace.now (AskCommand.ListJobs prefix.now) tenant.now result }
{
    let jobs = jobs_shown(alloc, namespace, tenant, prefix, tenant.jobs.as_slice())?;
    Ok(Content::Jobs(jobs))
}
